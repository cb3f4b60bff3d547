//! What a flat run says of its entries, in the hart's own words.
//!
//! Below stands the machine as it is defined (`og_machine`), with the definition of a flat run. `specs/Laws` reads that definition back: an
//! entry is of a hart that there is and that isn't stopped, and is what this hart needs next; and whatever an event notes of a hart stands among the
//! notes of harts, in its place.
//!
//! There is no code to run: each function is a law, its contract, with an empty body.
#![tactic(auto)]

ghost use Rattle.og_flat_run.specs.Laws.{HartNotesStand, FlatRunsNoteNeeds};

/// Whatever an event notes of a hart stands among the notes of harts, and no note changes its place.
pub fn hart_notes_stand()
    ensures { HartNotesStand }
{}

/// Each entry of a flat run is of a hart that there is and that isn't stopped, and is what this hart needs once it has finished what needs
/// nothing.
pub fn flat_runs_note_needs()
    ensures { FlatRunsNoteNeeds }
{}
