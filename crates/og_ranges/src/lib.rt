//! The numbers of a run's text are in the ranges of the text's grammar.
//!
//! Below stand the machine as it is defined (`og_machine`), the laws of every machine that a run leads to (`og_refine`), and the
//! grammar of texts (`og_trace`), whose reader reads the text of a run where its numbers are in their ranges. Above stands the law that
//! a printed text is replayed as itself (`og_again`). What harts note is in its ranges since it is a flat run, in which registers, the
//! pc and the bytes of memory keep theirs (`proofs/Harts`, `Lines`, `Flats`); what the mover notes, by its tables (`proofs/Movers`); and
//! a message's number, since no more were sent than there were events and messages in flight (`proofs/Sends`).
//!
//! There is no code to run: each function is a law, its contract, with an empty body.
#![tactic(auto)]

ghost use Rattle.og_ranges.specs.Laws.{RunsAreInRange};

/// The numbers of each line of a run's text are in their ranges.
pub fn runs_are_in_range()
    ensures { RunsAreInRange }
{}
