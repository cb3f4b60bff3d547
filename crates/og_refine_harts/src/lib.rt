//! The harts of a machine, and a flat run of what they note.
//!
//! Below stand the processor's definitions (`og_processor`) and the machine's (`og_machine`), with what a run of harts and a run of one
//! flat memory are. This crate says that the tables of a processor do to its hart what they note; and that harts which run so, and
//! whose accesses have the answers of one flat memory, make a flat run. That they have those answers is for the crates above to
//! show. Nothing of caches, messages or the theory is needed here.
//!
//! There is no code to run: each function is a law, its contract, with an empty body.
#![tactic(auto)]

ghost use Rattle.og_refine_harts.specs.Laws.{HartsMove, HartRunsAreFlat};

/// An act that may be made finishes an instruction that needs nothing, completes an access, emits, stops, or leaves the hart; a take
/// completes an access, or leaves it; each with its note.
pub fn harts_move()
    ensures { HartsMove }
{}

/// Harts whose accesses have the answers of one flat memory make a flat run.
pub fn harts_run()
    ensures { HartRunsAreFlat }
{}
