//! A processor stays what it is between events: it names blocks, frames and pages that there are.
//!
//! Below stand the processor's definitions (`og_processor`, `og_node`), and what a processor of a machine is between events (`og_seen`).
//! Above stands the machine of all actors, each of whose processors is such a one after any event. Nothing of the theory is needed
//! here: the tables themselves see to it.
//!
//! There is no code to run: each function is a law, its contract, with an empty body.
#![tactic(auto)]

ghost use Rattle.og_refine_stays.specs.Laws.{ProcessorsStay};

/// A new processor is one; and after an act that may be made, and after a message that has a row, it is one again.
pub fn processors_stay()
    ensures { ProcessorsStay }
{}
