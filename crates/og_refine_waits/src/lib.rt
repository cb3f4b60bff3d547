//! No event leaves an actor with all that it waits for.
//!
//! Below stand the processor's and the mover's definitions (`og_processor`, `og_mover`). Above stands the machine of all actors: each of
//! its processors and its mover is patient after any event, so whoever waits there waits for a message in flight (`og_shown`). Nothing of
//! the theory is needed here: the tables themselves see to it.
//!
//! There is no code to run: each function is a law, its contract, with an empty body.
#![tactic(auto)]

ghost use Rattle.og_refine_waits.specs.Laws.{ProcessorsArePatient, MoverIsPatient};

/// A new processor is patient; and after an act that may be made, and after any message, it is patient again.
pub fn processors_are_patient()
    ensures { ProcessorsArePatient }
{}

/// The mover is patient at the start; and after each step of its own, and after a message that has a row, it is patient again.
pub fn mover_is_patient()
    ensures { MoverIsPatient }
{}
