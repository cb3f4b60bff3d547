//! Whatever a processor does of itself is rows of the theory, and so is what it does with a message that is no part of its request.
//!
//! Below stand the processor's definitions (`og_processor`, `og_node`), what is seen of one with numbers for frames and pages
//! (`og_seen`), and the rows of a node of the machine of functions (`og_relate`, `og_relate_node`). The tables kept here are those of
//! acts, of interventions and invalidations, of the victim slot, and of walks and drops: where the machine shows a world of the
//! theory, and a message is in flight to a processor, its own tables have a row for it, and after it the machine shows a world to
//! which events of the theory lead. What is noted of an access is the access that the theory makes.
//!
//! There is no code to run: each function is a law, its contract, with an empty body.
#![tactic(auto)]

ghost use Rattle.og_refine_node.specs.Laws.{ProcessorsAct, ProcessorsTake};

/// An act that may be made is made by rows of the theory, or by none.
pub fn processors_act()
    ensures { ProcessorsAct }
{}

/// A message in flight to a processor, no part of its request, has its row there, and is taken by rows of the theory.
pub fn processors_take()
    ensures { ProcessorsTake }
{}
