//! Whatever a processor receives for its request is rows of the theory.
//!
//! Below stand the requester's table (`og_request`, `og_processor`, `og_node`), what is seen of a processor with numbers for frames and
//! pages (`og_seen`), and the rows of a node of the machine of functions (`og_relate`, `og_relate_node`). The table kept here is the
//! requester's: where the machine shows a world of the theory, and a reply, a response or an acknowledgement is in flight to a
//! processor, it has a request for which the table has this part, and after it the machine shows a world to which events of the theory
//! lead. What is noted of an access is the access that the theory makes.
//!
//! There is no code to run: each function is a law, its contract, with an empty body.
#![tactic(auto)]

ghost use Rattle.og_refine_requester.specs.Laws.{PartsAreTaken};

/// A part in flight to a processor has its row there, and is taken by rows of the theory.
pub fn parts_are_taken()
    ensures { PartsAreTaken }
{}
