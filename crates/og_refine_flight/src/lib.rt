//! In which order the messages in flight are listed is nothing that a world of the theory shows.
//!
//! Below stand runs of actors (`og_runs`), whose messages in flight stand by receiver, sender and number, and the relation between a
//! machine of functions and a world of the theory (`og_relate`), whose rows take the first message and append what they send. This
//! crate says that the relation holds in any order, so that a take of any message is one of the first, and a message that is sent may
//! stand anywhere.
//!
//! There is no code to run: each function is a law, its contract, with an empty body. `L` is the type of a line, `H` that of a hart,
//! and `K` that of a message's kind.
#![tactic(auto)]

ghost use Rattle.og_refine_flight.specs.Laws.{FoundComesFirst, SentAreAppended};

/// A world that is shown is shown with any message that is found first, and with all that is sent at its place.
pub fn order_is_free<L, H, K>()
    ensures found { FoundComesFirst L H K }
    ensures sent { SentAreAppended L H K }
{}
