//! A node's processor: each act of its own, and each message that it takes, is rows of the theory.
//!
//! Below stands the relation (`og_relate`) with the ends of requests; beside it the crates for the homes and the mover. `specs/Steps`
//! says what a processor does, each function as one row of its tables, or a few; `specs/Laws` what is proved of them: where the
//! machine shows a world, it shows one again afterwards, the accesses are made that the function says, and a message in flight
//! finds what its row asks for.
//!
//! There is no code to run: each function is a law, its contract, with an empty body.
#![tactic(auto)]

ghost use Rattle.og_relate_node.specs.Laws.{HartsGoOn, ReadsHit, WritesHit, WalksGoOut, RepliesAreTaken, ResponsesAreTaken, InterventionsWait, InterventionsAreAnswered, SlotsMeetInterventions, SlotsAreFreed, SlotsAreBusy, InvalidationsAreTaken, WalksAreAnswered, WalksAreOver, DropsAreTaken};

/// What a node does of itself: it goes on, reads and writes on its copies, and asks the mover where a page is.
pub fn acts<L, H>()
    ensures goes_on { HartsGoOn L H }
    ensures reads { ReadsHit L H }
    ensures writes { WritesHit L H }
    ensures walks { WalksGoOut L H }
{}

/// Each part of a request finds it, and what the parts make of it then are rows of the theory.
pub fn requests_end<L, H>()
    ensures replies { RepliesAreTaken L H }
    ensures responses { ResponsesAreTaken L H }
{}

/// An intervention is held while the node's own request for the block is outstanding; else the victim slot ignores it, or the
/// copy answers it.
pub fn interventions_are_served<L, H>()
    ensures waits { InterventionsWait L H }
    ensures answered { InterventionsAreAnswered L H }
    ensures ignored { SlotsMeetInterventions L H }
{}

/// The acknowledgements of a write-back find the slot that waits for them.
pub fn slots_are_freed<L, H>()
    ensures freed { SlotsAreFreed L H }
    ensures busy { SlotsAreBusy L H }
{}

/// An invalidation, the answers to a walk and a drop request are taken.
pub fn others_are_taken<L, H>()
    ensures invalidated { InvalidationsAreTaken L H }
    ensures walked { WalksAreAnswered L H }
    ensures over { WalksAreOver L H }
    ensures dropped { DropsAreTaken L H }
{}
