//! The mover: each act of its own, and each message that it takes, is rows of the theory.
//!
//! Below stands the relation (`og_relate`), which has the refusal of a notice with the reclaim that may follow, and the word to all
//! holders; beside it stand the crates for the homes and the nodes. `specs/Steps` says what the mover does, each function as one row
//! of its table, or two; `specs/Laws` what is proved of them: where the machine shows a world, it shows one again afterwards, and a
//! message in flight finds the job in the phase that waits for it, for that block or frame.
//!
//! There is no code to run: each function is a law, its contract, with an empty body.
#![tactic(auto)]

ghost use Rattle.og_relate_mover.specs.Laws.{MovesBegin, BlocksAreAskedFor, RepliesAreCollected, AcknowledgementsAreCollected, RefusalsAreTaken, LinesAreCopied, CopiesAreTaken, PagesArePublished, WalksAreServed, DropsAreGathered, CleaningsGoOut, FramesAreFreed, NoticesAreTurnedAway};

/// A move goes on block by block: the mover asks, and each part of the answer finds it in the phase that waits for it.
pub fn blocks_are_collected<L, H>()
    ensures begins { MovesBegin L H }
    ensures asks { BlocksAreAskedFor L H }
    ensures replies { RepliesAreCollected L H }
    ensures acknowledged { AcknowledgementsAreCollected L H }
    ensures refused { RefusalsAreTaken L H }
{}

/// The lines go into the new frame, one after another, and then the page is published.
pub fn pages_are_moved<L, H>()
    ensures copies { LinesAreCopied L H }
    ensures copied { CopiesAreTaken L H }
    ensures published { PagesArePublished L H }
{}

/// A frame's holders drop it, its home cleans it, and it is free.
pub fn frames_are_reclaimed<L, H>()
    ensures gathers { DropsAreGathered L H }
    ensures cleans { CleaningsGoOut L H }
    ensures frees { FramesAreFreed L H }
{}

/// A walk is answered, or refused.
pub fn walks_are_served<L, H>()
    ensures { WalksAreServed L H }
{}

/// A notice may be refused whatever the mover does, and the home's counters are armed once more.
pub fn notices_are_turned_away<L, H>()
    ensures { NoticesAreTurnedAway L H }
{}
