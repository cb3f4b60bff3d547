//! Every event of the machine is rows of the theory: the relation that this is about, and what a row owes to keep it.
//!
//! Below stand the rows (`og_whole`, with `og_block` and `og_pages` under it) and `og_slots`; above stand the crates that go
//! through the tables, event by event. The machine is seen here as functions: `specs/Data` says what a node's processor and home,
//! the mover and a message are, of frames and pages by number; `specs/Places` in which place of the theory each message stands;
//! `specs/Sim` when the machine shows a world; `specs/Owes` what each row owes of messages. The relation has both directions: what
//! is in flight or kept by its receiver stands in the world, and what stands there is in flight or kept.
//!
//! There is no code to run: each function is a law, its contract, with an empty body. `L` is the type of a line, and `H` that of
//! a hart; no row looks inside one.
#![tactic(auto)]

ghost use Rattle.og_relate.specs.Laws.{StartIsShown, ReadsAreServed, WriteBacksAreServed, CopiesAreServed, CleaningsAreServed, RequestsSettle, AcknowledgementsAreTaken, MissesAsk, NoticesAreRefused, HoldersAreTold, AccessesAreFlat};

/// The machine at its start shows the theory's start.
pub fn start_is_shown<L, H>()
    ensures { StartIsShown L H }
{}

/// A home that takes a read, a write-back, a copy or a cleaning goes on by rows of the theory, in every state that shows a world;
/// and the table has a row for each write-back in flight.
pub fn homes_serve<L, H>()
    ensures reads { ReadsAreServed L H }
    ensures write_backs { WriteBacksAreServed L H }
    ensures copies { CopiesAreServed L H }
    ensures cleanings { CleaningsAreServed L H }
{}

/// A request that has received a part goes on by rows of the theory, to its end where the part was the last one; an acknowledgement
/// in flight finds its request; and an act that misses throws out and asks by rows of the theory.
pub fn nodes_go_on<L, H>()
    ensures settles { RequestsSettle L H }
    ensures acknowledged { AcknowledgementsAreTaken L H }
    ensures misses { MissesAsk L H }
{}

/// The mover's refusal of a notice, with the reclaim that it may begin, and its word to all holders of a frame are rows of the
/// theory.
pub fn mover_goes_on<L, H>()
    ensures refuses { NoticesAreRefused L H }
    ensures tells { HoldersAreTold L H }
{}

/// The accesses of an event are a run of one flat memory.
pub fn accesses_are_flat<L, H>()
    ensures { AccessesAreFlat L H }
{}
