//! One block of memory that is kept coherent by directory, caches and messages, over every interleaving.
//!
//! The protocol is that of the SGI Origin 2000 (J. Laudon and D. Lenoski, "The SGI Origin: A ccNUMA Highly Scalable
//! Server", ISCA 1997), with this project's own rows: speculative replies, interventions, write-backs that race with
//! them, upgrades, and the poison by which a page is moved. `specs/State` is the block with all its messages,
//! `specs/Rows` the three tables, `specs/Invariant` what holds after each row, `specs/Laws` what follows in every run.
//!
//! Below stands `og_slots`; above stand the pages that move (`og_pages`, `og_whole`). There is no code to run: each
//! function is a law, its contract, with an empty body. `L` is the type of a line; no row looks inside one.
#![tactic(auto)]

ghost use Rattle.og_block.specs.Laws.{AccessesAreFlat, WriterIsAlone, HeldIsFlat, ChargesDiffer, MessagesBalance, MessagesFindReady, MessagesAreServed, RacesStand, InvariantStarts, InvariantKept, InvariantHolds, RowsLeaveOthers, RowsSendIntoEmpty, OthersStay, SharingStays, RepliesBounded, WaitersMove, AllAccessesAreFlat, AllAreHeld};

/// Every load, and every atomic's and conditional's old line, is that of one memory cell, and the cell
/// is what the writes in their order make: hits, fills from the home, and fills by the owner's answer.
pub fn accesses_are_flat<L>()
    ensures { AccessesAreFlat L }
{}

/// A node with a copy that it may write is the only node with a copy.
pub fn writer_is_alone<L>()
    ensures { WriterIsAlone L }
{}

/// The line of the block is the cell's, wherever it stands: in a dirty copy, in a message on its way,
/// or else in the home's memory.
pub fn held_is_flat<L>()
    ensures { HeldIsFlat L }
{}

/// The invariant holds at the start, and each row keeps it.
pub fn invariant_is_kept<L>()
    ensures starts { InvariantStarts L }
    ensures kept { InvariantKept L }
    ensures holds { InvariantHolds L }
{}

/// A row leaves each message that stands but those that it takes: it writes no other slot, and sends only into empty ones
/// or where it took. So what is said of all messages in flight is said once for all rows.
pub fn messages_stay<L>()
    ensures left { RowsLeaveOthers L }
    ensures sent { RowsSendIntoEmpty L }
    ensures stay { OthersStay L }
    ensures sharing { SharingStays L }
{}

/// A reply names fewer acknowledgements than there are actors. The invariant alone doesn't say it.
pub fn replies_are_bounded<L>()
    ensures { RepliesBounded L }
{}

/// Whoever waits for the block, waits for a message that can be taken, and not only for another that waits.
pub fn something_moves<L>()
    ensures { WaitersMove L }
{}

/// Each message that stands meets a row that takes it, or waits for the other parts of its request, or
/// is an intervention that is held while its node has a request out.
pub fn messages_are_served<L>()
    ensures { MessagesAreServed L }
{}

/// What a message finds at its receiver is what its row asks for.
pub fn messages_find_ready<L>()
    ensures { MessagesFindReady L }
{}

/// Speculative replies and the owner's responses, acknowledgements and those that are due, taken
/// victim slots and what they wait for, interventions and those who are asked: each side equals the other.
pub fn messages_balance<L>()
    ensures { MessagesBalance L }
{}

/// A block that was given away is on its way to its requester, or there, or has come back; one that came
/// back early is nobody's; an invalidation is for a node that waits for it; an upgrade of a sharer has its copy.
pub fn races_stand<L>()
    ensures { RacesStand L }
{}

/// No two messages of the block are charged to one key, and there are at most five for each actor and one more.
pub fn charges_differ<L>()
    ensures { ChargesDiffer L }
{}

/// The same of many blocks, where a row touches one.
pub fn blocks_are_apart<L>()
    ensures flat { AllAccessesAreFlat L }
    ensures held { AllAreHeld L }
{}
