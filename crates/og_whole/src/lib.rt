//! Pages that move, over coherent blocks: the page layer and every block of every frame together, in every interleaving.
//!
//! Below stand `og_pages` (pages on frames, the mover, walks, drops and notices) and `og_block` (the coherence of one block);
//! `og_slots` counts messages. The page layer knows nothing of messages inside a block, and a block nothing of pages.
//! `specs/Kind` says what the page layer sees of a block and of each of its rows, `specs/Events` what happens and when, and `specs/Link` the invariant. An event is a row of the page layer, or a row
//! of one block with the page layer's row that goes with it; one event of the machine is a short list of these. Everything
//! is for any type of lines, and any number of nodes, pages, frames and blocks in a page.
//!
//! The functions have no code: each is the place of laws, which hold over every list of events from a start in which each
//! page has a frame of its own. No law says that an event comes.
#![tactic(auto)]

ghost use Rattle.og_pages.specs.Claims.{FreeUnnamed, TargetUnnamed, OnlyHolders, Served, MoverWaits};
ghost use Rattle.og_whole.specs.Link.{Invariant};
ghost use Rattle.og_whole.specs.HomeEntry.{EntriesMet, PageRowsKeepEntries, CleaningKeepsOthers, BlockRowsKeepBlank};
ghost use Rattle.og_whole.specs.Messages.{KeysApart, AtMostKeys};
ghost use Rattle.og_whole.specs.Claims.{InEachWorld, InEachPages, Starts, IsKept, GoesOn, AccessesFlat, MemoryFollows, LinesHeld, StoresLand, WriterAlone, CopiesPlaced, FreeClear, PoisonServed, BlocksServed, BlocksReady, BlocksRace, RepliesBounded, WaitersMove, CollectMoves, EventsAnswered, PagesSend, SharingStays};
ghost use Rattle.og_whole.specs.Example.{Happens};
ghost use Rattle.og_whole.specs.Races.{RacesHappen};

/// The invariant of the whole holds at the start, each event that may happen keeps it, and so it holds in each world.
/// Events that go on from a world that events lead to are such a run.
pub fn invariant_is_kept<L>()
    ensures starts { Starts L }
    ensures kept { IsKept L }
    ensures holds { InEachWorld L Invariant }
    ensures goes_on { GoesOn L }
{}

/// The accesses of all nodes, in their order, are a run of one flat memory of pages. Before, during and after every move the
/// line of each page's block is the flat memory's, found in the block where it lives: in a dirty copy, in a message, or at
/// the home. A store is made where the page's block lives, and never to a block that was collected: so none is lost.
pub fn memory_is_flat<L>()
    ensures accesses { AccessesFlat L }
    ensures follows { MemoryFollows L }
    ensures answered { InEachWorld L EventsAnswered }
    ensures held { InEachWorld L LinesHeld }
    ensures stores { InEachWorld L StoresLand }
{}

/// There is no other copy beside one that may be written, and a node has a copy of a block of a frame only where that frame
/// is the place of some page's block.
pub fn one_writer<L>()
    ensures alone { InEachWorld L WriterAlone }
    ensures placed { InEachWorld L CopiesPlaced }
{}

/// A free frame is named by no TLB entry, copy, request, walk answer, victim slot, holder, drop request, notice, job or
/// message, and nothing of its blocks is at any actor or in flight. The target of a move is named by the move alone.
pub fn free_frames_are_unnamed<L>()
    ensures free { InEachPages L FreeUnnamed }
    ensures clear { InEachWorld L FreeClear }
    ensures target { InEachPages L TargetUnnamed }
    ensures holders { InEachPages L OnlyHolders }
{}

/// Each message of the mover's table, and of the nodes' and homes' part in it, meets a row that may be taken, and a
/// poisoning meets no poisoned block. Each message of a block meets an event that takes it, or waits for the other parts of its
/// request, or is an intervention that is held while its node has a request out.
pub fn messages_meet_rows<L>()
    ensures served { InEachPages L Served }
    ensures poison { InEachWorld L PoisonServed }
    ensures blocks { InEachWorld L BlocksServed }
{}

/// The entry that a home has is the block's, but in a frame that is blank (free, a target, or cleaned): there each block is
/// Unowned. A cleaning finds every block of its frame poisoned and leaves it Unowned, and a copy comes in at an Unowned block.
/// No row of the page layer alone changes an entry at a home but a cleaning, which leaves those of other frames, and no row of a block makes a frame blank or ends
/// its being so.
pub fn home_entries_follow<L>()
    ensures met { InEachWorld L EntriesMet }
    ensures page_rows { PageRowsKeepEntries L }
    ensures cleaning { CleaningKeepsOthers L }
    ensures block_rows { BlockRowsKeepBlank L }
{}

/// What the laws of one block say, holds of each block in each world: what messages find, what balances, how the races stand,
/// that a reply names fewer acknowledgements than there are actors. What the page layer sends meets an empty place, and no
/// event changes what a bit of the sharers stands for.
pub fn blocks_stand<L>()
    ensures ready { InEachWorld L BlocksReady }
    ensures races { InEachWorld L BlocksRace }
    ensures bounded { InEachWorld L RepliesBounded }
    ensures sent { InEachWorld L PagesSend }
    ensures sharing { SharingStays L }
{}

/// A mover without an act waits for something that is there: in Collect for a message of the block, that can be taken now.
/// So does each node that has a request or a victim. That it comes is not claimed.
pub fn mover_waits_for_something<L>()
    ensures waits { InEachPages L MoverWaits }
    ensures collects { InEachWorld L CollectMoves }
    ensures nodes { InEachWorld L WaitersMove }
{}

/// Any two messages in flight have different keys, so there are at most as many as keys. The key of an intervention is by the
/// receiver's victim slot in that very state.
pub fn keys_are_distinct<L>()
    ensures apart { KeysApart L }
    ensures room { AtMostKeys L }
{}

/// The laws are not empty: a run with a store, a move, a poison error, a drop, a freed frame and a move back into it happens.
pub fn example_happens()
    ensures happens { Happens }
{}

/// Nor are those on races, and on groups of sharers: a run of two nodes in one group with an intervention that is answered with
/// a dirty line, an upgrade that is answered with the line, and a write-back that crosses an intervention happens.
pub fn races_happen()
    ensures happens { RacesHappen }
{}
