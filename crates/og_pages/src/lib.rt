//! Pages on frames, and the mover that moves them, as guarded rows over columns.
//!
//! Below this crate stands nothing; beside it the rows of one block; above it `og_whole` joins both. A block is seen here
//! only by its phase, by who may have a copy of it, and by the line that an access to it answers. `specs/State` has the
//! columns, `specs/Rows` the mover's table, the nodes' part in it (walks, TLB, drop requests) and the homes' part (notices,
//! copies, cleaning), `specs/Invariant` the invariant, part by part. The protocol is after the page migration of Verghese,
//! Devine, Gupta and Rosenblum (ASPLOS 1996) over a directory that can poison a block, as Laudon and Lenoski have it
//! (ISCA 1997). Everything is for any type of lines, and any number of nodes, pages, frames and blocks in a page.
//!
//! The functions have no code: each is the place of laws, which hold of each state that rows lead to from a start in which
//! each page has a frame of its own.
#![tactic(auto)]

ghost use Rattle.og_pages.specs.Claims.{InEachState, Starts, IsKept, GoesOn, AccessesAnswered, LinesHeld, CopiesPlaced, FramesApart, FreeUnnamed, TargetUnnamed, OnlyHolders, Served, MoverWaits};
ghost use Rattle.og_pages.specs.Pools.{FreeListed, QuarantineListed, BeginKeeps, PublishKeeps, ReclaimKeeps, RolesStay};
ghost use Rattle.og_pages.specs.TlbSlots.{FillIsRows, ForgetIsRow, DropIsRow};

/// The invariant holds at the start, and each row keeps it. A run that goes on from a state that rows lead to is such a run.
pub fn invariant_is_kept<L>()
    ensures starts { Starts L }
    ensures kept { IsKept L }
    ensures goes_on { GoesOn L }
{}

/// Before, during and after every move, the line of each page's block, found where the block lives, is the flat memory's.
/// So each access answers the flat memory of pages, and no store is lost.
pub fn lines_are_held<L>()
    ensures held { InEachState L LinesHeld }
    ensures answered { AccessesAnswered L }
    ensures placed { InEachState L CopiesPlaced }
    ensures apart { InEachState L FramesApart }
{}

/// A free frame is named by no TLB entry, copy, request, walk answer, victim slot, holder, drop request, notice, job or
/// message, and the target of a move by the move alone. Whoever names a frame is a holder of it.
pub fn free_frames_are_unnamed<L>()
    ensures free { InEachState L FreeUnnamed }
    ensures target { InEachState L TargetUnnamed }
    ensures holders { InEachState L OnlyHolders }
{}

/// Each message of the mover's table, and of the nodes' and homes' part in it, meets a row that may be taken.
pub fn messages_meet_rows<L>()
    ensures served { InEachState L Served }
{}

/// A mover without an act waits for something that is there. That it comes is not claimed.
pub fn mover_waits_for_something<L>()
    ensures waits { InEachState L MoverWaits }
{}

/// The mover's lists of free frames and of frames in quarantine, at the homes that there are, follow the frames' roles
/// through every row.
pub fn pools_follow_roles<L>()
    ensures listed { FreeListed }
    ensures quarantined { QuarantineListed }
    ensures begun { BeginKeeps L }
    ensures published { PublishKeeps L }
    ensures reclaimed { ReclaimKeeps L }
    ensures others { RolesStay L }
{}

/// A fill of a TLB slot is the rows that forget the page that stood there and fill the walk's page; the dropping of a page's
/// slot is the row that forgets the page, and that of all slots with a frame is what the answer to a drop request does.
pub fn tlb_slots_follow_entries<L>()
    ensures filled { FillIsRows L }
    ensures forgotten { ForgetIsRow L }
    ensures dropped { DropIsRow L }
{}
