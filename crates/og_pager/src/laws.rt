//! What the look-ups answer of every page table, and after each call that changes one: for the page, the frame and the node of
//! the call, and for every other.
//!
//! The layers above see a page table through these laws alone. None of them names a list.

ghost use Rattle.og_pager.specs.Laws.{LayoutSuits, FirstIsSeen, PagesAreSeen, FoundFrames, QuarantineIsSeen, WalkIsSeen, DropIsSeen, BeginIsSeen, SettleIsSeen, ReclaimIsSeen};

/// A program's layout suits the settings of a machine with enough frames.
pub fn layout_suits()
    ensures { LayoutSuits }
{}

/// In a new page table each page is in its first frame, and no move is under way.
pub fn first_is_seen()
    ensures { FirstIsSeen }
{}

/// A page's frame has that page and no other, and a frame that is free or in quarantine has none.
pub fn pages_are_seen()
    ensures { PagesAreSeen }
{}

/// The free frame and the oldest one in quarantine that are found at a node are such frames of that node.
pub fn found_frames()
    ensures { FoundFrames }
{}

/// Frames in quarantine stand in the order in which they were left, and the oldest one of a node was left first.
pub fn quarantine_is_seen()
    ensures { QuarantineIsSeen }
{}

/// A walk that was told a frame makes the node a holder of it, and changes nothing else.
pub fn walk_is_seen()
    ensures { WalkIsSeen }
{}

/// A node that has dropped a frame is none of its holders, and nothing else changes.
pub fn drop_is_seen()
    ensures { DropIsSeen }
{}

/// A move that has begun has taken its new frame, and changes nothing else.
pub fn begin_is_seen()
    ensures { BeginIsSeen }
{}

/// A move that was published leaves its page in the new frame and the old frame in quarantine, and changes nothing else.
pub fn settle_is_seen()
    ensures { SettleIsSeen }
{}

/// A reclaimed frame is free, and nothing else changes.
pub fn reclaim_is_seen()
    ensures { ReclaimIsSeen }
{}
