//! What a look-up answers after each call that changes a TLB: for the page of the call, and for every other page.
//!
//! The layers above see a TLB through these laws alone. None of them names a slot.

ghost use Rattle.og_tlb.specs.Laws.{NewIsEmpty, FillIsSeen, PageDropIsSeen, FrameDropIsSeen};

/// A new TLB has no page.
pub fn new_is_empty()
    ensures { NewIsEmpty }
{}

/// A fill leaves the page with its frame. The page that it wrote over is gone, and every other page is as it was.
pub fn fill_is_seen()
    ensures { FillIsSeen }
{}

/// A page that was dropped isn't there, and every other page is as it was.
pub fn page_drop_is_seen()
    ensures { PageDropIsSeen }
{}

/// No page is in a frame that was dropped, and a page in another frame is as it was.
pub fn frame_drop_is_seen()
    ensures { FrameDropIsSeen }
{}
