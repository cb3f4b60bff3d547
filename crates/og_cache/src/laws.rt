//! What a look-up answers after each call that changes a cache: for the block of the call, and for every other block.
//!
//! The layers above see a cache through these laws alone. None of them names a set or a way.

ghost use Rattle.og_cache.specs.Laws.{NewIsEmpty, FillIsSeen, ModeIsSeen, LineIsSeen, TakeOutIsSeen, ReserveIsSeen};

/// A new cache has no block.
pub fn new_is_empty()
    ensures { NewIsEmpty }
{}

/// A fill leaves the block with its mode and line, and every other block as it was.
pub fn fill_is_seen()
    ensures { FillIsSeen }
{}

/// A change of mode leaves the block's line, and every other block as it was.
pub fn mode_is_seen()
    ensures { ModeIsSeen }
{}

/// A change of the line leaves the block's mode, and every other block as it was.
pub fn line_is_seen()
    ensures { LineIsSeen }
{}

/// A block that was taken out isn't there, and every other block is as it was.
pub fn take_out_is_seen()
    ensures { TakeOutIsSeen }
{}

/// A reserve for a block that isn't there leaves room for it. What it throws out was there and is gone, and every other block
/// is as it was.
pub fn reserve_is_seen()
    ensures { ReserveIsSeen }
{}
