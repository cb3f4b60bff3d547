//! What holds of each machine that shows a world of the theory.
//!
//! Below stands the relation (`og_relate`); above will stand the machine of nodes and mover, of which each state shows a world.
//! `specs/Shown` says where a machine has the line of a block, and what it means that nothing names a frame; `specs/Waits` who waits,
//! and for what.
//!
//! There is no code to run: each function is a law, its contract, with an empty body.
#![tactic(auto)]

ghost use Rattle.og_shown.specs.Waits.{RequestsWait, SlotsWait, WalksWait, CollectsWait, CopiesWait, CleaningsWait, GathersWait};
ghost use Rattle.og_shown.specs.Laws.{WritersAreAlone, CopiesAreInPlace, LinesAreHeld, FreeFramesAreUnnamed, MessagesHaveRoom};

/// A node with a copy that it may write is the only node with a copy; and a copy is of a block that some page has in its place.
pub fn one_writer<L, H>()
    ensures alone { WritersAreAlone L H }
    ensures in_place { CopiesAreInPlace L H }
{}

/// The line of each block of each page is the flat memory's, found in a dirty copy, in a message that carries it, in a request that
/// has received it, and else at the block's home: before, during and after every move.
pub fn lines_are_held<L, H>()
    ensures { LinesAreHeld L H }
{}

/// A free frame is named by no copy, no translation, no request and no holder.
pub fn free_frames_are_unnamed<L, H>()
    ensures { FreeFramesAreUnnamed L H }
{}

/// There are at most as many messages in flight as keys.
pub fn messages_have_room<L, H>()
    ensures { MessagesHaveRoom L H }
{}

/// Whoever waits, waits for a message that is in flight: a node with an outstanding request, with a block in its victim slot or with
/// a walk, and the mover that collects a block. What was received by a node that is patient isn't what it waits for. That the message
/// is taken isn't claimed.
pub fn waiters_have_messages<L, H>()
    ensures requests { RequestsWait L H }
    ensures slots { SlotsWait L H }
    ensures walks { WalksWait L H }
    ensures collects { CollectsWait L H }
{}

/// The mover that waits for a copy or for a cleaning waits for a message between it and a home, in flight. Of a frame that is gathered
/// each holder that is left has the request to drop it: the request or its answer is in flight, or the node keeps the request.
pub fn mover_has_messages<L, H>()
    ensures copies { CopiesWait L H }
    ensures cleanings { CleaningsWait L H }
    ensures gathers { GathersWait L H }
{}
