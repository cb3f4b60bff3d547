//! Messages, letters, notes and events: what the actors of the machine tell each other, and what is
//! printed of a run.
//!
//! Below stand the names (`og_base`), lines and accesses (`og_line`) and the laws of runs
//! (`og_runs`), whose messages, letters and events are used here with this machine's [`Kind`] and
//! [`Note`]. Above stand the tables: directory, requester, owner and mover take a message and put
//! letters into an [`Outbox`].
//!
//! The table kept here is that of the 38 kinds of messages, after the protocol of the SGI Origin
//! (J. Laudon and D. Lenoski, "The SGI Origin: A ccNUMA Highly Scalable Server", ISCA 1997), with
//! the fields of each and the [`Key`] that it takes up while it is in flight. The messages of pages,
//! frames and poison are this machine's own.
//!
//! Nothing here takes memory. A [`Msg`] has less than 256 bytes.
#![tactic(auto)]

ghost use Rattle.std.specs.Prelude.{◌≡◌, if◌then◌else◌};
ghost use Rattle.og_msg.specs.Kinds.{block_of, line_of, is_from_mover as comes_from_mover};
ghost use Rattle.og_msg.specs.Keys.{charge_of};

use og_base::{ActorId, Block, Cause, Frame, Hot, NodeId, Reason, VPage};
use og_line::{Access, Line};

mod outbox;

pub use outbox::{MOST_LETTERS, Outbox};

/// What a message says. Each kind goes one way: between a node and a block's home, between two
/// nodes, between the mover and a home, or between the mover and a node.
#[derive(Clone, Copy, PartialEq)]
pub enum Kind {
    /// A node asks a block's home for a copy to read.
    Read { block: Block },
    /// A node asks the home for the only copy.
    ReadEx { block: Block },
    /// A node that has a shared copy asks the home to make it the only one.
    Upgrade { block: Block },
    /// A node sends the home a dirty line that it threw out.
    WriteBack { block: Block, line: Line },
    /// The home grants a shared copy.
    SharedReply { block: Block, line: Line },
    /// The home sends its line to a requester while it asks the owner, whose own may be newer.
    SpecReply { block: Block, line: Line },
    /// The home grants the only copy, with its line, after `acks` acknowledgements.
    ExclusiveReply { block: Block, line: Line, acks: u8 },
    /// The home makes a shared copy the only one, after `acks` acknowledgements.
    UpgradeReply { block: Block, acks: u8 },
    /// A negative acknowledgement: the request is refused for now.
    Nak { block: Block },
    /// The home refuses a request, since the block's page has moved away.
    PoisonError { block: Block },
    /// The home acknowledges a write-back.
    WbAck { block: Block },
    /// The home acknowledges a write-back that crossed an intervention.
    WbBusyAck { block: Block },
    /// The home asks the owner to share the block with a requester.
    InterveneShared { block: Block, requester: ActorId },
    /// The home asks the owner to give the block to a requester.
    InterveneEx { block: Block, requester: ActorId },
    /// The home asks the owner to give the block back.
    IntervenePoison { block: Block },
    /// The home asks a sharer to drop its copy and to tell the requester.
    Invalidate { block: Block, requester: ActorId },
    /// A sharer tells the requester that its copy is gone.
    InvalAck { block: Block },
    /// The owner, or the home for it, sends the requester a line to share.
    SharedResponse { block: Block, line: Line },
    /// The owner, or the home for it, gives the requester the only copy.
    ExclusiveResponse { block: Block, line: Line },
    /// The owner tells the requester that the home's line is good.
    OwnerAck { block: Block },
    /// A revision: the owner shares the block, and its line is newer than the home's.
    SharingWriteBack { block: Block, line: Line },
    /// A revision: the owner gives the block to the mover, and its line is newer than the home's.
    PoisonBack { block: Block, line: Line },
    /// A revision: the owner shares the block, and the home's line is good.
    SharingTransfer { block: Block },
    /// A revision: the owner has given the block away.
    DirtyTransfer { block: Block },
    /// A revision: the owner gives the block to the mover, and the home's line is good.
    PoisonClean { block: Block },
    /// The mover poisons a block and asks for its line.
    PoisonRead { block: Block },
    /// The home gives the mover a poisoned block's line, after `acks` acknowledgements.
    PoisonReply { block: Block, line: Line, acks: u8 },
    /// The mover writes a line into a page's new frame.
    CopyIn { block: Block, line: Line },
    /// The home has written a line of a page's new frame.
    CopyDone { block: Block },
    /// The mover asks the home to make a poisoned frame's blocks usable again.
    CleanFrame { frame: Frame },
    /// A frame's blocks are usable again.
    FrameClean { frame: Frame },
    /// The home notices that a node uses a frame much more than the home does.
    Hot(Hot),
    /// The mover has judged a notice: the home may send another of that frame.
    Rearm { frame: Frame },
    /// A node asks where a page is.
    Walk { page: VPage },
    /// The mover tells where a page is.
    Walked { page: VPage, frame: Frame },
    /// The page is on its way: the node has to ask again.
    WalkRetry { page: VPage },
    /// The mover asks a node to forget a frame.
    DropFrame { frame: Frame },
    /// A node has forgotten a frame.
    Dropped { frame: Frame },
}

impl Kind {
    /// The block that the message names, if its kind names one.
    pub fn block(&self) -> Option<Block>
        ensures { result ≡ block_of self.now }
    {
        match *self {
            Kind::Read { block }
            | Kind::ReadEx { block }
            | Kind::Upgrade { block }
            | Kind::WriteBack { block, .. }
            | Kind::SharedReply { block, .. }
            | Kind::SpecReply { block, .. }
            | Kind::ExclusiveReply { block, .. }
            | Kind::UpgradeReply { block, .. }
            | Kind::Nak { block }
            | Kind::PoisonError { block }
            | Kind::WbAck { block }
            | Kind::WbBusyAck { block }
            | Kind::InterveneShared { block, .. }
            | Kind::InterveneEx { block, .. }
            | Kind::IntervenePoison { block }
            | Kind::Invalidate { block, .. }
            | Kind::InvalAck { block }
            | Kind::SharedResponse { block, .. }
            | Kind::ExclusiveResponse { block, .. }
            | Kind::OwnerAck { block }
            | Kind::SharingWriteBack { block, .. }
            | Kind::PoisonBack { block, .. }
            | Kind::SharingTransfer { block }
            | Kind::DirtyTransfer { block }
            | Kind::PoisonClean { block }
            | Kind::PoisonRead { block }
            | Kind::PoisonReply { block, .. }
            | Kind::CopyIn { block, .. }
            | Kind::CopyDone { block } => Some(block),
            Kind::CleanFrame { .. }
            | Kind::FrameClean { .. }
            | Kind::Hot(_)
            | Kind::Rearm { .. }
            | Kind::Walk { .. }
            | Kind::Walked { .. }
            | Kind::WalkRetry { .. }
            | Kind::DropFrame { .. }
            | Kind::Dropped { .. } => None,
        }
    }

    /// The line that the message carries, if its kind carries one.
    pub fn line(&self) -> Option<Line>
        ensures { result ≡ line_of self.now }
    {
        match *self {
            Kind::WriteBack { line, .. }
            | Kind::SharedReply { line, .. }
            | Kind::SpecReply { line, .. }
            | Kind::ExclusiveReply { line, .. }
            | Kind::SharedResponse { line, .. }
            | Kind::ExclusiveResponse { line, .. }
            | Kind::SharingWriteBack { line, .. }
            | Kind::PoisonBack { line, .. }
            | Kind::PoisonReply { line, .. }
            | Kind::CopyIn { line, .. } => Some(line),
            _ => None,
        }
    }

    /// Whether the message is one that the mover sends. Every other kind is sent by nodes.
    pub fn is_from_mover(&self) -> bool
        ensures { result ≡ comes_from_mover self.now }
    {
        matches!(
            self,
            Kind::PoisonRead { .. }
                | Kind::CopyIn { .. }
                | Kind::CleanFrame { .. }
                | Kind::Rearm { .. }
                | Kind::Walked { .. }
                | Kind::WalkRetry { .. }
                | Kind::DropFrame { .. }
        )
    }
}

/// The body of an unused place of an outbox.
impl Default for Kind {
    fn default() -> Kind {
        Kind::Walk { page: VPage(0) }
    }
}

/// A message before it is sent.
pub type Letter = og_runs::Letter<Kind>;

/// A message in flight.
pub type Msg = og_runs::Msg<Kind>;

/// What is noted of an event.
#[derive(Clone, Copy, PartialEq, Eq, Debug)]
pub enum Note {
    /// A hart's access was completed, with its answer.
    Access {
        access: Access,
        answer: u64,
    },
    /// A hart emitted a value.
    Emit(u64),
    /// A hart ended by the exit call.
    Exit(u64),
    /// A hart was stopped at the instruction at `pc`.
    Trap {
        cause: Cause,
        pc: u64,
    },
    /// A hart has no instructions left.
    Spent,
    /// The mover begins to move a page.
    Begin {
        page: VPage,
        old: Frame,
        new: Frame,
    },
    /// The mover doesn't move a page, though this node asked for it.
    No {
        reason: Reason,
        frame: Frame,
        node: NodeId,
    },
    /// A page was moved.
    Moved {
        page: VPage,
        old: Frame,
        new: Frame,
    },
    /// A frame is free again.
    Freed(Frame),
}

/// One event of a run.
pub type Event = og_runs::Event<Note>;

/// What a message takes up while it is in flight. No two messages in flight have the same key, so
/// there are never more of them than keys.
#[derive(Clone, Copy, PartialEq, Eq, Debug)]
pub enum Key {
    /// An actor's request, or the answer to it.
    Ask(ActorId),
    /// A node's write-back, or its acknowledgement.
    Back(NodeId),
    /// An intervention for a block, or the revision that answers it.
    Busy(Block),
    /// An intervention that meets its block in the receiver's victim slot.
    Left(NodeId),
    /// The invalidation of a node's copy for a requester, or its acknowledgement.
    Inv(ActorId, NodeId),
    /// A response to a node.
    Resp(NodeId),
    /// A notice of a frame, or its judgement.
    Note(Frame),
    /// A node's walk, or the answer to it.
    Walk(NodeId),
    /// A node that is to forget a frame, or has done so.
    Drop(NodeId),
}

/// The key that a message takes up. `victim` says whether the receiver's victim slot holds the
/// message's block.
pub fn charge(msg: &Msg, victim: bool) -> Key
    ensures { result ≡ charge_of msg.now victim }
{
    match msg.kind {
        Kind::Read { .. }
        | Kind::ReadEx { .. }
        | Kind::Upgrade { .. }
        | Kind::PoisonRead { .. }
        | Kind::CopyIn { .. }
        | Kind::CleanFrame { .. } => Key::Ask(msg.id.sender),
        Kind::SharedReply { .. }
        | Kind::SpecReply { .. }
        | Kind::ExclusiveReply { .. }
        | Kind::UpgradeReply { .. }
        | Kind::Nak { .. }
        | Kind::PoisonError { .. }
        | Kind::PoisonReply { .. }
        | Kind::CopyDone { .. }
        | Kind::FrameClean { .. } => Key::Ask(msg.to),
        Kind::WriteBack { .. } => Key::Back(msg.id.sender),
        Kind::WbAck { .. } | Kind::WbBusyAck { .. } => Key::Back(msg.to),
        Kind::InterveneShared { block, .. }
        | Kind::InterveneEx { block, .. }
        | Kind::IntervenePoison { block } => intervention_key(block, msg.to, victim),
        Kind::Invalidate { requester, .. } => Key::Inv(requester, msg.to),
        Kind::InvalAck { .. } => Key::Inv(msg.to, msg.id.sender),
        Kind::SharedResponse { .. } | Kind::ExclusiveResponse { .. } | Kind::OwnerAck { .. } =>
            Key::Resp(msg.to),
        Kind::SharingWriteBack { block, .. }
        | Kind::PoisonBack { block, .. }
        | Kind::SharingTransfer { block }
        | Kind::DirtyTransfer { block }
        | Kind::PoisonClean { block } => Key::Busy(block),
        Kind::Hot(hot) => Key::Note(hot.frame),
        Kind::Rearm { frame } => Key::Note(frame),
        Kind::Walk { .. } => Key::Walk(msg.id.sender),
        Kind::Walked { .. } | Kind::WalkRetry { .. } => Key::Walk(msg.to),
        Kind::DropFrame { .. } => Key::Drop(msg.to),
        Kind::Dropped { .. } => Key::Drop(msg.id.sender),
    }
}

/// An intervention that finds its block in the victim slot is answered by nobody: it takes up no
/// place of the block's, but one of the receiver's.
fn intervention_key(block: Block, receiver: NodeId, victim: bool) -> Key
    ensures { result ≡ (if victim then Key.Left receiver else Key.Busy block) }
{
    if victim {
        Key::Left(receiver)
    } else {
        Key::Busy(block)
    }
}

#[cfg(test)]
mod tests;
