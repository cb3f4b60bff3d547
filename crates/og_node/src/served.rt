//! Which messages a node can serve: those that have a row.

ghost use Rattle.std.specs.Prelude.{◌≡◌, ◌↔◌, ◌&&◌, IsTrue};
ghost use Rattle.og_node.specs.Kept.{node_of};
ghost use Rattle.og_node.specs.Node.{HasRow};
ghost use Rattle.og_node.specs.Rows.{is_frame as is_frame_of, is_block as is_block_of, is_from_its_sender as is_from_sender, names_known as are_known, has_processor_row as has_row_of};

use crate::{Node, is_for_home};
use og_base::{Block, Frame, PAGE_BLOCKS};
use og_home::is_from_its_sender;
use og_msg::{Kind, Msg};

impl Node {
    /// Whether the message has a row at this node: its sender is one that sends its kind, it names actors, frames and
    /// blocks that there are, and the home or the processor, whichever serves its kind, has a row for it.
    pub fn has_row(&self, msg: &Msg) -> bool
        ensures { IsTrue result ↔ HasRow (node_of self.now) msg.now }
    {
        if is_for_home(&msg.kind) {
            self.home.has_row(msg)
        } else {
            self.has_processor_row(msg)
        }
    }

    /// Whether a message that the processor serves has a row.
    fn has_processor_row(&self, msg: &Msg) -> bool
        ensures { result ≡ has_row_of (node_of self.now) msg.now }
    {
        self.is_sent_rightly(msg)
            && self.is_block(msg.kind.block())
            && self.names_known(&msg.kind)
            && self.processor.has_row(&msg.kind)
    }

    /// Whether the sender is one that sends the message's kind.
    fn is_sent_rightly(&self, msg: &Msg) -> bool
        ensures { result ≡ is_from_sender (node_of self.now).home.rules.nodes msg.now }
    {
        is_from_its_sender(msg, self.home.mover())
    }

    /// Whether the machine has the frame.
    fn is_frame(&self, frame: Frame) -> bool
        ensures { result ≡ is_frame_of (node_of self.now).home frame }
    {
        frame.home < self.home.mover() && frame.index < self.home.frames()
    }

    /// Whether the machine has the block, where there is one.
    fn is_block(&self, block: Option<Block>) -> bool
        ensures { result ≡ is_block_of (node_of self.now).home block }
    {
        match block {
            None => true,
            Some(block) => self.is_frame(block.frame) && block.number < PAGE_BLOCKS,
        }
    }

    /// Whether the machine has the actor or the frame that a message names besides its block.
    fn names_known(&self, kind: &Kind) -> bool
        ensures { result ≡ are_known (node_of self.now).home kind.now }
    {
        match *kind {
            Kind::InterveneShared { requester, .. } => requester < self.home.mover(),
            Kind::InterveneEx { requester, .. } => requester < self.home.mover(),
            Kind::Invalidate { requester, .. } => requester <= self.home.mover(),
            Kind::Walked { frame, .. } => self.is_frame(frame),
            Kind::DropFrame { frame } => self.is_frame(frame),
            _ => true,
        }
    }
}
