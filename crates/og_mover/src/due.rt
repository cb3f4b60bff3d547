//! Whether the mover's table has a row for a message: what the job waits for.

ghost use Rattle.std.specs.Prelude.{◌≡◌, ◌&&◌};
ghost use Rattle.og_mover.specs.Table.{is_low as has_low_numbers, is_low_line as line_is_low, is_known, when_moving, when_reclaiming, awaits_reply, awaits_ack, awaits_refusal, awaits_copy, awaits_drop, awaits_cleaning, has_ack_left, has_kind_row, has_table_row};

use crate::{Clearing, Job, Mover, Phase, Received, Route};
use og_base::{Block, Frame, Hot, NodeId};
use og_line::Line;
use og_msg::{Kind, Msg};

/// Numbers of messages and stores are low where they are below this.
const LOW: u64 = 1 << 55;

impl Mover {
    /// Whether the table has a row for a message, and the message's numbers are low.
    #[tactic(auto, unfolding(crate::specs::Table::has_table_row))]
    pub fn has_row(&self, msg: &Msg) -> bool
        ensures { result ≡ (has_table_row self.now msg.now && has_low_numbers msg.now) }
    {
        let served = msg.id.sender < self.pager.nodes()
            && self.has_kind_row(msg.id.sender, &msg.kind);
        served && is_low(msg)
    }

    /// Whether the table has a row for a message of this kind from a node.
    fn has_kind_row(&self, sender: NodeId, kind: &Kind) -> bool
        ensures { result ≡ has_kind_row self.now sender kind.now }
    {
        match *kind {
            Kind::Walk { page } => self.pager.frame_of(page).is_some(),
            Kind::Hot(hot) => self.is_known(hot),
            Kind::PoisonReply { block, acks, .. } => self.awaits_reply(block, acks),
            Kind::InvalAck { block } => self.awaits_ack(block),
            Kind::Nak { block } => self.awaits_refusal(block),
            Kind::CopyDone { block } => self.awaits_copy(block),
            Kind::Dropped { frame } => self.awaits_drop(sender, frame),
            Kind::FrameClean { frame } => self.awaits_cleaning(frame),
            _ => false,
        }
    }

    /// Whether a notice names a node of the machine and a frame that has a page.
    fn is_known(&self, hot: Hot) -> bool
        ensures { result ≡ is_known self.now.pages hot }
    {
        if !self.pager.has_frame(hot.frame) {
            return false;
        }
        hot.node < self.pager.nodes() && self.pager.page_of(hot.frame).is_some()
    }

    fn awaits_reply(&self, block: Block, acks: u8) -> bool
        ensures { result ≡ when_moving (awaits_reply block acks) self.now.job }
    {
        match self.job {
            Job::Move(route, phase) => reply_is_due(route, phase, block, acks),
            _ => false,
        }
    }

    fn awaits_ack(&self, block: Block) -> bool
        ensures { result ≡ when_moving (awaits_ack self.now.pages.nodes block) self.now.job }
    {
        match self.job {
            Job::Move(route, phase) => ack_is_due(route, phase, block, self.pager.nodes()),
            _ => false,
        }
    }

    fn awaits_refusal(&self, block: Block) -> bool
        ensures { result ≡ when_moving (awaits_refusal block) self.now.job }
    {
        match self.job {
            Job::Move(route, phase) => refusal_is_due(route, phase, block),
            _ => false,
        }
    }

    fn awaits_copy(&self, block: Block) -> bool
        ensures { result ≡ when_moving (awaits_copy block) self.now.job }
    {
        match self.job {
            Job::Move(route, phase) => copy_is_due(route, phase, block),
            _ => false,
        }
    }

    fn awaits_drop(&self, sender: NodeId, dropped: Frame) -> bool
        ensures { result ≡ when_reclaiming (awaits_drop self.now.pages sender dropped) self.now.job }
    {
        match self.current() {
            Job::Reclaim(frame, step) => match step {
                Clearing::Gather => dropped == frame && self.pager.holders(frame).has(sender),
                _ => false,
            },
            _ => false,
        }
    }

    fn awaits_cleaning(&self, cleaned: Frame) -> bool
        ensures { result ≡ when_reclaiming (awaits_cleaning cleaned) self.now.job }
    {
        match self.job {
            Job::Reclaim(frame, step) => cleaning_is_due(frame, step, cleaned),
            _ => false,
        }
    }
}

/// Whether a line has seen few stores, if there is one.
fn is_low_line(line: Option<Line>) -> bool
    ensures { result ≡ line_is_low line }
{
    match line {
        Some(line) => line.stores < LOW,
        None => true,
    }
}

/// Whether a message's clock and number and, if it has a line, the line's number of stores are below 2^55.
#[tactic(auto, unfolding(crate::specs::Table::is_low))]
fn is_low(msg: &Msg) -> bool
    ensures { result ≡ has_low_numbers msg.now }
{
    let line = is_low_line(msg.kind.line());
    msg.stamp.clock < LOW && (msg.id.seq < LOW && line)
}

/// Whether the phase waits for a block's reply that names so many acknowledgements.
fn reply_is_due(route: Route, phase: Phase, block: Block, acks: u8) -> bool
    ensures { result ≡ awaits_reply block acks route phase }
{
    match phase {
        Phase::Collect(number, received) => {
            let frame = route.old;
            block == Block { frame, number } && received.reply.is_none() && received.acks <= acks
        }
        _ => false,
    }
}

/// Whether the phase waits for one more acknowledgement of a block.
fn ack_is_due(route: Route, phase: Phase, block: Block, nodes: u8) -> bool
    ensures { result ≡ awaits_ack nodes block route phase }
{
    match phase {
        Phase::Collect(number, received) => {
            let frame = route.old;
            block == Block { frame, number } && has_ack_left(received, nodes)
        }
        _ => false,
    }
}

/// Whether fewer acknowledgements are there than the reply names or, before the reply, than there are nodes.
fn has_ack_left(received: Received, nodes: u8) -> bool
    ensures { result ≡ has_ack_left nodes received.acks received.reply }
{
    match received.reply {
        Some(reply) => received.acks < reply.acks,
        None => received.acks < nodes,
    }
}

/// Whether the phase waits for a block that may be refused.
fn refusal_is_due(route: Route, phase: Phase, block: Block) -> bool
    ensures { result ≡ awaits_refusal block route phase }
{
    match phase {
        Phase::Collect(number, _) => {
            let frame = route.old;
            block == Block { frame, number }
        }
        _ => false,
    }
}

/// Whether the phase waits until a block is written.
fn copy_is_due(route: Route, phase: Phase, block: Block) -> bool
    ensures { result ≡ awaits_copy block route phase }
{
    match phase {
        Phase::Wait(number) => {
            let frame = route.new;
            block == Block { frame, number }
        }
        _ => false,
    }
}

/// Whether the reclaim of a frame waits until the frame is clean.
fn cleaning_is_due(frame: Frame, step: Clearing, cleaned: Frame) -> bool
    ensures { result ≡ awaits_cleaning cleaned frame step }
{
    match step {
        Clearing::Cleaning => cleaned == frame,
        _ => false,
    }
}
