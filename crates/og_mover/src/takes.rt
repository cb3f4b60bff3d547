//! What the mover makes of a message that has a row.

ghost use Rattle.std.specs.Prelude.{◌≡◌, ◌+◌, ◌<◌, IsTrue, nat_eq, if◌then◌else◌, Some, None, []};
ghost use Rattle.std.specs.FinSet as set;
ghost use Rattle.og_pager.specs.PageTable.{IsNode, holders_of};
ghost use Rattle.og_mover.specs.Table.{in_phase, when_moving, awaits_ack, has_ack_left, collected, dropped_row, freed_row, reply_taken, ack_taken, refusal_taken, copied_taken, dropped_taken, freed_taken, take_of, has_table_row};
ghost use Rattle.og_mover.specs.Sound.{IsRoute, IsPhase, IsCleared};

use crate::{Clearing, Job, Mover, Phase, Received, Reply, Route};
use og_base::{Block, Frame, NodeId, PAGE_BLOCKS};
use og_line::Line;
use og_msg::{Kind, Msg, Note, Outbox};

impl Mover {
    /// What the mover makes of a message.
    #[tactic(auto, unfolding(crate::specs::Table::take_of, crate::specs::Table::has_table_row))]
    pub fn take(&mut self, msg: &Msg, out: &mut Outbox) -> Option<Note>
        requires row { IsTrue (has_table_row self.old msg.now) }
        requires empty { out.old ≡ [] }
        ensures mover { self.new ≡ (take_of self.old msg.now).mover }
        ensures letters { out.new ≡ (take_of self.old msg.now).letters }
        ensures note { result ≡ (take_of self.old msg.now).note }
    {
        let sender = msg.id.sender;
        match msg.kind {
            Kind::Walk { page } => {
                self.walk(sender, page, out);
                None
            }
            Kind::Hot(hot) => self.judge(hot, out),
            Kind::PoisonReply { line, acks, .. } => {
                self.receive(line, acks);
                None
            }
            Kind::InvalAck { block } => {
                self.acknowledge(block);
                None
            }
            Kind::Nak { .. } => {
                self.ask_again();
                None
            }
            Kind::CopyDone { .. } => {
                self.copied();
                None
            }
            Kind::Dropped { .. } => {
                self.drop_holder(sender);
                None
            }
            Kind::FrameClean { .. } => self.free(),
            _ => None,
        }
    }

    /// The reply with a block's line has come.
    fn receive(&mut self, line: Line, acks: u8)
        ensures mover { self.new ≡ (reply_taken self.old line acks self.old.job).mover }
        ensures letters { (reply_taken self.old line acks self.old.job).letters ≡ [] }
        ensures note { (reply_taken self.old line acks self.old.job).note ≡ None }
    {
        match self.current() {
            Job::Move(route, phase) => match phase {
                Phase::Collect(number, received) => {
                    let reply = Some(Reply { line, acks });
                    let acks = received.acks;
                    self.collect(route, number, Received { reply, acks });
                }
                _ => {}
            },
            _ => {}
        }
    }

    /// So much of a block has come: when all is there it is collected.
    fn collect(&mut self, route: Route, number: u8, received: Received)
        requires route { IsRoute self.old.pages self.old.settings route }
        requires number { number < 32 }
        ensures { self.new ≡ collected (in_phase self.old route (Phase.Collect number received)) }
    {
        match received.reply {
            Some(reply) if received.acks == reply.acks => self.go_on(
                route,
                Phase::Hold(number, reply.line),
            ),
            _ => self.go_on(route, Phase::Collect(number, received)),
        }
    }

    /// A sharer has acknowledged that its copy is gone.
    fn acknowledge(&mut self, block: Block)
        requires { IsTrue (when_moving (awaits_ack self.old.pages.nodes block) self.old.job) }
        ensures mover { self.new ≡ (ack_taken self.old self.old.job).mover }
        ensures letters { (ack_taken self.old self.old.job).letters ≡ [] }
        ensures note { (ack_taken self.old self.old.job).note ≡ None }
    {
        match self.current() {
            Job::Move(route, phase) => match phase {
                Phase::Collect(number, received) => {
                    let more = one_more(received, self.pager.nodes());
                    self.collect(route, number, more);
                }
                _ => {}
            },
            _ => {}
        }
    }

    /// The home was busy: the block is asked for once more.
    fn ask_again(&mut self)
        ensures mover { self.new ≡ (refusal_taken self.old self.old.job).mover }
        ensures letters { (refusal_taken self.old self.old.job).letters ≡ [] }
        ensures note { (refusal_taken self.old self.old.job).note ≡ None }
    {
        match self.current() {
            Job::Move(route, phase) => match phase {
                Phase::Collect(number, _) => self.go_on(route, Phase::Ask(number)),
                _ => {}
            },
            _ => {}
        }
    }

    /// A block was written into the new frame.
    fn copied(&mut self)
        ensures mover { self.new ≡ (copied_taken self.old self.old.job).mover }
        ensures letters { (copied_taken self.old self.old.job).letters ≡ [] }
        ensures note { (copied_taken self.old self.old.job).note ≡ None }
    {
        match self.current() {
            Job::Move(route, phase) => match phase {
                Phase::Wait(number) => self.go_on(route, phase_after(number)),
                _ => {}
            },
            _ => {}
        }
    }

    /// A node has dropped the frame that is being reclaimed.
    fn drop_holder(&mut self, sender: NodeId)
        requires { IsNode self.old.pages sender }
        ensures mover { self.new ≡ (dropped_taken self.old sender self.old.job).mover }
        ensures letters { (dropped_taken self.old sender self.old.job).letters ≡ [] }
        ensures note { (dropped_taken self.old sender self.old.job).note ≡ None }
    {
        match self.current() {
            Job::Reclaim(frame, step) => match step {
                Clearing::Gather => {
                    self.drop_from(frame, sender);
                    self.end_gathering(frame);
                }
                _ => {}
            },
            _ => {}
        }
    }

    /// A node isn't a holder of the frame any more.
    fn drop_from(&mut self, frame: Frame, sender: NodeId)
        requires job { self.old.job ≡ Job.Reclaim frame Clearing.Gather }
        requires frame { IsCleared self.old.pages frame }
        requires node { IsNode self.old.pages sender }
        ensures mover { self.new ≡ (dropped_row self.old sender frame).mover }
        ensures frame { IsCleared self.new.pages frame }
    {
        self.pager.dropped(frame, sender);
    }

    /// The frame that is being reclaimed is clean.
    fn free(&mut self) -> Option<Note>
        ensures mover { self.new ≡ (freed_taken self.old self.old.job).mover }
        ensures letters { (freed_taken self.old self.old.job).letters ≡ [] }
        ensures note { result ≡ (freed_taken self.old self.old.job).note }
    {
        match self.current() {
            Job::Reclaim(frame, step) => match step {
                Clearing::Cleaning => Some(self.free_frame(frame)),
                _ => None,
            },
            _ => None,
        }
    }

    /// The frame is free.
    fn free_frame(&mut self, frame: Frame) -> Note
        requires frame { IsCleared self.old.pages frame }
        requires unheld { set.len (holders_of self.old.pages frame) ≡ 0 }
        ensures mover { self.new ≡ (freed_row self.old frame).mover }
        ensures note { Some result ≡ (freed_row self.old frame).note }
    {
        self.pager.reclaim(frame);
        self.job = Job::Idle;
        Note::Freed(frame)
    }
}

/// The phase after a block was written: the next block is asked for, and after the last one the page is published.
fn phase_after(number: u8) -> Phase
    requires { number < 32 }
    ensures phase { result ≡ (if nat_eq number 31 then Phase.Publish else Phase.Ask (number + 1)) }
    ensures inside { IsPhase result }
{
    if number == PAGE_BLOCKS - 1 {
        return Phase::Publish;
    }
    Phase::Ask(number + 1)
}

/// With one acknowledgement more.
fn one_more(received: Received, nodes: u8) -> Received
    requires { IsTrue (has_ack_left nodes received.acks received.reply) }
    ensures { result ≡ record received { acks = received.acks + 1 } }
{
    let due = match received.reply {
        Some(reply) => reply.acks,
        None => nodes,
    };
    prove!(received.acks < due);
    Received {
        reply: received.reply,
        acks: received.acks + 1,
    }
}
