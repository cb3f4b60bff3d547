//! What the mover does of its own accord: it asks for a block, writes it, publishes the page, and clears a frame.

ghost use Rattle.std.specs.Prelude.{◌≡◌, ◌+◌, ◌<◌, ◌≤◌, IsTrue, if◌then◌else◌, Some, [], ◌∷◌, ◌++◌, length, map};
ghost use Rattle.std.specs.FinSet as set;
ghost use Rattle.og_msg.specs.declared.Kind.{Kind as Said};
ghost use Rattle.og_pager.specs.PageTable.{IsFrame};
ghost use Rattle.og_mover.specs.Table.{to, has_act as job_has_act, publish_row, holders_rising, tell_row, act_of, act_in_phase, act_in_clearing};
ghost use Rattle.og_mover.specs.Sound.{IsRoute, IsCleared, IsJob};

use crate::{Clearing, Job, Mover, Phase, Received, Route, send};
use og_base::{Block, Frame, NodeId};
use og_msg::{Kind, Note, Outbox};
use og_sharers::Nodes;

impl Mover {
    /// The mover's own next step.
    #[tactic(auto, unfolding(crate::specs::Table::act_of))]
    pub fn act(&mut self, out: &mut Outbox) -> Option<Note>
        requires can { IsTrue (job_has_act self.old.job) }
        requires empty { out.old ≡ [] }
        ensures mover { self.new ≡ (act_of self.old).mover }
        ensures letters { out.new ≡ (act_of self.old).letters }
        ensures note { result ≡ (act_of self.old).note }
    {
        match self.current() {
            Job::Idle => None,
            Job::Move(route, phase) => self.act_in_phase(route, phase, out),
            Job::Reclaim(frame, step) => self.act_in_clearing(frame, step, out),
        }
    }

    /// The next step of a move.
    fn act_in_phase(&mut self, route: Route, phase: Phase, out: &mut Outbox) -> Option<Note>
        requires sound { IsJob self.old.pages self.old.settings (Job.Move route phase) }
        requires room { length out.old < 132 }
        ensures mover { self.new ≡ (act_in_phase self.old route phase).mover }
        ensures letters { out.new ≡ out.old ++ (act_in_phase self.old route phase).letters }
        ensures note { result ≡ (act_in_phase self.old route phase).note }
    {
        match phase {
            Phase::Ask(number) => {
                let block = Block {
                    frame: route.old,
                    number,
                };
                send(out, route.old.home, Kind::PoisonRead { block });
                self.go_on(
                    route,
                    Phase::Collect(
                        number,
                        Received {
                            reply: None,
                            acks: 0,
                        },
                    ),
                );
                None
            }
            Phase::Hold(number, line) => {
                let block = Block {
                    frame: route.new,
                    number,
                };
                send(out, route.new.home, Kind::CopyIn { block, line });
                self.go_on(route, Phase::Wait(number));
                None
            }
            Phase::Publish => Some(self.publish(route)),
            Phase::Collect(..) | Phase::Wait(_) => None,
        }
    }

    /// The page is in its new frame.
    fn publish(&mut self, route: Route) -> Note
        requires { IsRoute self.old.pages self.old.settings route }
        ensures mover { self.new ≡ (publish_row self.old route).mover }
        ensures note { Some result ≡ (publish_row self.old route).note }
    {
        self.pager.settle();
        self.job = Job::Idle;
        let Route { page, old, new } = route;
        Note::Moved { page, old, new }
    }

    /// The next step of a reclaim.
    fn act_in_clearing(&mut self, frame: Frame, step: Clearing, out: &mut Outbox) -> Option<Note>
        requires sound { IsJob self.old.pages self.old.settings (Job.Reclaim frame step) }
        requires empty { out.old ≡ [] }
        ensures mover { self.new ≡ (act_in_clearing self.old frame step).mover }
        ensures letters { out.new ≡ (act_in_clearing self.old frame step).letters }
        ensures note { result ≡ (act_in_clearing self.old frame step).note }
    {
        match step {
            Clearing::Tell => {
                self.tell(frame, out);
                self.end_gathering(frame);
            }
            Clearing::Clean => {
                send(out, frame.home, Kind::CleanFrame { frame });
                self.clear_on(frame, Clearing::Cleaning);
            }
            Clearing::Gather | Clearing::Cleaning => {}
        }
        None
    }

    /// Tells each holder of the frame to drop it.
    fn tell(&mut self, frame: Frame, out: &mut Outbox)
        requires frame { IsCleared self.old.pages frame }
        requires empty { out.old ≡ [] }
        ensures mover { self.new ≡ (tell_row self.old frame).mover }
        ensures letters { out.new ≡ (tell_row self.old frame).letters }
    {
        self.tell_holders(frame, out);
        self.clear_on(frame, Clearing::Gather);
    }

    /// Sends a letter to each holder of the frame, rising.
    #[tactic(auto, unfolding(crate::specs::Table::holders_rising))]
    fn tell_holders(&self, frame: Frame, out: &mut Outbox)
        requires frame { IsFrame self.now.pages frame }
        requires empty { out.old ≡ [] }
        ensures { out.new ≡ map (λ q. to q (Said.DropFrame frame)) (holders_rising self.now frame) }
    {
        let holders = *self.pager.holders(frame);
        for node in 0..self.pager.nodes() {
            tell_holder(out, &holders, node, frame);
        }
    }
}

/// Tells a node to drop the frame, if it is a holder.
fn tell_holder(out: &mut Outbox, holders: &Nodes, node: NodeId, frame: Frame)
    requires { length out.old < 132 }
    ensures told { out.new ≡ out.old ++ (if set.contains holders.now node then to node (Said.DropFrame frame) ∷ [] else []) }
    ensures few { length out.new ≤ length out.old + 1 }
{
    if holders.has(node) {
        send(out, node, Kind::DropFrame { frame });
    }
}
