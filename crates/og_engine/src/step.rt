//! One event of the machine: an act, or the take of a message, of one actor.

ghost use Rattle.std.specs.Prelude.{◌≡◌, ℕ, ◌+◌, ◌<◌, ◌≤◌, ◌^◌, length, nat_eq, true, Some, None, IfOk, OnOk, OnErr, IsTrue, if◌then◌else◌};
ghost use Rattle.std.specs.Result.{is_ok, result_err};
ghost use Rattle.og_runs.specs.declared.Choice.TheVariants.{Act, Take};
ghost use Rattle.og_runs.specs.World.{world_step};
ghost use Rattle.og_node.specs.Kept.{node_of};
ghost use Rattle.og_node.specs.Node.{act_of as node_act, take_of as node_take, HasRow};
ghost use Rattle.og_mover.specs.Table.{act_of as mover_act, take_of as mover_take, has_act, has_table_row};
ghost use Rattle.og_processor.specs.Act.{may_act};
ghost use Rattle.og_processor.specs.Sound.{IsSound, IsLowProcessor, IsLowKind};
ghost use Rattle.og_machine.specs.Machine.{rules, refusal_of, by_node, by_mover};
ghost use Rattle.og_choices.specs.Marks.{is_marked};
ghost use Rattle.og_engine.specs.Marks.{is_running_by};
ghost use Rattle.og_engine.specs.Kept.{machine_of, setup_in, node_seat, mover_seat, IsMade, Moves, HaveRoom, with_letters};

use crate::{Machine, runs};
use og_base::{ActorId, Choice, MsgId, NotEnabled, Stamp, act_stamp, take_stamp};
use og_choices::Choices;
use og_choices::marks::with_mark;
use og_image::Image;
use og_mover::Mover;
use og_msg::{Event, Kind, Msg, Outbox};
use og_node::Node;
use og_runs::Seat;

/// Ends an event of an actor: its letters go into flight, and its clock becomes the event's.
fn end_event<A>(seat: &mut Seat<A>, choices: &mut Choices<Kind>, stamp: Stamp, out: &Outbox)
    requires room { HaveRoom stamp.actor seat.old.next out.now choices.old.flight }
    ensures seat { seat.new ≡ record seat.old { clock = stamp.clock; next = seat.old.next + length out.now } }
    ensures flight { choices.new.flight ≡ with_letters stamp.actor stamp.clock seat.old.next out.now choices.old.flight }
    ensures same { choices.new ≡ record choices.old { flight = choices.new.flight } }
    ensures few { length out.now ≤ 132 }
{
    let letters = out.letters();
    seat.clock = stamp.clock;
    if letters.is_empty() {
        return;
    }
    choices.post(stamp, seat.next, letters);
    seat.next += letters.len() as u64;
}

/// A node's own next event.
fn act_of_node(
    seat: &mut Seat<Node>,
    choices: &mut Choices<Kind>,
    out: &mut Outbox,
    image: &Image,
    actor: ActorId,
) -> Event
    requires enabled { may_act image.now seat.old.local.processor ≡ Ok tt }
    requires low { IsLowProcessor seat.old.local.processor }
    requires young { seat.old.clock < 2 ^ 63 }
    requires room { HaveRoom actor seat.old.next (node_act image.now (node_of seat.old.local)).letters choices.old.flight }
    ensures moves { Moves actor None (by_node (node_act image.now (node_of seat.old.local))) (node_seat seat.old) (node_seat seat.new) choices.old.flight choices.new.flight result }
    ensures same { choices.new ≡ record choices.old { flight = choices.new.flight } }
{
    out.clear();
    let stamp = act_stamp(seat.clock, actor);
    let note = seat.local.act(image, out);
    end_event(seat, choices, stamp, out);
    Event {
        choice: Choice::Act(actor),
        stamp,
        note,
    }
}

/// The mover's own next event.
fn act_of_mover(
    seat: &mut Seat<Mover>,
    choices: &mut Choices<Kind>,
    out: &mut Outbox,
    actor: ActorId,
) -> Event
    requires enabled { IsTrue (has_act seat.old.local.job) }
    requires young { seat.old.clock < 2 ^ 63 }
    requires room { HaveRoom actor seat.old.next (mover_act seat.old.local).letters choices.old.flight }
    ensures moves { Moves actor None (by_mover (mover_act seat.old.local)) (mover_seat seat.old) (mover_seat seat.new) choices.old.flight choices.new.flight result }
    ensures same { choices.new ≡ record choices.old { flight = choices.new.flight } }
{
    out.clear();
    let stamp = act_stamp(seat.clock, actor);
    let note = seat.local.act(out);
    end_event(seat, choices, stamp, out);
    Event {
        choice: Choice::Act(actor),
        stamp,
        note,
    }
}

/// The event in which a node takes a message, which has left the flight.
fn take_of_node(
    seat: &mut Seat<Node>,
    choices: &mut Choices<Kind>,
    out: &mut Outbox,
    image: &Image,
    message: &Msg,
) -> Event
    requires row { HasRow (node_of seat.old.local) message.now }
    requires sound { IsSound image.now seat.old.local.processor }
    requires low { IsLowProcessor seat.old.local.processor }
    requires low_message { IsLowKind message.now.kind }
    requires nodes { (node_of seat.old.local).home.rules.nodes ≤ 128 }
    requires young { (seat.old.clock < 2 ^ 63) × (message.now.stamp.clock < 2 ^ 63) }
    requires room { HaveRoom message.now.to seat.old.next (node_take image.now (node_of seat.old.local) message.now).letters choices.old.flight }
    ensures moves { Moves message.now.to (Some message.now) (by_node (node_take image.now (node_of seat.old.local) message.now)) (node_seat seat.old) (node_seat seat.new) choices.old.flight choices.new.flight result }
    ensures same { choices.new ≡ record choices.old { flight = choices.new.flight } }
{
    out.clear();
    let stamp = take_stamp(seat.clock, message.stamp, message.to);
    let note = seat.local.take(image, message, out);
    end_event(seat, choices, stamp, out);
    Event {
        choice: Choice::Take(message.to, message.id),
        stamp,
        note,
    }
}

/// The event in which the mover takes a message, which has left the flight.
fn take_of_mover(
    seat: &mut Seat<Mover>,
    choices: &mut Choices<Kind>,
    out: &mut Outbox,
    message: &Msg,
) -> Event
    requires row { IsTrue (has_table_row seat.old.local message.now) }
    requires young { (seat.old.clock < 2 ^ 63) × (message.now.stamp.clock < 2 ^ 63) }
    requires room { HaveRoom message.now.to seat.old.next (mover_take seat.old.local message.now).letters choices.old.flight }
    ensures moves { Moves message.now.to (Some message.now) (by_mover (mover_take seat.old.local message.now)) (mover_seat seat.old) (mover_seat seat.new) choices.old.flight choices.new.flight result }
    ensures same { choices.new ≡ record choices.old { flight = choices.new.flight } }
{
    out.clear();
    let stamp = take_stamp(seat.clock, message.stamp, message.to);
    let note = seat.local.take(message, out);
    end_event(seat, choices, stamp, out);
    Event {
        choice: Choice::Take(message.to, message.id),
        stamp,
        note,
    }
}

/// Marks a node after an event: whether it may act, and in the word that is returned whether its hart runs.
fn mark_node(
    choices: &mut Choices<Kind>,
    running: u128,
    node: ActorId,
    may: Result<(), NotEnabled>,
) -> u128
    requires node { node < choices.old.nodes }
    requires few { node < 128 }
    ensures ready { (k : ℕ) → is_marked choices.new.ready k ≡ (if nat_eq k node then is_ok may else is_marked choices.old.ready k) }
    ensures running { (k : ℕ) → is_marked result k ≡ (if nat_eq k node then is_running_by may else is_marked running k) }
    ensures same { choices.new ≡ record choices.old { ready = choices.new.ready } }
{
    choices.mark(node, may.is_ok());
    with_mark(running, node, runs(may))
}

/// The same after an act of the node, before which both marks were set: they stay where the node may act again.
fn mark_after_act(
    choices: &mut Choices<Kind>,
    running: u128,
    node: ActorId,
    may: Result<(), NotEnabled>,
) -> u128
    requires node { node < choices.old.nodes }
    requires few { node < 128 }
    requires was_ready { is_marked choices.old.ready node ≡ true }
    requires was_running { is_marked running node ≡ true }
    ensures ready { (k : ℕ) → is_marked choices.new.ready k ≡ (if nat_eq k node then is_ok may else is_marked choices.old.ready k) }
    ensures running { (k : ℕ) → is_marked result k ≡ (if nat_eq k node then is_running_by may else is_marked running k) }
    ensures same { choices.new ≡ record choices.old { ready = choices.new.ready } }
{
    if may.is_ok() {
        return running;
    }
    mark_node(choices, running, node, may)
}

/// Whether a node may act: its mark says that it may, or the node says why it may not.
fn may_act_by(mark: bool, node: &Node, image: &Image) -> Result<(), NotEnabled>
    requires { mark ≡ is_ok (may_act image.now node.now.processor) }
    ensures { result ≡ may_act image.now node.now.processor }
{
    if mark {
        return Ok(());
    }
    node.can_act(image)
}

impl Machine {
    /// Makes one event. It takes no memory; after a refusal nothing has changed.
    pub fn step(&mut self, image: &Image, choice: Choice) -> Result<Event, NotEnabled>
        requires made { IsMade image.now self.old }
        requires young { self.old.events < 2 ^ 55 }
        ensures refused { result_err result ≡ refusal_of (setup_in image.now self.old) (machine_of self.old) choice }
        ensures made { IfOk result (λ event. world_step (rules (setup_in image.now self.old)) (machine_of self.old) choice ≡ Some (machine_of self.new, event)) }
        ensures settings { self.new.settings ≡ self.old.settings }
        ensures counted { OnOk result (self.new.events ≡ self.old.events + 1) }
        ensures unchanged { OnErr result (self.new ≡ self.old) }
        ensures stays_made { IsMade image.now self.new }
    {
        match choice {
            Choice::Act(actor) => self.act(image, actor),
            Choice::Take(actor, id) => self.take(image, actor, id),
        }
    }

    /// An actor's own next event.
    fn act(&mut self, image: &Image, actor: ActorId) -> Result<Event, NotEnabled>
        requires made { IsMade image.now self.old }
        requires young { self.old.events < 2 ^ 55 }
        ensures refused { result_err result ≡ refusal_of (setup_in image.now self.old) (machine_of self.old) (Act actor) }
        ensures made { IfOk result (λ event. world_step (rules (setup_in image.now self.old)) (machine_of self.old) (Act actor) ≡ Some (machine_of self.new, event)) }
        ensures settings { self.new.settings ≡ self.old.settings }
        ensures counted { OnOk result (self.new.events ≡ self.old.events + 1) }
        ensures unchanged { OnErr result (self.new ≡ self.old) }
        ensures stays_made { IsMade image.now self.new }
    {
        let at = usize::from(actor);
        if at < self.nodes.len() {
            return self.node_acts(image, actor);
        }
        if at > self.nodes.len() {
            return Err(NotEnabled::NoActor);
        }
        self.mover_acts(image, actor)
    }

    /// A node's own next event.
    fn node_acts(&mut self, image: &Image, actor: ActorId) -> Result<Event, NotEnabled>
        requires node { actor < length self.old.nodes }
        requires made { IsMade image.now self.old }
        requires young { self.old.events < 2 ^ 55 }
        ensures refused { result_err result ≡ refusal_of (setup_in image.now self.old) (machine_of self.old) (Act actor) }
        ensures made { IfOk result (λ event. world_step (rules (setup_in image.now self.old)) (machine_of self.old) (Act actor) ≡ Some (machine_of self.new, event)) }
        ensures settings { self.new.settings ≡ self.old.settings }
        ensures counted { OnOk result (self.new.events ≡ self.old.events + 1) }
        ensures unchanged { OnErr result (self.new ≡ self.old) }
        ensures stays_made { IsMade image.now self.new }
    {
        let at = usize::from(actor);
        may_act_by(self.choices.may_act(actor), &self.nodes[at].local, image)?;
        let event = act_of_node(
            &mut self.nodes[at],
            &mut self.choices,
            &mut self.out,
            image,
            actor,
        );
        let may = self.nodes[at].local.can_act(image);
        self.running = mark_after_act(&mut self.choices, self.running, actor, may);
        self.events += 1;
        Ok(event)
    }

    /// The mover's own next event.
    fn mover_acts(&mut self, image: &Image, actor: ActorId) -> Result<Event, NotEnabled>
        requires mover { actor ≡ length self.old.nodes }
        requires made { IsMade image.now self.old }
        requires young { self.old.events < 2 ^ 55 }
        ensures refused { result_err result ≡ refusal_of (setup_in image.now self.old) (machine_of self.old) (Act actor) }
        ensures made { IfOk result (λ event. world_step (rules (setup_in image.now self.old)) (machine_of self.old) (Act actor) ≡ Some (machine_of self.new, event)) }
        ensures settings { self.new.settings ≡ self.old.settings }
        ensures counted { OnOk result (self.new.events ≡ self.old.events + 1) }
        ensures unchanged { OnErr result (self.new ≡ self.old) }
        ensures stays_made { IsMade image.now self.new }
    {
        if !self.mover.local.can_act() {
            return Err(NotEnabled::NothingToDo);
        }
        let event = act_of_mover(&mut self.mover, &mut self.choices, &mut self.out, actor);
        self.choices.mark_last(self.mover.local.can_act());
        self.events += 1;
        Ok(event)
    }

    /// The event in which an actor takes a message.
    fn take(&mut self, image: &Image, actor: ActorId, id: MsgId) -> Result<Event, NotEnabled>
        requires made { IsMade image.now self.old }
        requires young { self.old.events < 2 ^ 55 }
        ensures refused { result_err result ≡ refusal_of (setup_in image.now self.old) (machine_of self.old) (Take actor id) }
        ensures made { IfOk result (λ event. world_step (rules (setup_in image.now self.old)) (machine_of self.old) (Take actor id) ≡ Some (machine_of self.new, event)) }
        ensures settings { self.new.settings ≡ self.old.settings }
        ensures counted { OnOk result (self.new.events ≡ self.old.events + 1) }
        ensures unchanged { OnErr result (self.new ≡ self.old) }
        ensures stays_made { IsMade image.now self.new }
    {
        let at = usize::from(actor);
        if at < self.nodes.len() {
            return self.node_takes(image, actor, id);
        }
        if at > self.nodes.len() {
            return Err(NotEnabled::NoActor);
        }
        self.mover_takes(image, actor, id)
    }

    /// The event in which a node takes a message.
    fn node_takes(&mut self, image: &Image, actor: ActorId, id: MsgId) -> Result<Event, NotEnabled>
        requires node { actor < length self.old.nodes }
        requires made { IsMade image.now self.old }
        requires young { self.old.events < 2 ^ 55 }
        ensures refused { result_err result ≡ refusal_of (setup_in image.now self.old) (machine_of self.old) (Take actor id) }
        ensures made { IfOk result (λ event. world_step (rules (setup_in image.now self.old)) (machine_of self.old) (Take actor id) ≡ Some (machine_of self.new, event)) }
        ensures settings { self.new.settings ≡ self.old.settings }
        ensures counted { OnOk result (self.new.events ≡ self.old.events + 1) }
        ensures unchanged { OnErr result (self.new ≡ self.old) }
        ensures stays_made { IsMade image.now self.new }
    {
        let at = usize::from(actor);
        let Some(k) = self.choices.flight().place(actor, id) else {
            return Err(NotEnabled::NoMessage);
        };
        let message = self.choices.take_at(k);
        let event = take_of_node(
            &mut self.nodes[at],
            &mut self.choices,
            &mut self.out,
            image,
            &message,
        );
        let may = self.nodes[at].local.can_act(image);
        self.running = mark_node(&mut self.choices, self.running, actor, may);
        self.events += 1;
        Ok(event)
    }

    /// The event in which the mover takes a message.
    fn mover_takes(&mut self, image: &Image, actor: ActorId, id: MsgId) -> Result<Event, NotEnabled>
        requires mover { actor ≡ length self.old.nodes }
        requires made { IsMade image.now self.old }
        requires young { self.old.events < 2 ^ 55 }
        ensures refused { result_err result ≡ refusal_of (setup_in image.now self.old) (machine_of self.old) (Take actor id) }
        ensures made { IfOk result (λ event. world_step (rules (setup_in image.now self.old)) (machine_of self.old) (Take actor id) ≡ Some (machine_of self.new, event)) }
        ensures settings { self.new.settings ≡ self.old.settings }
        ensures counted { OnOk result (self.new.events ≡ self.old.events + 1) }
        ensures unchanged { OnErr result (self.new ≡ self.old) }
        ensures stays_made { IsMade image.now self.new }
    {
        let Some(k) = self.choices.flight().place(actor, id) else {
            return Err(NotEnabled::NoMessage);
        };
        let message = self.choices.take_at(k);
        let event = take_of_mover(&mut self.mover, &mut self.choices, &mut self.out, &message);
        self.choices.mark_last(self.mover.local.can_act());
        self.events += 1;
        Ok(event)
    }
}
