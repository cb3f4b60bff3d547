//! The enabled choices of a machine as an index: the messages in flight, the marks of the actors that may act, and for each choice the
//! actor whose it is, in the order of the choices.
//!
//! Choices stand by actor; an actor's act comes before its takes, and these stand by sender, then number. So the choice with a number
//! is found at once: its actor is looked up, and the message, if it is a take, stands in the index of messages as many places further
//! to the front as there are acts up to that actor. `specs/Choices` has the list of choices that is meant.
//!
//! Below stand the index of messages (`og_flight`) and the laws of runs (`og_runs`), above it the machine in code. All memory is taken
//! by [`Choices::make`]; a message that is sent or taken, or a mark that changes, moves the bytes of the choices behind it.
#![tactic(auto)]

ghost use Rattle.std.specs.Prelude.{◌≡◌, ℕ, suc, ◌+◌, ◌-◌, ◌<◌, ◌≤◌, ◌^◌, [], ◌∷◌, ◌++◌, length, take, drop, slice_get, Some, None, true, false, not, ◌&&◌, IfOk, nat_eq, nat_lt, if◌then◌else◌, vec_capacity};
ghost use Rattle.og_runs.specs.Runs.{posted};
ghost use Rattle.og_runs.specs.World.{find, without, placed, placed_all};
ghost use Rattle.og_choices.specs.Marks.{is_marked, marks_below};
ghost use Rattle.og_choices.specs.Choices.{Offer, may_act_at, choices_to, count_of};

pub mod marks;
#[cfg(test)]
mod tests;

use crate::marks::{count_below, has_mark, with_mark};
use og_flight::{Flight, put};
use og_runs::{Choice, Letter, Msg, MsgId, Stamp};
use std::alloc::{AllocError, Global};
use std::marker::Model;

/// The enabled choices, and the messages in flight.
#[derive(Drop)]
pub struct Choices<K> {
    flight: Flight<K>,
    // How many nodes there are. The actor behind them has this number.
    nodes: u8,
    // The nodes whose act is enabled, and whether that of the actor behind them is.
    ready: u128,
    last: bool,
    // The actor of each choice.
    turns: Vec<u8>,
}

impl<K> Model for Choices<K> {
    ghost use Rattle.std.specs.Prelude.{◌≡◌, ◌≤◌, ◌+◌, vec_capacity};
    ghost use Rattle.og_choices.specs.Choices.{Offer, AreTurns};

    ghost Value = { Offer K };

    ghost view = { λ c. record { flight = c.flight; nodes = c.nodes; ready = c.ready; last = c.last } };

    ghost invariant = { λ c. record { turns : AreTurns (record { flight = c.flight; nodes = c.nodes; ready = c.ready; last = c.last }) c.turns.items; few : c.nodes ≤ 128; room : c.flight.room + 129 ≤ vec_capacity c.turns } };
}

/// How many acts the actors below this one have.
fn acts_below(nodes: u8, ready: u128, last: bool, actor: u16) -> usize
    requires { nodes ≤ 128 }
    ensures acts { result ≡ (if nat_lt nodes actor then marks_below ready nodes + (if last then 1 else 0) else marks_below ready actor) }
    ensures few { result ≤ 129 }
{
    if actor > u16::from(nodes) {
        return count_below(ready, nodes) as usize + usize::from(last);
    }
    count_below(ready, actor as u8) as usize
}

/// Whether the choice at this place, which is one of the actor's, is its first.
fn is_first(turns: &[u8], at: usize, actor: u8) -> bool
    requires { at < length turns.now }
    ensures front { at ≡ 0 → result ≡ true }
    ensures after { (b : ℕ) → 0 < at → slice_get turns.now (at - 1) ≡ Some b → result ≡ not (nat_eq b actor) }
{
    at == 0 || turns[at - 1] != actor
}

/// Puts an actor's turn at a place, or takes it away there.
fn turn(turns: &mut Vec<u8>, at: usize, actor: u8, on: bool)
    requires inside { at ≤ length turns.old.items }
    requires there { on ≡ false → at < length turns.old.items }
    requires room { on ≡ true → length turns.old.items < vec_capacity turns.old }
    ensures put { on ≡ true → turns.new.items ≡ take at turns.old.items ++ actor ∷ drop at turns.old.items }
    ensures removed { on ≡ false → turns.new.items ≡ take at turns.old.items ++ drop (suc at) turns.old.items }
    ensures capacity { vec_capacity turns.new ≡ vec_capacity turns.old }
{
    if on {
        put(turns, at, actor);
    } else {
        let _turn = turns.remove(at);
    }
}

impl<K: Copy> Choices<K> {
    /// No choices, of so many nodes, with room for so many messages. All memory is taken here.
    pub fn make(alloc: Global, room: usize, nodes: u8) -> Result<Self, AllocError>
        requires room { room < 2 ^ 31 }
        requires few { nodes ≤ 128 }
        ensures { IfOk result (λ c. c ≡ record { flight = record { messages = []; room = room }; nodes = nodes; ready = 0; last = false }) }
    {
        let flight = Flight::make(alloc, room)?;
        let turns = Vec::with_capacity(alloc, room + 129)?;
        Ok(Choices {
            flight,
            nodes,
            ready: 0,
            last: false,
            turns,
        })
    }

    /// The messages in flight.
    pub fn flight(&self) -> &Flight<K>
        ensures { result.now ≡ self.now.flight }
    {
        &self.flight
    }

    /// Whether the act of a node is enabled.
    pub fn may_act(&self, node: u8) -> bool
        ensures { result ≡ is_marked self.now.ready node }
    {
        has_mark(self.ready, node)
    }

    /// How many choices are enabled.
    pub fn count(&self) -> usize
        ensures count { result ≡ count_of self.now }
        ensures few { result < 2 ^ 32 }
    {
        self.flight.stays_sound();
        self.turns.len()
    }

    /// The choice with this number, from 0, in their order.
    pub fn choice(&self, at: usize) -> Choice
        requires { at < count_of self.now }
        ensures { (n : ℕ) → at < length (choices_to self.now n) → slice_get (choices_to self.now n) at ≡ Some result }
    {
        self.flight.stays_sound();
        let actor = self.turns[at];
        let first = is_first(&self.turns, at, actor);
        if self.is_act(actor, first) {
            return Choice::Act(actor);
        }
        let acts = acts_below(self.nodes, self.ready, self.last, u16::from(actor) + 1);
        Choice::Take(actor, self.flight.id(at - acts))
    }

    /// Whether the act of an actor is enabled.
    fn may_act_at(&self, actor: u8) -> bool
        ensures { result ≡ may_act_at self.now actor }
    {
        if actor < self.nodes {
            return has_mark(self.ready, actor);
        }
        actor == self.nodes && self.last
    }

    /// Whether the first choice of an actor, or a later one, is its act.
    fn is_act(&self, actor: u8, first: bool) -> bool
        ensures { result ≡ (first && may_act_at self.now actor) }
    {
        first && self.may_act_at(actor)
    }

    /// A message goes into flight.
    fn send(&mut self, message: Msg<K>)
        requires room { length self.old.flight.messages < self.old.flight.room }
        requires new { find message.id self.old.flight.messages ≡ None }
        ensures { self.new ≡ record self.old { flight = record { messages = placed message self.old.flight.messages; room = self.old.flight.room } } }
    {
        let k = self.flight.send(message);
        self.flight.stays_sound();
        let acts = acts_below(self.nodes, self.ready, self.last, u16::from(message.to) + 1);
        put(&mut self.turns, k + acts, message.to);
    }

    /// An event's letters go into flight: they become messages with the event's stamp and its
    /// actor's numbers from `first` on, none of which is in flight.
    pub fn post(&mut self, stamp: Stamp, first: u64, letters: &[Letter<K>])
        requires room { length self.old.flight.messages + length letters.now ≤ self.old.flight.room }
        requires numbers { first + length letters.now < 2 ^ 64 }
        requires new { (k : ℕ) → first ≤ k → find (record { sender = stamp.actor; seq = k }) self.old.flight.messages ≡ None }
        ensures { self.new ≡ record self.old { flight = record { messages = placed_all self.old.flight.messages (posted stamp.actor stamp.clock first letters.now); room = self.old.flight.room } } }
    {
        for i in 0..letters.len() {
            let letter = letters[i];
            let id = MsgId {
                sender: stamp.actor,
                seq: first + i as u64,
            };
            self.send(Msg {
                id,
                to: letter.to,
                stamp,
                kind: letter.kind,
            });
        }
    }

    /// Takes the message at a place out of flight.
    pub fn take_at(&mut self, k: usize) -> Msg<K>
        requires { k < length self.old.flight.messages }
        ensures taken { slice_get self.old.flight.messages k ≡ Some result }
        ensures left { self.new ≡ record self.old { flight = record { messages = without result.id self.old.flight.messages; room = self.old.flight.room } } }
    {
        self.flight.stays_sound();
        let receiver = self.flight.receiver(k);
        let acts = acts_below(self.nodes, self.ready, self.last, u16::from(receiver) + 1);
        let _turn = self.turns.remove(k + acts);
        self.flight.take_at(k)
    }

    /// Marks whether the act of a node is enabled.
    pub fn mark(&mut self, node: u8, on: bool)
        requires { node < self.old.nodes }
        ensures marks { (k : ℕ) → is_marked self.new.ready k ≡ (if nat_eq k node then on else is_marked self.old.ready k) }
        ensures same { self.new ≡ record self.old { ready = self.new.ready } }
    {
        if has_mark(self.ready, node) == on {
            return;
        }
        self.flight.stays_sound();
        let ready = with_mark(self.ready, node, on);
        let at = self.flight.below(u16::from(node)) + count_below(self.ready, node) as usize;
        turn(&mut self.turns, at, node, on);
        self.ready = ready;
    }

    /// Marks whether the act of the actor behind the nodes is enabled.
    pub fn mark_last(&mut self, on: bool)
        ensures { self.new ≡ record self.old { last = on } }
    {
        if self.last == on {
            return;
        }
        self.flight.stays_sound();
        let at = self.flight.below(u16::from(self.nodes))
            + count_below(self.ready, self.nodes) as usize;
        turn(&mut self.turns, at, self.nodes, on);
        self.last = on;
    }
}
