//! One actor at its seat: a turn takes a message of its own, or else acts, if it can.

ghost use Rattle.std.specs.Prelude.{◌≡◌, ℕ, ◌+◌, ◌*◌, ◌<◌, ◌≤◌, ◌^◌, ◌∷◌, ◌++◌, [], length, None, max, true, false};
ghost use Rattle.og_runs.specs.Runs.{posted};
ghost use Rattle.og_fabric.specs.Scheme.{IsMet};
ghost use Rattle.og_fabric.specs.Sides.{Fits, blank};
ghost use Rattle.og_actors.specs.Actors.{is_there, Playing, seen, newcomer, closed_of, LeadsHere, IsActor, AfterTurn, AfterPart, MakesTurns, after_sending};

use crate::{Gate, Part, Turn};
use og_fabric::{Fabric, Posted, Scheme, Seat, Taken};
use og_runs::{Choice, Event, Letter, Log, Stamp};
use std::alloc::Global;
use std::marker::{Model, PhantomData};
use std::sync::Wait;

/// An actor at its seat, with its log.
#[derive(Drop)]
pub struct Actor<A, K: Drop, N, S: Scheme<A, K, N>, P: Part<A, K, N, S>> {
    part: P,
    seat: Seat<K>,
    log: Log<N>,
    whole: bool,
    clock: u64,
    number: u8,
    made: u64,
    idle: u64,
    of: PhantomData<(A, S)>,
}

impl<A, K: Drop, N, S: Scheme<A, K, N>, P: Part<A, K, N, S>> Model for Actor<A, K, N, S, P> {
    ghost Value = { Playing A K N };

    ghost view = { λ s. record { table = s.seat.table; actor = s.number; past = record { local = P.kept s.part; clock = s.clock; sent = s.seat.side.sent; taken = s.seat.side.taken }; log = s.log.events.items; whole = s.whole; made = s.made; idle = s.idle } };

    ghost invariant = { λ s. IsActor S.rules S.start S.actors S.most (S.state (P.kept s.part)) s.seat.side s.log.events.items s.whole s.clock s.number s.made };
}

impl<A, K: Copy + Drop, N: Drop, S: Scheme<A, K, N>, P: Part<A, K, N, S>> Actor<A, K, N, S, P> {
    /// An actor that hasn't moved.
    pub fn make(alloc: Global, part: P, seat: Seat<K>, number: u8) -> Actor<A, K, N, S, P>
        requires seat { seat.side ≡ blank number }
        requires number { number < S.actors }
        requires part { S.state (P.kept part) ≡ S.start number }
        ensures { seen S.state result ≡ newcomer seat.table number (S.start number) }
    {
        Actor {
            part,
            seat,
            log: Log {
                events: Vec::new(alloc),
            },
            whole: true,
            clock: 0,
            number,
            made: 0,
            idle: 0,
            of: PhantomData,
        }
    }

    /// One turn: pops a message, takes it if it is its own, and puts it back if it is another's. Where
    /// it took none it acts, if it can.
    pub fn turn<R: Wait>(&mut self, rt: &R, fabric: &Fabric<A, K, N, S>) -> Turn
        requires fabric { self.old.table ≡ fabric.now }
        requires turns { self.old.made + self.old.idle < S.most }
        requires few { S.most < 2 ^ 40 }
        requires small { S.actors * S.most < 2 ^ 60 }
        ensures { AfterTurn S.rules (seen S.state self.old) result (seen S.state self.new) }
    {
        if self.pull(rt, fabric) {
            return Turn::Event;
        }
        if !self.part.can_act(self.number) {
            self.idle += 1;
            return Turn::Idle;
        }
        self.act(rt, fabric);
        Turn::Event
    }

    /// So many turns, each after a call of the gate.
    pub fn turns<R: Wait, G: Gate>(
        &mut self,
        rt: &R,
        fabric: &Fabric<A, K, N, S>,
        gate: &G,
        turns: u32,
    )
        requires fabric { self.old.table ≡ fabric.now }
        requires turns { self.old.made + self.old.idle + turns ≤ S.most }
        requires few { S.most < 2 ^ 40 }
        requires small { S.actors * S.most < 2 ^ 60 }
        ensures { MakesTurns S.rules turns (seen S.state self.old) (seen S.state self.new) }
    {
        for _ in 0..turns {
            gate.turn(self.number, self.made + self.idle);
            self.turn(rt, fabric);
        }
    }

    /// Takes a message of its own, if the queue's oldest is one, and says so. Another's is put back.
    fn pull<R: Wait>(&mut self, rt: &R, fabric: &Fabric<A, K, N, S>) -> bool
        requires fabric { self.old.table ≡ fabric.now }
        requires made { self.old.made < S.most }
        requires few { S.most < 2 ^ 40 }
        requires small { S.actors * S.most < 2 ^ 60 }
        ensures part { AfterPart S.rules (seen S.state self.old) result (seen S.state self.new) }
        ensures met { result ≡ false → IsMet S.rules S.start S.actors S.most self.new.actor (S.state self.new.past.local) None }
    {
        match fabric.take(rt, &mut self.seat) {
            Taken::Mine(message) => {
                let clock = later(self.clock, message.stamp.clock) + 1;
                let note = self.part.take(self.number, message);
                send_all(rt, fabric, &mut self.seat, self.part.letters(), clock);
                self.clock = clock;
                self.made += 1;
                self.whole = add(
                    &mut self.log,
                    self.whole,
                    Event {
                        choice: Choice::Take(self.number, message.id),
                        stamp: Stamp {
                            clock,
                            actor: self.number,
                        },
                        note,
                    },
                );
                true
            }
            Taken::Other => {
                fabric.put_back(rt, &mut self.seat);
                false
            }
            Taken::Nothing => false,
        }
    }

    /// Acts.
    fn act<R: Wait>(&mut self, rt: &R, fabric: &Fabric<A, K, N, S>)
        requires fabric { self.old.table ≡ fabric.now }
        requires made { self.old.made < S.most }
        requires few { S.most < 2 ^ 40 }
        requires small { S.actors * S.most < 2 ^ 60 }
        requires possible { is_there (S.rules.act self.old.actor (S.state self.old.past.local)) ≡ true }
        requires met { IsMet S.rules S.start S.actors S.most self.old.actor (S.state self.old.past.local) None }
        ensures { AfterPart S.rules (seen S.state self.old) true (seen S.state self.new) }
    {
        let note = self.part.act(self.number);
        let clock = self.clock + 1;
        send_all(rt, fabric, &mut self.seat, self.part.letters(), clock);
        self.clock = clock;
        self.made += 1;
        self.whole = add(
            &mut self.log,
            self.whole,
            Event {
                choice: Choice::Act(self.number),
                stamp: Stamp {
                    clock,
                    actor: self.number,
                },
                note,
            },
        );
    }

    /// Whether the log has all events of the actor.
    pub fn is_whole(&self) -> bool
        ensures { result ≡ self.now.whole }
    {
        self.whole
    }

    /// Whether the actor is done.
    pub fn is_stopped(&self) -> bool
        ensures { result ≡ S.stopped (S.state self.now.past.local) }
    {
        self.part.is_stopped()
    }

    /// How many events the actor made.
    pub fn made(&self) -> u64
        ensures { result ≡ self.now.made }
    {
        self.made
    }

    /// How many turns of the actor were idle.
    pub fn idle(&self) -> u64
        ensures { result ≡ self.now.idle }
    {
        self.idle
    }

    /// Posts the log, which has all events of the actor.
    pub fn post(self, fabric: &Fabric<A, K, N, S>) -> Posted<K, N>
        requires whole { self.whole ≡ true }
        ensures posted { result ≡ closed_of self }
        ensures count { length self.log ≡ self.made }
        ensures local { LeadsHere S.rules (S.start self.actor) (seen S.state self) }
    {
        let Actor {
            part: _,
            seat,
            log,
            whole: _,
            clock: _,
            number: _,
            made: _,
            idle: _,
            of: _,
        } = self;
        fabric.post_log(seat, log)
    }
}

/// Sends letters, all with the clock of one event.
fn send_all<A, K: Copy + Drop, N, S: Scheme<A, K, N>, R: Wait>(
    rt: &R,
    fabric: &Fabric<A, K, N, S>,
    seat: &mut Seat<K>,
    letters: &[Letter<K>],
    clock: u64,
)
    requires seat { seat.old.table ≡ fabric.now }
    requires actor { seat.old.side.actor < S.actors }
    requires next { length seat.old.side.sent + length letters.now < 2 ^ 63 }
    requires fits { Fits S.rules S.start S.most seat.old.side.actor (seat.old.side.sent ++ posted seat.old.side.actor clock (length seat.old.side.sent) letters.now) seat.old.side.taken }
    ensures table { seat.new.table ≡ seat.old.table }
    ensures sent { seat.new.side ≡ after_sending seat.old.side clock letters.now }
{
    for i in 0..letters.len() {
        fabric.send(rt, seat, letters[i], clock);
    }
}

/// The greater number.
fn later(a: u64, b: u64) -> u64
    ensures { result ≡ max a b }
{
    if a < b { b } else { a }
}

/// Adds an event to a log that has all before it, and says whether it has all now.
fn add<N: Drop>(log: &mut Log<N>, whole: bool, event: Event<N>) -> bool
    ensures { result ≡ true → (whole ≡ true) × (log.new.events.items ≡ log.old.events.items ++ event ∷ []) }
{
    whole && log.events.push(event).is_ok()
}
