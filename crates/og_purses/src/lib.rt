//! An example of a protocol in threads: each actor spends its purse on letters to the next of a ring.
//!
//! It shows how a machine is put on `og_actors`, which stands below: a `Part` that runs one actor, a
//! `Cast` that gives all at their start, and a scheme of numbers that a call picks, so that its number of
//! actors and its budgets are values of the run. What it owes are two laws of its rules (`specs/Purses.antt`):
//! no more letters are in flight than were paid for, and each can be taken. Nothing stands above; the
//! tests run it in threads. The module `by_hand` has two seats of a fabric without actors.
#![tactic(auto)]

ghost use Rattle.std.specs.Prelude.{◌≡◌, ℕ, ◌+◌, ◌*◌, ◌<◌, ◌≤◌, ◌^◌, IfOk, length};
ghost use Rattle.og_runs.specs.Runs.{joined, IsSorted};
ghost use Rattle.og_runs.specs.World.{events_of};
ghost use Rattle.og_actors.specs.Rounds.{AreLogs, IsWholeRun, Counted};
ghost use Rattle.og_purses.specs.Purses.{purse, rules, next_of, is_done};

pub mod by_hand;

use og_actors::whole::{self, Ran};
use og_actors::{Cast, Gate, Part};
use og_fabric::Scheme;
use og_runs::{Letter, Msg};
use std::alloc::{AllocError, Global};
use std::marker::{Brand, PhantomData};
use std::sync::Wait;
use std::thread::Threads;

/// How many letters an actor can still pay for, and how many it is still to get.
#[derive(Clone, Copy, Drop)]
pub struct Purse {
    pub budget: u64,
    pub owed: u64,
}

/// How many actors a ring has, for how many letters each can pay, and how many events each makes at most.
/// A call picks them.
pub trait Rings {
    ghost size: { ℕ };

    ghost budget: { ℕ };

    ghost most: { ℕ };
}

// The call of `run_of` picks others; these stand for the type alone.
impl Rings for Brand {
    ghost size = { 1 };

    ghost budget = { 0 };

    ghost most = { 0 };
}

/// The scheme of a ring.
pub struct OfRing<M> {
    of: PhantomData<M>,
}

impl<M: Rings> Scheme<Purse, u64, u64> for OfRing<M> {
    ghost use Rattle.std.specs.Prelude.{◌*◌};
    ghost use Rattle.og_purses.specs.declared.Purse.{Purse as Known};
    ghost use Rattle.og_purses.specs.Purses.{purse, rules, is_done};

    ghost State = { Known };

    ghost state = { λ x. x };

    ghost rules = { rules M.size };

    ghost start = { λ a. purse M.budget };

    ghost stopped = { λ x. is_done x };

    ghost actors = { M.size };

    ghost most = { M.most };

    ghost room = { M.size * M.budget };
}

/// What runs one actor of a ring of so many.
#[derive(Drop)]
pub struct Spender<M: Rings> {
    purse: Purse,
    actors: u8,
    outbox: [Letter<u64>; 1],
    count: usize,
    of: PhantomData<M>,
    ghost plays: { M.size ≡ actors },
    ghost fits: { count ≤ 1 },
}

impl<M: Rings> Part<Purse, u64, u64, OfRing<M>> for Spender<M> {
    ghost use Rattle.std.specs.Prelude.{◌≡◌, take, true, ℕ, length, ◌≤◌};
    ghost use Rattle.og_actors.specs.Actors.{moved, is_there};
    ghost use Rattle.og_purses.specs.Purses.{takes};

    ghost kept = { λ s. s.purse };

    ghost outbox = { λ s. take s.count s.outbox };

    fn can_act(&self, _number: u8) -> bool {
        self.purse.budget != 0
    }

    fn act(&mut self, number: u8) -> Option<u64> {
        self.outbox = [Letter {
            to: next(self.actors, number),
            kind: self.purse.budget,
        }];
        self.count = 1;
        self.purse.budget -= 1;
        None
    }

    fn take(&mut self, _number: u8, message: Msg<u64>) -> Option<u64>
        requires possible { is_there (takes self.old.purse message) ≡ true }
        ensures outcome { takes self.old.purse message ≡ moved self.new.purse (take self.new.count self.new.outbox) result }
        ensures few { length (take self.new.count self.new.outbox) ≤ 65536 }
    {
        self.count = 0;
        self.purse.owed = self.purse.owed.saturating_sub(1);
        Some(message.kind)
    }

    fn letters(&self) -> &[Letter<u64>] {
        &self.outbox[..self.count]
    }

    fn is_stopped(&self) -> bool {
        self.purse.budget == 0 && self.purse.owed == 0
    }
}

/// The next of so many actors.
fn next(actors: u8, number: u8) -> u8
    ensures { result ≡ next_of actors number }
{
    if u16::from(number) + 1 < u16::from(actors) {
        number + 1
    } else {
        0
    }
}

/// So many actors, each of which can pay for so many letters.
#[derive(Drop)]
pub struct Ring<M: Rings> {
    actors: u8,
    budget: u64,
    of: PhantomData<M>,
    ghost plays: { M.size ≡ actors },
    ghost starts: { M.budget ≡ budget },
}

impl<M: Rings> Cast<Purse, u64, u64, OfRing<M>, Spender<M>> for Ring<M> {
    fn part(&self, _alloc: Global, _number: u8) -> Result<Spender<M>, AllocError> {
        Ok(Spender {
            purse: Purse {
                budget: self.budget,
                owed: self.budget,
            },
            actors: self.actors,
            outbox: [Letter { to: 0, kind: 0 }],
            count: 0,
            of: PhantomData,
        })
    }
}

/// As `run`, for any ring that is this one.
fn run_of<M: Rings + Send + Sync, R: Threads + Wait + Sync, G: Gate + Sync>(
    rt: &R,
    alloc: Global,
    gate: &G,
    actors: u8,
    budget: u64,
    rounds: u32,
    turns: u32,
) -> Result<Ran<u64, u64>, AllocError>
    requires actors { (0 < actors) × (M.size ≡ actors) }
    requires budget { (0 < budget) × (budget < 2 ^ 32) × (M.budget ≡ budget) }
    requires most { M.most ≡ rounds * turns }
    requires few { rounds * turns < 2 ^ 40 }
    ensures logs { IfOk result (λ r. AreLogs (rules M.size) (λ a. purse M.budget) M.size r.logs.items r.left.items) }
    ensures merged { IfOk result (λ r. IsSorted (joined (events_of r.logs.items)) r.events.items) }
    ensures run { IfOk result (λ r. IsWholeRun (rules M.size) (λ a. purse M.budget) is_done M.size r.rounds r.events.items r.left.items) }
    ensures counted { IfOk result (λ r. Counted (rounds * turns * M.size) r.rounds (length (joined (events_of r.logs.items)))) }
{
    let ring = Ring::<M> {
        actors,
        budget,
        of: PhantomData,
    };
    let room = usize::from(actors) * budget as usize;
    whole::run::<Purse, u64, u64, OfRing<M>, Spender<M>, Ring<M>, G, R>(
        rt, alloc, &ring, gate, room, actors, rounds, turns,
    )
}

/// Runs a ring of actors in threads, so many turns in each of so many rounds at most, and less where all
/// letters were sent and taken. The events are a run of the rules.
pub fn run<R: Threads + Wait + Sync, G: Gate + Sync>(
    rt: &R,
    alloc: Global,
    gate: &G,
    actors: u8,
    budget: u64,
    rounds: u32,
    turns: u32,
) -> Result<Ran<u64, u64>, AllocError>
    requires actors { 0 < actors }
    requires budget { (0 < budget) × (budget < 2 ^ 32) }
    requires few { rounds * turns < 2 ^ 40 }
    ensures logs { IfOk result (λ r. AreLogs (rules actors) (λ a. purse budget) actors r.logs.items r.left.items) }
    ensures merged { IfOk result (λ r. IsSorted (joined (events_of r.logs.items)) r.events.items) }
    ensures run { IfOk result (λ r. IsWholeRun (rules actors) (λ a. purse budget) is_done actors r.rounds r.events.items r.left.items) }
    ensures counted { IfOk result (λ r. Counted (rounds * turns * actors) r.rounds (length (joined (events_of r.logs.items)))) }
{
    run_of::<Brand, R, G>(rt, alloc, gate, actors, budget, rounds, turns)
}

#[cfg(test)]
mod tests;
