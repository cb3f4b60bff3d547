//! From the seats to a run: all actors are made, make their rounds, and post their logs, which merge to
//! a run of the protocol.

ghost use Rattle.std.specs.Prelude.{◌≡◌, ℕ, ◌+◌, ◌*◌, ◌<◌, ◌≤◌, ◌^◌, length, map, IfOk, true};
ghost use Rattle.og_runs.specs.Runs.{joined, IsSorted};
ghost use Rattle.og_runs.specs.World.{events_of};
ghost use Rattle.og_runs.specs.Views.{logs_of};
ghost use Rattle.og_fabric.specs.Gathered.{InTurn, views_of};
ghost use Rattle.og_fabric.specs.Scheme.{HasRoom, IsReady};
ghost use Rattle.og_fabric.specs.Shown.{AreNew};
ghost use Rattle.og_actors.specs.Actors.{closed_of};
ghost use Rattle.og_actors.specs.Rounds.{all_seen, AreSeated, AreInTurn, all_whole, made_by, AreLogs, LeadAll, IsWholeRun, Counted};

use crate::actor::Actor;
use crate::rounds::{Rounds, run_rounds};
use crate::{Cast, Gate, Part};
use og_fabric::{Fabric, Gathered, Posted, Scheme, Seat};
use og_runs::{Event, Log, Msg};
use std::alloc::{AllocError, Global};
use std::sync::Wait;
use std::thread::Threads;

/// What came of all rounds: each actor's log, all events in the order of their stamps, the messages that
/// nobody took, and how the rounds ended.
#[derive(Drop)]
pub struct Ran<K: Drop, N: Drop> {
    pub logs: Vec<Log<N>>,
    pub events: Vec<Event<N>>,
    pub left: Vec<Msg<K>>,
    pub rounds: Rounds,
}

/// Each actor at its seat.
pub fn make_all<
    A,
    K: Copy + Drop,
    N: Drop,
    S: Scheme<A, K, N>,
    P: Part<A, K, N, S>,
    C: Cast<A, K, N, S, P>,
>(
    alloc: Global,
    cast: &C,
    fabric: &Fabric<A, K, N, S>,
    seats: Vec<Seat<K>>,
) -> Result<Vec<Actor<A, K, N, S, P>>, AllocError>
    requires new { AreNew fabric.now 0 seats.items }
    requires all { length seats.items ≡ S.actors }
    requires few { S.actors ≤ 255 }
    ensures seated { IfOk result (λ actors. AreSeated fabric.now S.start 0 (all_seen S.state actors.items)) }
    ensures all { IfOk result (λ actors. length actors.items ≡ S.actors) }
{
    let mut actors = Vec::new(alloc);
    let mut number = 0;
    for seat in seats {
        let part = cast.part(alloc, number)?;
        actors.push(Actor::make(alloc, part, seat, number))?;
        number += 1;
    }
    Ok(actors)
}

/// The posted logs of all actors, which have all their events.
pub fn post_all<A, K: Copy + Drop, N: Drop, S: Scheme<A, K, N>, P: Part<A, K, N, S>>(
    alloc: Global,
    fabric: &Fabric<A, K, N, S>,
    actors: Vec<Actor<A, K, N, S, P>>,
) -> Result<Vec<Posted<K, N>>, AllocError>
    requires turn { AreInTurn fabric.now 0 actors.items }
    requires whole { all_whole actors.items ≡ true }
    ensures turn { IfOk result (λ posted. InTurn fabric.now 0 posted.items) }
    ensures local { IfOk result (λ posted. LeadAll S.rules S.start 0 (all_seen S.state actors.items)) }
    ensures logs { IfOk result (λ posted. posted.items ≡ map closed_of actors.items) }
    ensures events { IfOk result (λ posted. length (joined (logs_of (views_of posted.items))) ≡ made_by actors.items) }
{
    let mut posted = Vec::new(alloc);
    for actor in actors {
        posted.push(actor.post(fabric))?;
    }
    Ok(posted)
}

/// Runs all actors in threads, with room for so many messages, and merges their logs.
pub fn run<
    A: Send + Sync,
    K: Copy + Drop + Send + Sync,
    N: Copy + Drop + Send + Sync,
    S: Scheme<A, K, N> + Send + Sync,
    P: Part<A, K, N, S> + Send,
    C: Cast<A, K, N, S, P>,
    G: Gate + Sync,
    R: Threads + Wait + Sync,
>(
    rt: &R,
    alloc: Global,
    cast: &C,
    gate: &G,
    room: usize,
    number: u8,
    rounds: u32,
    turns: u32,
) -> Result<Ran<K, N>, AllocError>
    requires room { (0 < room) × (room ≡ S.room) }
    requires number { number ≡ S.actors }
    requires most { rounds * turns ≤ S.most }
    requires few { S.most < 2 ^ 40 }
    requires small { S.actors * S.most < 2 ^ 60 }
    requires has_room { HasRoom S.rules S.start S.actors S.most S.room }
    requires ready { IsReady S.rules S.start S.actors S.most }
    ensures logs { IfOk result (λ r. AreLogs S.rules S.start S.actors r.logs.items r.left.items) }
    ensures merged { IfOk result (λ r. IsSorted (joined (events_of r.logs.items)) r.events.items) }
    ensures run { IfOk result (λ r. IsWholeRun S.rules S.start S.stopped S.actors r.rounds r.events.items r.left.items) }
    ensures counted { IfOk result (λ r. Counted (rounds * turns * S.actors) r.rounds (length (joined (events_of r.logs.items)))) }
{
    let (fabric, seats) = Fabric::make(alloc, room, number)?;
    let mut actors = make_all(alloc, cast, &fabric, seats)?;
    let ended = run_rounds(rt, actors.as_mut_slice(), &fabric, gate, rounds, turns);
    if let Rounds::Memory = ended {
        return Err(AllocError);
    }
    let posted = post_all(alloc, &fabric, actors)?;
    let Gathered { logs, left } = fabric.gather(rt, alloc, posted)?;
    let events = og_runs::merge(alloc, logs.as_slice())?;
    Ok(Ran {
        logs,
        events,
        left,
        rounds: ended,
    })
}
