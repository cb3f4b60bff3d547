//! Rounds of turns: in each, every actor makes so many turns, in as many threads as there are actors.

ghost use Rattle.std.specs.Prelude.{◌≡◌, ℕ, ◌+◌, ◌*◌, ◌<◌, ◌≤◌, ◌^◌, length, All};
ghost use Rattle.og_actors.specs.Actors.{MakesTurns, seen};
ghost use Rattle.og_actors.specs.Rounds.{EachTurnsBy, all_seen, Standing, AfterRounds, all_whole, all_stopped, made_by, idle_by};

use crate::actor::Actor;
use crate::{Gate, Part};
use og_fabric::{Fabric, Scheme};
use std::sync::Wait;
use std::thread;
use std::thread::Threads;

/// No more threads than this in a round: there are fewer actors.
const MOST_THREADS: usize = 256;

/// How rounds ended: all actors are done; all rounds were made, in which so many events were made and
/// so many turns were idle; or a log lacks events, for want of memory.
#[derive(Clone, Copy, PartialEq, Eq, Debug)]
pub enum Rounds {
    Stopped,
    Spent { events: u64, idle: u64 },
    Memory,
}

/// Makes rounds until all actors are done after one, or a log lacks events after one, or all were
/// made.
pub fn run_rounds<
    A: Send + Sync,
    K: Copy + Drop + Send + Sync,
    N: Drop + Send + Sync,
    S: Scheme<A, K, N> + Send + Sync,
    P: Part<A, K, N, S> + Send,
    G: Gate + Sync,
    R: Threads + Wait + Sync,
>(
    rt: &R,
    actors: &mut [Actor<A, K, N, S, P>],
    fabric: &Fabric<A, K, N, S>,
    gate: &G,
    rounds: u32,
    turns: u32,
) -> Rounds
    requires fabric { All (λ p. p.table ≡ fabric.now) actors.old }
    requires turns { All (λ p. p.made + p.idle + rounds * turns ≤ S.most) actors.old }
    requires actors { length actors.old ≤ S.actors }
    requires few { S.most < 2 ^ 40 }
    requires small { S.actors * S.most < 2 ^ 60 }
    ensures rounds { AfterRounds S.rules S.stopped turns rounds result (all_seen S.state actors.old) (all_seen S.state actors.new) }
{
    if rounds == 0 {
        return match standing(actors) {
            Some(end) => end,
            None => Rounds::Spent { events: 0, idle: 0 },
        };
    }
    let events = events_of(actors);
    let idle = idle_of(actors);
    for _ in 0..rounds {
        run_round(rt, actors, fabric, gate, turns);
        if let Some(end) = standing(actors) {
            return end;
        }
    }
    Rounds::Spent {
        events: events_of(actors) - events,
        idle: idle_of(actors) - idle,
    }
}

/// Each actor makes so many turns, in a thread of its own.
fn run_round<
    A: Send + Sync,
    K: Copy + Drop + Send + Sync,
    N: Drop + Send + Sync,
    S: Scheme<A, K, N> + Send + Sync,
    P: Part<A, K, N, S> + Send,
    G: Gate + Sync,
    R: Threads + Wait + Sync,
>(rt: &R, actors: &mut [Actor<A, K, N, S, P>], fabric: &Fabric<A, K, N, S>, gate: &G, turns: u32)
    requires fabric { All (λ p. p.table ≡ fabric.now) actors.old }
    requires turns { All (λ p. p.made + p.idle + turns ≤ S.most) actors.old }
    requires few { S.most < 2 ^ 40 }
    requires small { S.actors * S.most < 2 ^ 60 }
    ensures len { length actors.new ≡ length actors.old }
    ensures each { EachTurnsBy S.state S.rules turns actors.old actors.new }
{
    thread::for_each_mut(
        rt,
        actors,
        MOST_THREADS,
        &|_: usize, actor: &mut Actor<A, K, N, S, P>|
            requires { (actor.old.table ≡ fabric.now) × (actor.old.made + actor.old.idle + turns ≤ S.most) × (S.most < 2 ^ 40) × (S.actors * S.most < 2 ^ 60) }
            ensures { MakesTurns S.rules turns (seen S.state actor.old) (seen S.state actor.new) }
        { actor.turns(rt, fabric, gate, turns) },
    );
}

/// Why no further round is made, if it is so: a log lacks events, or else all actors are done.
fn standing<A, K: Copy + Drop, N: Drop, S: Scheme<A, K, N>, P: Part<A, K, N, S>>(
    actors: &[Actor<A, K, N, S, P>],
) -> Option<Rounds>
    ensures { Standing (all_whole actors.now) (all_stopped (λ x. S.stopped (S.state x)) actors.now) result }
{
    if !are_whole(actors) {
        Some(Rounds::Memory)
    } else if are_stopped(actors) {
        Some(Rounds::Stopped)
    } else {
        None
    }
}

/// Whether each log has all events of its actor.
fn are_whole<A, K: Copy + Drop, N: Drop, S: Scheme<A, K, N>, P: Part<A, K, N, S>>(
    actors: &[Actor<A, K, N, S, P>],
) -> bool
    ensures { result ≡ all_whole actors.now }
{
    actors.iter().all(|actor| actor.is_whole())
}

/// Whether each actor is done.
fn are_stopped<A, K: Copy + Drop, N: Drop, S: Scheme<A, K, N>, P: Part<A, K, N, S>>(
    actors: &[Actor<A, K, N, S, P>],
) -> bool
    ensures { result ≡ all_stopped (λ x. S.stopped (S.state x)) actors.now }
{
    actors.iter().all(|actor| actor.is_stopped())
}

/// How many events all made together.
fn events_of<A, K: Copy + Drop, N: Drop, S: Scheme<A, K, N>, P: Part<A, K, N, S>>(
    actors: &[Actor<A, K, N, S, P>],
) -> u64
    requires { made_by actors.now < 2 ^ 64 }
    ensures { result ≡ made_by actors.now }
{
    actors.iter().map(|actor| actor.made()).sum()
}

/// How many turns of all were idle.
fn idle_of<A, K: Copy + Drop, N: Drop, S: Scheme<A, K, N>, P: Part<A, K, N, S>>(
    actors: &[Actor<A, K, N, S, P>],
) -> u64
    requires { idle_by actors.now < 2 ^ 64 }
    ensures { result ≡ idle_by actors.now }
{
    actors.iter().map(|actor| actor.idle()).sum()
}
