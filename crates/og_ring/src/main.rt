//! Rings of actors in threads, to be measured: `og_ring ACTORS TURNS` makes one round of so many turns
//! of each actor, which has as many letters to pay for, and prints what came of it.
//!
//! Below stands the example protocol. `bench/run` measures this program; it has no contract.
#![tactic(auto)]

use og_actors::NoGate;
use og_actors::rounds::Rounds;
use og_actors::whole::Ran;
use std::process::ExitCode;
use std::{env, io};

/// How many actors, and how many turns each.
#[derive(Clone, Copy)]
struct Size {
    actors: u8,
    turns: u32,
}

fn main(rt: HostRuntime) -> ExitCode {
    let Ok(Some(Size { actors, turns })) = read_words(&rt) else {
        return ExitCode::FAILURE;
    };
    if actors == 0 || turns == 0 {
        return ExitCode::FAILURE;
    }
    let budget = u64::from(turns);
    let Ok(ran) = og_purses::run(&rt, rt.alloc(), &NoGate, actors, budget, 1, turns) else {
        return ExitCode::FAILURE;
    };
    match report(&rt, &ran) {
        Ok(()) => ExitCode::SUCCESS,
        Err(_) => ExitCode::FAILURE,
    }
}

/// The words: two numbers.
fn read_words(rt: &HostRuntime) -> io::Result<Option<Size>> {
    let mut words = env::args(rt)?.skip(1);
    let actors = words
        .next()
        .and_then(|word| word.as_str().parse::<u8>().ok());
    let turns = words
        .next()
        .and_then(|word| word.as_str().parse::<u32>().ok());
    Ok(match (actors, turns) {
        (Some(actors), Some(turns)) => Some(Size { actors, turns }),
        _ => None,
    })
}

/// Prints the number of events, of idle turns, and of letters that nobody took.
fn report(rt: &HostRuntime, ran: &Ran<u64, u64>) -> io::Result<()> {
    let idle = match ran.rounds {
        Rounds::Spent { idle, .. } => idle,
        Rounds::Stopped | Rounds::Memory => 0,
    };
    let (events, left) = (ran.events.len(), ran.left.len());
    println!(rt; "events {events} idle {idle} left {left}")
}
