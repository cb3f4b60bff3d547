use super::*;
use og_actors::NoGate;
use og_actors::rounds::Rounds;
use og_runs::Choice;
use std::sync::atomic::{AtomicBool, AtomicU64, Ordering};
use std::test::Fail;

// Each of two actors in threads gets the numbers 0 to 999 of the other's letters, each once, in any order.
#[test]
fn each_gets_what_the_other_sent(rt: HostRuntime) -> Result<(), Fail> {
    let ran = run(&rt, rt.alloc(), &NoGate, 2, 1000, 4000, 500)?;
    let mut times = [[0u8; 1000]; 2];
    let mut clock = 0;
    for event in &ran.events {
        assert_eq!(rt; clock <= event.stamp.clock, true);
        clock = event.stamp.clock;
        if let Choice::Take(actor, id) = event.choice {
            assert_eq!(rt;
                (u64::from(id.sender) != u64::from(actor), id.seq < 1000),
                (true, true)
            );
            let from = &mut times[usize::from(id.sender) % 2];
            let number = id.seq as usize % 1000;
            from[number] = from[number].wrapping_add(1);
        }
    }
    assert_eq!(rt; times, [[1u8; 1000]; 2]);
    assert_eq!(rt;
        (ran.rounds, ran.events.len(), ran.left.len()),
        (Rounds::Stopped, 4000, 0)
    );
    Ok(())
}

// Rings of one actor, of five, and of more actors than there are processors; rounds of one turn.
#[test]
fn rings_of_all_sizes(rt: HostRuntime) -> Result<(), Fail> {
    for (actors, budget, rounds, turns) in [
        (1, 50, 40, 10),
        (5, 100, 4000, 200),
        (100, 4, 4000, 20),
        (3, 5, 4000, 1),
    ] {
        let ran = run(&rt, rt.alloc(), &NoGate, actors, budget, rounds, turns)?;
        let letters = u64::from(actors).wrapping_mul(budget);
        assert_eq!(rt; ran.events.len() as u64, letters.wrapping_mul(2));
        assert_eq!(rt; (ran.rounds, ran.left.len()), (Rounds::Stopped, 0));
    }
    Ok(())
}

// One actor of two letters: three turns are two takes and an act; what was sent and not taken is left.
#[test]
fn what_nobody_took_is_left(rt: HostRuntime) -> Result<(), Fail> {
    let none = run(&rt, rt.alloc(), &NoGate, 1, 2, 0, 5)?;
    assert_eq!(rt;
        (none.rounds, none.events.len()),
        (Rounds::Spent { events: 0, idle: 0 }, 0)
    );
    // The turns are: an act, a take, an act.
    let three = run(&rt, rt.alloc(), &NoGate, 1, 2, 3, 1)?;
    assert_eq!(rt; three.rounds, Rounds::Spent { events: 3, idle: 0 });
    let mut left = [0u64; 1];
    for message in &three.left {
        left[0] = left[0].wrapping_add(message.id.seq);
    }
    assert_eq!(rt; (three.left.len(), left), (1, [1]));
    Ok(())
}

// An empty queue, another's message, what was put back, its own message.
#[test]
fn two_seats_by_hand(rt: HostRuntime) -> Result<(), Fail> {
    assert_eq!(rt; by_hand::exchange_anew(&rt, rt.alloc())?, true);
    Ok(())
}

/// At its first turn each of two actors raises its flag, and looks for the other's.
#[derive(Drop)]
struct Meeting {
    here: [AtomicBool; 2],
    seen: AtomicU64,
}

impl Gate for Meeting {
    fn turn(&self, actor: u8, turn: u64) {
        if turn != 0 {
            return;
        }
        let own = usize::from(actor) % 2;
        self.here[own].store(true, Ordering::SeqCst);
        for _ in 0..100_000_000u64 {
            if self.here[1 - own].load(Ordering::SeqCst) {
                self.seen.fetch_add(1, Ordering::SeqCst);
                return;
            }
        }
    }
}

// One thread never passes this gate: both actors have to be at their first turn at once.
#[test]
fn two_actors_see_each_other(rt: HostRuntime) -> Result<(), Fail> {
    let gate = Meeting {
        here: [AtomicBool::new(false), AtomicBool::new(false)],
        seen: AtomicU64::new(0),
    };
    let ran = run(&rt, rt.alloc(), &gate, 2, 1, 1, 1)?;
    assert_eq!(rt;
        (gate.seen.load(Ordering::SeqCst), ran.events.len()),
        (2, 2)
    );
    Ok(())
}
