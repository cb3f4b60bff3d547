use super::*;
use std::test::Fail;

fn act(actor: u8, clock: u64) -> Event<u8> {
    Event {
        choice: Choice::Act(actor),
        stamp: Stamp { clock, actor },
        note: None,
    }
}

// Events with equal clocks stand in the order of actors.
#[test]
fn logs_merge_by_clock_then_actor(rt: HostRuntime) -> Result<(), Fail> {
    let first = vec![in rt.alloc(); act(0, 1), act(0, 4)]?;
    let second = vec![in rt.alloc(); act(1, 1), act(1, 2), act(1, 4)]?;
    let logs = vec![in rt.alloc(); Log { events: second }, Log { events: first }]?;
    let merged = merge(rt.alloc(), &logs)?;
    let mut stamps = Vec::new(rt.alloc());
    for event in &merged {
        stamps.push((event.stamp.clock, event.stamp.actor))?;
    }
    assert_eq!(rt;
        stamps.as_slice(),
        [(1, 0), (1, 1), (2, 1), (4, 0), (4, 1)].as_slice()
    );
    let none: Vec<Log<u8>> = Vec::new(rt.alloc());
    assert_eq!(rt; merge(rt.alloc(), &none)?.len(), 0);
    Ok(())
}

// An act is stamped above its actor's clock, a take above its message's too.
#[test]
fn events_are_stamped_above_what_they_follow(rt: HostRuntime) -> Result<(), Fail> {
    let sent = act_stamp(4, 0);
    assert_eq!(rt; sent, Stamp { clock: 5, actor: 0 });
    assert_eq!(rt; take_stamp(2, sent, 2), Stamp { clock: 6, actor: 2 });
    assert_eq!(rt; take_stamp(7, sent, 2), Stamp { clock: 8, actor: 2 });
    Ok(())
}
