use super::*;
use og_runs::Choice::{Act, Take};
use std::test::Fail;

/// The name of a message.
fn id(sender: u8, seq: u64) -> MsgId {
    MsgId { sender, seq }
}

/// Sends a message that is new, where there is room.
fn send(choices: &mut Choices<u8>, sender: u8, seq: u64, to: u8) {
    let id = id(sender, seq);
    let stamp = Stamp {
        clock: 1,
        actor: sender,
    };
    let flight = choices.flight();
    if flight.len() < flight.room() && !flight.holds(id) {
        choices.send(Msg {
            id,
            to,
            stamp,
            kind: 7,
        });
    }
}

/// Takes a message that is in flight to this receiver.
fn take(choices: &mut Choices<u8>, to: u8, id: MsgId) -> Option<Msg<u8>> {
    let k = choices.flight().place(to, id)?;
    Some(choices.take_at(k))
}

/// Marks a node that there is.
fn mark(choices: &mut Choices<u8>, node: u8, on: bool) {
    if node < choices.nodes {
        choices.mark(node, on);
    }
}

/// All choices, in their order.
fn all(alloc: Global, choices: &Choices<u8>) -> Result<Vec<Choice>, AllocError> {
    let mut list = Vec::new(alloc);
    for at in 0..choices.count() {
        if at < choices.count() {
            list.push(choices.choice(at))?;
        }
    }
    Ok(list)
}

// Choices of three nodes and the actor behind them stand by actor. An actor's act comes before its takes, and these stand by sender,
// then number, whatever the order in which messages were sent and acts marked.
#[test]
fn choices_stand_in_their_order(rt: HostRuntime) -> Result<(), Fail> {
    let mut choices = Choices::make(rt.alloc(), 5, 3)?;
    assert_eq!(rt; choices.count(), 0);
    send(&mut choices, 2, 5, 1);
    mark(&mut choices, 2, true);
    send(&mut choices, 3, 0, 0);
    choices.mark_last(true);
    send(&mut choices, 0, 9, 1);
    send(&mut choices, 1, 0, 3);
    mark(&mut choices, 1, true);
    send(&mut choices, 2, 4, 1);
    let list = all(rt.alloc(), &choices)?;
    let wanted = [
        Take(0, id(3, 0)),
        Act(1),
        Take(1, id(0, 9)),
        Take(1, id(2, 4)),
        Take(1, id(2, 5)),
        Act(2),
        Act(3),
        Take(3, id(1, 0)),
    ];
    assert_eq!(rt; list.as_slice(), wanted.as_slice());
    Ok(())
}

// A choice goes with its message or its mark, and the others stay. A mark that is set twice, or cleared twice, changes nothing.
#[test]
fn choices_come_and_go(rt: HostRuntime) -> Result<(), Fail> {
    let mut choices = Choices::make(rt.alloc(), 2, 2)?;
    send(&mut choices, 1, 0, 1);
    send(&mut choices, 0, 0, 1);
    for _ in 0..2 {
        mark(&mut choices, 1, true);
        mark(&mut choices, 0, true);
        choices.mark_last(true);
    }
    assert_eq!(rt; choices.count(), 5);
    let taken = take(&mut choices, 1, id(0, 0)).ok_or("not there")?;
    assert_eq!(rt;
        (taken.id, taken.to, taken.stamp.actor, taken.kind),
        (id(0, 0), 1, 0, 7)
    );
    let list = all(rt.alloc(), &choices)?;
    let wanted = [Act(0), Act(1), Take(1, id(1, 0)), Act(2)];
    assert_eq!(rt; list.as_slice(), wanted.as_slice());
    for _ in 0..2 {
        mark(&mut choices, 1, false);
        choices.mark_last(false);
    }
    assert_eq!(rt;
        (choices.may_act(0), choices.may_act(1), choices.may_act(2)),
        (true, false, false)
    );
    let list = all(rt.alloc(), &choices)?;
    assert_eq!(rt; list.as_slice(), [Act(0), Take(1, id(1, 0))].as_slice());
    Ok(())
}

// A message is taken by its receiver alone, and once. What is not there for the actor changes nothing.
#[test]
fn a_message_is_for_its_receiver(rt: HostRuntime) -> Result<(), Fail> {
    let mut choices = Choices::make(rt.alloc(), 2, 2)?;
    send(&mut choices, 0, 3, 2);
    choices.mark_last(true);
    for (to, seq) in [(1, 3), (0, 3), (2, 4)] {
        assert!(rt; take(&mut choices, to, id(0, seq)).is_none(), "{to} {seq}");
    }
    let list = all(rt.alloc(), &choices)?;
    let wanted = [Act(2), Take(2, id(0, 3))];
    assert_eq!(rt; list.as_slice(), wanted.as_slice());
    assert!(rt; take(&mut choices, 2, id(0, 3)).is_some());
    assert!(rt; take(&mut choices, 2, id(0, 3)).is_none());
    let list = all(rt.alloc(), &choices)?;
    assert_eq!(rt; list.as_slice(), [Act(2)].as_slice());
    Ok(())
}

// The letters of an event become messages in their order, numbered from the event's first number on.
#[test]
fn letters_are_numbered_from_the_first(rt: HostRuntime) -> Result<(), Fail> {
    let mut choices = Choices::make(rt.alloc(), 4, 2)?;
    let stamp = Stamp { clock: 6, actor: 1 };
    let letters = [
        Letter { to: 2, kind: 10u8 },
        Letter { to: 0, kind: 11 },
        Letter { to: 2, kind: 12 },
    ];
    choices.post(stamp, 40, &letters);
    mark(&mut choices, 0, true);
    let list = all(rt.alloc(), &choices)?;
    let wanted = [
        Act(0),
        Take(0, id(1, 41)),
        Take(2, id(1, 40)),
        Take(2, id(1, 42)),
    ];
    assert_eq!(rt; list.as_slice(), wanted.as_slice());
    let taken = take(&mut choices, 2, id(1, 42)).ok_or("not there")?;
    assert_eq!(rt; (taken.stamp, taken.kind), (stamp, 12));
    Ok(())
}

// With 128 nodes, the most that there can be, the actor behind them has the number 128.
#[test]
fn choices_of_the_most_nodes(rt: HostRuntime) -> Result<(), Fail> {
    let mut choices = Choices::make(rt.alloc(), 3, 128)?;
    for node in [127, 63, 64, 0] {
        mark(&mut choices, node, true);
    }
    choices.mark_last(true);
    send(&mut choices, 5, 1, 128);
    send(&mut choices, 128, 0, 127);
    send(&mut choices, 64, 2, 63);
    mark(&mut choices, 0, false);
    let list = all(rt.alloc(), &choices)?;
    let wanted = [
        Act(63),
        Take(63, id(64, 2)),
        Act(64),
        Act(127),
        Take(127, id(128, 0)),
        Act(128),
        Take(128, id(5, 1)),
    ];
    assert_eq!(rt; list.as_slice(), wanted.as_slice());
    Ok(())
}

// With the nodes 0, 63, 64 and 127 marked: how many are below an actor, and whether that node is marked.
#[test]
fn marks_of_both_halves(rt: HostRuntime) {
    let mut marks = 0;
    for node in [64, 0, 127, 63] {
        marks = with_mark(marks, node, true);
    }
    let table = [
        (0, 0, true),
        (1, 1, false),
        (63, 1, true),
        (64, 2, true),
        (65, 3, false),
        (127, 3, true),
        (128, 4, false),
    ];
    for (actor, below, marked) in table {
        assert!(rt; actor <= 128);
        assert_eq!(rt; count_below(marks, actor), below, "{actor}");
        assert_eq!(rt; has_mark(marks, actor), marked, "{actor}");
    }
    assert_eq!(rt; with_mark(marks, 64, false), 1 << 127 | 1 << 63 | 1);
    assert_eq!(rt; with_mark(marks, 2, false), marks);
}
