use crate::Slot;
use og_base::{Block, Frame};

const BLOCK: Block = Block {
    frame: Frame { home: 3, index: 5 },
    number: 31,
};

// What happens to a taken slot.
#[derive(Clone, Copy, Debug)]
enum Call {
    Ack(bool),
    Intervene,
}

// Makes the calls in their order on a slot that was just taken, as long as it is taken.
fn after(calls: &[Call]) -> Slot {
    let mut slot = Slot::free();
    slot.put(BLOCK);
    for call in calls {
        if !slot.is_free() {
            match *call {
                Call::Ack(busy) => slot.ack(busy),
                Call::Intervene => slot.intervene(),
            }
        }
    }
    slot
}

// Each row of the table: the calls, the flags of a slot that is still taken, and none where it is free.
#[test]
fn settles(rt: HostRuntime) {
    let table: [(&[Call], Option<(bool, bool)>); 8] = [
        (&[], Some((false, false))),
        (&[Call::Ack(false)], None),
        (&[Call::Ack(true)], Some((true, false))),
        (&[Call::Intervene], Some((false, true))),
        // The home took the write-back for the intervention's answer: both come, in either order.
        (&[Call::Intervene, Call::Ack(true)], None),
        (&[Call::Ack(true), Call::Intervene], None),
        // A plain acknowledgement frees the slot whatever was seen.
        (&[Call::Intervene, Call::Ack(false)], None),
        (&[Call::Ack(true), Call::Ack(true)], Some((true, false))),
    ];
    for (calls, flags) in table {
        let slot = match flags {
            None => Slot::Free,
            Some((busy, seen)) => Slot::Taken {
                block: BLOCK,
                busy,
                seen,
            },
        };
        assert_eq!(rt; after(calls), slot, "{calls:?}");
        assert_eq!(rt; after(calls).holds(BLOCK), flags.is_some(), "{calls:?}");
    }
}

// A slot holds its block and no other of the same frame, and a free one holds none.
#[test]
fn holds_its_block(rt: HostRuntime) {
    let mut slot = Slot::free();
    assert!(rt; slot.is_free());
    assert!(rt; !slot.holds(BLOCK));
    slot.put(BLOCK);
    assert!(rt; !slot.is_free());
    assert!(rt; slot.holds(BLOCK));
    let other = Block {
        number: 30,
        ..BLOCK
    };
    assert!(rt; !slot.holds(other));
}
