use super::*;
use og_runs::{MsgId, Stamp};
use std::mem::size_of;

const BLOCK: Block = Block {
    frame: Frame { home: 1, index: 5 },
    number: 31,
};

fn key(kind: Kind, sender: ActorId, to: ActorId, victim: bool) -> Key {
    let msg = Msg {
        id: MsgId { sender, seq: 9 },
        to,
        stamp: Stamp {
            clock: 4,
            actor: sender,
        },
        kind,
    };
    charge(&msg, victim)
}

// A machine of four nodes, whose mover is actor 4.
#[test]
fn keys(rt: HostRuntime) {
    let block = BLOCK;
    let frame = BLOCK.frame;
    let page = VPage(256);
    let line = Line::zero();
    let hot = Hot {
        frame,
        node: 2,
        count: 64,
        most: 1,
    };
    let table = [
        (Kind::Upgrade { block }, 2, 1, false, Key::Ask(2)),
        (
            Kind::ExclusiveReply {
                block,
                line,
                acks: 3,
            },
            1,
            2,
            false,
            Key::Ask(2),
        ),
        (Kind::PoisonRead { block }, 4, 1, false, Key::Ask(4)),
        (
            Kind::PoisonReply {
                block,
                line,
                acks: 3,
            },
            1,
            4,
            false,
            Key::Ask(4),
        ),
        (Kind::CleanFrame { frame }, 4, 1, false, Key::Ask(4)),
        (Kind::WriteBack { block, line }, 2, 1, true, Key::Back(2)),
        (Kind::WbBusyAck { block }, 1, 2, true, Key::Back(2)),
        (
            Kind::InterveneEx {
                block,
                requester: 2,
            },
            1,
            3,
            false,
            Key::Busy(block),
        ),
        (
            Kind::InterveneEx {
                block,
                requester: 2,
            },
            1,
            3,
            true,
            Key::Left(3),
        ),
        (Kind::IntervenePoison { block }, 1, 3, true, Key::Left(3)),
        (Kind::DirtyTransfer { block }, 3, 1, false, Key::Busy(block)),
        (
            Kind::Invalidate {
                block,
                requester: 2,
            },
            1,
            3,
            false,
            Key::Inv(2, 3),
        ),
        (Kind::InvalAck { block }, 3, 2, false, Key::Inv(2, 3)),
        (
            Kind::SharedResponse { block, line },
            3,
            2,
            false,
            Key::Resp(2),
        ),
        (Kind::Hot(hot), 1, 4, false, Key::Note(frame)),
        (Kind::Rearm { frame }, 4, 1, false, Key::Note(frame)),
        (Kind::Walk { page }, 3, 4, false, Key::Walk(3)),
        (Kind::Walked { page, frame }, 4, 3, false, Key::Walk(3)),
        (Kind::DropFrame { frame }, 4, 3, false, Key::Drop(3)),
        (Kind::Dropped { frame }, 3, 4, false, Key::Drop(3)),
    ];
    for (kind, sender, to, victim, expected) in table {
        assert_eq!(rt; key(kind, sender, to, victim), expected);
    }
}

// An outbox is filled, read in order, cleared and filled again.
#[test]
fn an_outbox_is_reused(rt: HostRuntime) {
    let mut out = Outbox::empty();
    for _ in 0..2 {
        assert_eq!(rt; out.letters().len(), 0);
        for to in 0..132 {
            assert!(rt; out.letters().len() < 132);
            out.add(Letter {
                to,
                kind: Kind::Nak { block: BLOCK },
            });
        }
        assert_eq!(rt; out.letters().len(), 132);
        assert_eq!(rt; out.letters()[131].to, 131);
        out.clear();
    }
}

#[test]
fn sizes(rt: HostRuntime) {
    assert!(rt; size_of::<Msg>() < 256);
    assert!(rt; size_of::<Outbox>() < 23_000);
}
