use crate::{Held, Outcome, Request, Want};
use og_base::{Block, Frame};
use og_line::{Line, Mode};
use og_msg::Kind;

const BLOCK: Block = Block {
    frame: Frame { home: 0, index: 3 },
    number: 9,
};

// A line that has seen so many stores.
fn line(stores: u64) -> Line {
    Line {
        stores,
        ..Line::zero()
    }
}

fn shared_reply(stores: u64) -> Kind {
    Kind::SharedReply {
        block: BLOCK,
        line: line(stores),
    }
}

fn exclusive_reply(stores: u64, acks: u8) -> Kind {
    Kind::ExclusiveReply {
        block: BLOCK,
        line: line(stores),
        acks,
    }
}

fn spec_reply(stores: u64) -> Kind {
    Kind::SpecReply {
        block: BLOCK,
        line: line(stores),
    }
}

fn upgrade_reply(acks: u8) -> Kind {
    Kind::UpgradeReply { block: BLOCK, acks }
}

fn shared_response(stores: u64) -> Kind {
    Kind::SharedResponse {
        block: BLOCK,
        line: line(stores),
    }
}

fn exclusive_response(stores: u64) -> Kind {
    Kind::ExclusiveResponse {
        block: BLOCK,
        line: line(stores),
    }
}

const OWNER_ACK: Kind = Kind::OwnerAck { block: BLOCK };

const ACK: Kind = Kind::InvalAck { block: BLOCK };

const NAK: Kind = Kind::Nak { block: BLOCK };

const POISON: Kind = Kind::PoisonError { block: BLOCK };

fn filled(mode: Mode, stores: u64) -> Outcome {
    Outcome::Filled {
        mode,
        line: Some(line(stores)),
    }
}

// A new request, marked or not. Only reads are marked.
fn issued(want: Want, marked: bool) -> Request {
    let mut request = Request::issue(want, BLOCK);
    if marked && request.want() == Want::Read {
        request.mark();
    }
    request
}

// What becomes of a request that receives these parts in this order. None where one of them has no row, or comes when the
// request is over.
fn outcome(want: Want, marked: bool, parts: &[Kind]) -> Option<Outcome> {
    let mut request = issued(want, marked);
    let mut last = Outcome::Waiting;
    for part in parts {
        if last != Outcome::Waiting || !request.has_row(part) {
            return None;
        }
        last = request.reply(part);
    }
    Some(last)
}

// Each row of the table, in its order, with the mark where it tells. The parts come in each order.
#[test]
fn rows(rt: HostRuntime) {
    let kept = Outcome::Filled {
        mode: Mode::Dirty,
        line: None,
    };
    let table: [(Want, bool, &[Kind], Outcome); 24] = [
        (
            Want::Read,
            false,
            &[shared_reply(1)],
            filled(Mode::Shared, 1),
        ),
        (Want::Read, true, &[shared_reply(1)], Outcome::Again),
        (
            Want::Read,
            false,
            &[exclusive_reply(1, 0)],
            filled(Mode::Clean, 1),
        ),
        (
            Want::Read,
            true,
            &[exclusive_reply(1, 0)],
            filled(Mode::Clean, 1),
        ),
        (
            Want::Read,
            false,
            &[spec_reply(1), shared_response(2)],
            filled(Mode::Shared, 2),
        ),
        (
            Want::Read,
            false,
            &[shared_response(2), spec_reply(1)],
            filled(Mode::Shared, 2),
        ),
        (
            Want::Read,
            true,
            &[spec_reply(1), shared_response(2)],
            Outcome::Again,
        ),
        (
            Want::Read,
            false,
            &[spec_reply(1), OWNER_ACK],
            filled(Mode::Shared, 1),
        ),
        (
            Want::Read,
            false,
            &[OWNER_ACK, spec_reply(1)],
            filled(Mode::Shared, 1),
        ),
        (
            Want::Read,
            true,
            &[OWNER_ACK, spec_reply(1)],
            Outcome::Again,
        ),
        (
            Want::ReadEx,
            false,
            &[exclusive_reply(1, 0)],
            filled(Mode::Dirty, 1),
        ),
        (
            Want::ReadEx,
            false,
            &[ACK, exclusive_reply(1, 2), ACK],
            filled(Mode::Dirty, 1),
        ),
        (
            Want::ReadEx,
            false,
            &[ACK, ACK, exclusive_reply(1, 2)],
            filled(Mode::Dirty, 1),
        ),
        (
            Want::ReadEx,
            false,
            &[spec_reply(1), exclusive_response(2)],
            filled(Mode::Dirty, 2),
        ),
        (
            Want::ReadEx,
            false,
            &[exclusive_response(2), spec_reply(1)],
            filled(Mode::Dirty, 2),
        ),
        (
            Want::ReadEx,
            false,
            &[spec_reply(1), OWNER_ACK],
            filled(Mode::Dirty, 1),
        ),
        (Want::Upgrade, false, &[upgrade_reply(0)], kept),
        (Want::Upgrade, false, &[ACK, upgrade_reply(1)], kept),
        // In a group the home sends the line along.
        (
            Want::Upgrade,
            false,
            &[exclusive_reply(3, 1), ACK],
            filled(Mode::Dirty, 3),
        ),
        (Want::Read, true, &[NAK], Outcome::Again),
        (Want::ReadEx, false, &[NAK], Outcome::Again),
        (Want::Upgrade, false, &[NAK], Outcome::Again),
        (Want::Read, false, &[POISON], Outcome::Poisoned),
        (Want::Upgrade, false, &[POISON], Outcome::Poisoned),
    ];
    for (row, (want, marked, parts, expected)) in table.into_iter().enumerate() {
        assert!(rt; outcome(want, marked, parts) == Some(expected), "row {row}");
        for missing in 0..parts.len() {
            assert!(rt;
                outcome(want, marked, &parts[..missing]) == Some(Outcome::Waiting),
                "row {row} to {missing}"
            );
        }
    }
}

// Messages that no row has, after these parts.
#[test]
fn no_rows(rt: HostRuntime) {
    let table: [(Want, &[Kind], Kind); 12] = [
        (Want::Read, &[], ACK),
        (Want::Read, &[], exclusive_reply(1, 1)),
        (Want::Read, &[], upgrade_reply(0)),
        (Want::Read, &[], exclusive_response(1)),
        (Want::Read, &[spec_reply(1)], spec_reply(1)),
        (Want::Read, &[OWNER_ACK], NAK),
        (Want::ReadEx, &[], shared_reply(1)),
        (Want::ReadEx, &[ACK, ACK], exclusive_reply(1, 1)),
        (Want::ReadEx, &[OWNER_ACK], exclusive_response(1)),
        (Want::Upgrade, &[], spec_reply(1)),
        (Want::Upgrade, &[ACK], NAK),
        (
            Want::Upgrade,
            &[],
            Kind::Walk {
                page: og_base::VPage(1),
            },
        ),
    ];
    for (row, (want, parts, last)) in table.into_iter().enumerate() {
        let mut request = issued(want, false);
        for part in parts {
            if request.has_row(part) {
                let _ = request.reply(part);
            }
        }
        assert!(rt; !request.has_row(&last), "row {row}");
    }
    let other = Kind::Nak {
        block: Block { number: 8, ..BLOCK },
    };
    assert!(rt; !issued(Want::Read, false).has_row(&other));
}

// What a request tells of itself.
#[test]
fn tells(rt: HostRuntime) {
    let mut request = Request::issue(Want::ReadEx, BLOCK);
    assert_eq!(rt; request.block(), BLOCK);
    assert_eq!(rt; request.want(), Want::ReadEx);
    assert!(rt; request.response().is_none());
    assert!(rt; request.held().is_none());
    let part = exclusive_response(4);
    assert!(rt; request.has_row(&part));
    assert!(rt; request.reply(&part) == Outcome::Waiting);
    assert!(rt; request.response().copied() == Some(line(4)));
    assert!(rt; request.held().is_none());
    request.hold(Held::Shared(5));
    assert_eq!(rt; request.held(), Some(Held::Shared(5)));
}
