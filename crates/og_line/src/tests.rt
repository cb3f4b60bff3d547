ghost use Rattle.std.specs.Prelude.{◌+◌, ◌<◌, ◌≤◌};
ghost use Rattle.og_line.specs.Access.{IsAligned};

use crate::{Access, AtomicOp, Line, Reservation};
use std::process::Abort;

// The number of `width` bytes that the operation leaves of an old number and an operand.
fn left_by(op: AtomicOp, old: u64, operand: u64) -> u64 {
    let mut line = Line::zero();
    line.store(120, 8, old);
    let _ = line.atomic(120, 8, op, operand);
    line.load(120, 8)
}

// The same for 4 bytes.
fn word_left_by(op: AtomicOp, old: u64, operand: u64) -> u64 {
    let mut line = Line::zero();
    line.store(4, 4, old);
    let _ = line.atomic(4, 4, op, operand);
    line.load(4, 4)
}

// What the manual says of each operation, on 4 bytes: operation, old number, operand, new number.
#[test]
fn atomics_of_words(rt: HostRuntime) {
    let table = [
        (AtomicOp::Swap, 0x1, 0x2, 0x2),
        (AtomicOp::Swap, 0x1, 0xffff_ffff_0000_0005, 0x5),
        (AtomicOp::Add, 0xffff_ffff, 0x1, 0x0),
        (AtomicOp::Add, 0x7fff_ffff, 0x1, 0x8000_0000),
        (AtomicOp::Add, 0x0, 0xffff_ffff_ffff_ffff, 0xffff_ffff),
        (AtomicOp::Xor, 0xffff_ffff, 0xffff_ffff, 0x0),
        (AtomicOp::Xor, 0x0f0f_0f0f, 0xf0f0_f0f0, 0xffff_ffff),
        (AtomicOp::And, 0xffff_0000, 0x0ff0_0ff0, 0x0ff0_0000),
        (AtomicOp::Or, 0xffff_0000, 0x0ff0_0ff0, 0xffff_0ff0),
        (AtomicOp::Min, 0x8000_0000, 0x7fff_ffff, 0x8000_0000),
        (AtomicOp::Min, 0x0, 0xffff_ffff, 0xffff_ffff),
        (AtomicOp::Min, 0x1, 0x0, 0x0),
        (AtomicOp::Max, 0x8000_0000, 0x7fff_ffff, 0x7fff_ffff),
        (AtomicOp::Max, 0xffff_ffff, 0x1, 0x1),
        (AtomicOp::Max, 0x0, 0xffff_ffff, 0x0),
        (AtomicOp::Minu, 0x8000_0000, 0x7fff_ffff, 0x7fff_ffff),
        (AtomicOp::Minu, 0x0, 0xffff_ffff, 0x0),
        (AtomicOp::Maxu, 0x8000_0000, 0x7fff_ffff, 0x8000_0000),
        (AtomicOp::Maxu, 0x0, 0xffff_ffff, 0xffff_ffff),
    ];
    for (op, old, operand, new) in table {
        assert_eq!(rt;
            word_left_by(op, old, operand),
            new,
            "{op:?} {old:x} {operand:x}"
        );
    }
}

// The same on 8 bytes.
#[test]
fn atomics_of_doublewords(rt: HostRuntime) {
    let table = [
        (
            AtomicOp::Swap,
            0x1,
            0xffff_ffff_0000_0005,
            0xffff_ffff_0000_0005,
        ),
        (AtomicOp::Add, 0xffff_ffff_ffff_ffff, 0x1, 0x0),
        (AtomicOp::Add, 0xffff_ffff, 0x1, 0x1_0000_0000),
        (
            AtomicOp::Xor,
            0xffff_ffff_ffff_ffff,
            0xffff_ffff_0000_0000,
            0xffff_ffff,
        ),
        (
            AtomicOp::And,
            0xffff_ffff_0000_0000,
            0x0ff0_0ff0_0ff0_0ff0,
            0x0ff0_0ff0_0000_0000,
        ),
        (
            AtomicOp::Or,
            0x8000_0000_0000_0000,
            0x1,
            0x8000_0000_0000_0001,
        ),
        (
            AtomicOp::Min,
            0x8000_0000_0000_0000,
            0x7fff_ffff_ffff_ffff,
            0x8000_0000_0000_0000,
        ),
        (
            AtomicOp::Min,
            0x0,
            0xffff_ffff_ffff_ffff,
            0xffff_ffff_ffff_ffff,
        ),
        (
            AtomicOp::Max,
            0x8000_0000_0000_0000,
            0x7fff_ffff_ffff_ffff,
            0x7fff_ffff_ffff_ffff,
        ),
        (AtomicOp::Max, 0xffff_ffff_ffff_ffff, 0x0, 0x0),
        (
            AtomicOp::Minu,
            0x8000_0000_0000_0000,
            0x7fff_ffff_ffff_ffff,
            0x7fff_ffff_ffff_ffff,
        ),
        (
            AtomicOp::Maxu,
            0x8000_0000_0000_0000,
            0x7fff_ffff_ffff_ffff,
            0x8000_0000_0000_0000,
        ),
        (
            AtomicOp::Maxu,
            0xffff_ffff_ffff_ffff,
            0x0,
            0xffff_ffff_ffff_ffff,
        ),
    ];
    for (op, old, operand, new) in table {
        assert_eq!(rt;
            left_by(op, old, operand),
            new,
            "{op:?} {old:x} {operand:x}"
        );
    }
}

// Bytes lie with the lowest first, and a store changes no other byte.
#[test]
fn bytes_of_stores(rt: HostRuntime) {
    let mut line = Line::zero();
    line.store(0, 8, 0x0807_0605_0403_0201);
    line.store(2, 2, 0xffff_bbaa);
    line.store(5, 1, 0x1ff);
    assert_eq!(rt; line.load(0, 8), 0x0807_ff05_bbaa_0201);
    assert_eq!(rt; line.load(4, 4), 0x0807_ff05);
    assert_eq!(rt; line.load(2, 2), 0xbbaa);
    assert_eq!(rt; line.load(7, 1), 0x08);
    assert_eq!(rt; line.load(8, 8), 0);
    assert_eq!(rt; line.stores, 3);
}

// One access of a hart that has this reservation.
fn perform(
    rt: &impl Abort,
    line: &mut Line,
    reserved: &mut Option<Reservation>,
    access: Access,
    answer: u64,
)
    requires aligned { IsAligned access }
    requires young { line.old.stores < 100 }
    ensures { line.new.stores ≤ line.old.stores + 1 }
{
    assert_eq!(rt; line.perform(&access, reserved), answer, "{access:?}");
}

const PLACE: u64 = 0x10_0008;

// A conditional store fails after any store to its block, also of the value that was there, and it
// ends its reservation either way.
#[test]
fn reservations(rt: HostRuntime) {
    let mut line = Line::zero();
    let mut mine = None;
    let mut other = None;
    let reserve = Access::Reserve {
        addr: PLACE,
        width: 4,
    };
    let same = Access::Store {
        addr: PLACE,
        width: 4,
        value: 0,
    };
    let five = Access::Conditional {
        addr: PLACE,
        width: 4,
        value: 5,
    };
    perform(&rt, &mut line, &mut mine, reserve, 0);
    perform(&rt, &mut line, &mut other, same, 0);
    perform(&rt, &mut line, &mut mine, five, 1);
    assert_eq!(rt; mine, None);
    assert_eq!(rt; line.load(8, 4), 0);
    perform(&rt, &mut line, &mut mine, reserve, 0);
    perform(&rt, &mut line, &mut mine, five, 0);
    assert_eq!(rt; line.load(8, 4), 5);
    perform(&rt, &mut line, &mut mine, five, 1);
    perform(&rt, &mut line, &mut mine, reserve, 5);
    let wide = Access::Conditional {
        addr: PLACE,
        width: 8,
        value: 5,
    };
    perform(&rt, &mut line, &mut mine, wide, 1);
    assert_eq!(rt; mine, None);
}
