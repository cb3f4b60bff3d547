//! Lines and accesses: the flat memory's rule on one block of 128 bytes.
//!
//! A [`Line`] is what a block holds: its bytes and the number of stores that it has seen. A load, a
//! store, an atomic and a conditional store of the RISC-V unprivileged manual (chapters RV64I and
//! "A") work on one line at a time. [`Line::perform`] is the whole rule for one [`Access`]: what it
//! answers, what it leaves of the line, and what it leaves of its hart's [`Reservation`].
//!
//! Nothing of the machine stands below this crate. Caches, messages and homes carry lines without
//! looking inside them; the flat memory is a line per block.
#![tactic(auto)]

ghost use Rattle.std.specs.Prelude.{◌≡◌, ◌≢◌, ◌+◌, ◌^◌, ◌<◌, Some, if◌then◌else◌};
ghost use Rattle.og_line.specs.Line.{IsWidth, IsAtomicWidth, low_bytes_of, signed_of};
ghost use Rattle.og_line.specs.Access.{standing_of};
ghost use Rattle.og_line.specs.Laws.{StoredIsLoaded, OtherBytesStay, StoresAreCounted};

use byteorder::{ByteOrder, LittleEndian};

#[cfg(test)]
mod tests;

/// The bytes of a line.
pub const LINE_BYTES: u64 = 128;

/// An atomic memory operation: what becomes of the old number and the operand.
#[derive(Clone, Copy, PartialEq, Eq, Debug)]
pub enum AtomicOp {
    Swap,
    Add,
    Xor,
    And,
    Or,
    /// The lesser as signed numbers.
    Min,
    /// The greater as signed numbers.
    Max,
    /// The lesser as unsigned numbers.
    Minu,
    /// The greater as unsigned numbers.
    Maxu,
}

/// How a cache holds a line.
#[derive(Clone, Copy, PartialEq, Eq, Debug)]
pub enum Mode {
    /// Other copies may exist; not to be written.
    Shared,
    /// The only copy, equal to the home's line.
    Clean,
    /// The only copy, newer than the home's line.
    Dirty,
}

/// An access to memory: `width` bytes (1, 2, 4 or 8; 4 or 8 but for loads and stores) from address
/// `addr`, which is a multiple of the width.
#[derive(Clone, Copy, PartialEq, Eq, Debug)]
pub enum Access {
    Load {
        addr: u64,
        width: u8,
    },
    Store {
        addr: u64,
        width: u8,
        value: u64,
    },
    /// A load that reserves what it reads for a conditional store.
    Reserve {
        addr: u64,
        width: u8,
    },
    /// A store that is made only where the reservation still stands.
    Conditional {
        addr: u64,
        width: u8,
        value: u64,
    },
    /// A load and a store in one.
    Atomic {
        op: AtomicOp,
        addr: u64,
        width: u8,
        value: u64,
    },
}

/// A hart's reservation: address and width of the reserve, and the number of stores that its block
/// had seen.
#[derive(Clone, Copy, PartialEq, Eq, Debug)]
pub struct Reservation {
    pub addr: u64,
    pub width: u8,
    pub stores: u64,
}

/// The 128 bytes of a block, and the number of stores that it has seen.
#[derive(Clone, Copy, PartialEq)]
pub struct Line {
    pub bytes: [u8; 128],
    pub stores: u64,
}

impl Access {
    ghost use Rattle.og_line.specs.Access.{addr_of, width_of, is_write};

    /// The address.
    pub fn addr(&self) -> u64
        ensures { result ≡ addr_of self.now }
    {
        match *self {
            Access::Load { addr, .. }
            | Access::Store { addr, .. }
            | Access::Reserve { addr, .. }
            | Access::Conditional { addr, .. }
            | Access::Atomic { addr, .. } => addr,
        }
    }

    /// The width in bytes.
    pub fn width(&self) -> u8
        ensures { result ≡ width_of self.now }
    {
        match *self {
            Access::Load { width, .. }
            | Access::Store { width, .. }
            | Access::Reserve { width, .. }
            | Access::Conditional { width, .. }
            | Access::Atomic { width, .. } => width,
        }
    }

    /// Whether the access may store, and so needs a copy that may be written.
    pub fn writes(&self) -> bool
        ensures { result ≡ is_write self.now }
    {
        match *self {
            Access::Load { .. } | Access::Reserve { .. } => false,
            Access::Store { .. } | Access::Conditional { .. } | Access::Atomic { .. } => true,
        }
    }
}

/// The low bytes of a number: what an access carries of a register.
pub fn low_bytes(width: u8, value: u64) -> u64
    requires { IsWidth width }
    ensures { result ≡ low_bytes_of width value }
{
    if width == 8 {
        value
    } else {
        value % (1 << (8 * width))
    }
}

/// The number of stores that a reservation of this address and width has.
fn standing_number(reserved: Option<Reservation>, addr: u64, width: u8) -> Option<u64>
    ensures { result ≡ standing_of reserved addr width }
{
    match reserved {
        Some(reservation) if reservation.addr == addr && reservation.width == width => {
            Some(reservation.stores)
        }
        _ => None,
    }
}

/// The signed number that 4 or 8 bytes are.
fn signed(width: u8, value: u64) -> i64
    requires width_known { IsAtomicWidth width }
    requires fits { value < 256 ^ width }
    ensures { result ≡ signed_of width value }
{
    if width == 4 {
        i64::from((value as u32).cast_signed())
    } else {
        value.cast_signed()
    }
}

impl AtomicOp {
    ghost use Rattle.og_line.specs.Line.{IsAtomicWidth, atomic_value};

    /// What the operation stores, by the old number of 4 or 8 bytes and the operand.
    fn value(self, width: u8, old: u64, operand: u64) -> u64
        requires width_known { IsAtomicWidth width }
        requires fits { old < 256 ^ width }
        ensures { result ≡ atomic_value self width old operand }
    {
        let operand = low_bytes(width, operand);
        match self {
            AtomicOp::Swap => operand,
            AtomicOp::Add => low_bytes(width, old.wrapping_add(operand)),
            AtomicOp::Xor => old ^ operand,
            AtomicOp::And => old & operand,
            AtomicOp::Or => old | operand,
            AtomicOp::Min if signed(width, old) <= signed(width, operand) => old,
            AtomicOp::Min => operand,
            AtomicOp::Max if signed(width, old) <= signed(width, operand) => operand,
            AtomicOp::Max => old,
            AtomicOp::Minu => old.min(operand),
            AtomicOp::Maxu => old.max(operand),
        }
    }
}

impl Line {
    ghost use Rattle.og_line.specs.Line.{IsPlace, IsAtomicWidth, zero_line, load_of, store_of, atomic_value};
    ghost use Rattle.og_line.specs.Access.{IsAligned, answer_of, line_after, reservation_after};

    /// A line of zero bytes that has seen no store.
    pub fn zero() -> Line
        ensures { result ≡ zero_line }
    {
        Line {
            bytes: [0; 128],
            stores: 0,
        }
    }

    /// The little-endian number of `width` bytes from byte `at`.
    pub fn load(&self, at: u8, width: u8) -> u64
        requires { IsPlace at width }
        ensures value { result ≡ load_of self.now at width }
        ensures fits { result < 256 ^ width }
    {
        LittleEndian::read_uint(&self.bytes[usize::from(at)..], usize::from(width))
    }

    /// Writes the low `width` bytes of `value` from byte `at`, and counts the store.
    pub fn store(&mut self, at: u8, width: u8, value: u64)
        requires place { IsPlace at width }
        requires young { self.old.stores < 2 ^ 63 }
        ensures { self.new ≡ store_of self.old at width value }
    {
        LittleEndian::write_uint(
            &mut self.bytes[usize::from(at)..],
            low_bytes(width, value),
            usize::from(width),
        );
        self.stores += 1;
    }

    /// Stores what the operation makes of the number of `width` bytes from byte `at` (4 or 8) and
    /// `value`, and gives the old number.
    pub fn atomic(&mut self, at: u8, width: u8, op: AtomicOp, value: u64) -> u64
        requires place { IsPlace at width }
        requires width_known { IsAtomicWidth width }
        requires young { self.old.stores < 2 ^ 63 }
        ensures answer { result ≡ load_of self.old at width }
        ensures line { self.new ≡ store_of self.old at width (atomic_value op width (load_of self.old at width) value) }
    {
        let old = self.load(at, width);
        self.store(at, width, op.value(width, old, value));
        old
    }

    /// Stores the low bytes of `value` and answers 0 where `reserved` is the present number of
    /// stores; else answers 1 and changes nothing.
    pub fn conditional(&mut self, at: u8, width: u8, value: u64, reserved: Option<u64>) -> u64
        requires place { IsPlace at width }
        requires width_known { IsAtomicWidth width }
        requires young { self.old.stores < 2 ^ 63 }
        ensures stored { reserved ≡ Some self.old.stores → result ≡ 0 }
        ensures line { reserved ≡ Some self.old.stores → self.new ≡ store_of self.old at width value }
        ensures refused { reserved ≢ Some self.old.stores → result ≡ 1 }
        ensures unchanged { reserved ≢ Some self.old.stores → self.new ≡ self.old }
    {
        if reserved == Some(self.stores) {
            self.store(at, width, value);
            0
        } else {
            1
        }
    }

    /// Makes an access of a hart to this block: the flat memory's rule.
    pub fn perform(&mut self, access: &Access, reserved: &mut Option<Reservation>) -> u64
        requires aligned { IsAligned access.now }
        requires young { self.old.stores < 2 ^ 63 }
        ensures answer { result ≡ answer_of self.old reserved.old access.now }
        ensures line { self.new ≡ line_after self.old reserved.old access.now }
        ensures reservation { reserved.new ≡ reservation_after self.old reserved.old access.now }
    {
        let at = (access.addr() % LINE_BYTES) as u8;
        match *access {
            Access::Load { width, .. } => self.load(at, width),
            Access::Store { width, value, .. } => {
                self.store(at, width, value);
                0
            }
            Access::Reserve { addr, width } => {
                *reserved = Some(Reservation {
                    addr,
                    width,
                    stores: self.stores,
                });
                self.load(at, width)
            }
            Access::Conditional { addr, width, value } => {
                let standing = standing_number(*reserved, addr, width);
                *reserved = None;
                self.conditional(at, width, value, standing)
            }
            Access::Atomic {
                op,
                width,
                value,
                ..
            } => self.atomic(at, width, op, value),
        }
    }
}

/// What was stored at a place is what a load of it gives.
pub fn stored_is_loaded()
    ensures { StoredIsLoaded }
{}

/// A store changes no byte outside its place.
pub fn other_bytes_stay()
    ensures { OtherBytesStay }
{}

/// A store leaves a line of 128 bytes and counts itself.
pub fn stores_are_counted()
    ensures { StoresAreCounted }
{}
