// What an instruction computes: the value of its result, its access and its target.

ghost use Rattle.std.specs.Prelude.{◌≡◌, IfSome, true};
ghost use Rattle.og_line.specs.Access.{HasWidth};
ghost use Rattle.rv_hart.specs.Effect.{byte_extended, half_extended, word_extended};
ghost use Rattle.rv_hart.specs.Work.{access_by, alu_value, extended, is_met, is_width_known, target_by, value_by, word_alu_value};

use crate::work::{Alu, Condition, WordAlu, Work};
use og_line::{Access, low_bytes};

/// The low 8 bits, sign-extended.
fn extend_byte(x: u64) -> u64
    ensures { result ≡ byte_extended x }
{
    i64::from(((x & 0xff) as u8).cast_signed()).cast_unsigned()
}

/// The low 16 bits, sign-extended.
fn extend_half(x: u64) -> u64
    ensures { result ≡ half_extended x }
{
    i64::from(((x & 0xffff) as u16).cast_signed()).cast_unsigned()
}

/// The low 32 bits, sign-extended.
fn extend_word(x: u64) -> u64
    ensures { result ≡ word_extended x }
{
    i64::from(((x & 0xffff_ffff) as u32).cast_signed()).cast_unsigned()
}

/// The low bytes of an answer, sign-extended.
fn extend(width: u8, x: u64) -> u64
    ensures { result ≡ extended width x }
{
    match width {
        1 => extend_byte(x),
        2 => extend_half(x),
        4 => extend_word(x),
        _ => x,
    }
}

/// Arithmetic on 64 bits.
fn compute(alu: Alu, a: u64, b: u64) -> u64
    ensures { result ≡ alu_value alu a b }
{
    match alu {
        Alu::Add => a.wrapping_add(b),
        Alu::Sub => a.wrapping_sub(b),
        Alu::ShiftLeft => a << (b % 64),
        Alu::Less => u64::from(a.cast_signed() < b.cast_signed()),
        Alu::LessUnsigned => u64::from(a < b),
        Alu::Xor => a ^ b,
        Alu::ShiftRight => a >> (b % 64),
        Alu::ShiftRightSigned => (a.cast_signed() >> (b % 64)).cast_unsigned(),
        Alu::Or => a | b,
        Alu::And => a & b,
    }
}

/// Arithmetic on 32 bits, with the result sign-extended.
fn compute_word(alu: WordAlu, a: u64, b: u64) -> u64
    ensures { result ≡ word_alu_value alu a b }
{
    let low = (a & 0xffff_ffff) as u32;
    match alu {
        WordAlu::Add => extend_word(a.wrapping_add(b)),
        WordAlu::Sub => extend_word(a.wrapping_sub(b)),
        WordAlu::ShiftLeft => extend_word(a << (b % 32)),
        WordAlu::ShiftRight => extend_word(u64::from(low >> (b % 32))),
        WordAlu::ShiftRightSigned => i64::from(low.cast_signed() >> (b % 32)).cast_unsigned(),
    }
}

/// Whether a branch is taken.
fn meets(condition: Condition, a: u64, b: u64) -> bool
    ensures { result ≡ is_met condition a b }
{
    match condition {
        Condition::Equal => a == b,
        Condition::NotEqual => a != b,
        Condition::Less => a.cast_signed() < b.cast_signed(),
        Condition::NotLess => a.cast_signed() >= b.cast_signed(),
        Condition::LessUnsigned => a < b,
        Condition::NotLessUnsigned => a >= b,
    }
}

// What the result register gets, where there is a result.
#[tactic(auto, unfolding(crate::specs::Work::value_by))]
pub(crate) fn result_value(
    work: Work,
    imm: u64,
    pc: u64,
    a: u64,
    b: u64,
    answer: u64,
) -> Option<u64>
    ensures { result ≡ value_by work imm pc a b answer }
{
    match work {
        Work::Upper => Some(imm),
        Work::UpperPc => Some(pc.wrapping_add(imm)),
        Work::Jump | Work::JumpRegister => Some(pc.wrapping_add(4)),
        Work::Immediate(alu) => Some(compute(alu, a, imm)),
        Work::Register(alu) => Some(compute(alu, a, b)),
        Work::ImmediateWord(alu) => Some(compute_word(alu, a, imm)),
        Work::RegisterWord(alu) => Some(compute_word(alu, a, b)),
        Work::Load { width, signed } => Some(if signed {
            extend(width, answer)
        } else {
            answer
        }),
        Work::Reserve { width } | Work::Atomic { width, .. } => Some(extend(width, answer)),
        Work::Conditional { .. } => Some(answer),
        Work::Branch(_) | Work::Store { .. } | Work::Fence | Work::Call | Work::Break => None,
    }
}

// The access to memory, where there is one.
#[tactic(auto, using(crate::proofs::Agreement::width_known, crate::proofs::Agreement::atomic_width_known, crate::proofs::Agreement::both_widths_known), unfolding(crate::specs::Work::access_by))]
pub(crate) fn memory_access(work: Work, imm: u64, a: u64, b: u64) -> Option<Access>
    requires { is_width_known work ≡ true }
    ensures value { result ≡ access_by work imm a b }
    ensures width { IfSome result HasWidth }
{
    match work {
        Work::Load { width, .. } => Some(Access::Load {
            addr: a.wrapping_add(imm),
            width,
        }),
        Work::Store { width } => Some(Access::Store {
            addr: a.wrapping_add(imm),
            width,
            value: low_bytes(width, b),
        }),
        Work::Reserve { width } => Some(Access::Reserve { addr: a, width }),
        Work::Conditional { width } => Some(Access::Conditional {
            addr: a,
            width,
            value: low_bytes(width, b),
        }),
        Work::Atomic { op, width } => Some(Access::Atomic {
            op,
            addr: a,
            width,
            value: low_bytes(width, b),
        }),
        _ => None,
    }
}

// The target of a jump or of a branch that is taken.
#[tactic(auto, unfolding(crate::specs::Work::target_by))]
pub(crate) fn jump_target(work: Work, imm: u64, pc: u64, a: u64, b: u64) -> Option<u64>
    ensures { result ≡ target_by work imm pc a b }
{
    match work {
        Work::Jump => Some(pc.wrapping_add(imm)),
        Work::JumpRegister => {
            let target = a.wrapping_add(imm);
            Some(target - target % 2)
        }
        Work::Branch(condition) if meets(condition, a, b) => Some(pc.wrapping_add(imm)),
        _ => None,
    }
}
