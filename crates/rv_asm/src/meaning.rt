//! What the parts of an instruction mean.

ghost use Rattle.std.specs.Prelude.{◌≡◌, true, ℕ, ◌+◌, ◌*◌, ◌^◌, ◌<◌, ◌≤◌, ℤ, pos, int_le, Ok, Err, Some, None, cond, IfOk};
ghost use Rattle.rv_asm.specs.declared.form.Form.TheVariants.{Data};
ghost use Rattle.rv_decode.specs.Fields.{sign_extended};
ghost use Rattle.std.specs.Int.{w64, cast_unsigned};
ghost use Rattle.rv_asm.specs.Syntax.{value_of};
ghost use Rattle.rv_asm.specs.Names.{form_of, form_for};
ghost use Rattle.rv_asm.specs.Meaning.{takes, all_registers, registers_in, target, value_in, draft_of, lowest, highest, is_even, is_stepped, is_in_range, immediate_of, instr_of, word_by, distance, within, number_in, word_in};
ghost use Rattle.rv_asm.specs.Near.{IsNear};
ghost use Rattle.rv_asm.specs.Found.{places_in};
ghost use Rattle.rv_asm.specs.Seen.{parts_seen, value_seen, draft_seen, result_draft_seen};

use crate::form::{Form, form_of};
use crate::labels::{Labels, place_of};
use crate::line::{Parts, Shape};
use crate::names::{Mnemonic, Ordering, mnemonic_in};
use crate::number::{FAR, number_of, register_in};
use crate::source::SourceCause;
use rv_decode::{Instr, Op, encode};

/// The registers of an instruction: 0 where it has none.
#[derive(Clone, Copy, PartialEq, Eq, Debug)]
pub struct Registers {
    pub rd: u8,
    pub rs1: u8,
    pub rs2: u8,
}

/// A number, as a word or by a label; or none.
#[derive(Clone, Copy, Debug)]
pub(crate) enum Value<'a> {
    NoNumber,
    Written(&'a [u8]),
    Target(&'a [u8]),
}

/// An instruction whose number isn't known yet.
#[derive(Clone, Copy, Debug)]
pub(crate) struct Draft<'a> {
    pub(crate) mnemonic: Mnemonic,
    pub(crate) registers: Registers,
    pub(crate) value: Value<'a>,
}

/// Whether a form takes these operands.
fn takes(form: Form, shape: Shape) -> bool
    ensures { result ≡ takes form shape }
{
    match form {
        Form::Upper => matches!(shape, Shape::NameNumber),
        Form::Jump => matches!(shape, Shape::NameNumber | Shape::NameName),
        Form::Branch => matches!(shape, Shape::NameNameNumber | Shape::NameNameName),
        Form::Offset | Form::Store => matches!(shape, Shape::NameOffset),
        Form::Immediate | Form::Shift | Form::ShiftWord | Form::Fence => {
            matches!(shape, Shape::NameNameNumber)
        }
        Form::Register => matches!(shape, Shape::NameNameName),
        Form::Bare => matches!(shape, Shape::Nothing),
        Form::Reserve => matches!(shape, Shape::NameAddress),
        Form::Atomic => matches!(shape, Shape::NameNameAddress),
        Form::Data => matches!(shape, Shape::Number),
    }
}

/// The three, where each of them is a register.
fn all_registers(rd: Option<u8>, rs1: Option<u8>, rs2: Option<u8>) -> Option<Registers>
    ensures { result ≡ all_registers rd rs1 rs2 }
{
    let rd = rd?;
    let rs1 = rs1?;
    let rs2 = rs2?;
    Some(Registers { rd, rs1, rs2 })
}

/// Which operand is which register.
fn registers_in(form: Form, parts: &Parts<'_>) -> Option<Registers>
    ensures { result ≡ registers_in form (parts_seen parts.now) }
{
    let first = register_in(parts.first);
    let second = register_in(parts.second);
    let third = register_in(parts.third);
    let none = Some(0);
    match form {
        Form::Upper | Form::Jump => all_registers(first, none, none),
        Form::Branch => all_registers(none, first, second),
        Form::Offset => all_registers(first, third, none),
        Form::Store => all_registers(none, third, first),
        Form::Immediate | Form::Shift | Form::ShiftWord => all_registers(first, second, none),
        Form::Fence | Form::Reserve => all_registers(first, second, none),
        Form::Register => all_registers(first, second, third),
        Form::Atomic => all_registers(first, third, second),
        Form::Bare | Form::Data => all_registers(none, none, none),
    }
}

/// A target, by what stands there.
fn target(shape: Shape, word: &[u8]) -> Value<'_>
    ensures { value_seen result ≡ target shape word.now }
{
    match shape {
        Shape::NameName | Shape::NameNameName => Value::Target(word),
        _ => Value::Written(word),
    }
}

/// Which operand is the number.
fn value_in<'a>(form: Form, parts: &Parts<'a>) -> Value<'a>
    ensures { value_seen result ≡ value_in form (parts_seen parts.now) }
{
    match form {
        Form::Upper | Form::Offset | Form::Store => Value::Written(parts.second),
        Form::Jump => target(parts.shape, parts.second),
        Form::Branch => target(parts.shape, parts.third),
        Form::Immediate | Form::Shift | Form::ShiftWord | Form::Fence => {
            Value::Written(parts.third)
        }
        Form::Register | Form::Bare | Form::Reserve | Form::Atomic => Value::NoNumber,
        Form::Data => Value::Written(parts.first),
    }
}

/// What a mnemonic takes.
fn form_for(mnemonic: Mnemonic) -> Form
    ensures { result ≡ form_for mnemonic }
{
    match mnemonic {
        Mnemonic::Word => Form::Data,
        Mnemonic::Named(op, _) => form_of(op),
    }
}

/// The draft of an instruction; or, of `Name`, `Operands` and `Register`, the first that applies.
#[tactic(auto, unfolding(crate::specs::Meaning::draft_of))]
pub(crate) fn draft_of<'a>(parts: &Parts<'a>) -> Result<Draft<'a>, SourceCause>
    ensures { result_draft_seen result ≡ draft_of (parts_seen parts.now) }
{
    let Some(mnemonic) = mnemonic_in(parts.mnemonic) else {
        return Err(SourceCause::Name);
    };
    let form = form_for(mnemonic);
    if !takes(form, parts.shape) {
        return Err(SourceCause::Operands);
    }
    let Some(registers) = registers_in(form, parts) else {
        return Err(SourceCause::Register);
    };
    Ok(Draft {
        mnemonic,
        registers,
        value: value_in(form, parts),
    })
}

// ------------------------------------------------------------------------------ numbers

/// The least number of a form.
fn lowest(form: Form) -> i64
    ensures { result ≡ lowest form }
{
    match form {
        Form::Jump => -1_048_576,
        Form::Branch => -4_096,
        Form::Offset | Form::Store | Form::Immediate => -2_048,
        _ => 0,
    }
}

/// The greatest number of a form.
fn highest(form: Form) -> i64
    ensures { result ≡ highest form }
{
    match form {
        Form::Upper => 1_048_575,
        Form::Jump => 1_048_574,
        Form::Branch => 4_094,
        Form::Offset | Form::Store | Form::Immediate => 2_047,
        Form::Shift => 63,
        Form::ShiftWord => 31,
        Form::Fence => 4_095,
        Form::Data => 4_294_967_295,
        Form::Register | Form::Bare | Form::Reserve | Form::Atomic => 0,
    }
}

fn is_even(number: i64) -> bool
    ensures { result ≡ is_even number }
{
    number.cast_unsigned() % 2 == 0
}

/// The distance of a jump or a branch is even.
fn is_stepped(form: Form, number: i64) -> bool
    ensures { result ≡ is_stepped form number }
{
    match form {
        Form::Jump | Form::Branch => is_even(number),
        _ => true,
    }
}

/// Whether a number is in the range of its row.
#[tactic(auto, unfolding(crate::specs::Meaning::is_in_range))]
fn is_in_range(form: Form, number: i64) -> bool
    ensures { result ≡ is_in_range form number }
{
    lowest(form) <= number && number <= highest(form) && is_stepped(form, number)
}

/// A number in the range of a form.
fn within(form: Form, number: i64) -> Result<i64, SourceCause>
    ensures value { result ≡ within form number }
    ensures in_range { IfOk result (λ n. is_in_range form n ≡ true) }
{
    if is_in_range(form, number) {
        Ok(number)
    } else {
        Err(SourceCause::Range)
    }
}

/// A number that is written.
fn written(form: Form, word: &[u8]) -> Result<i64, SourceCause>
    ensures value { result ≡ within form (value_of word.now) }
    ensures in_range { IfOk result (λ n. is_in_range form n ≡ true) }
{
    within(form, number_of(word))
}

/// The bytes from the instruction at an index to a place.
fn distance(index: u64, place: u64) -> i64
    requires { index ≤ 245760 }
    ensures { IsNear result (distance index place) }
{
    (place.min(FAR) as i64 - index as i64) * 4
}

/// The distance to a place.
fn to_place(form: Form, index: u64, place: u64) -> Result<i64, SourceCause>
    requires { index ≤ 245760 }
    ensures value { result ≡ within form (distance index place) }
    ensures in_range { IfOk result (λ n. is_in_range form n ≡ true) }
{
    within(form, distance(index, place))
}

/// The number of the instruction at an index.
fn number_in(
    labels: &Labels<'_>,
    form: Form,
    index: u64,
    value: Value<'_>,
) -> Result<i64, SourceCause>
    requires { index ≤ 245760 }
    ensures value { result ≡ number_in (places_in labels.now) form index (value_seen value.entry) }
    ensures in_range { IfOk result (λ n. is_in_range form n ≡ true) }
{
    match value {
        Value::NoNumber => within(form, 0),
        Value::Written(word) => written(form, word),
        Value::Target(name) => match place_of(labels, name) {
            None => Err(SourceCause::Label),
            Some(place) => to_place(form, index, place.index),
        },
    }
}

// ------------------------------------------------------------------------------ words

/// The signed number that the low `count` bits are.
fn sign_extend(count: u32, number: u64) -> i64
    requires some { 0 < count }
    requires narrow { count ≤ 32 }
    requires fits { number < 2 ^ count }
    ensures { result ≡ sign_extended count number }
{
    if number < 1 << (count - 1) {
        number as i64
    } else {
        number as i64 - (1 << count)
    }
}

/// The immediate that a number in its range stands for.
#[tactic(auto, unfolding(crate::specs::Meaning::is_in_range))]
fn immediate_of(form: Form, number: i64) -> i64
    requires { is_in_range form number ≡ true }
    ensures { result ≡ immediate_of form number }
{
    match form {
        Form::Upper => sign_extend(32, number.cast_unsigned() * 4_096),
        Form::Fence => sign_extend(12, number.cast_unsigned()),
        _ => number,
    }
}

/// An instruction of its parts.
fn instr_of(op: Op, ordering: Ordering, registers: Registers, imm: i64) -> Instr
    ensures { result ≡ instr_of op ordering registers imm }
{
    Instr {
        op,
        rd: registers.rd,
        rs1: registers.rs1,
        rs2: registers.rs2,
        imm,
        aq: ordering.aq,
        rl: ordering.rl,
    }
}

/// A number of 32 bits as a word.
#[tactic(auto, unfolding(crate::specs::Meaning::is_in_range))]
fn data_word(number: i64) -> u32
    requires { is_in_range Data number ≡ true }
    ensures { result ≡ cast_unsigned w64 number }
{
    number.cast_unsigned() as u32
}

/// The word of a mnemonic, its registers and its number.
fn word_by(mnemonic: Mnemonic, registers: Registers, number: i64) -> u32
    requires { is_in_range (form_for mnemonic) number ≡ true }
    ensures { result ≡ word_by mnemonic registers number }
{
    match mnemonic {
        Mnemonic::Word => data_word(number),
        Mnemonic::Named(op, ordering) => encode(&instr_of(
            op,
            ordering,
            registers,
            immediate_of(form_of(op), number),
        )),
    }
}

/// The word of the instruction at an index.
#[tactic(auto, unfolding(crate::specs::Meaning::word_in))]
pub(crate) fn word_in(
    labels: &Labels<'_>,
    index: u64,
    draft: &Draft<'_>,
) -> Result<u32, SourceCause>
    requires { index ≤ 245760 }
    ensures { result ≡ word_in (places_in labels.now) index (draft_seen draft.now) }
{
    let form = form_for(draft.mnemonic);
    let number = number_in(labels, form, index, draft.value)?;
    Ok(word_by(draft.mnemonic, draft.registers, number))
}
