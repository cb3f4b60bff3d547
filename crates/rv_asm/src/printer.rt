//! From words to a source.
//!
//! The printer adds to one vector. After want of memory the text is dropped.

ghost use Rattle.std.specs.Prelude.{◌≡◌, ◌++◌, ◌∷◌, [], ◌%◌, ◌^◌, Ok, OnOk, IfOk, codes, decimal};
ghost use Rattle.std.specs.Fmt.{signed_decimal};
ghost use Rattle.rv_decode.specs.Words.{imm_word};
ghost use Rattle.rv_asm.specs.Names.{form_of};
ghost use Rattle.rv_asm.specs.Printed.{register_text, operands, tokens_text, blank_before, mnemonic_text, instr_text, word_text, printed};
ghost use Rattle.rv_asm.specs.Laws.{IsProgram};
ghost use Rattle.rv_asm.specs.Source.{assembled};

use crate::NoMemory;
use crate::form::{Form, form_of};
use crate::names::{Ordering, name_of, ordering_text};
use itoa::Buffer;
use rv_decode::{Instr, decode};
use std::alloc::Global;

fn push_byte(text: &mut Vec<u8>, byte: u8) -> Result<(), NoMemory>
    ensures { OnOk result (text.new.items ≡ text.old.items ++ byte ∷ []) }
{
    text.push(byte)?;
    Ok(())
}

fn push_natural(text: &mut Vec<u8>, number: u64) -> Result<(), NoMemory>
    ensures { OnOk result (text.new.items ≡ text.old.items ++ decimal number) }
{
    let mut buffer = Buffer::new();
    text.extend_from_slice(buffer.format(number).as_bytes())
}

fn push_number(text: &mut Vec<u8>, number: i64) -> Result<(), NoMemory>
    ensures { OnOk result (text.new.items ≡ text.old.items ++ signed_decimal number) }
{
    let mut buffer = Buffer::new();
    text.extend_from_slice(buffer.format(number).as_bytes())
}

fn push_register(text: &mut Vec<u8>, register: u8) -> Result<(), NoMemory>
    ensures { OnOk result (text.new.items ≡ text.old.items ++ register_text register) }
{
    push_byte(text, b'x')?;
    push_natural(text, u64::from(register))
}

/// The low 32 bits of the immediate.
fn imm_word(instr: &Instr) -> u64
    ensures { result ≡ imm_word instr.now }
{
    instr.imm.cast_unsigned() % (1 << 32)
}

/// A register and a comma.
fn push_first(text: &mut Vec<u8>, register: u8) -> Result<(), NoMemory>
    ensures { OnOk result (text.new.items ≡ text.old.items ++ (register_text register ++ codes ",")) }
{
    push_register(text, register)?;
    push_byte(text, b',')
}

/// A register in brackets.
fn push_address(text: &mut Vec<u8>, register: u8) -> Result<(), NoMemory>
    ensures { OnOk result (text.new.items ≡ text.old.items ++ (codes "(" ++ (register_text register ++ codes ")"))) }
{
    push_byte(text, b'(')?;
    push_register(text, register)?;
    push_byte(text, b')')
}

/// Two registers and a number.
fn push_two(text: &mut Vec<u8>, first: u8, second: u8, number: i64) -> Result<(), NoMemory>
    ensures { OnOk result (text.new.items ≡ text.old.items ++ (register_text first ++ (codes "," ++ (register_text second ++ (codes "," ++ signed_decimal number))))) }
{
    push_first(text, first)?;
    push_first(text, second)?;
    push_number(text, number)
}

/// A register, and a number with a register in brackets.
fn push_offset(text: &mut Vec<u8>, first: u8, number: i64, base: u8) -> Result<(), NoMemory>
    ensures { OnOk result (text.new.items ≡ text.old.items ++ (register_text first ++ (codes "," ++ (signed_decimal number ++ (codes "(" ++ (register_text base ++ codes ")")))))) }
{
    push_first(text, first)?;
    push_number(text, number)?;
    push_address(text, base)
}

/// The operands of an instruction.
fn push_operands(text: &mut Vec<u8>, form: Form, instr: &Instr) -> Result<(), NoMemory>
    ensures { OnOk result (text.new.items ≡ text.old.items ++ tokens_text (operands form instr.now)) }
{
    match form {
        Form::Upper => {
            push_first(text, instr.rd)?;
            push_natural(text, imm_word(instr) / (1 << 12))
        }
        Form::Jump => {
            push_first(text, instr.rd)?;
            push_number(text, instr.imm)
        }
        Form::Branch => push_two(text, instr.rs1, instr.rs2, instr.imm),
        Form::Offset => push_offset(text, instr.rd, instr.imm, instr.rs1),
        Form::Store => push_offset(text, instr.rs2, instr.imm, instr.rs1),
        Form::Immediate | Form::Shift | Form::ShiftWord => {
            push_two(text, instr.rd, instr.rs1, instr.imm)
        }
        Form::Register => {
            push_first(text, instr.rd)?;
            push_first(text, instr.rs1)?;
            push_register(text, instr.rs2)
        }
        Form::Fence => {
            push_first(text, instr.rd)?;
            push_first(text, instr.rs1)?;
            push_natural(text, imm_word(instr) % (1 << 12))
        }
        Form::Reserve => {
            push_first(text, instr.rd)?;
            push_address(text, instr.rs1)
        }
        Form::Atomic => {
            push_first(text, instr.rd)?;
            push_first(text, instr.rs2)?;
            push_address(text, instr.rs1)
        }
        Form::Bare | Form::Data => Ok(()),
    }
}

fn push_mnemonic(text: &mut Vec<u8>, instr: &Instr) -> Result<(), NoMemory>
    ensures { OnOk result (text.new.items ≡ text.old.items ++ mnemonic_text instr.now) }
{
    let ordering = Ordering {
        aq: instr.aq,
        rl: instr.rl,
    };
    text.extend_from_slice(name_of(instr.op))?;
    text.extend_from_slice(ordering_text(ordering))
}

/// A blank, where there are operands.
fn push_blank(text: &mut Vec<u8>, form: Form) -> Result<(), NoMemory>
    ensures { OnOk result (text.new.items ≡ text.old.items ++ blank_before form) }
{
    match form {
        Form::Bare | Form::Data => Ok(()),
        _ => push_byte(text, b' '),
    }
}

/// The text of an instruction.
#[tactic(auto, using(crate::proofs::Prints::spaced_is))]
fn push_instr(text: &mut Vec<u8>, instr: &Instr) -> Result<(), NoMemory>
    ensures { OnOk result (text.new.items ≡ text.old.items ++ instr_text instr.now) }
{
    let form = form_of(instr.op);
    push_mnemonic(text, instr)?;
    push_blank(text, form)?;
    push_operands(text, form, instr)
}

/// The text of a word.
#[tactic(auto, unfolding(crate::specs::Printed::word_text))]
fn push_word(text: &mut Vec<u8>, word: u32) -> Result<(), NoMemory>
    ensures { OnOk result (text.new.items ≡ text.old.items ++ word_text word) }
{
    match decode(word) {
        Some(instr) => push_instr(text, &instr),
        None => {
            text.extend_from_slice(b".word ")?;
            push_natural(text, u64::from(word))
        }
    }
}

/// The text of words, a line for each. Of 1 to 245,760 words it assembles to these words.
pub fn print(alloc: Global, words: &[u32]) -> Result<Vec<u8>, NoMemory>
    ensures text { IfOk result (λ text. text.items ≡ printed words.now) }
    ensures assembles { IfOk result (λ text. IsProgram words.now → assembled text.items ≡ Ok words.now) }
{
    let mut text = Vec::new(alloc);
    for word in words {
        push_word(&mut text, *word)?;
        text.push(b'\n')?;
    }
    Ok(text)
}
