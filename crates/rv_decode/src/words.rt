// An instruction's fields, put back in their places in a word.

ghost use Rattle.std.specs.Prelude.{◌≡◌, ◌+◌, ◌*◌, ◌%◌, ◌^◌, ◌<◌, ◌≤◌};
ghost use Rattle.rv_decode.specs.declared.Format.TheVariants.{Register, Immediate, Shift, ShiftWord, Store, Branch, Upper, Jump, Whole, Reserve, Atomic};
ghost use Rattle.rv_decode.specs.Fields.{bits_of};
ghost use Rattle.rv_decode.specs.Words.{above_of, fixed_of, imm_word, ordering_at, register_at, sources_of, word_of};

use crate::fields::bits;
use crate::{Format, Instr, Row};

/// A register's number at bit `low`.
fn register_bits(register: u8, low: u32) -> u32
    requires { low ≤ 20 }
    ensures { result ≡ register_at register low }
{
    u32::from(register % 32) << low
}

/// So many bits of an immediate, from bit `from` upwards, at bit `low`.
fn moved(imm: u32, from: u32, count: u32, low: u32) -> u32
    requires some { 0 < count }
    requires narrow { count < 32 }
    requires within { from + count ≤ 32 }
    requires room { low + count ≤ 32 }
    ensures { result ≡ bits_of imm from count * 2 ^ low }
{
    bits(imm, from, count) << low
}

/// The low 32 bits of the immediate.
fn low_word(instr: &Instr) -> u32
    ensures { result ≡ imm_word instr.now }
{
    (instr.imm.cast_unsigned() % (1 << 32)) as u32
}

/// The two bits of ordering.
fn ordering(instr: &Instr) -> u32
    ensures { result ≡ ordering_at instr.now }
{
    (u32::from(instr.aq) << 26) + (u32::from(instr.rl) << 25)
}

/// Opcode and funct3.
fn fixed(row: &Row) -> u32
    requires opcode { row.now.opcode < 128 }
    requires funct3 { row.now.funct3 < 8 }
    ensures { result ≡ fixed_of row.now }
{
    row.opcode + (row.funct3 << 12)
}

/// Both source registers.
fn sources(instr: &Instr) -> u32
    ensures { result ≡ sources_of instr.now }
{
    register_bits(instr.rs1, 15) + register_bits(instr.rs2, 20)
}

/// The word of an instruction of this row.
pub(crate) fn assemble(row: &Row, instr: &Instr) -> u32
    requires opcode { row.now.opcode < 128 }
    requires funct3 { row.now.funct3 < 8 }
    requires above { above_of row.now < 2 ^ 32 }
    ensures { result ≡ word_of row.now.format row.now instr.now }
{
    let imm = low_word(instr);
    let rd = register_bits(instr.rd, 7);
    let rs1 = register_bits(instr.rs1, 15);
    let fixed = fixed(row);
    match row.format {
        Format::Register => fixed + rd + sources(instr) + (row.above << 25),
        Format::Immediate => fixed + rd + rs1 + moved(imm, 0, 12, 20),
        Format::Shift => fixed + rd + rs1 + moved(imm, 0, 6, 20) + (row.above << 26),
        Format::ShiftWord => fixed + rd + rs1 + moved(imm, 0, 5, 20) + (row.above << 25),
        Format::Store => { fixed + moved(imm, 0, 5, 7) + sources(instr) + moved(imm, 5, 7, 25) }
        Format::Branch => {
            fixed
                + moved(imm, 11, 1, 7)
                + moved(imm, 1, 4, 8)
                + sources(instr)
                + moved(imm, 5, 6, 25)
                + moved(imm, 12, 1, 31)
        }
        Format::Upper => row.opcode + rd + moved(imm, 12, 20, 12),
        Format::Jump => {
            row.opcode
                + rd
                + moved(imm, 12, 8, 12)
                + moved(imm, 11, 1, 20)
                + moved(imm, 1, 10, 21)
                + moved(imm, 20, 1, 31)
        }
        Format::Whole => row.opcode + (row.above << 20),
        Format::Reserve => fixed + rd + rs1 + ordering(instr) + (row.above << 27),
        Format::Atomic => fixed + rd + sources(instr) + ordering(instr) + (row.above << 27),
    }
}
