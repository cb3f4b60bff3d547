//! Instruction words of RV64IA: from a 32-bit word to an instruction and back.
//!
//! The definition (`specs/Rows.antt`) is the manual's listing, a list of 74 rows; the code takes the
//! bit fields of a word apart. Nothing of the machine stands below this crate; the hart stands above.
#![tactic(auto)]

ghost use Rattle.std.specs.Prelude.{◌≡◌, IfSome};
ghost use Rattle.byteorder.specs.Endian.{little_bytes, little_number};
ghost use Rattle.rv_decode.specs.Rows.{decode_of, HasRegisters, NoWordTwice};
ghost use Rattle.rv_decode.specs.Words.{encode_of, EncodesBack};

use crate::fields::bits;
use crate::forms::{jump_form, upper_form};
use crate::opcodes::{
    atomic, branch, fence, immediate_op, immediate_word_op, jump_register, load, register_op,
    register_word_op, store, system,
};
use crate::rows::find_row;
use crate::words::assemble;
use byteorder::{ByteOrder, LittleEndian};

mod fields;
mod forms;
mod names;
mod opcodes;
mod rows;
#[cfg(test)]
mod tests;
mod words;

/// The instructions of RV64I and of the extension for atomics, by the manual's names.
#[derive(Clone, Copy, PartialEq, Eq, Debug)]
pub enum Op {
    Lui,
    Auipc,
    Jal,
    Jalr,
    Beq,
    Bne,
    Blt,
    Bge,
    Bltu,
    Bgeu,
    Lb,
    Lh,
    Lw,
    Ld,
    Lbu,
    Lhu,
    Lwu,
    Sb,
    Sh,
    Sw,
    Sd,
    Addi,
    Slti,
    Sltiu,
    Xori,
    Ori,
    Andi,
    Slli,
    Srli,
    Srai,
    Add,
    Sll,
    Slt,
    Sltu,
    Xor,
    Srl,
    Or,
    And,
    Sub,
    Sra,
    Addiw,
    Slliw,
    Srliw,
    Sraiw,
    Addw,
    Sllw,
    Srlw,
    Subw,
    Sraw,
    Fence,
    Ecall,
    Ebreak,
    LrW,
    LrD,
    ScW,
    AmoswapW,
    AmoaddW,
    AmoxorW,
    AmoandW,
    AmoorW,
    AmominW,
    AmomaxW,
    AmominuW,
    AmomaxuW,
    ScD,
    AmoswapD,
    AmoaddD,
    AmoxorD,
    AmoandD,
    AmoorD,
    AmominD,
    AmomaxD,
    AmominuD,
    AmomaxuD,
}

/// How the operands of an instruction lie in its word.
#[derive(Clone, Copy, PartialEq, Eq, Debug)]
pub enum Format {
    /// Two source registers and a result: the manual's R format.
    Register,
    /// A source register, a result and 12 bits: the I format.
    Immediate,
    /// A source register, a result and a shift amount of six bits.
    Shift,
    /// A source register, a result and a shift amount of five bits.
    ShiftWord,
    /// Two source registers and 12 bits: the S format.
    Store,
    /// Two source registers and an offset of 13 bits: the B format.
    Branch,
    /// A result and the upper 20 bits: the U format.
    Upper,
    /// A result and an offset of 21 bits: the J format.
    Jump,
    /// One word alone.
    Whole,
    /// An R format whose second source register is 0, with the two bits of ordering.
    Reserve,
    /// An R format with the two bits of ordering.
    Atomic,
}

/// An instruction: its name and its operands. An operand that its format hasn't is 0 or false.
#[derive(Clone, Copy, PartialEq, Eq, Debug)]
pub struct Instr {
    pub op: Op,
    /// The register of the result, below 32.
    pub rd: u8,
    /// The first source register, below 32.
    pub rs1: u8,
    /// The second source register, below 32.
    pub rs2: u8,
    /// The immediate, sign-extended; an offset in bytes, or a shift amount in bits.
    pub imm: i64,
    /// Acquire.
    pub aq: bool,
    /// Release.
    pub rl: bool,
}

/// A row of the listing: the fields that name the instruction. `above` is funct7, the six bits above
/// a shift amount, the five bits of an atomic or bits 20 to 31 of a whole word, by the format.
#[derive(Clone, Copy)]
pub struct Row {
    pub name: Op,
    pub format: Format,
    pub opcode: u32,
    pub funct3: u32,
    pub above: u32,
}

// The instruction of a word, opcode by opcode.
#[tactic(auto, using(crate::proofs::Groups::decode_lui, crate::proofs::Groups::decode_auipc, crate::proofs::Groups::decode_jal))]
fn by_opcode(word: u32) -> Option<Instr>
    ensures { result ≡ decode_of word }
{
    match bits(word, 0, 7) {
        0b0110111 => Some(upper_form(Op::Lui, word)),
        0b0010111 => Some(upper_form(Op::Auipc, word)),
        0b1101111 => Some(jump_form(Op::Jal, word)),
        0b1100111 => jump_register(word),
        0b1100011 => branch(word),
        0b0000011 => load(word),
        0b0100011 => store(word),
        0b0010011 => immediate_op(word),
        0b0110011 => register_op(word),
        0b0011011 => immediate_word_op(word),
        0b0111011 => register_word_op(word),
        0b0001111 => fence(word),
        0b1110011 => system(word),
        0b0101111 => atomic(word),
        _ => None,
    }
}

/// The instruction of a word: None exactly where no row of the manual's listing has the word.
pub fn decode(word: u32) -> Option<Instr>
    ensures value { result ≡ decode_of word }
    ensures registers { IfSome result HasRegisters }
{
    by_opcode(word)
}

/// The word of an instruction: of one that some word decodes to, that word.
pub fn encode(instr: &Instr) -> u32
    ensures value { result ≡ encode_of instr.now }
    ensures back { EncodesBack instr.now result }
{
    assemble(&find_row(instr.op), instr)
}

/// No word fits two rows of the listing.
pub fn no_word_twice()
    ensures { NoWordTwice }
{}

/// The instruction of four bytes, the lowest first.
pub fn decode_bytes(bytes: &[u8; 4]) -> Option<Instr>
    ensures { result ≡ decode_of (little_number 4 bytes.now) }
{
    decode(LittleEndian::read_u32(bytes))
}

/// The four bytes of an instruction, the lowest first.
pub fn encode_bytes(instr: &Instr) -> [u8; 4]
    ensures { result ≡ little_bytes 4 (encode_of instr.now) }
{
    let mut bytes = [0; 4];
    LittleEndian::write_u32(&mut bytes, encode(instr));
    bytes
}
