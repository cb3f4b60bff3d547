// The names of the rows, by the fields that tell the rows of an opcode apart.

ghost use Rattle.std.specs.Prelude.{◌≡◌, ◌==◌, ◌&&◌, ◌+◌, ◌*◌, ◌^◌, ◌<◌, ◌≤◌};
ghost use Rattle.rv_decode.specs.Rows.{name_by, branch_rows, load_rows, store_rows, immediate_rows, shift_rows, register_rows, immediate_word_rows, shift_word_rows, register_word_rows, atomic_rows, system_rows, reserve_rows};

use crate::Op;

pub(crate) fn branch_name(funct3: u32) -> Option<Op>
    ensures { result ≡ name_by (λ r. funct3 == r.funct3) branch_rows }
{
    match funct3 {
        0b000 => Some(Op::Beq),
        0b001 => Some(Op::Bne),
        0b100 => Some(Op::Blt),
        0b101 => Some(Op::Bge),
        0b110 => Some(Op::Bltu),
        0b111 => Some(Op::Bgeu),
        _ => None,
    }
}

pub(crate) fn load_name(funct3: u32) -> Option<Op>
    ensures { result ≡ name_by (λ r. funct3 == r.funct3) load_rows }
{
    match funct3 {
        0b000 => Some(Op::Lb),
        0b001 => Some(Op::Lh),
        0b010 => Some(Op::Lw),
        0b011 => Some(Op::Ld),
        0b100 => Some(Op::Lbu),
        0b101 => Some(Op::Lhu),
        0b110 => Some(Op::Lwu),
        _ => None,
    }
}

pub(crate) fn store_name(funct3: u32) -> Option<Op>
    ensures { result ≡ name_by (λ r. funct3 == r.funct3) store_rows }
{
    match funct3 {
        0b000 => Some(Op::Sb),
        0b001 => Some(Op::Sh),
        0b010 => Some(Op::Sw),
        0b011 => Some(Op::Sd),
        _ => None,
    }
}

pub(crate) fn immediate_name(funct3: u32) -> Option<Op>
    ensures { result ≡ name_by (λ r. funct3 == r.funct3) immediate_rows }
{
    match funct3 {
        0b000 => Some(Op::Addi),
        0b010 => Some(Op::Slti),
        0b011 => Some(Op::Sltiu),
        0b100 => Some(Op::Xori),
        0b110 => Some(Op::Ori),
        0b111 => Some(Op::Andi),
        _ => None,
    }
}

pub(crate) fn immediate_word_name(funct3: u32) -> Option<Op>
    ensures { result ≡ name_by (λ r. funct3 == r.funct3) immediate_word_rows }
{
    match funct3 {
        0b000 => Some(Op::Addiw),
        _ => None,
    }
}

pub(crate) fn shift_name(funct3: u32, funct6: u32) -> Option<Op>
    ensures { result ≡ name_by (λ r. (funct3 == r.funct3) && (funct6 == r.above)) shift_rows }
{
    match (funct3, funct6) {
        (0b001, 0b000000) => Some(Op::Slli),
        (0b101, 0b000000) => Some(Op::Srli),
        (0b101, 0b010000) => Some(Op::Srai),
        _ => None,
    }
}

pub(crate) fn register_name(funct3: u32, funct7: u32) -> Option<Op>
    ensures { result ≡ name_by (λ r. (funct3 == r.funct3) && (funct7 == r.above)) register_rows }
{
    match (funct3, funct7) {
        (0b000, 0b0000000) => Some(Op::Add),
        (0b001, 0b0000000) => Some(Op::Sll),
        (0b010, 0b0000000) => Some(Op::Slt),
        (0b011, 0b0000000) => Some(Op::Sltu),
        (0b100, 0b0000000) => Some(Op::Xor),
        (0b101, 0b0000000) => Some(Op::Srl),
        (0b110, 0b0000000) => Some(Op::Or),
        (0b111, 0b0000000) => Some(Op::And),
        (0b000, 0b0100000) => Some(Op::Sub),
        (0b101, 0b0100000) => Some(Op::Sra),
        _ => None,
    }
}

pub(crate) fn shift_word_name(funct3: u32, funct7: u32) -> Option<Op>
    ensures { result ≡ name_by (λ r. (funct3 == r.funct3) && (funct7 == r.above)) shift_word_rows }
{
    match (funct3, funct7) {
        (0b001, 0b0000000) => Some(Op::Slliw),
        (0b101, 0b0000000) => Some(Op::Srliw),
        (0b101, 0b0100000) => Some(Op::Sraiw),
        _ => None,
    }
}

pub(crate) fn register_word_name(funct3: u32, funct7: u32) -> Option<Op>
    ensures { result ≡ name_by (λ r. (funct3 == r.funct3) && (funct7 == r.above)) register_word_rows }
{
    match (funct3, funct7) {
        (0b000, 0b0000000) => Some(Op::Addw),
        (0b001, 0b0000000) => Some(Op::Sllw),
        (0b101, 0b0000000) => Some(Op::Srlw),
        (0b000, 0b0100000) => Some(Op::Subw),
        (0b101, 0b0100000) => Some(Op::Sraw),
        _ => None,
    }
}

pub(crate) fn atomic_name(funct3: u32, funct5: u32) -> Option<Op>
    ensures { result ≡ name_by (λ r. (funct3 == r.funct3) && (funct5 == r.above)) atomic_rows }
{
    match (funct3, funct5) {
        (0b010, 0b00011) => Some(Op::ScW),
        (0b010, 0b00001) => Some(Op::AmoswapW),
        (0b010, 0b00000) => Some(Op::AmoaddW),
        (0b010, 0b00100) => Some(Op::AmoxorW),
        (0b010, 0b01100) => Some(Op::AmoandW),
        (0b010, 0b01000) => Some(Op::AmoorW),
        (0b010, 0b10000) => Some(Op::AmominW),
        (0b010, 0b10100) => Some(Op::AmomaxW),
        (0b010, 0b11000) => Some(Op::AmominuW),
        (0b010, 0b11100) => Some(Op::AmomaxuW),
        (0b011, 0b00011) => Some(Op::ScD),
        (0b011, 0b00001) => Some(Op::AmoswapD),
        (0b011, 0b00000) => Some(Op::AmoaddD),
        (0b011, 0b00100) => Some(Op::AmoxorD),
        (0b011, 0b01100) => Some(Op::AmoandD),
        (0b011, 0b01000) => Some(Op::AmoorD),
        (0b011, 0b10000) => Some(Op::AmominD),
        (0b011, 0b10100) => Some(Op::AmomaxD),
        (0b011, 0b11000) => Some(Op::AmominuD),
        (0b011, 0b11100) => Some(Op::AmomaxuD),
        _ => None,
    }
}

/// The system words are one word each: all but bits 20 to 31 is 0 above the opcode.
pub(crate) fn system_name(rest: u32, funct12: u32) -> Option<Op>
    ensures { result ≡ name_by (λ r. (rest == 0) && (funct12 == r.above)) system_rows }
{
    match (rest, funct12) {
        (0, 0) => Some(Op::Ecall),
        (0, 1) => Some(Op::Ebreak),
        _ => None,
    }
}

/// A load-reserved has no second source register.
pub(crate) fn reserve_name(funct3: u32, funct5: u32, rs2: u32) -> Option<Op>
    ensures { result ≡ name_by (λ r. (funct3 == r.funct3) && ((funct5 == r.above) && (rs2 == 0))) reserve_rows }
{
    match (funct3, funct5, rs2) {
        (0b010, 0b00010, 0) => Some(Op::LrW),
        (0b011, 0b00010, 0) => Some(Op::LrD),
        _ => None,
    }
}
