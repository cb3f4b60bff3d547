//! The mnemonics, both ways.

ghost use Rattle.std.specs.Prelude.{◌≡◌, ◌≤◌, List, ℕ, take, drop, length};
ghost use Rattle.std.specs.Str.{bytes_eq};
ghost use Rattle.rv_asm.specs.Names.{name_of, ops, form_of, form_for, has_ordering, ordering_text, ordering_in, tail_in, ordering_of, first_named, mnemonic_in};

use crate::form::{Form, form_of, has_ordering};
use rv_decode::Op;

/// The two bits of ordering.
#[derive(Clone, Copy, PartialEq, Eq, Debug)]
pub struct Ordering {
    /// Acquire.
    pub aq: bool,
    /// Release.
    pub rl: bool,
}

/// What a line's first word names.
#[derive(Clone, Copy, PartialEq, Eq, Debug)]
pub enum Mnemonic {
    /// `.word`, a word that is given as a number.
    Word,
    Named(Op, Ordering),
}

static OPS: [Op; 74] = [
    Op::Lui,
    Op::Auipc,
    Op::Jal,
    Op::Jalr,
    Op::Beq,
    Op::Bne,
    Op::Blt,
    Op::Bge,
    Op::Bltu,
    Op::Bgeu,
    Op::Lb,
    Op::Lh,
    Op::Lw,
    Op::Ld,
    Op::Lbu,
    Op::Lhu,
    Op::Lwu,
    Op::Sb,
    Op::Sh,
    Op::Sw,
    Op::Sd,
    Op::Addi,
    Op::Slti,
    Op::Sltiu,
    Op::Xori,
    Op::Ori,
    Op::Andi,
    Op::Slli,
    Op::Srli,
    Op::Srai,
    Op::Add,
    Op::Sll,
    Op::Slt,
    Op::Sltu,
    Op::Xor,
    Op::Srl,
    Op::Or,
    Op::And,
    Op::Sub,
    Op::Sra,
    Op::Addiw,
    Op::Slliw,
    Op::Srliw,
    Op::Sraiw,
    Op::Addw,
    Op::Sllw,
    Op::Srlw,
    Op::Subw,
    Op::Sraw,
    Op::Fence,
    Op::Ecall,
    Op::Ebreak,
    Op::LrW,
    Op::LrD,
    Op::ScW,
    Op::AmoswapW,
    Op::AmoaddW,
    Op::AmoxorW,
    Op::AmoandW,
    Op::AmoorW,
    Op::AmominW,
    Op::AmomaxW,
    Op::AmominuW,
    Op::AmomaxuW,
    Op::ScD,
    Op::AmoswapD,
    Op::AmoaddD,
    Op::AmoxorD,
    Op::AmoandD,
    Op::AmoorD,
    Op::AmominD,
    Op::AmomaxD,
    Op::AmominuD,
    Op::AmomaxuD,
];

/// The name of an instruction.
#[tactic(auto, unfolding(crate::specs::Names::name_of))]
pub(crate) fn name_of(op: Op) -> &'static [u8]
    ensures { result.now ≡ name_of op }
{
    match op {
        Op::Lui => b"lui",
        Op::Auipc => b"auipc",
        Op::Jal => b"jal",
        Op::Jalr => b"jalr",
        Op::Beq => b"beq",
        Op::Bne => b"bne",
        Op::Blt => b"blt",
        Op::Bge => b"bge",
        Op::Bltu => b"bltu",
        Op::Bgeu => b"bgeu",
        Op::Lb => b"lb",
        Op::Lh => b"lh",
        Op::Lw => b"lw",
        Op::Ld => b"ld",
        Op::Lbu => b"lbu",
        Op::Lhu => b"lhu",
        Op::Lwu => b"lwu",
        Op::Sb => b"sb",
        Op::Sh => b"sh",
        Op::Sw => b"sw",
        Op::Sd => b"sd",
        Op::Addi => b"addi",
        Op::Slti => b"slti",
        Op::Sltiu => b"sltiu",
        Op::Xori => b"xori",
        Op::Ori => b"ori",
        Op::Andi => b"andi",
        Op::Slli => b"slli",
        Op::Srli => b"srli",
        Op::Srai => b"srai",
        Op::Add => b"add",
        Op::Sll => b"sll",
        Op::Slt => b"slt",
        Op::Sltu => b"sltu",
        Op::Xor => b"xor",
        Op::Srl => b"srl",
        Op::Or => b"or",
        Op::And => b"and",
        Op::Sub => b"sub",
        Op::Sra => b"sra",
        Op::Addiw => b"addiw",
        Op::Slliw => b"slliw",
        Op::Srliw => b"srliw",
        Op::Sraiw => b"sraiw",
        Op::Addw => b"addw",
        Op::Sllw => b"sllw",
        Op::Srlw => b"srlw",
        Op::Subw => b"subw",
        Op::Sraw => b"sraw",
        Op::Fence => b"fence",
        Op::Ecall => b"ecall",
        Op::Ebreak => b"ebreak",
        Op::LrW => b"lr.w",
        Op::LrD => b"lr.d",
        Op::ScW => b"sc.w",
        Op::AmoswapW => b"amoswap.w",
        Op::AmoaddW => b"amoadd.w",
        Op::AmoxorW => b"amoxor.w",
        Op::AmoandW => b"amoand.w",
        Op::AmoorW => b"amoor.w",
        Op::AmominW => b"amomin.w",
        Op::AmomaxW => b"amomax.w",
        Op::AmominuW => b"amominu.w",
        Op::AmomaxuW => b"amomaxu.w",
        Op::ScD => b"sc.d",
        Op::AmoswapD => b"amoswap.d",
        Op::AmoaddD => b"amoadd.d",
        Op::AmoxorD => b"amoxor.d",
        Op::AmoandD => b"amoand.d",
        Op::AmoorD => b"amoor.d",
        Op::AmominD => b"amomin.d",
        Op::AmomaxD => b"amomax.d",
        Op::AmominuD => b"amominu.d",
        Op::AmomaxuD => b"amomaxu.d",
    }
}

/// The text of an ordering.
pub(crate) fn ordering_text(ordering: Ordering) -> &'static [u8]
    ensures { result.now ≡ ordering_text ordering.aq ordering.rl }
{
    match (ordering.aq, ordering.rl) {
        (false, false) => b"",
        (true, false) => b".aq",
        (false, true) => b".rl",
        (true, true) => b".aqrl",
    }
}

/// The ordering that a text after the name is.
fn ordering_in(text: &[u8]) -> Option<Ordering>
    ensures { result ≡ ordering_in text.now }
{
    match text {
        b".aq" => Some(Ordering {
            aq: true,
            rl: false,
        }),
        b".rl" => Some(Ordering {
            aq: false,
            rl: true,
        }),
        b".aqrl" => Some(Ordering { aq: true, rl: true }),
        _ => None,
    }
}

/// What stands after the name of an instruction of this form.
fn tail_in(form: Form, text: &[u8]) -> Option<Ordering>
    ensures { result ≡ tail_in form text.now }
{
    if text.is_empty() {
        return Some(Ordering {
            aq: false,
            rl: false,
        });
    }
    if has_ordering(form) {
        ordering_in(text)
    } else {
        None
    }
}

/// The ordering of a mnemonic that is this instruction's.
#[tactic(auto, unfolding(crate::specs::Names::ordering_of))]
fn ordering_of(op: Op, text: &[u8]) -> Option<Ordering>
    ensures { result ≡ ordering_of op text.now }
{
    let name = name_of(op);
    if text.len() < name.len() {
        return None;
    }
    let (start, tail) = text.split_at(name.len());
    if start == name {
        tail_in(form_of(op), tail)
    } else {
        None
    }
}

/// The instructions, in the order of the table.
#[tactic(auto, unfolding(crate::specs::Names::ops))]
fn all_ops() -> &'static [Op]
    ensures { result.now ≡ ops }
{
    &OPS
}

/// The first of these instructions whose mnemonic a text is.
fn first_named(ops: &[Op], text: &[u8]) -> Option<Mnemonic>
    ensures { result ≡ first_named ops.now text.now }
{
    for op in ops {
        if let Some(ordering) = ordering_of(*op, text) {
            return Some(Mnemonic::Named(*op, ordering));
        }
    }
    None
}

/// The mnemonic that a word is.
#[tactic(auto, unfolding(crate::specs::Names::mnemonic_in))]
pub(crate) fn mnemonic_in(text: &[u8]) -> Option<Mnemonic>
    ensures { result ≡ mnemonic_in text.now }
{
    match text {
        b".word" => Some(Mnemonic::Word),
        _ => first_named(all_ops(), text),
    }
}
