// The operands of a word, format by format.

ghost use Rattle.std.specs.Prelude.{◌≡◌, ◌==◌, ◌&&◌, ◌+◌, ◌*◌, ◌^◌, ◌<◌, ◌≤◌};
ghost use Rattle.rv_decode.specs.declared.Format.TheVariants.{Register, Immediate, Shift, ShiftWord, Store, Branch, Upper, Jump, Whole, Reserve, Atomic};
ghost use Rattle.rv_decode.specs.Rows.{operands_of};

use crate::fields::{bits, branch_offset, jump_offset, register, sign_extend};
use crate::{Instr, Op};

pub(crate) fn register_form(op: Op, word: u32) -> Instr
    ensures { result ≡ operands_of Register op word }
{
    Instr {
        op,
        rd: register(word, 7),
        rs1: register(word, 15),
        rs2: register(word, 20),
        imm: 0,
        aq: false,
        rl: false,
    }
}

pub(crate) fn immediate_form(op: Op, word: u32) -> Instr
    ensures { result ≡ operands_of Immediate op word }
{
    Instr {
        op,
        rd: register(word, 7),
        rs1: register(word, 15),
        rs2: 0,
        imm: sign_extend(12, bits(word, 20, 12)),
        aq: false,
        rl: false,
    }
}

pub(crate) fn shift_form(op: Op, word: u32) -> Instr
    ensures { result ≡ operands_of Shift op word }
{
    Instr {
        op,
        rd: register(word, 7),
        rs1: register(word, 15),
        rs2: 0,
        imm: i64::from(bits(word, 20, 6)),
        aq: false,
        rl: false,
    }
}

pub(crate) fn shift_word_form(op: Op, word: u32) -> Instr
    ensures { result ≡ operands_of ShiftWord op word }
{
    Instr {
        op,
        rd: register(word, 7),
        rs1: register(word, 15),
        rs2: 0,
        imm: i64::from(bits(word, 20, 5)),
        aq: false,
        rl: false,
    }
}

pub(crate) fn store_form(op: Op, word: u32) -> Instr
    ensures { result ≡ operands_of Store op word }
{
    Instr {
        op,
        rd: 0,
        rs1: register(word, 15),
        rs2: register(word, 20),
        imm: sign_extend(12, (bits(word, 25, 7) << 5) + bits(word, 7, 5)),
        aq: false,
        rl: false,
    }
}

pub(crate) fn branch_form(op: Op, word: u32) -> Instr
    ensures { result ≡ operands_of Branch op word }
{
    Instr {
        op,
        rd: 0,
        rs1: register(word, 15),
        rs2: register(word, 20),
        imm: branch_offset(word),
        aq: false,
        rl: false,
    }
}

pub(crate) fn upper_form(op: Op, word: u32) -> Instr
    ensures { result ≡ operands_of Upper op word }
{
    Instr {
        op,
        rd: register(word, 7),
        rs1: 0,
        rs2: 0,
        imm: sign_extend(32, bits(word, 12, 20) << 12),
        aq: false,
        rl: false,
    }
}

pub(crate) fn jump_form(op: Op, word: u32) -> Instr
    ensures { result ≡ operands_of Jump op word }
{
    Instr {
        op,
        rd: register(word, 7),
        rs1: 0,
        rs2: 0,
        imm: jump_offset(word),
        aq: false,
        rl: false,
    }
}

pub(crate) fn whole_form(op: Op, word: u32) -> Instr
    ensures { result ≡ operands_of Whole op word }
{
    Instr {
        op,
        rd: 0,
        rs1: 0,
        rs2: 0,
        imm: 0,
        aq: false,
        rl: false,
    }
}

pub(crate) fn reserve_form(op: Op, word: u32) -> Instr
    ensures { result ≡ operands_of Reserve op word }
{
    Instr {
        op,
        rd: register(word, 7),
        rs1: register(word, 15),
        rs2: 0,
        imm: 0,
        aq: bits(word, 26, 1) == 1,
        rl: bits(word, 25, 1) == 1,
    }
}

pub(crate) fn atomic_form(op: Op, word: u32) -> Instr
    ensures { result ≡ operands_of Atomic op word }
{
    Instr {
        op,
        rd: register(word, 7),
        rs1: register(word, 15),
        rs2: register(word, 20),
        imm: 0,
        aq: bits(word, 26, 1) == 1,
        rl: bits(word, 25, 1) == 1,
    }
}
