// The words of each opcode.

ghost use Rattle.std.specs.Prelude.{◌≡◌, ◌==◌, ◌&&◌, ◌+◌, ◌*◌, ◌^◌, ◌<◌, ◌≤◌};
ghost use Rattle.rv_decode.specs.Fields.{opcode_of};
ghost use Rattle.rv_decode.specs.Rows.{decode_of};

use crate::fields::bits;
use crate::forms::{
    atomic_form, branch_form, immediate_form, register_form, reserve_form, shift_form,
    shift_word_form, store_form, whole_form,
};
use crate::names::{
    atomic_name, branch_name, immediate_name, immediate_word_name, load_name, register_name,
    register_word_name, reserve_name, shift_name, shift_word_name, store_name, system_name,
};
use crate::{Instr, Op};

#[tactic(auto, using(crate::proofs::Groups::decode_branch))]
pub(crate) fn branch(word: u32) -> Option<Instr>
    requires { opcode_of word ≡ 0b1100011 }
    ensures { result ≡ decode_of word }
{
    let op = branch_name(bits(word, 12, 3))?;
    Some(branch_form(op, word))
}

#[tactic(auto, using(crate::proofs::Groups::decode_load))]
pub(crate) fn load(word: u32) -> Option<Instr>
    requires { opcode_of word ≡ 0b0000011 }
    ensures { result ≡ decode_of word }
{
    let op = load_name(bits(word, 12, 3))?;
    Some(immediate_form(op, word))
}

#[tactic(auto, using(crate::proofs::Groups::decode_store))]
pub(crate) fn store(word: u32) -> Option<Instr>
    requires { opcode_of word ≡ 0b0100011 }
    ensures { result ≡ decode_of word }
{
    let op = store_name(bits(word, 12, 3))?;
    Some(store_form(op, word))
}

#[tactic(auto, using(crate::proofs::Groups::decode_register))]
pub(crate) fn register_op(word: u32) -> Option<Instr>
    requires { opcode_of word ≡ 0b0110011 }
    ensures { result ≡ decode_of word }
{
    let op = register_name(bits(word, 12, 3), bits(word, 25, 7))?;
    Some(register_form(op, word))
}

#[tactic(auto, using(crate::proofs::Groups::decode_register_word))]
pub(crate) fn register_word_op(word: u32) -> Option<Instr>
    requires { opcode_of word ≡ 0b0111011 }
    ensures { result ≡ decode_of word }
{
    let op = register_word_name(bits(word, 12, 3), bits(word, 25, 7))?;
    Some(register_form(op, word))
}

#[tactic(auto, using(crate::proofs::Groups::decode_system))]
pub(crate) fn system(word: u32) -> Option<Instr>
    requires { opcode_of word ≡ 0b1110011 }
    ensures { result ≡ decode_of word }
{
    let op = system_name(bits(word, 7, 13), bits(word, 20, 12))?;
    Some(whole_form(op, word))
}

#[tactic(auto, using(crate::proofs::Groups::decode_jalr))]
pub(crate) fn jump_register(word: u32) -> Option<Instr>
    requires { opcode_of word ≡ 0b1100111 }
    ensures { result ≡ decode_of word }
{
    if bits(word, 12, 3) == 0 {
        Some(immediate_form(Op::Jalr, word))
    } else {
        None
    }
}

#[tactic(auto, using(crate::proofs::Groups::decode_fence))]
pub(crate) fn fence(word: u32) -> Option<Instr>
    requires { opcode_of word ≡ 0b0001111 }
    ensures { result ≡ decode_of word }
{
    if bits(word, 12, 3) == 0 {
        Some(immediate_form(Op::Fence, word))
    } else {
        None
    }
}

#[tactic(auto, using(crate::proofs::Groups::decode_immediate))]
pub(crate) fn immediate_op(word: u32) -> Option<Instr>
    requires { opcode_of word ≡ 0b0010011 }
    ensures { result ≡ decode_of word }
{
    let funct3 = bits(word, 12, 3);
    if let Some(op) = immediate_name(funct3) {
        return Some(immediate_form(op, word));
    }
    let op = shift_name(funct3, bits(word, 26, 6))?;
    Some(shift_form(op, word))
}

#[tactic(auto, using(crate::proofs::Groups::decode_immediate_word))]
pub(crate) fn immediate_word_op(word: u32) -> Option<Instr>
    requires { opcode_of word ≡ 0b0011011 }
    ensures { result ≡ decode_of word }
{
    let funct3 = bits(word, 12, 3);
    if let Some(op) = immediate_word_name(funct3) {
        return Some(immediate_form(op, word));
    }
    let op = shift_word_name(funct3, bits(word, 25, 7))?;
    Some(shift_word_form(op, word))
}

#[tactic(auto, using(crate::proofs::Groups::decode_reserve))]
pub(crate) fn atomic(word: u32) -> Option<Instr>
    requires { opcode_of word ≡ 0b0101111 }
    ensures { result ≡ decode_of word }
{
    let funct3 = bits(word, 12, 3);
    let funct5 = bits(word, 27, 5);
    if let Some(op) = reserve_name(funct3, funct5, bits(word, 20, 5)) {
        return Some(reserve_form(op, word));
    }
    let op = atomic_name(funct3, funct5)?;
    Some(atomic_form(op, word))
}
