//! The operands of the instructions.

ghost use Rattle.std.specs.Prelude.{◌≡◌};
ghost use Rattle.rv_asm.specs.Names.{form_of, has_ordering};

use rv_decode::Op;

/// What a mnemonic takes.
#[derive(Clone, Copy, PartialEq, Eq, Debug)]
pub enum Form {
    /// `rd,n`: LUI and AUIPC, with the upper 20 bits.
    Upper,
    /// `rd,target`: JAL.
    Jump,
    /// `rs1,rs2,target`.
    Branch,
    /// `rd,n(rs1)`: JALR and the loads.
    Offset,
    /// `rs2,n(rs1)`.
    Store,
    /// `rd,rs1,n`: OP-IMM and ADDIW.
    Immediate,
    /// `rd,rs1,n` with a shift amount of six bits.
    Shift,
    /// `rd,rs1,n` with a shift amount of five bits.
    ShiftWord,
    /// `rd,rs1,rs2`: OP and OP-32.
    Register,
    /// `rd,rs1,n` with bits 20 to 31: FENCE.
    Fence,
    /// None: ECALL and EBREAK.
    Bare,
    /// `rd,(rs1)`: LR.
    Reserve,
    /// `rd,rs2,(rs1)`: SC and the atomics.
    Atomic,
    /// `n`: a word as a number.
    Data,
}

static FORMS: [Form; 74] = [
    Form::Upper,
    Form::Upper,
    Form::Jump,
    Form::Offset,
    Form::Branch,
    Form::Branch,
    Form::Branch,
    Form::Branch,
    Form::Branch,
    Form::Branch,
    Form::Offset,
    Form::Offset,
    Form::Offset,
    Form::Offset,
    Form::Offset,
    Form::Offset,
    Form::Offset,
    Form::Store,
    Form::Store,
    Form::Store,
    Form::Store,
    Form::Immediate,
    Form::Immediate,
    Form::Immediate,
    Form::Immediate,
    Form::Immediate,
    Form::Immediate,
    Form::Shift,
    Form::Shift,
    Form::Shift,
    Form::Register,
    Form::Register,
    Form::Register,
    Form::Register,
    Form::Register,
    Form::Register,
    Form::Register,
    Form::Register,
    Form::Register,
    Form::Register,
    Form::Immediate,
    Form::ShiftWord,
    Form::ShiftWord,
    Form::ShiftWord,
    Form::Register,
    Form::Register,
    Form::Register,
    Form::Register,
    Form::Register,
    Form::Fence,
    Form::Bare,
    Form::Bare,
    Form::Reserve,
    Form::Reserve,
    Form::Atomic,
    Form::Atomic,
    Form::Atomic,
    Form::Atomic,
    Form::Atomic,
    Form::Atomic,
    Form::Atomic,
    Form::Atomic,
    Form::Atomic,
    Form::Atomic,
    Form::Atomic,
    Form::Atomic,
    Form::Atomic,
    Form::Atomic,
    Form::Atomic,
    Form::Atomic,
    Form::Atomic,
    Form::Atomic,
    Form::Atomic,
    Form::Atomic,
];

/// What an instruction takes.
#[tactic(auto, unfolding(crate::specs::Names::form_of, rv_decode::specs::Words::row_of))]
pub(crate) fn form_of(op: Op) -> Form
    ensures { result ≡ form_of op }
{
    FORMS[op as usize]
}

/// Whether the name may have an ordering after it.
pub(crate) fn has_ordering(form: Form) -> bool
    ensures { result ≡ has_ordering form }
{
    matches!(form, Form::Reserve | Form::Atomic)
}
