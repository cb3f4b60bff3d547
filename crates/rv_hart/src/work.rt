// The kinds of work that the operations fall into, as a table in the order of the operations.

ghost use Rattle.std.specs.Prelude.{◌≡◌, true};
ghost use Rattle.rv_hart.specs.Work.{is_width_known, work_of};

use og_line::AtomicOp;
use rv_decode::Op;

/// Arithmetic on 64 bits.
#[derive(Clone, Copy)]
pub enum Alu {
    Add,
    Sub,
    ShiftLeft,
    Less,
    LessUnsigned,
    Xor,
    ShiftRight,
    ShiftRightSigned,
    Or,
    And,
}

/// Arithmetic on 32 bits, with the result sign-extended.
#[derive(Clone, Copy)]
pub enum WordAlu {
    Add,
    Sub,
    ShiftLeft,
    ShiftRight,
    ShiftRightSigned,
}

/// When a branch is taken.
#[derive(Clone, Copy)]
pub enum Condition {
    Equal,
    NotEqual,
    Less,
    NotLess,
    LessUnsigned,
    NotLessUnsigned,
}

/// What an instruction does. Widths are in bytes.
#[derive(Clone, Copy)]
pub enum Work {
    Upper,
    UpperPc,
    Jump,
    JumpRegister,
    Branch(Condition),
    Load { width: u8, signed: bool },
    Store { width: u8 },
    Immediate(Alu),
    Register(Alu),
    ImmediateWord(WordAlu),
    RegisterWord(WordAlu),
    Fence,
    Call,
    Break,
    Reserve { width: u8 },
    Conditional { width: u8 },
    Atomic { op: AtomicOp, width: u8 },
}

static WORKS: [Work; 74] = [
    Work::Upper, // Lui
    Work::UpperPc, // Auipc
    Work::Jump, // Jal
    Work::JumpRegister, // Jalr
    Work::Branch(Condition::Equal), // Beq
    Work::Branch(Condition::NotEqual), // Bne
    Work::Branch(Condition::Less), // Blt
    Work::Branch(Condition::NotLess), // Bge
    Work::Branch(Condition::LessUnsigned), // Bltu
    Work::Branch(Condition::NotLessUnsigned), // Bgeu
    Work::Load {
        width: 1,
        signed: true,
    }, // Lb
    Work::Load {
        width: 2,
        signed: true,
    }, // Lh
    Work::Load {
        width: 4,
        signed: true,
    }, // Lw
    Work::Load {
        width: 8,
        signed: false,
    }, // Ld
    Work::Load {
        width: 1,
        signed: false,
    }, // Lbu
    Work::Load {
        width: 2,
        signed: false,
    }, // Lhu
    Work::Load {
        width: 4,
        signed: false,
    }, // Lwu
    Work::Store { width: 1 }, // Sb
    Work::Store { width: 2 }, // Sh
    Work::Store { width: 4 }, // Sw
    Work::Store { width: 8 }, // Sd
    Work::Immediate(Alu::Add), // Addi
    Work::Immediate(Alu::Less), // Slti
    Work::Immediate(Alu::LessUnsigned), // Sltiu
    Work::Immediate(Alu::Xor), // Xori
    Work::Immediate(Alu::Or), // Ori
    Work::Immediate(Alu::And), // Andi
    Work::Immediate(Alu::ShiftLeft), // Slli
    Work::Immediate(Alu::ShiftRight), // Srli
    Work::Immediate(Alu::ShiftRightSigned), // Srai
    Work::Register(Alu::Add), // Add
    Work::Register(Alu::ShiftLeft), // Sll
    Work::Register(Alu::Less), // Slt
    Work::Register(Alu::LessUnsigned), // Sltu
    Work::Register(Alu::Xor), // Xor
    Work::Register(Alu::ShiftRight), // Srl
    Work::Register(Alu::Or), // Or
    Work::Register(Alu::And), // And
    Work::Register(Alu::Sub), // Sub
    Work::Register(Alu::ShiftRightSigned), // Sra
    Work::ImmediateWord(WordAlu::Add), // Addiw
    Work::ImmediateWord(WordAlu::ShiftLeft), // Slliw
    Work::ImmediateWord(WordAlu::ShiftRight), // Srliw
    Work::ImmediateWord(WordAlu::ShiftRightSigned), // Sraiw
    Work::RegisterWord(WordAlu::Add), // Addw
    Work::RegisterWord(WordAlu::ShiftLeft), // Sllw
    Work::RegisterWord(WordAlu::ShiftRight), // Srlw
    Work::RegisterWord(WordAlu::Sub), // Subw
    Work::RegisterWord(WordAlu::ShiftRightSigned), // Sraw
    Work::Fence, // Fence
    Work::Call, // Ecall
    Work::Break, // Ebreak
    Work::Reserve { width: 4 }, // LrW
    Work::Reserve { width: 8 }, // LrD
    Work::Conditional { width: 4 }, // ScW
    Work::Atomic {
        op: AtomicOp::Swap,
        width: 4,
    }, // AmoswapW
    Work::Atomic {
        op: AtomicOp::Add,
        width: 4,
    }, // AmoaddW
    Work::Atomic {
        op: AtomicOp::Xor,
        width: 4,
    }, // AmoxorW
    Work::Atomic {
        op: AtomicOp::And,
        width: 4,
    }, // AmoandW
    Work::Atomic {
        op: AtomicOp::Or,
        width: 4,
    }, // AmoorW
    Work::Atomic {
        op: AtomicOp::Min,
        width: 4,
    }, // AmominW
    Work::Atomic {
        op: AtomicOp::Max,
        width: 4,
    }, // AmomaxW
    Work::Atomic {
        op: AtomicOp::Minu,
        width: 4,
    }, // AmominuW
    Work::Atomic {
        op: AtomicOp::Maxu,
        width: 4,
    }, // AmomaxuW
    Work::Conditional { width: 8 }, // ScD
    Work::Atomic {
        op: AtomicOp::Swap,
        width: 8,
    }, // AmoswapD
    Work::Atomic {
        op: AtomicOp::Add,
        width: 8,
    }, // AmoaddD
    Work::Atomic {
        op: AtomicOp::Xor,
        width: 8,
    }, // AmoxorD
    Work::Atomic {
        op: AtomicOp::And,
        width: 8,
    }, // AmoandD
    Work::Atomic {
        op: AtomicOp::Or,
        width: 8,
    }, // AmoorD
    Work::Atomic {
        op: AtomicOp::Min,
        width: 8,
    }, // AmominD
    Work::Atomic {
        op: AtomicOp::Max,
        width: 8,
    }, // AmomaxD
    Work::Atomic {
        op: AtomicOp::Minu,
        width: 8,
    }, // AmominuD
    Work::Atomic {
        op: AtomicOp::Maxu,
        width: 8,
    }, // AmomaxuD
];

/// What an operation does.
#[tactic(auto, unfolding(crate::specs::Work::work_of))]
pub(crate) fn find_work(op: Op) -> Work
    ensures value { result ≡ work_of op }
    ensures width { is_width_known result ≡ true }
{
    WORKS[op as usize]
}
