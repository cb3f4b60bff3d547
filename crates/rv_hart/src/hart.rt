//! A hart of RV64IA: registers, pc and the instructions that are left.
//!
//! It asks for what its next instruction needs, and executes it once that is there. Decoding and
//! executing take no memory and look nothing up in a map. An instruction that asks for nothing of memory is
//! fetched, decoded and executed in one go ([`Hart::advance`]). One that waits for memory is kept, and is not decoded again.

ghost use Rattle.std.specs.Prelude.{◌≡◌, ◌≢◌, ◌<◌, ◌≤◌, ◌^◌, ℕ, slice_index, IfSome, Some, None, true};
ghost use Rattle.og_base.specs.declared.Cause.{Cause};
ghost use Rattle.og_line.specs.declared.Access.{Access};
ghost use Rattle.og_line.specs.Access.{HasWidth, IsAligned, addr_of, width_of, operand_of};
ghost use Rattle.rv_decode.specs.Rows.{HasRegisters};
ghost use Rattle.rv_hart.specs.Work.{is_width_known, work_of};
ghost use Rattle.og_image.specs.Image.{is_data_of};
ghost use Rattle.rv_hart.specs.Hart.{AnswerIgnored, HartState, IsStop, call_need, op_need, executed, advanced_by, constant_of, access_need, data_need, target_need, instr_of, imm_of, first_source, second_source, access_in, target_in, with_result, start_of, need_of, finish_of, halt_of};

use crate::compute::{jump_target, memory_access, result_value};
use crate::decoded::Decoded;
use crate::work::{Work, find_work};
use og_base::{Cause, NodeId};
use og_image::Image;
use og_line::Access;
use rv_decode::{Instr, Op};
use std::marker::Model;

/// What the next instruction needs.
#[derive(Clone, Copy, PartialEq, Eq, Debug)]
pub enum Need {
    /// Nothing of memory.
    Plain,
    /// An access to memory.
    Access(Access),
    /// The call that emits a value.
    Emit(u64),
    /// The hart stops there.
    Stop(Cause),
}

/// A hart.
#[derive(Drop)]
pub struct Hart {
    regs: [u64; 32],
    pc: u64,
    left: u32,
    cause: Option<Cause>,
    // The word of the last instruction that was begun, decoded.
    ahead: Decoded,
}

impl Model for Hart {
    ghost use Rattle.std.specs.Prelude.{◌≡◌, ℕ, slice_index};
    ghost use Rattle.rv_hart.specs.Hart.{HartState};

    ghost Value = { HartState };

    ghost view = { λ h. record { regs = h.regs; pc = h.pc; left = h.left; cause = h.cause } };

    ghost invariant = { λ h. slice_index h.regs 0 ≡ 0 };
}

/// What an instruction works on.
#[derive(Clone, Copy)]
struct Operands {
    work: Work,
    imm: u64,
    a: u64,
    b: u64,
}

/// The calls of an execution environment, by x17.
const EXIT: u64 = 93;

const EMIT: u64 = 1;

impl Hart {
    /// A hart before its first instruction: its number, the number of harts and the end of its stack
    /// page stand in x10, x11 and x2.
    #[tactic(auto, unfolding(crate::specs::Hart::start_of))]
    pub fn start(entry: u64, number: NodeId, nodes: u8, sp: u64, instructions: u32) -> Hart
        ensures { result ≡ start_of entry number nodes sp instructions }
    {
        let mut regs = [0; 32];
        regs[2] = sp;
        regs[10] = u64::from(number);
        regs[11] = u64::from(nodes);
        Hart {
            regs,
            pc: entry,
            left: instructions,
            cause: None,
            ahead: Decoded::of(0),
        }
    }

    /// The instruction at the pc, if there is one.
    fn instruction(&self, image: &Image) -> Option<Instr>
        ensures value { result ≡ instr_of image.now self.now }
        ensures registers { IfSome result HasRegisters }
    {
        let word = image.fetch(self.pc)?;
        self.ahead.instruction(word)
    }

    /// An instruction's operands, read.
    fn operands(&self, instr: &Instr) -> Operands
        requires { HasRegisters instr.now }
        ensures work { result.work ≡ work_of instr.now.op }
        ensures width { is_width_known result.work ≡ true }
        ensures imm { result.imm ≡ imm_of instr.now }
        ensures first { result.a ≡ first_source self.now instr.now }
        ensures second { result.b ≡ second_source self.now instr.now }
    {
        Operands {
            work: find_work(instr.op),
            imm: instr.imm.cast_unsigned(),
            a: self.regs[usize::from(instr.rs1)],
            b: self.regs[usize::from(instr.rs2)],
        }
    }

    // The need of an instruction that is no call and no break.
    #[tactic(auto, using(crate::proofs::Agreement::access_agrees, crate::proofs::Agreement::target_agrees))]
    fn data_need(&self, image: &Image, instr: &Instr) -> Need
        requires { HasRegisters instr.now }
        ensures { result ≡ target_need (target_in self.now instr.now) (data_need image.now (access_in self.now instr.now)) }
    {
        let Operands { work, imm, a, b } = self.operands(instr);
        if let Some(target) = jump_target(work, imm, self.pc, a, b)
            && !target.is_multiple_of(4)
        {
            return Need::Stop(Cause::Misaligned);
        }
        match memory_access(work, imm, a, b) {
            None => Need::Plain,
            Some(access) => access_need(image, access),
        }
    }

    // The need, case by case in the order of the table.
    #[tactic(auto, unfolding(crate::specs::Hart::need_of))]
    fn need(&self, image: &Image) -> Need
        ensures { result ≡ need_of image.now self.now }
    {
        if self.left == 0 {
            return Need::Stop(Cause::Spent);
        }
        let Some(word) = image.fetch(self.pc) else {
            return Need::Stop(Cause::Fetch);
        };
        let Some(instr) = self.ahead.instruction(word) else {
            return Need::Stop(Cause::Illegal);
        };
        self.need_by(image, &instr)
    }

    /// What an instruction needs, by its operation.
    fn need_by(&self, image: &Image, instr: &Instr) -> Need
        requires { HasRegisters instr.now }
        ensures need { result ≡ op_need image.now self.now instr.now instr.now.op }
        ensures aligned { (access : Access) → result ≡ Need.Access access → IsAligned access }
    {
        match instr.op {
            Op::Ecall => self.call_need(),
            Op::Ebreak => Need::Stop(Cause::Break),
            _ => self.data_need(image, instr),
        }
    }

    /// An environment call: exit, emit, or one that isn't known.
    fn call_need(&self) -> Need
        ensures { result ≡ call_need self.now }
    {
        match self.regs[17] {
            EXIT => Need::Stop(Cause::Exit(self.regs[10])),
            EMIT => Need::Emit(self.regs[10]),
            _ => Need::Stop(Cause::Call),
        }
    }

    /// What the next instruction needs.
    ///
    /// An access has a width of its kind and an address that is a multiple of it, on a data or stack
    /// page, and carries an operand of its width.
    pub fn next(&self, image: &Image) -> Need
        requires { self.now.cause ≡ None }
        ensures need { result ≡ need_of image.now self.now }
        ensures aligned { (access : Access) → result ≡ Need.Access access → IsAligned access }
        ensures mapped { (access : Access) → result ≡ Need.Access access → is_data_of image.now (addr_of access) ≡ true }
        ensures fits { (access : Access) → result ≡ Need.Access access → operand_of access < 256 ^ width_of access }
    {
        self.need(image)
    }

    /// The registers after a result: x0 stays 0.
    fn write(&mut self, rd: u8, value: Option<u64>)
        requires { rd < 32 }
        ensures { self.new ≡ record self.old { regs = with_result self.old.regs rd value } }
    {
        if let Some(value) = value
            && rd != 0
        {
            self.regs[usize::from(rd)] = value;
        }
    }

    /// Executes an instruction with memory's answer, and uses one instruction up.
    #[tactic(auto, using(crate::proofs::Agreement::access_agrees, crate::proofs::Agreement::target_agrees, crate::proofs::Agreement::value_agrees))]
    fn execute(&mut self, image: &Image, instr: &Instr, answer: u64)
        requires registers { HasRegisters instr.now }
        requires left { 1 ≤ self.old.left }
        ensures { self.new ≡ executed image.now self.old answer instr.now }
    {
        let Operands { work, imm, a, b } = self.operands(instr);
        let answer = match memory_access(work, imm, a, b) {
            None => answer,
            Some(access) => constant(image, &access).unwrap_or(answer),
        };
        let value = result_value(work, imm, self.pc, a, b, answer);
        let next = self.pc.wrapping_add(4);
        self.pc = jump_target(work, imm, self.pc, a, b).unwrap_or(next);
        self.left -= 1;
        self.write(instr.rd, value);
    }

    /// Executes the next instruction with memory's answer, and uses one instruction up. Where no
    /// access is needed the answer isn't looked at.
    #[tactic(auto, unfolding(crate::specs::Hart::finish_of))]
    pub fn finish(&mut self, image: &Image, answer: u64)
        requires { (cause : Cause) → need_of image.now self.old ≢ Need.Stop cause }
        ensures { self.new ≡ finish_of image.now self.old answer }
    {
        let Some(instr) = self.instruction(image) else {
            return;
        };
        self.execute(image, &instr, answer);
    }

    /// What the next instruction needs. Where that is nothing of memory and no stop, the instruction is
    /// executed; else the hart is as it was.
    #[tactic(auto, unfolding(crate::specs::Hart::need_of, crate::specs::Hart::finish_of))]
    pub fn advance(&mut self, image: &Image) -> Need
        requires { self.old.cause ≡ None }
        ensures need { result ≡ need_of image.now self.old }
        ensures advanced { self.new ≡ advanced_by image.now self.old (need_of image.now self.old) }
        ensures aligned { (access : Access) → result ≡ Need.Access access → IsAligned access }
    {
        if self.left == 0 {
            return Need::Stop(Cause::Spent);
        }
        let Some(word) = image.fetch(self.pc) else {
            return Need::Stop(Cause::Fetch);
        };
        let Some(instr) = self.ahead.keep(word) else {
            return Need::Stop(Cause::Illegal);
        };
        let need = self.need_by(image, &instr);
        match need {
            Need::Plain | Need::Emit(_) => self.execute(image, &instr, 0),
            Need::Access(_) | Need::Stop(_) => {}
        }
        need
    }

    /// Stops the hart with the need's cause, at the instruction's pc.
    #[tactic(auto, unfolding(crate::specs::Hart::halt_of))]
    pub fn halt(&mut self, image: &Image)
        requires { IsStop (need_of image.now self.old) }
        ensures { self.new ≡ halt_of image.now self.old }
    {
        if let Need::Stop(cause) = self.need(image) {
            self.cause = Some(cause);
        }
    }

    /// Why the hart stopped, if it did.
    pub fn stopped(&self) -> Option<Cause>
        ensures { result ≡ self.now.cause }
    {
        self.cause
    }

    /// A register.
    pub fn reg(&self, number: u8) -> u64
        requires { number < 32 }
        ensures value { result ≡ slice_index self.now.regs number }
        ensures zero { number ≡ 0 → result ≡ 0 }
    {
        self.regs[usize::from(number)]
    }

    /// The address of the next instruction.
    pub fn pc(&self) -> u64
        ensures { result ≡ self.now.pc }
    {
        self.pc
    }
}

/// An access: misaligned, a load of read-only bytes, outside the data and stack pages, or made.
fn access_need(image: &Image, access: Access) -> Need
    requires { HasWidth access }
    ensures { result ≡ access_need image.now access }
{
    if !access.addr().is_multiple_of(u64::from(access.width())) {
        Need::Stop(Cause::Misaligned)
    } else if constant(image, &access).is_some() {
        Need::Plain
    } else if image.is_data(access.addr()) {
        Need::Access(access)
    } else {
        Need::Stop(Cause::Unmapped)
    }
}

/// A load of bytes that no segment may write: its answer.
fn constant(image: &Image, access: &Access) -> Option<u64>
    requires { HasWidth access.now }
    ensures { result ≡ constant_of image.now access.now }
{
    match *access {
        Access::Load { addr, width } => image.read_only(addr, width),
        _ => None,
    }
}

/// Where no access is needed, memory's answer isn't looked at.
pub fn answers_are_ignored()
    ensures { AnswerIgnored }
{}
