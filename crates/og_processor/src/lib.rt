//! A node's processor side: its hart with cache and TLB, and what it asks for and answers.
//!
//! An act is one instruction, one access that hits, or one request or walk that is sent. A take is one message that is
//! served, together with the access that its fill completes, and with the intervention or the drop request that was held
//! for it (after J. Laudon and D. Lenoski, "The SGI Origin", ISCA 1997, section 3.1; the drop requests are this project's
//! own). `specs/Act` and `specs/Take` have the tables, as compositions of rows: throw out, then ask; receive, then finish,
//! then answer what was held, then drop. `specs/Rows` says which messages have a row.
//!
//! Below stand the hart, cache, TLB, request, victim slot and owner's table; above it the node, which joins it to the home
//! side. An event takes no memory, and looks into one set of the cache and into the TLB's slots.
#![tactic(auto)]

ghost use Rattle.std.specs.Prelude.{◌≡◌, ◌<◌, ◌≤◌, ◌+◌, ◌++◌, ◌∷◌, [], length, true, false, IfOk, IsSome, Some, None, Ok, Option};
ghost use Rattle.og_line.specs.declared.Line.{Line};
ghost use Rattle.og_line.specs.declared.Reservation.{Reservation};
ghost use Rattle.og_line.specs.Access.{addr_of, answer_of, IsAligned};
ghost use Rattle.std.specs.Option.{option_copied};
ghost use Rattle.og_tlb.specs.Tlb.{look_of as frame_of};
ghost use Rattle.og_victim.specs.Slot.{is_free_slot};
ghost use Rattle.og_cache.specs.Cache.{look_of, mode_of, line_of, thrown_out};
ghost use Rattle.rv_hart.specs.Hart.{need_of};
ghost use Rattle.og_processor.specs.State.{letter as letter_to};
ghost use Rattle.og_processor.specs.Access.{page_of as page_at, block_in as block_at, allows as is_allowed, stores as is_stored};
ghost use Rattle.og_processor.specs.Act.{wanted as is_wanted, stop_note as noted_at};
ghost use Rattle.og_processor.specs.Laws.{StaysSound};

pub mod served;
pub mod take;

use og_base::{
    ActorId, BLOCK_BYTES, Block, Cause, FIRST_STACK, Frame, NoMemory, NodeId, NotEnabled,
    PAGE_BLOCKS, PAGE_BYTES, STACK_STEP, Settings, VPage,
};
use og_cache::{Cache, laws};
use og_image::Image;
use og_line::{Access, Mode, Reservation};
use og_msg::{Kind, Letter, Note, Outbox};
use og_request::{Request, Want};
use og_tlb::Tlb;
use og_victim::Slot;
use rv_hart::hart::{Hart, Need};
use std::alloc::Global;
use std::marker::Model;

/// A processor.
#[derive(Drop)]
pub struct Processor {
    hart: Hart,
    reserved: Option<Reservation>,
    cache: Cache,
    tlb: Tlb,
    request: Option<Request>,
    walk: Option<VPage>,
    victim: Slot,
    drop: Option<Frame>,
}

impl Model for Processor {
    ghost use Rattle.og_processor.specs.State.{ProcessorState};

    ghost Value = { ProcessorState };

    ghost view = { λ p. record { hart = p.hart; reserved = p.reserved; cache = p.cache; tlb = p.tlb; request = p.request; walk = p.walk; victim = p.victim; drop = p.drop } };
}

/// The page of an address.
fn page_of(addr: u64) -> VPage
    ensures { result ≡ page_at addr }
{
    VPage(addr / PAGE_BYTES)
}

/// The block of an address whose page is in this frame.
fn block_in(frame: Frame, addr: u64) -> Block
    ensures { result ≡ block_at frame addr }
{
    Block {
        frame,
        number: (addr / BLOCK_BYTES % u64::from(PAGE_BLOCKS)) as u8,
    }
}

/// Whether a copy in this mode is enough for the access.
fn allows(mode: Option<Mode>, access: &Access) -> bool
    ensures { result ≡ is_allowed mode access.now }
{
    match mode {
        None => false,
        Some(Mode::Shared) => !access.writes(),
        Some(Mode::Clean | Mode::Dirty) => true,
    }
}

/// What is asked for where the copy isn't enough.
fn wanted(mode: Option<Mode>, access: &Access) -> Want
    ensures { result ≡ is_wanted mode access.now }
{
    match (access.writes(), mode) {
        (false, _) => Want::Read,
        (true, Some(Mode::Shared)) => Want::Upgrade,
        (true, _) => Want::ReadEx,
    }
}

/// What is noted where a hart stops.
fn stop_note(cause: Cause, pc: u64) -> Note
    ensures { result ≡ noted_at cause pc }
{
    match cause {
        Cause::Exit(value) => Note::Exit(value),
        Cause::Spent => Note::Spent,
        _ => Note::Trap { cause, pc },
    }
}

/// Adds a letter.
fn send(out: &mut Outbox, to: ActorId, kind: Kind)
    requires { length out.old < 132 }
    ensures { out.new ≡ out.old ++ letter_to to kind ∷ [] }
{
    out.add(Letter { to, kind });
}

impl Processor {
    ghost use Rattle.og_processor.specs.State.{new_processor, Did};
    ghost use Rattle.og_processor.specs.Access.{completes};
    ghost use Rattle.og_processor.specs.Act.{may_act, is_blocked_by, is_blocked_at, is_blocked, is_dirty_out, act_of, on_page, on_block, throws_out, asks};
    ghost use Rattle.og_processor.specs.Sound.{IsLowProcessor};

    /// A processor at the start. It takes all memory that the processor will ever need.
    pub fn make(
        alloc: Global,
        number: NodeId,
        image: &Image,
        settings: &Settings,
    ) -> Result<Processor, NoMemory>
        requires sets { 1 ≤ settings.now.sets }
        requires ways { 1 ≤ settings.now.ways }
        requires entries { 1 ≤ settings.now.tlb }
        ensures { IfOk result (λ made. made ≡ new_processor image.now settings.now number) }
    {
        let stack = FIRST_STACK + u64::from(number) * STACK_STEP + PAGE_BYTES;
        Ok(Processor {
            hart: Hart::start(
                image.entry(),
                number,
                settings.nodes,
                stack,
                settings.instructions,
            ),
            reserved: None,
            cache: Cache::make(alloc, settings.sets, settings.ways)?,
            tlb: Tlb::make(alloc, settings.tlb)?,
            request: None,
            walk: None,
            victim: Slot::free(),
            drop: None,
        })
    }

    /// The cache.
    pub fn cache(&self) -> &Cache
        ensures { result.now ≡ self.now.cache }
    {
        &self.cache
    }

    /// The outstanding request, None exactly where there is none.
    pub fn request(&self) -> Option<&Request>
        ensures { option_copied result ≡ self.now.request }
    {
        self.request.as_ref()
    }

    /// Whether the victim slot is free.
    pub fn victim_free(&self) -> bool
        ensures { result ≡ is_free_slot self.now.victim }
    {
        self.victim.is_free()
    }

    /// Whether the processor may act, and else the first reason that applies: its hart has stopped, a request or a walk
    /// is outstanding, or a request can't be sent since the victim slot is taken.
    #[tactic(auto, unfolding(crate::specs::Act::may_act))]
    pub fn can_act(&self, image: &Image) -> Result<(), NotEnabled>
        ensures { result ≡ may_act image.now self.now }
    {
        if self.hart.stopped().is_some() {
            return Err(NotEnabled::Stopped);
        }
        if self.request.is_some() || self.walk.is_some() {
            return Err(NotEnabled::Outstanding);
        }
        if self.is_next_blocked(image) {
            return Err(NotEnabled::VictimBusy);
        }
        Ok(())
    }

    /// Whether what the hart needs next asks for a request that can't be sent. With a free victim slot nothing does, and the need isn't
    /// looked for.
    fn is_next_blocked(&self, image: &Image) -> bool
        requires { self.now.hart.cause ≡ None }
        ensures { result ≡ is_blocked_by self.now (need_of image.now self.now.hart) }
    {
        if self.victim.is_free() {
            return false;
        }
        self.is_blocked_by(self.hart.next(image))
    }

    /// Whether a need asks for a request that can't be sent.
    fn is_blocked_by(&self, need: Need) -> bool
        ensures { result ≡ is_blocked_by self.now need }
    {
        match need {
            Need::Access(access) => self.is_blocked_at(&access),
            _ => false,
        }
    }

    /// Whether an access asks for a request that can't be sent.
    fn is_blocked_at(&self, access: &Access) -> bool
        ensures { result ≡ is_blocked_at self.now access.now (frame_of self.now.tlb (page_at (addr_of access.now))) }
    {
        match self.tlb.look(page_of(access.addr())) {
            None => false,
            Some(frame) => {
                let block = block_in(frame, access.addr());
                !allows(self.cache.look(block), access) && self.is_blocked(block)
            }
        }
    }

    /// Whether a request for the block can't be sent.
    fn is_blocked(&self, block: Block) -> bool
        ensures { result ≡ is_blocked self.now block }
    {
        self.victim.holds(block) || (self.throws_dirty(block) && !self.victim.is_free())
    }

    /// Whether room for the block is made by throwing a dirty one out.
    fn throws_dirty(&self, block: Block) -> bool
        ensures { result ≡ is_dirty_out (thrown_out self.now.cache block) }
    {
        match self.cache.victim_of(block) {
            Some((_, mode)) => mode == Mode::Dirty,
            None => false,
        }
    }

    /// The processor's own next event.
    #[tactic(auto, unfolding(crate::specs::Act::act_of, crate::specs::Act::may_act))]
    pub fn act(&mut self, image: &Image, out: &mut Outbox) -> Option<Note>
        requires enabled { may_act image.now self.old ≡ Ok tt }
        requires low { IsLowProcessor self.old }
        requires room { length out.old + 2 ≤ 132 }
        ensures state { self.new ≡ (act_of image.now self.old).state }
        ensures letters { out.new ≡ out.old ++ (act_of image.now self.old).letters }
        ensures note { result ≡ (act_of image.now self.old).note }
    {
        match self.hart.advance(image) {
            Need::Plain => None,
            Need::Emit(value) => Some(Note::Emit(value)),
            Need::Stop(cause) => {
                let note = stop_note(cause, self.hart.pc());
                self.hart.halt(image);
                Some(note)
            }
            Need::Access(access) => self.reach(image, &access, out),
        }
    }

    /// Makes an access through the TLB, or asks the mover for its page's frame.
    fn reach(&mut self, image: &Image, access: &Access, out: &mut Outbox) -> Option<Note>
        requires need { need_of image.now self.old.hart ≡ Need.Access access.now }
        requires aligned { IsAligned access.now }
        requires enabled { is_blocked_at self.old access.now (frame_of self.old.tlb (page_at (addr_of access.now))) ≡ false }
        requires low { IsLowProcessor self.old }
        requires room { length out.old + 2 ≤ 132 }
        ensures { Did (on_page image.now self.old access.now (frame_of self.old.tlb (page_at (addr_of access.now)))) self.new out.old out.new result }
    {
        let page = page_of(access.addr());
        match self.tlb.look(page) {
            None => {
                self.walk = Some(page);
                send(out, image.nodes(), Kind::Walk { page });
                None
            }
            Some(frame) => self.touch(image, access, block_in(frame, access.addr()), out),
        }
    }

    /// Makes an access on the copy of its block, or asks the home for the block.
    fn touch(
        &mut self,
        image: &Image,
        access: &Access,
        block: Block,
        out: &mut Outbox,
    ) -> Option<Note>
        requires need { need_of image.now self.old.hart ≡ Need.Access access.now }
        requires aligned { IsAligned access.now }
        requires enabled { is_allowed (mode_of self.old.cache block) access.now ≡ false → is_blocked self.old block ≡ false }
        requires low { IsLowProcessor self.old }
        requires room { length out.old + 2 ≤ 132 }
        ensures { Did (on_block image.now self.old access.now block) self.new out.old out.new result }
    {
        let mode = self.cache.look(block);
        if allows(mode, access) {
            return Some(self.complete(image, access, block));
        }
        self.throw_out(block, out);
        self.ask(wanted(mode, access), block, out);
        None
    }

    /// Makes an access on the copy of its block.
    fn complete(&mut self, image: &Image, access: &Access, block: Block) -> Note
        requires need { need_of image.now self.old.hart ≡ Need.Access access.now }
        requires aligned { IsAligned access.now }
        requires there { IsSome (look_of self.old.cache block) }
        requires low { IsLowProcessor self.old }
        ensures { (line : Line) → line_of self.old.cache block ≡ Some line → Did (completes image.now self.old block line access.now) self.new [] [] (Some result) }
    {
        self.cache.stays_sound();
        laws::line_is_seen();
        let answer = self
            .cache
            .line_mut(block)
            .perform(access, &mut self.reserved);
        if is_store(access, answer) {
            self.cache.set_mode(block, Mode::Dirty);
        }
        self.hart.finish(image, answer);
        Note::Access {
            access: *access,
            answer,
        }
    }

    /// Reserves a way for the block. A dirty block that is thrown out goes into the victim slot, and home.
    fn throw_out(&mut self, block: Block, out: &mut Outbox)
        requires free { is_blocked self.old block ≡ false }
        requires room { length out.old < 132 }
        ensures { Did (throws_out self.old block) self.new out.old out.new None }
    {
        let Some((old, mode, line)) = self.cache.reserve_way(block) else {
            return;
        };
        if mode == Mode::Dirty {
            self.victim.put(old);
            send(out, old.frame.home, Kind::WriteBack { block: old, line });
        }
    }

    /// Asks the home for the block.
    fn ask(&mut self, want: Want, block: Block, out: &mut Outbox)
        requires room { length out.old < 132 }
        ensures { Did (asks self.old want block) self.new out.old out.new None }
    {
        self.request = Some(Request::issue(want, block));
        let kind = match want {
            Want::Read => Kind::Read { block },
            Want::ReadEx => Kind::ReadEx { block },
            Want::Upgrade => Kind::Upgrade { block },
        };
        send(out, block.frame.home, kind);
    }
}

/// Whether an access with this answer has stored: a conditional has exactly where it answered 0.
fn is_store(access: &Access, answer: u64) -> bool
    ensures { (line : Line) (reserved : Option Reservation) → answer ≡ answer_of line reserved access.now → result ≡ is_stored line reserved access.now }
{
    match access {
        Access::Conditional { .. } => answer == 0,
        _ => access.writes(),
    }
}

/// An act that may be made, and any take, leave an outstanding request an access's, with its block there or with room for it.
pub fn stays_sound()
    ensures { StaysSound }
{}
