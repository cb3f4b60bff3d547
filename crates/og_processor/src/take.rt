//! What a processor makes of a message.

ghost use Rattle.std.specs.Prelude.{◌≡◌, ◌≢◌, ◌<◌, ◌≤◌, ◌+◌, ◌++◌, ◌⊎◌, [], length, true, false, IsSome, Some, None};
ghost use Rattle.og_cache.specs.Cache.{look_of, mode_of, has_room};
ghost use Rattle.og_line.specs.declared.Mode.{Mode};
ghost use Rattle.og_victim.specs.Slot.{is_slot_of};
ghost use Rattle.og_processor.specs.State.{Did};
ghost use Rattle.og_request.specs.declared.Held.{Held};
ghost use Rattle.og_request.specs.declared.Outcome.{Outcome};
ghost use Rattle.og_processor.specs.Take.{take_of, drops, intervenes, is_asked, receives, ends, settles, fills, put_line, answers_held, forgets};
ghost use Rattle.og_processor.specs.Rows.{has_row_for, has_intervention_row, has_part_row, ends_well, has_its_copy};
ghost use Rattle.og_processor.specs.Sound.{IsSound, IsWaiting, IsLow, IsLowProcessor, IsLowKind, line_brought};
ghost use Rattle.rv_hart.specs.Hart.{need_of};

use crate::{Processor, page_of, send};
use og_base::Block;
use og_cache::laws;
use og_image::Image;
use og_line::{Line, Mode};
use og_msg::{Kind, Note, Outbox};
use og_owner::{intervene, invalidate};
use og_request::{Held, Outcome, Request, Want};
use rv_hart::hart::Need;

impl Processor {
    /// Serves a message that has a row here.
    #[tactic(auto, unfolding(crate::specs::Take::take_of, crate::specs::Rows::has_row_for))]
    pub fn take(&mut self, image: &Image, kind: &Kind, out: &mut Outbox) -> Option<Note>
        requires row { has_row_for self.old kind.now ≡ true }
        requires sound { IsSound image.now self.old }
        requires low { IsLowProcessor self.old }
        requires low_message { IsLowKind kind.now }
        requires room { length out.old + 3 ≤ 132 }
        ensures state { self.new ≡ (take_of image.now self.old kind.now).state }
        ensures letters { out.new ≡ out.old ++ (take_of image.now self.old kind.now).letters }
        ensures note { result ≡ (take_of image.now self.old kind.now).note }
    {
        match *kind {
            Kind::Invalidate { block, requester } => {
                invalidate(&mut self.cache, &mut self.request, block, requester, out);
                return None;
            }
            Kind::InterveneShared { block, requester } => {
                self.be_asked(image, block, Held::Shared(requester), out);
                return None;
            }
            Kind::InterveneEx { block, requester } => {
                self.be_asked(image, block, Held::Exclusive(requester), out);
                return None;
            }
            Kind::IntervenePoison { block } => {
                self.be_asked(image, block, Held::Poison, out);
                return None;
            }
            Kind::WbAck { .. } => self.victim.ack(false),
            Kind::WbBusyAck { .. } => self.victim.ack(true),
            Kind::Walked { page, frame } => {
                self.tlb.fill(page, frame);
                self.walk = None;
            }
            Kind::WalkRetry { .. } => self.walk = None,
            Kind::DropFrame { frame } => self.drop = Some(frame),
            _ => return self.receive(image, kind, out),
        }
        self.answer_drop(image, out);
        None
    }

    /// Receives a part of the answer to the request.
    fn receive(&mut self, image: &Image, kind: &Kind, out: &mut Outbox) -> Option<Note>
        requires row { has_part_row self.old self.old.request kind.now ≡ true }
        requires sound { IsSound image.now self.old }
        requires low { IsLowProcessor self.old }
        requires low_message { IsLowKind kind.now }
        requires room { length out.old + 3 ≤ 132 }
        ensures { Did (receives image.now self.old self.old.request kind.now) self.new out.old out.new result }
    {
        let Some(mut request) = self.request.take() else {
            unreachable!()
        };
        match request.reply(kind) {
            Outcome::Waiting => {
                self.request = Some(request);
                None
            }
            outcome => self.end(image, &request, outcome, out),
        }
    }

    /// Ends a request: what it brought, then the intervention that it held, then a drop request that is due.
    fn end(
        &mut self,
        image: &Image,
        request: &Request,
        outcome: Outcome,
        out: &mut Outbox,
    ) -> Option<Note>
        requires over { outcome ≢ Outcome.Waiting }
        requires none { self.old.request ≡ None }
        requires row { ends_well self.old request.now outcome ≡ true }
        requires waiting { IsWaiting image.now self.old request.now.block }
        requires low { IsLowProcessor self.old }
        requires low_line { IsLow (line_brought outcome) }
        requires room { length out.old + 3 ≤ 132 }
        ensures { Did (ends image.now self.old request.now outcome) self.new out.old out.new result }
    {
        self.cache.stays_sound();
        let note = self.settle(image, request, outcome);
        self.answer_held(request, out);
        self.answer_drop(image, out);
        note
    }

    /// Answers the intervention that the request held, if it held one.
    fn answer_held(&mut self, request: &Request, out: &mut Outbox)
        requires owner { (held : Held) → request.now.held ≡ Some held → is_slot_of self.old.victim request.now.block ≡ false → mode_of self.old.cache request.now.block ≢ Some Mode.Shared }
        requires room { length out.old + 2 ≤ 132 }
        ensures did { Did (answers_held self.old request.now.block request.now.held) self.new out.old out.new None }
        ensures few { length out.new ≤ length out.old + 2 }
    {
        if let Some(held) = request.held() {
            self.answer(request.block(), held, out);
        }
    }

    /// What the request brought: a fill and its access, nothing, or that the page has moved away.
    fn settle(&mut self, image: &Image, request: &Request, outcome: Outcome) -> Option<Note>
        requires none { self.old.request ≡ None }
        requires copy { has_its_copy self.old request.now.block outcome ≡ true }
        requires waiting { IsWaiting image.now self.old request.now.block }
        requires low { IsLowProcessor self.old }
        requires low_line { IsLow (line_brought outcome) }
        ensures { Did (settles image.now self.old request.now outcome) self.new [] [] result }
    {
        match outcome {
            Outcome::Waiting => None,
            Outcome::Filled { mode, line } => Some(self.fill(image, request.block(), mode, line)),
            Outcome::Again => {
                if request.want() == Want::Upgrade {
                    let _ = self.cache.take_out(request.block());
                }
                None
            }
            Outcome::Poisoned => {
                self.forget(image);
                None
            }
        }
    }

    /// Fills the block, or gives the copy that is there its new line and mode, and makes the access that waited for it.
    fn fill(&mut self, image: &Image, block: Block, mode: Mode, line: Option<Line>) -> Note
        requires copy { has_its_copy self.old block (Outcome.Filled mode line) ≡ true }
        requires waiting { IsWaiting image.now self.old block }
        requires low { IsLowProcessor self.old }
        requires low_line { IsLow line }
        ensures { Did (fills image.now self.old block mode line) self.new [] [] (Some result) }
    {
        let Need::Access(access) = self.hart.next(image) else {
            unreachable!()
        };
        self.cache.stays_sound();
        self.put(block, mode, line);
        self.complete(image, &access, block)
    }

    /// Fills the block, or gives the copy that is there its new line and mode.
    fn put(&mut self, block: Block, mode: Mode, line: Option<Line>)
        requires copy { has_its_copy self.old block (Outcome.Filled mode line) ≡ true }
        requires place { IsSome (look_of self.old.cache block) ⊎ (has_room self.old.cache block ≡ true) }
        ensures { self.new ≡ record self.old { cache = put_line self.old.cache block mode line } }
    {
        laws::line_is_seen();
        let Some(line) = line else {
            self.cache.set_mode(block, mode);
            return;
        };
        if self.cache.look(block).is_some() {
            *self.cache.line_mut(block) = line;
            self.cache.set_mode(block, mode);
        } else {
            self.cache.fill(block, mode, &line);
        }
    }

    /// Drops the translation through which the access went.
    fn forget(&mut self, image: &Image)
        requires runs { self.old.hart.cause ≡ None }
        ensures { Did (forgets self.old (need_of image.now self.old.hart)) self.new [] [] None }
    {
        if let Need::Access(access) = self.hart.next(image) {
            self.tlb.drop_page(page_of(access.addr()));
        }
    }

    /// Is asked for a block by its home: the question is held while the node's own request for the block is outstanding.
    fn be_asked(&mut self, image: &Image, block: Block, held: Held, out: &mut Outbox)
        requires row { has_intervention_row self.old block ≡ true }
        requires room { length out.old + 3 ≤ 132 }
        ensures { Did (is_asked image.now self.old block held) self.new out.old out.new None }
    {
        if let Some(request) = &mut self.request
            && request.block() == block
        {
            request.hold(held);
            return;
        }
        self.answer(block, held, out);
        self.answer_drop(image, out);
    }

    /// Answers an intervention, by the victim slot where that has the block, and else by the copy.
    fn answer(&mut self, block: Block, held: Held, out: &mut Outbox)
        requires owner { is_slot_of self.old.victim block ≡ false → mode_of self.old.cache block ≢ Some Mode.Shared }
        requires room { length out.old + 2 ≤ 132 }
        ensures did { Did (intervenes self.old block held) self.new out.old out.new None }
        ensures few { length out.new ≤ length out.old + 2 }
    {
        if self.victim.holds(block) {
            self.victim.intervene();
        } else {
            intervene(&mut self.cache, block, held, out);
        }
    }

    /// Answers a drop request that is held, where nothing is outstanding.
    fn answer_drop(&mut self, image: &Image, out: &mut Outbox)
        requires room { length out.old < 132 }
        ensures { Did (drops image.now self.old) self.new out.old out.new None }
    {
        if self.request.is_some() || self.walk.is_some() || !self.victim.is_free() {
            return;
        }
        let Some(frame) = self.drop else {
            return;
        };
        self.tlb.drop_frame(frame);
        self.drop = None;
        send(out, image.nodes(), Kind::Dropped { frame });
    }
}
