//! A node's TLB: the frames of a few pages.
//!
//! A fill replaces the frame of a page that is there, else uses the lowest empty slot, else the slots
//! in turn. A page or a frame is dropped when the node learns that the page has moved. What contracts
//! see is the list of slots with the next one (`specs/Tlb`). The layers above see less: what a look-up
//! answers after each call is a law (`laws`), so that nobody above names a slot.
//!
//! Below stand the names of pages and frames, above it the node. All memory is taken by [`Tlb::make`];
//! a call looks at each slot once or twice.
#![tactic(auto)]

ghost use Rattle.std.specs.Prelude.{◌≡◌, ◌<◌, ◌≤◌, length, IfOk, None, if◌then◌else◌};
ghost use Rattle.og_tlb.specs.Tlb.{is_for as slot_has, is_to as slot_leads, emptied};

pub mod laws;
#[cfg(test)]
mod tests;

use og_base::{Frame, NoMemory, VPage};
use std::alloc::Global;
use std::marker::Model;

/// The frame that a page is in.
#[derive(Clone, Copy, PartialEq, Eq, Debug)]
pub struct Translation {
    pub page: VPage,
    pub frame: Frame,
}

/// A node's TLB.
#[derive(Drop)]
pub struct Tlb {
    slots: Vec<Option<Translation>>,
    // The slot that a fill uses when all are full.
    next: usize,
}

impl Model for Tlb {
    ghost use Rattle.og_tlb.specs.Tlb.{Translations, IsTlb};

    ghost Value = { Translations };

    ghost view = { λ t. record { slots = t.slots.items; next = t.next } };

    ghost invariant = { λ t. IsTlb (record { slots = t.slots.items; next = t.next }) };
}

/// Whether a slot has the page.
fn is_for(slot: &Option<Translation>, page: VPage) -> bool
    ensures { result ≡ slot_has page slot.now }
{
    match slot {
        None => false,
        Some(translation) => translation.page == page,
    }
}

/// A slot, empty where it has the page.
fn unless_for(slot: Option<Translation>, page: VPage) -> Option<Translation>
    ensures { result ≡ (if slot_has page slot then None else slot) }
{
    match slot {
        Some(translation) if translation.page == page => None,
        _ => slot,
    }
}

/// A slot, empty where it has the frame.
fn unless_to(slot: Option<Translation>, frame: Frame) -> Option<Translation>
    ensures { result ≡ (if slot_leads frame slot then None else slot) }
{
    match slot {
        Some(translation) if translation.frame == frame => None,
        _ => slot,
    }
}

/// Empties each slot that has the page.
fn empty_page(slots: &mut [Option<Translation>], page: VPage)
    ensures { slots.new ≡ emptied (slot_has page) slots.old }
{
    for slot in slots.iter_mut() {
        *slot = unless_for(*slot, page);
    }
}

/// Empties each slot that has the frame.
fn empty_frame(slots: &mut [Option<Translation>], frame: Frame)
    ensures { slots.new ≡ emptied (slot_leads frame) slots.old }
{
    for slot in slots.iter_mut() {
        *slot = unless_to(*slot, frame);
    }
}

impl Tlb {
    ghost use Rattle.og_tlb.specs.Tlb.{IsTlb, look_of, empty_tlb, slot_of, empty_slot_of, place_for, next_after, filled, without_page, without_frame};

    /// A TLB of so many empty slots. It takes all memory that the TLB will ever need.
    #[tactic(auto, unfolding(crate::specs::Tlb::empty_tlb))]
    pub fn make(alloc: Global, entries: u8) -> Result<Tlb, NoMemory>
        requires { 1 ≤ entries }
        ensures { IfOk result (λ tlb. tlb ≡ empty_tlb entries) }
    {
        let slots = vec![in alloc; None; usize::from(entries)]?;
        Ok(Tlb { slots, next: 0 })
    }

    /// The frame of a page, None exactly where no slot has the page.
    #[tactic(auto, unfolding(crate::specs::Tlb::look_of))]
    pub fn look(&self, page: VPage) -> Option<Frame>
        ensures frame { result ≡ look_of self.now page }
        ensures sound { IsTlb self.now }
    {
        let slot = self.slot_of(page)?;
        self.slots[slot].map(|translation| translation.frame)
    }

    /// Puts a page and its frame into a slot.
    #[tactic(auto, unfolding(crate::specs::Tlb::filled))]
    pub fn fill(&mut self, page: VPage, frame: Frame)
        ensures { self.new ≡ filled self.old page frame }
    {
        let (place, next) = self.place_for(page);
        self.slots[place] = Some(Translation { page, frame });
        self.next = next;
    }

    /// Drops a page.
    #[tactic(auto, unfolding(crate::specs::Tlb::without_page))]
    pub fn drop_page(&mut self, page: VPage)
        ensures { self.new ≡ without_page self.old page }
    {
        empty_page(&mut self.slots, page);
    }

    /// Drops all pages that are in a frame.
    #[tactic(auto, unfolding(crate::specs::Tlb::without_frame))]
    pub fn drop_frame(&mut self, frame: Frame)
        ensures { self.new ≡ without_frame self.old frame }
    {
        empty_frame(&mut self.slots, frame);
    }

    /// The slot that a fill writes, and the next one afterwards.
    fn place_for(&self, page: VPage) -> (usize, usize)
        ensures place { result.0 ≡ place_for self.now page }
        ensures next { result.1 ≡ next_after self.now page }
        ensures inside { result.0 < length self.now.slots }
        ensures sound { IsTlb self.now }
    {
        match self.slot_of(page).or(self.empty_slot_of()) {
            Some(place) => (place, self.next),
            None => (self.next, (self.next + 1) % self.slots.len()),
        }
    }

    /// The slot of a page.
    fn slot_of(&self, page: VPage) -> Option<usize>
        ensures value { result ≡ slot_of self.now page }
        ensures sound { IsTlb self.now }
    {
        self.slots.iter().position(|slot| is_for(slot, page))
    }

    /// The lowest empty slot.
    fn empty_slot_of(&self) -> Option<usize>
        ensures { result ≡ empty_slot_of self.now }
    {
        self.slots.iter().position(|slot| slot.is_none())
    }
}
