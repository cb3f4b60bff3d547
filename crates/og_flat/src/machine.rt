//! Flat memory as a plain program, for tests and checkers.

ghost use Rattle.std.specs.Prelude.{◌≡◌, ◌+◌, ◌*◌, ◌/◌, ◌<◌, ◌^◌, ℕ, ◌++◌, ◌↔◌, IfOk, IfSome, IsTrue, OnOk, replicate, slice_index, Some, None, true, length};
ghost use Rattle.std.specs.List.{flat_map};
ghost use Rattle.og_line.specs.Access.{HasWidth, IsAligned};
ghost use Rattle.og_image.specs.Image.{start_byte, is_page};
ghost use Rattle.og_flat.specs.Flat.{Flat, block_of, flat_answer, flat_next, flat_start, start_line, start_lines};
ghost use Rattle.og_flat.specs.Kept.{IsYoung, Keeps, Takes, has_block, place_in};

use og_base::{NoMemory, NodeId};
use og_image::{Image, all_pages};
use og_line::{Access, LINE_BYTES, Line, Reservation};
use std::alloc::Global;
use std::marker::Model;

/// The lines of a page.
const PAGE_LINES: u64 = 32;

/// The flat memory of a program: the lines of its data and stack pages, and a reservation for each
/// hart. An access takes a binary search among the pages and no memory.
#[derive(Drop)]
pub struct FlatMachine {
    // The pages, rising.
    pages: Vec<u64>,
    // 32 lines for each of them.
    lines: Vec<Line>,
    reserved: Vec<Option<Reservation>>,
}

impl Model for FlatMachine {
    ghost use Rattle.std.specs.Prelude.{◌≡◌, ◌*◌, length};
    ghost use Rattle.std.specs.List.Sorted.{IsStrictlyIncreasing};
    ghost use Rattle.og_flat.specs.Kept.{KeptState};

    ghost Value = { KeptState };

    ghost view = { λ m. record { pages = m.pages.items; lines = m.lines.items; reserved = m.reserved.items } };

    ghost invariant = { λ m. record { rising : IsStrictlyIncreasing m.pages.items; filled : length m.lines.items ≡ 32 * length m.pages.items } };
}

impl FlatMachine {
    /// The flat memory of a program at the start, for `nodes` harts.
    pub fn make(alloc: Global, image: &Image, nodes: u8) -> Result<FlatMachine, NoMemory>
        ensures start { IfOk result (λ machine. Keeps machine (flat_start (start_byte image.now))) }
        ensures pages { IfOk result (λ machine. (block : ℕ) → is_page image.now (block / 32) ≡ true → has_block machine block ≡ true) }
        ensures harts { IfOk result (λ machine. length machine.reserved ≡ nodes) }
    {
        image.stays_loadable();
        let pages = all_pages(alloc, image)?;
        let lines = all_lines(alloc, image, pages.as_slice())?;
        let reserved = no_reservations(alloc, nodes)?;
        Ok(FlatMachine {
            pages,
            lines,
            reserved,
        })
    }

    /// Makes an access of a hart: answers it and changes memory and the hart's reservation.
    pub fn access(&mut self, hart: NodeId, access: &Access) -> u64
        requires { Takes self.old hart access.now }
        ensures answer { (flat : Flat) → Keeps self.old flat → result ≡ flat_answer flat hart access.now }
        ensures kept { (flat : Flat) → Keeps self.old flat → Keeps self.new (flat_next flat hart access.now) }
        ensures pages { self.new.pages ≡ self.old.pages }
        ensures harts { length self.new.reserved ≡ length self.old.reserved }
    {
        let at = self.place(access.addr() / LINE_BYTES);
        let line = &mut self.lines[at];
        line.perform(access, &mut self.reserved[usize::from(hart)])
    }

    /// Whether an access of a hart can be made: it has a width of its kind and an address that is a
    /// multiple of it, on a page of the program; the hart is one of the machine's; and its block has
    /// seen fewer than 2^63 stores.
    pub fn takes(&self, hart: NodeId, access: &Access) -> bool
        ensures { IsTrue result ↔ Takes self.now hart access.now }
    {
        is_aligned(access) && usize::from(hart) < self.reserved.len() && self.is_young(access)
    }

    /// Whether the block of an access is kept and has seen fewer than 2^63 stores.
    fn is_young(&self, access: &Access) -> bool
        ensures { IsTrue result ↔ IsYoung self.now access.now }
    {
        match self.find(access.addr() / LINE_BYTES) {
            Some(at) => self.lines[at].stores < 1 << 63,
            None => false,
        }
    }

    /// The place of a block's line, if it is kept.
    fn find(&self, block: u64) -> Option<usize>
        ensures place { result ≡ place_in self.now.pages block }
        ensures inside { IfSome result (λ at. at < length self.now.lines) }
    {
        match self.pages.as_slice().binary_search(&(block / PAGE_LINES)) {
            Ok(page) => Some(page * 32 + (block % PAGE_LINES) as usize),
            Err(_) => None,
        }
    }

    /// The place of a block's line.
    fn place(&self, block: u64) -> usize
        requires { has_block self.now block ≡ true }
        ensures place { place_in self.now.pages block ≡ Some result }
        ensures inside { result < length self.now.lines }
    {
        match self.find(block) {
            Some(at) => at,
            None => unreachable!(),
        }
    }
}

/// Whether an access has a width of its kind.
fn has_width(access: &Access) -> bool
    ensures { IsTrue result ↔ HasWidth access.now }
{
    match *access {
        Access::Load { width, .. } | Access::Store { width, .. } => {
            width == 1 || width == 2 || width == 4 || width == 8
        }
        Access::Reserve { width, .. }
        | Access::Conditional { width, .. }
        | Access::Atomic { width, .. } => width == 4 || width == 8,
    }
}

/// Whether an access has a width of its kind and an address that is a multiple of it.
fn is_aligned(access: &Access) -> bool
    ensures { IsTrue result ↔ IsAligned access.now }
{
    has_width(access) && access.addr().is_multiple_of(u64::from(access.width()))
}

/// A block's line at the start.
pub fn start_line(image: &Image, block: u64) -> Line
    requires { block < 2 ^ 56 }
    ensures { result ≡ start_line (start_byte image.now) block }
{
    let mut line = Line::zero();
    for i in 0..128usize {
        line.bytes[i] = image.start_byte(block * 128 + i as u64);
    }
    line
}

/// Appends the lines of a page as they are at the start.
fn push_page(lines: &mut Vec<Line>, image: &Image, page: u64) -> Result<(), NoMemory>
    requires { page < 2 ^ 50 }
    ensures { OnOk result (lines.new.items ≡ lines.old.items ++ start_lines (start_byte image.now) (32 * page) 32) }
{
    for number in 0..PAGE_LINES {
        lines.push(start_line(image, 32 * page + number))?;
    }
    Ok(())
}

/// The lines of the pages as they are at the start.
fn all_lines(alloc: Global, image: &Image, pages: &[u64]) -> Result<Vec<Line>, NoMemory>
    requires { (k : ℕ) → k < length pages.now → slice_index pages.now k < 2 ^ 50 }
    ensures { IfOk result (λ lines. lines.items ≡ flat_map (λ page. start_lines (start_byte image.now) (32 * page) 32) pages.now) }
{
    let mut lines = Vec::new(alloc);
    for page in pages {
        push_page(&mut lines, image, *page)?;
    }
    Ok(lines)
}

/// No reservation, for each hart.
fn no_reservations(alloc: Global, nodes: u8) -> Result<Vec<Option<Reservation>>, NoMemory>
    ensures { IfOk result (λ reserved. reserved.items ≡ replicate nodes None) }
{
    let mut reserved = Vec::new(alloc);
    for _hart in 0..nodes {
        reserved.push(None)?;
    }
    Ok(reserved)
}
