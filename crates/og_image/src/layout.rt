//! In which frame each page stands at the start.

ghost use Rattle.std.specs.Option.{option_map};
ghost use Rattle.std.specs.Prelude.{slice_get, IfSome, ◌^◌, ◌≡◌, ℕ, ◌+◌, ◌*◌, ◌≤◌, ◌<◌, Bool, max, length, OnOk, IfOk};
ghost use Rattle.std.specs.List.{filter};
ghost use Rattle.og_base.specs.Numbers.{below};
ghost use Rattle.og_elf.specs.Segment.{IsPlaced};
ghost use Rattle.og_image.specs.Image.{ImageState, touches, page_after};
ghost use Rattle.og_image.specs.Layout.{layout_of, pages_of, data_pages, first_frame, frame_at};

use crate::image::Image;
use og_base::{Frame, NoMemory, PAGE_BYTES, Settings, VPage};
use og_elf::Segment;
use std::alloc::Global;
use std::marker::Model;

/// Why no layout was made.
#[derive(Clone, Copy, PartialEq, Eq, Debug)]
pub enum LayoutFault {
    /// The program has `need` data and stack pages, and the machine `have` frames, which are fewer.
    NoFrames { need: u64, have: u64 },
    /// Want of memory.
    Memory,
}

/// The frame of each page at the start: pages in rising order, data then stack, have numbers from 0;
/// number i goes to home i mod nodes, frame i div nodes. Finding a page's frame takes a binary search.
#[derive(Drop)]
pub struct Layout {
    nodes: u8,
    pages: Vec<u64>,
}

impl Model for Layout {
    ghost use Rattle.std.specs.Prelude.{ℕ, ◌≤◌, ◌<◌, ◌^◌, ◌*◌, length, slice_index};
    ghost use Rattle.std.specs.List.Sorted.{IsStrictlyIncreasing};
    ghost use Rattle.og_image.specs.Layout.{LayoutState};

    ghost Value = { LayoutState };

    ghost view = { λ l. record { nodes = l.nodes; pages = l.pages.items } };

    ghost invariant = { λ l. record { some : 1 ≤ l.nodes; few : l.nodes ≤ 128; rising : IsStrictlyIncreasing l.pages.items; room : length l.pages.items ≤ l.nodes * 1024; low : (k : ℕ) → k < length l.pages.items → slice_index l.pages.items k < 2 ^ 20 } };
}

impl Layout {
    /// Places the pages of a program.
    pub fn make(alloc: Global, image: &Image, settings: &Settings) -> Result<Layout, LayoutFault>
        requires { settings.now.nodes ≡ image.now.nodes }
        ensures placed { IfOk result (λ layout. layout ≡ layout_of image.now) }
        ensures room { OnOk result (length (pages_of image.now) ≤ settings.now.nodes * settings.now.frames) }
        ensures no_frames { (need have : ℕ) → result ≡ Err (LayoutFault.NoFrames need have) →
            (need ≡ length (pages_of image.now)) × (have ≡ settings.now.nodes * settings.now.frames) × (have < need) }
    {
        let pages = match all_pages(alloc, image) {
            Ok(pages) => pages,
            Err(_) => return Err(LayoutFault::Memory),
        };
        let need = pages.len() as u64;
        let have = u64::from(settings.nodes) * u64::from(settings.frames);
        if need > have {
            return Err(LayoutFault::NoFrames { need, have });
        }
        Ok(Layout {
            nodes: settings.nodes,
            pages,
        })
    }

    /// The frame of a page at the start: None for a page that isn't placed.
    pub fn first(&self, page: VPage) -> Option<Frame>
        ensures { result ≡ first_frame self.now page.0 }
    {
        match self.pages.as_slice().binary_search(&page.0) {
            Ok(i) => Some(self.frame(i)),
            Err(_) => None,
        }
    }

    /// How many nodes share the pages.
    pub fn nodes(&self) -> u8
        ensures { result ≡ self.now.nodes }
    {
        self.nodes
    }

    /// The page with a number: None where there are no more pages.
    pub fn page(&self, number: usize) -> Option<VPage>
        ensures page { option_map (λ page. page.0) result ≡ slice_get self.now.pages number }
        ensures low { IfSome result (λ page. page.0 < 2 ^ 20) }
    {
        match self.pages.as_slice().get(number) {
            Some(page) => Some(VPage(*page)),
            None => None,
        }
    }

    /// The frame of the page with a number.
    fn frame(&self, i: usize) -> Frame
        requires { i < length self.now.pages }
        ensures { result ≡ frame_at self.now.nodes i }
    {
        let nodes = usize::from(self.nodes);
        Frame {
            home: (i % nodes) as u8,
            index: (i / nodes) as u16,
        }
    }
}

/// All pages that are placed, rising: the data pages, then a stack page for each hart.
pub fn all_pages(alloc: Global, image: &Image) -> Result<Vec<u64>, NoMemory>
    ensures { IfOk result (λ pages. pages.items ≡ pages_of image.now) }
{
    let mut pages = data_pages(alloc, image)?;
    for hart in 0..image.nodes() {
        pages.push(FIRST_STACK_PAGE + 2 * u64::from(hart))?;
    }
    Ok(pages)
}

/// The data pages, rising. This is a pass over the segments, which are in the order of their
/// addresses.
fn data_pages(alloc: Global, image: &Image) -> Result<Vec<u64>, NoMemory>
    ensures { IfOk result (λ pages. pages.items ≡ data_pages image.now) }
{
    image.stays_loadable();
    let segments = image.segments();
    let mut pages = Vec::new(alloc);
    let mut next = 0;
    for segment in segments {
        if segment.writable {
            next = push_pages(&mut pages, next, segment)?;
        }
    }
    Ok(pages)
}

/// Adds the pages from `next` on that have a byte of the segment, and answers from which page on none
/// has. Where the pages so far are those below `next` that pass a test, which a page from there on passes
/// just where it has a byte of the segment, they are those below the answer that pass it.
fn push_pages(pages: &mut Vec<u64>, next: u64, segment: &Segment) -> Result<u64, NoMemory>
    requires { IsPlaced segment.now }
    ensures end { IfOk result (λ end. end ≡ max next (page_after segment.now)) }
    ensures added { IfOk result (λ end. (p : ℕ → Bool) → ((k : ℕ) → next ≤ k → k < end → p k ≡ touches k segment.now) →
        pages.old.items ≡ filter p (below next) → pages.new.items ≡ filter p (below end)) }
{
    let first = segment.addr / PAGE_BYTES;
    let after = (segment.addr + segment.size - 1) / PAGE_BYTES + 1;
    let end = next.max(after);
    for page in next.max(first)..end {
        pages.push(page)?;
    }
    Ok(end)
}

const FIRST_STACK_PAGE: u64 = 0x70000;
