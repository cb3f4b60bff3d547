//! A loaded program: its segments and its entry.

ghost use Rattle.std.specs.Prelude.{◌≡◌, ℕ, ◌+◌, ◌*◌, ◌≤◌, ◌<◌, ◌^◌, IfOk, IfSome};
ghost use Rattle.std.specs.Option.{option_copied};
ghost use Rattle.std.specs.List.Sorted.{IsPermutation, IsNonDecreasingBy};
ghost use Rattle.og_elf.specs.declared.segment.Segment.{Segment};
ghost use Rattle.og_elf.specs.Segment.{IsLoadable, IsPlaced, is_text, lies_in, span_of, end_of};
ghost use Rattle.og_image.specs.Image.{fetch_of, read_only_of, is_data_of, is_page, byte_of, byte_in, number_at, on_page, is_constant, is_written, Finds, FindsPages, is_data_page, is_stack_page, start_byte, image_of, in_order};

use byteorder::{ByteOrder, LittleEndian};
use og_base::NoMemory;
use og_elf::{Elf, Segment, Segments};
use std::alloc::Global;
use std::marker::Model;

/// A program that was loaded for a number of nodes.
#[derive(Drop)]
pub struct Image {
    entry: u64,
    nodes: u8,
    segments: Segments,
}

impl Model for Image {
    ghost use Rattle.std.specs.Prelude.{◌≤◌, ℕ};
    ghost use Rattle.std.specs.List.Sorted.{IsNonDecreasingBy};
    ghost use Rattle.og_elf.specs.Segment.{IsLoadable};
    ghost use Rattle.og_image.specs.Image.{ImageState};

    ghost Value = { ImageState };

    ghost view = { λ i. record { entry = i.entry; nodes = i.nodes; segments = i.segments } };

    ghost invariant = { λ i. record { some : 1 ≤ i.nodes; loadable : IsLoadable i.entry i.segments; rising : IsNonDecreasingBy (λ s. s.addr) i.segments } };
}

/// The byte at an address from the segment's on.
fn byte(segment: &Segment, addr: u64) -> u8
    requires { segment.now.addr ≤ addr }
    ensures { result ≡ byte_in segment.now addr }
{
    let at = (addr - segment.addr) as usize;
    segment.bytes.as_slice().get(at).copied().unwrap_or(0)
}

/// The little-endian number of `width` bytes from an address of the segment on.
fn number(segment: &Segment, addr: u64, width: u8) -> u64
    requires above { segment.now.addr ≤ addr }
    requires fits { addr + width < 2 ^ 64 }
    requires narrow { width ≤ 8 }
    ensures value { result ≡ number_at (byte_in segment.now) addr width }
    ensures small { result < 256 ^ width }
{
    if width == 0 {
        return 0;
    }
    u64::from(byte(segment, addr)) + 256 * number(segment, addr + 1, width - 1)
}

/// The word of the four bytes from an address of the segment on: one read where the file gave all
/// four, and byte by byte at the end of what it gave.
fn word(segment: &Segment, addr: u64) -> u32
    requires above { segment.now.addr ≤ addr }
    requires low { addr < 2 ^ 63 }
    ensures { result ≡ number_at (byte_in segment.now) addr 4 }
{
    let bytes = segment.bytes.as_slice();
    let at = (addr - segment.addr) as usize;
    if bytes.len() >= 4 && at <= bytes.len() - 4 {
        LittleEndian::read_u32(&bytes[at..])
    } else {
        number(segment, addr, 4) as u32
    }
}

/// Whether `count` bytes from an address on lie in the segment.
fn has(segment: &Segment, addr: u64, count: u8) -> bool
    requires { end_of (span_of segment.now) < 2 ^ 63 }
    ensures { result ≡ lies_in addr count (span_of segment.now) }
{
    segment.addr <= addr && addr < 1 << 63 && addr + u64::from(count) <= segment.addr + segment.size
}

/// Whether the segment is runnable and has the four bytes at an address.
fn is_text(segment: &Segment, pc: u64) -> bool
    requires { IsPlaced segment.now }
    ensures { result ≡ is_text pc segment.now }
{
    segment.runnable && has(segment, pc, 4)
}

/// Whether the segment isn't writable and has the bytes at an address.
fn is_constant(segment: &Segment, addr: u64, width: u8) -> bool
    requires { IsPlaced segment.now }
    ensures { result ≡ is_constant addr width segment.now }
{
    !segment.writable && has(segment, addr, width)
}

/// Whether the segment is writable and has the byte at an address.
fn is_written(segment: &Segment, addr: u64) -> bool
    requires { IsPlaced segment.now }
    ensures { result ≡ is_written addr segment.now }
{
    segment.writable && has(segment, addr, 1)
}

/// Whether the segment is writable and a page has a byte of it.
fn is_on(segment: &Segment, page: u64) -> bool
    requires { IsPlaced segment.now }
    ensures { result ≡ on_page page segment.now }
{
    segment.writable
        && page < 1 << 51
        && page * PAGE_BYTES < segment.addr + segment.size
        && segment.addr < page * PAGE_BYTES + PAGE_BYTES
}

impl Image {
    /// Loads a program for `nodes` nodes.
    pub fn make(_alloc: Global, elf: Elf, nodes: u8) -> Result<Image, NoMemory>
        requires nodes { 1 ≤ nodes }
        requires loadable { IsLoadable elf.entry elf.segments }
        ensures made { IfOk result (λ image. image ≡ image_of elf.entry elf.segments nodes) }
    {
        let Elf { entry, segments } = elf;
        let segments = in_order(segments)?;
        Ok(Image {
            entry,
            nodes,
            segments,
        })
    }

    /// The address of the first instruction.
    pub fn entry(&self) -> u64
        ensures { result ≡ self.now.entry }
    {
        self.entry
    }

    /// What an image keeps: its program can be loaded, for at least one node and at most 255, and
    /// its segments are in the order of their addresses.
    pub fn stays_loadable(&self)
        ensures program { IsLoadable self.now.entry self.now.segments }
        ensures rising { IsNonDecreasingBy (λ s. s.addr) self.now.segments }
        ensures some { 1 ≤ self.now.nodes }
        ensures few { self.now.nodes ≤ 255 }
    {
        let _nodes = self.nodes;
        let _ = &self.segments;
    }

    /// The segments, in the order of their addresses.
    pub(crate) fn segments(&self) -> &[Segment]
        ensures { result.now ≡ self.now.segments }
    {
        self.segments.as_slice()
    }

    /// The number of nodes that the program was loaded for.
    pub fn nodes(&self) -> u8
        ensures { result ≡ self.now.nodes }
    {
        self.nodes
    }

    /// The last segment that begins at an address or before it. A segment that has the address is
    /// this one, and a page that ends there has a byte of a writable segment where this one is
    /// writable and has one.
    fn last_to(&self, addr: u64) -> Option<&Segment>
        ensures placed { IfSome result (λ segment. IsPlaced segment.now) }
        ensures found { Finds addr self.now.segments (option_copied result) }
        ensures pages { FindsPages addr self.now.segments (option_copied result) }
    {
        let segments = self.segments.as_slice();
        let count = segments.partition_point(|segment| segment.addr <= addr);
        if count == 0 {
            None
        } else {
            Some(&segments[count - 1])
        }
    }

    /// The instruction word at an address: None where its four bytes don't lie in one runnable
    /// segment.
    pub fn fetch(&self, pc: u64) -> Option<u32>
        ensures { result ≡ fetch_of self.now pc }
    {
        let segment = self.last_to(pc)?;
        if is_text(segment, pc) {
            Some(word(segment, pc))
        } else {
            None
        }
    }

    /// The bytes at an address as a number: None where they don't lie in one segment that isn't
    /// writable.
    pub fn read_only(&self, addr: u64, width: u8) -> Option<u64>
        requires some { 1 ≤ width }
        requires narrow { width ≤ 8 }
        ensures { result ≡ read_only_of self.now addr width }
    {
        let segment = self.last_to(addr)?;
        if is_constant(segment, addr, width) {
            Some(number(segment, addr, width))
        } else {
            None
        }
    }

    /// Whether a page has a byte of a writable segment.
    pub fn is_data_page(&self, page: u64) -> bool
        ensures { result ≡ is_data_page self.now page }
    {
        if page >= FIRST_STACK_PAGE {
            self.stays_loadable();
            return false;
        }
        match self.last_to(page * PAGE_BYTES + (PAGE_BYTES - 1)) {
            Some(segment) => is_on(segment, page),
            None => false,
        }
    }

    /// Whether a page is the stack page of a hart below the number of nodes.
    pub fn is_stack_page(&self, page: u64) -> bool
        ensures { result ≡ is_stack_page self.now page }
    {
        page >= FIRST_STACK_PAGE
            && (page - FIRST_STACK_PAGE).is_multiple_of(2)
            && (page - FIRST_STACK_PAGE) / 2 < u64::from(self.nodes)
    }

    /// Whether a page is a data or a stack page.
    pub fn is_page(&self, page: u64) -> bool
        ensures { result ≡ is_page self.now page }
    {
        self.is_data_page(page) || self.is_stack_page(page)
    }

    /// Whether an address is on a data or a stack page.
    pub fn is_data(&self, addr: u64) -> bool
        ensures { result ≡ is_data_of self.now addr }
    {
        self.is_page(addr / PAGE_BYTES)
    }

    /// What stands at an address of a data or stack page at the start; None elsewhere.
    pub fn byte(&self, addr: u64) -> Option<u8>
        ensures { result ≡ byte_of self.now addr }
    {
        if self.is_data(addr) {
            Some(self.start_byte(addr))
        } else {
            None
        }
    }

    /// The byte that a writable segment has at an address, and 0 elsewhere.
    pub fn start_byte(&self, addr: u64) -> u8
        ensures { result ≡ start_byte self.now addr }
    {
        match self.last_to(addr) {
            Some(segment) if is_written(segment, addr) => byte(segment, addr),
            _ => 0,
        }
    }
}

/// Segments in the order of their addresses.
fn in_order(segments: Segments) -> Result<Segments, NoMemory>
    ensures order { IfOk result (λ sorted. sorted ≡ in_order segments) }
    ensures permutation { IfOk result (λ sorted. IsPermutation segments sorted) }
    ensures rising { IfOk result (λ sorted. IsNonDecreasingBy (λ s. s.addr) sorted) }
{
    let mut items = segments.into_items();
    items.sort_by_key(|segment| segment.addr)?;
    Ok(Segments::of(items))
}

const PAGE_BYTES: u64 = 4096;

const FIRST_STACK_PAGE: u64 = 0x70000;
