//! Parts of a program's memory.

ghost use Rattle.std.specs.Prelude.{◌≡◌, ◌+◌, ◌≤◌, ◌<◌};

use std::marker::Model;

/// Bytes of a segment.
#[derive(Drop)]
pub struct Bytes {
    items: Vec<u8>,
}

impl Model for Bytes {
    ghost use Rattle.std.specs.Prelude.{ℕ, List};

    ghost Value = { List ℕ };

    ghost view = { λ b. b.items.items };
}

impl Bytes {
    /// The bytes of a vector.
    pub fn of(items: Vec<u8>) -> Self
        ensures { result ≡ items.items }
    {
        Bytes { items }
    }

    pub fn as_slice(&self) -> &[u8]
        ensures { result.now ≡ self.now }
    {
        self.items.as_slice()
    }
}

/// A part of a program's memory: `size` bytes from `addr` on, of which the file gives the first and
/// the others are 0.
#[derive(Drop)]
pub struct Segment {
    pub addr: u64,
    pub size: u64,
    pub bytes: Bytes,
    pub writable: bool,
    pub runnable: bool,
}

/// Segments in the order of their file.
#[derive(Drop)]
pub struct Segments {
    items: Vec<Segment>,
}

impl Model for Segments {
    ghost use Rattle.std.specs.Prelude.{List};
    ghost use Rattle.og_elf.specs.declared.segment.Segment.{Segment};

    ghost Value = { List Segment };

    ghost view = { λ s. s.items.items };
}

impl Segments {
    /// The segments of a vector.
    pub fn of(items: Vec<Segment>) -> Self
        ensures { result ≡ items.items }
    {
        Segments { items }
    }

    pub fn as_slice(&self) -> &[Segment]
        ensures { result.now ≡ self.now }
    {
        self.items.as_slice()
    }

    /// The vector of the segments.
    pub fn into_items(self) -> Vec<Segment>
        ensures { result.items ≡ self }
    {
        let Segments { items } = self;
        items
    }
}

/// What a file of a program says: the entry and the segments.
#[derive(Drop)]
pub struct Elf {
    pub entry: u64,
    pub segments: Segments,
}

/// Where a segment lies, and whether it is writable.
#[derive(Clone, Copy, PartialEq, Eq, Debug)]
pub struct Span {
    pub addr: u64,
    pub size: u64,
    pub writable: bool,
}

impl Span {
    ghost use Rattle.og_elf.specs.Segment.{overlaps, end_of, first_page, last_page};
    ghost use Rattle.og_elf.specs.Span.{IsWithin};

    fn end(&self) -> u64
        requires { IsWithin self.now }
        ensures { result ≡ end_of self.now }
    {
        self.addr + self.size
    }

    fn first_page(&self) -> u64
        ensures { result ≡ first_page self.now }
    {
        self.addr / PAGE
    }

    fn last_page(&self) -> u64
        requires { IsWithin self.now }
        ensures { result ≡ last_page self.now }
    {
        (self.end() - 1) / PAGE
    }

    /// Whether two spans share a byte, or a page where just one of both is writable.
    pub(crate) fn overlaps(&self, other: &Span) -> bool
        requires this { IsWithin self.now }
        requires other { IsWithin other.now }
        ensures { result ≡ overlaps self.now other.now }
    {
        let shares_byte = self.addr < other.end() && other.addr < self.end();
        let shares_page = self.first_page() <= other.last_page()
            && other.first_page() <= self.last_page();
        shares_byte || (self.writable != other.writable && shares_page)
    }
}

const PAGE: u64 = 4096;
