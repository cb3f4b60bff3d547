//! Program headers of an ELF file.

ghost use Rattle.std.specs.Prelude.{◌≡◌, ◌+◌, ◌≤◌, ◌<◌, ◌^◌, length};
ghost use Rattle.og_elf.specs.Elf.{header_at, is_loadable, is_runnable, is_writable, span_of_header};

use crate::segment::Span;
use byteorder::{ByteOrder, LittleEndian};

/// A program header: where it stands in the file, and its fields that count. Where the segment lies
/// in the file and how many bytes it has there are `offset` and `filled`.
#[derive(Clone, Copy, PartialEq, Eq, Debug)]
pub struct Header {
    pub at: u64,
    pub kind: u32,
    pub flags: u32,
    pub offset: u64,
    pub addr: u64,
    pub filled: u64,
    pub size: u64,
}

/// The type of a loadable program header (PT_LOAD).
const LOADABLE: u32 = 1;

const RUNNABLE: u32 = 1;

const WRITABLE: u32 = 2;

impl Header {
    /// The program header at an offset of the file.
    pub(crate) fn read(file: &[u8], at: usize) -> Header
        requires { at + 56 ≤ length file.now }
        ensures { result ≡ header_at file.now at }
    {
        Header {
            at: at as u64,
            kind: LittleEndian::read_u32(&file[at..]),
            flags: LittleEndian::read_u32(&file[at + 4..]),
            offset: LittleEndian::read_u64(&file[at + 8..]),
            addr: LittleEndian::read_u64(&file[at + 16..]),
            filled: LittleEndian::read_u64(&file[at + 32..]),
            size: LittleEndian::read_u64(&file[at + 40..]),
        }
    }

    /// Whether it asks for memory.
    pub(crate) fn is_loadable(&self) -> bool
        ensures { result ≡ is_loadable self.now }
    {
        self.kind == LOADABLE && self.size != 0
    }

    pub(crate) fn is_runnable(&self) -> bool
        ensures { result ≡ is_runnable self.now }
    {
        self.flags & RUNNABLE != 0
    }

    pub(crate) fn is_writable(&self) -> bool
        ensures { result ≡ is_writable self.now }
    {
        self.flags & WRITABLE != 0
    }

    pub(crate) fn span(&self) -> Span
        ensures { result ≡ span_of_header self.now }
    {
        Span {
            addr: self.addr,
            size: self.size,
            writable: self.is_writable(),
        }
    }
}
