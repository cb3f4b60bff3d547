//! The raw form of a program: a little-endian length, so many bytes of text, then data.

ghost use Rattle.std.specs.Prelude.{◌≡◌, ◌≤◌, ◌*◌, ◌+◌, ◌↔◌, [], ◌∷◌, IfOk, IfSome, true, false, length};
ghost use Rattle.og_elf.specs.Segment.{IsLoadable};
ghost use Rattle.og_elf.specs.Raw.{is_raw_out, text_length, text_segment, data_segment, data_size, raw_elf};

use crate::segment::{Bytes, Elf, Segment, Segments};
use byteorder::{ByteOrder, LittleEndian};
use og_base::NoMemory;
use std::alloc::Global;

/// Why a raw file isn't read.
#[derive(Clone, Copy, PartialEq, Eq, Debug)]
pub enum RawFault {
    /// The file has fewer than 4 bytes; its length of text is 0, no multiple of 4 or above 983,040,
    /// or more than the file has; or the data is longer than 16,777,216 bytes.
    RawOut,
    /// Want of memory.
    Memory,
}

const TEXT_ADDR: u64 = 0x10000;

const DATA_ADDR: u64 = 0x100000;

const PAGE: u64 = 4096;

const MOST_TEXT: usize = 983_040;

const MOST_DATA: usize = 16_777_216;

/// Reads a raw file: its text is a runnable segment at 0x10000 that isn't writable, the entry is the
/// text's first byte, and its data a writable segment at 0x100000 of whole pages, at least one.
pub fn read_raw(alloc: Global, bytes: &[u8]) -> Result<Elf, RawFault>
    ensures out { result ≡ Err RawFault.RawOut ↔ (is_raw_out bytes.now ≡ true) }
    ensures read { IfOk result (λ elf. elf ≡ raw_elf bytes.now) }
    ensures not_out { IfOk result (λ elf. is_raw_out bytes.now ≡ false) }
    ensures loadable { IfOk result (λ elf. IsLoadable elf.entry elf.segments) }
{
    match text_of(bytes) {
        None => Err(RawFault::RawOut),
        Some(text) => match elf_of(alloc, bytes, text) {
            Ok(elf) => Ok(elf),
            Err(_) => Err(RawFault::Memory),
        },
    }
}

/// The length of the text, where the file is a raw program.
fn text_of(bytes: &[u8]) -> Option<usize>
    ensures none { result ≡ None ↔ (is_raw_out bytes.now ≡ true) }
    ensures some { IfSome result (λ text. (is_raw_out bytes.now ≡ false) × (text ≡ text_length bytes.now)) }
{
    if bytes.len() < 4 {
        return None;
    }
    let text = LittleEndian::read_u32(bytes) as usize;
    if text == 0 || !text.is_multiple_of(4) || text > MOST_TEXT {
        return None;
    }
    if bytes.len() < 4 + text || bytes.len() - (4 + text) > MOST_DATA {
        return None;
    }
    Some(text)
}

/// The program of a raw file with so many bytes of text.
fn elf_of(alloc: Global, bytes: &[u8], text: usize) -> Result<Elf, NoMemory>
    requires sound { is_raw_out bytes.now ≡ false }
    requires text { text ≡ text_length bytes.now }
    ensures read { IfOk result (λ elf. elf ≡ raw_elf bytes.now) }
{
    let data = &bytes[4 + text..];
    let pages = (data.len() as u64 + PAGE - 1) / PAGE;
    let size = if pages == 0 { PAGE } else { pages * PAGE };
    let first = Segment {
        addr: TEXT_ADDR,
        size: text as u64,
        bytes: Bytes::of(Vec::from_slice(alloc, &bytes[4..4 + text])?),
        writable: false,
        runnable: true,
    };
    let second = Segment {
        addr: DATA_ADDR,
        size,
        bytes: Bytes::of(Vec::from_slice(alloc, data)?),
        writable: true,
        runnable: false,
    };
    let mut segments = Vec::new(alloc);
    segments.push(first)?;
    segments.push(second)?;
    Ok(Elf {
        entry: TEXT_ADDR,
        segments: Segments::of(segments),
    })
}
