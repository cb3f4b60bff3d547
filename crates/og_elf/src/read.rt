//! Reading ELF files.

ghost use Rattle.std.specs.Prelude.{◌≡◌, ℕ, ◌≤◌, ◌<◌, ◌+◌, ◌*◌, ◌↔◌, All, IfOk, OnOk, MatchOption, true, false, map, length};
ghost use Rattle.std.proofs.Common.{Some, None};
ghost use Rattle.std.specs.List.{find, list_any};
ghost use Rattle.std.specs.Option.{option_map, option_copied};
ghost use Rattle.og_elf.specs.Span.{IsWithin};
ghost use Rattle.og_elf.specs.Segment.{IsLoadable, is_entry};
ghost use Rattle.og_elf.specs.Elf.{field, head_fault, target_fault, headers_fault, at_header, loads_of, loads_fault, fault_of, elf_of, entry_of, headers_at, header_count, segment_of, segments_of, is_out, is_text_header, has_entry, is_writable_text, passing, span_of_header};

use crate::fault::{ElfCause, ElfFault};
use crate::header::Header;
use crate::overlap::first_overlap;
use crate::segment::{Bytes, Elf, Segment, Segments};
use byteorder::{ByteOrder, LittleEndian};
use og_base::NoMemory;
use std::alloc::Global;

const HEAD_BYTES: usize = 64;

const MAGIC: u32 = 0x464c_457f;

const CLASS_64: u8 = 2;

const LITTLE_ENDIAN: u8 = 1;

const EXECUTABLE: u16 = 2;

const RISCV: u16 = 243;

const HEADER_BYTES: u16 = 56;

const LOWEST_ADDR: u64 = 0x1000;

const STACKS_ADDR: u64 = 0x7000_0000;

const MOST_MEMORY: u64 = 16_777_216;

/// Reads an ELF-64 executable: its entry and the segments of its loadable program headers, or the
/// first fault of the file. What else stands in the file is passed over. A fault of the file's head is
/// told whatever memory there is; the program headers are collected in memory before they are looked at.
pub fn read_elf(alloc: Global, bytes: &[u8]) -> Result<Elf, ElfFault>
    ensures head { (fault : ElfFault) → head_fault bytes.now ≡ Some fault → result ≡ Err fault }
    ensures bad { (cause : ElfCause) (at : ℕ) → result ≡ Err (ElfFault.Bad cause at) → fault_of bytes.now ≡ Some (ElfFault.Bad cause at) }
    ensures sound { OnOk result (fault_of bytes.now ≡ None) }
    ensures read { IfOk result (λ elf. elf ≡ elf_of bytes.now) }
    ensures loadable { IfOk result (λ elf. IsLoadable elf.entry elf.segments) }
{
    if let Some(fault) = head_fault(bytes) {
        return Err(fault);
    }
    let loads = loads_of(alloc, bytes)?;
    if let Some(fault) = loads_fault(alloc, bytes, loads.as_slice())? {
        return Err(fault);
    }
    Ok(elf_of(alloc, bytes, loads.as_slice())?)
}

/// The first fault of the file's head.
fn head_fault(bytes: &[u8]) -> Option<ElfFault>
    ensures fault { result ≡ head_fault bytes.now }
    ensures head { result ≡ None → 64 ≤ length bytes.now }
    ensures headers { result ≡ None → 0 < header_count bytes.now → headers_at bytes.now + 56 * header_count bytes.now ≤ length bytes.now }
{
    if bytes.len() < HEAD_BYTES || LittleEndian::read_u32(bytes) != MAGIC {
        return bad(ElfCause::NotElf, 0);
    }
    if bytes[4] != CLASS_64 {
        return bad(ElfCause::NotClass64, 4);
    }
    if bytes[5] != LITTLE_ENDIAN {
        return bad(ElfCause::NotLittle, 5);
    }
    target_fault(bytes)
}

/// What is wrong with the file's type, its machine, or its program headers.
fn target_fault(bytes: &[u8]) -> Option<ElfFault>
    requires { 64 ≤ length bytes.now }
    ensures fault { result ≡ target_fault bytes.now }
    ensures headers { result ≡ None → 0 < header_count bytes.now → headers_at bytes.now + 56 * header_count bytes.now ≤ length bytes.now }
{
    if LittleEndian::read_u16(&bytes[16..]) != EXECUTABLE {
        return bad(ElfCause::NotExec, 16);
    }
    if LittleEndian::read_u16(&bytes[18..]) != RISCV {
        return bad(ElfCause::NotRiscv, 18);
    }
    headers_fault(bytes)
}

/// What is wrong with the size or the place of the program headers.
fn headers_fault(bytes: &[u8]) -> Option<ElfFault>
    requires { 64 ≤ length bytes.now }
    ensures fault { result ≡ headers_fault bytes.now }
    ensures headers { result ≡ None → 0 < header_count bytes.now → headers_at bytes.now + 56 * header_count bytes.now ≤ length bytes.now }
{
    let count = header_count(bytes);
    if count == 0 {
        return None;
    }
    if LittleEndian::read_u16(&bytes[54..]) != HEADER_BYTES {
        return bad(ElfCause::HeaderOut, 54);
    }
    let first = headers_at(bytes);
    let size = u64::from(HEADER_BYTES) * u64::from(count);
    let end = bytes.len() as u64;
    if first > end || size > end - first {
        return bad(ElfCause::HeaderOut, 32);
    }
    None
}

/// The address of the first instruction.
fn entry_of(bytes: &[u8]) -> u64
    requires { 64 ≤ length bytes.now }
    ensures { result ≡ entry_of bytes.now }
{
    LittleEndian::read_u64(&bytes[24..])
}

/// The offset of the first program header.
fn headers_at(bytes: &[u8]) -> u64
    requires { 64 ≤ length bytes.now }
    ensures { result ≡ headers_at bytes.now }
{
    LittleEndian::read_u64(&bytes[32..])
}

/// The number of program headers.
fn header_count(bytes: &[u8]) -> u16
    requires { 64 ≤ length bytes.now }
    ensures { result ≡ header_count bytes.now }
{
    LittleEndian::read_u16(&bytes[56..])
}

/// A fault of the file.
fn bad(cause: ElfCause, at: u64) -> Option<ElfFault>
    ensures { result ≡ Some (ElfFault.Bad cause at) }
{
    Some(ElfFault::Bad { cause, at })
}

/// A fault that is named by a program header's offset.
fn bad_header(cause: ElfCause, header: Option<Header>) -> Option<ElfFault>
    ensures { result ≡ at_header cause header }
{
    let header = header?;
    bad(cause, header.at)
}

/// The loadable program headers, in the file's order.
fn loads_of(alloc: Global, bytes: &[u8]) -> Result<Vec<Header>, NoMemory>
    requires head { 64 ≤ length bytes.now }
    requires headers { 0 < header_count bytes.now → headers_at bytes.now + 56 * header_count bytes.now ≤ length bytes.now }
    ensures { IfOk result (λ loads. loads.items ≡ loads_of bytes.now) }
{
    let mut loads = Vec::new(alloc);
    let first = headers_at(bytes) as usize;
    let count = header_count(bytes);
    for i in 0..count {
        let header = Header::read(bytes, first + usize::from(HEADER_BYTES) * usize::from(i));
        if header.is_loadable() {
            loads.push(header)?;
        }
    }
    Ok(loads)
}

/// The first fault of the loadable program headers.
fn loads_fault(alloc: Global, bytes: &[u8], loads: &[Header]) -> Result<Option<ElfFault>, NoMemory>
    requires head { 64 ≤ length bytes.now }
    requires loads { loads.now ≡ loads_of bytes.now }
    ensures { IfOk result (λ fault. fault ≡ loads_fault bytes.now loads.now) }
{
    let size = bytes.len() as u64;
    if let Some(header) = first_out(size, loads) {
        return Ok(bad(ElfCause::SegmentOut, header.at));
    }
    if let Some(header) = first_overlap(alloc, loads)? {
        return Ok(bad(ElfCause::Overlap, header.at));
    }
    if let Some(header) = first_writable_text(loads) {
        return Ok(bad(ElfCause::WritableText, header.at));
    }
    if !has_entry(entry_of(bytes), loads) {
        return Ok(bad(ElfCause::NoEntry, 24));
    }
    Ok(bad_header(ElfCause::TooLarge, first_passing(loads)))
}

/// The first header whose segment has more contents than memory, contents past the end of a file of
/// `size` bytes, or memory where no program's is.
fn first_out(size: u64, loads: &[Header]) -> Option<Header>
    ensures { result ≡ find (is_out size) loads.now }
{
    loads.iter().copied().find(|header| is_out(size, header))
}

/// Whether a segment is out of the file, or out of the addresses of programs.
fn is_out(size: u64, header: &Header) -> bool
    ensures { result ≡ is_out size header.now }
{
    let past_file = header.filled != 0
        && (header.offset > size || header.filled > size - header.offset);
    let past_programs = header.addr > STACKS_ADDR || header.size > STACKS_ADDR - header.addr;
    header.filled > header.size || past_file || header.addr < LOWEST_ADDR || past_programs
}

/// The first header of a segment that is writable and runnable.
fn first_writable_text(loads: &[Header]) -> Option<Header>
    ensures { result ≡ find is_writable_text loads.now }
{
    loads
        .iter()
        .copied()
        .find(|header| header.is_writable() && header.is_runnable())
}

/// Whether the entry is a multiple of 4 and its four bytes lie in one runnable segment.
fn has_entry(entry: u64, loads: &[Header]) -> bool
    requires { All (λ h. IsWithin (span_of_header h)) loads.now }
    ensures { result ≡ has_entry entry loads.now }
{
    entry.is_multiple_of(4) && is_in_text(entry, loads)
}

/// Whether the four bytes at an address lie in one runnable segment.
fn is_in_text(addr: u64, loads: &[Header]) -> bool
    requires { All (λ h. IsWithin (span_of_header h)) loads.now }
    ensures { result ≡ list_any (is_text_header addr) loads.now }
{
    for header in loads {
        if is_text(addr, header) {
            return true;
        }
    }
    false
}

/// Whether the four bytes at an address lie in the header's segment, which is runnable.
fn is_text(addr: u64, header: &Header) -> bool
    requires { IsWithin (span_of_header header.now) }
    ensures { result ≡ is_text_header addr header.now }
{
    header.is_runnable()
        && header.addr <= addr
        && addr - header.addr < header.size
        && header.size - (addr - header.addr) >= 4
}

/// The first header with which the memory of all so far passes the limit.
fn first_passing(loads: &[Header]) -> Option<Header>
    ensures { result ≡ passing 0 loads.now }
{
    let mut total = 0;
    for header in loads {
        if header.size > MOST_MEMORY - total {
            return Some(*header);
        }
        total += header.size;
    }
    None
}

/// The program of a file that has no fault.
fn elf_of(alloc: Global, bytes: &[u8], loads: &[Header]) -> Result<Elf, NoMemory>
    requires head { 64 ≤ length bytes.now }
    requires inside { find (is_out (length bytes.now)) loads.now ≡ None }
    ensures entry { IfOk result (λ elf. elf.entry ≡ entry_of bytes.now) }
    ensures segments { IfOk result (λ elf. elf.segments ≡ segments_of bytes.now loads.now) }
{
    let mut segments = Vec::new(alloc);
    for header in loads {
        segments.push(segment_of(alloc, bytes, header)?)?;
    }
    Ok(Elf {
        entry: entry_of(bytes),
        segments: Segments::of(segments),
    })
}

/// The segment of a program header: the file's bytes, then zeros.
fn segment_of(alloc: Global, bytes: &[u8], header: &Header) -> Result<Segment, NoMemory>
    requires { is_out (length bytes.now) header.now ≡ false }
    ensures { IfOk result (λ segment. segment ≡ segment_of bytes.now header.now) }
{
    let contents = if header.filled == 0 {
        &[]
    } else {
        let start = header.offset as usize;
        &bytes[start..start + header.filled as usize]
    };
    Ok(Segment {
        addr: header.addr,
        size: header.size,
        bytes: Bytes::of(Vec::from_slice(alloc, contents)?),
        writable: header.is_writable(),
        runnable: header.is_runnable(),
    })
}
