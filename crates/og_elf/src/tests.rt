//! Files, each with a few bytes changed, and what is wrong with each.

use crate::{ElfCause, ElfFault, RawFault, read_elf, read_raw};
use std::alloc::Global;
use std::test::Fail;

/// Two program headers: eight bytes of text at 0x10000, with the entry, and a page of data at
/// 0x20000 without contents.
const FILE: [u8; 184] = [
    0x7f, 0x45, 0x4c, 0x46, 2, 1, 1, 0, 0, 0, 0, 0, 0, 0, 0, 0, // what it is
    2, 0, 0xf3, 0, 1, 0, 0, 0, 0, 0, 1, 0, 0, 0, 0, 0, // type, machine, version, entry
    64, 0, 0, 0, 0, 0, 0, 0, 0, 0, 0, 0, 0, 0, 0, 0, // program and section headers
    0, 0, 0, 0, 64, 0, 56, 0, 2, 0, 0, 0, 0, 0, 0, 0, // flags and sizes
    1, 0, 0, 0, 5, 0, 0, 0, 176, 0, 0, 0, 0, 0, 0, 0, // first header: loadable, R and X
    0, 0, 1, 0, 0, 0, 0, 0, 0, 0, 1, 0, 0, 0, 0, 0, // addresses
    8, 0, 0, 0, 0, 0, 0, 0, 8, 0, 0, 0, 0, 0, 0, 0, // sizes in the file and in memory
    4, 0, 0, 0, 0, 0, 0, 0, // alignment
    1, 0, 0, 0, 6, 0, 0, 0, 0, 0, 0, 0, 0, 0, 0, 0, // second header: loadable, R and W
    0, 0, 2, 0, 0, 0, 0, 0, 0, 0, 2, 0, 0, 0, 0, 0, // addresses
    0, 0, 0, 0, 0, 0, 0, 0, 0, 0x10, 0, 0, 0, 0, 0, 0, // sizes in the file and in memory
    4, 0, 0, 0, 0, 0, 0, 0, // alignment
    0x93, 8, 0xd0, 5, 0x73, 0, 0, 0, // text: li a7, 93; ecall
];

// How much of the file there is, numbers written into it (offset, bytes, value), and its first fault.
type Case = (usize, [(usize, usize, u64); 3], ElfCause, u64);

static FAULTS: [Case; 34] = [
    (63, [(0, 0, 0), (0, 0, 0), (0, 0, 0)], ElfCause::NotElf, 0),
    (
        184,
        [(3, 1, 0x47), (0, 0, 0), (0, 0, 0)],
        ElfCause::NotElf,
        0,
    ),
    (
        184,
        [(4, 1, 1), (0, 0, 0), (0, 0, 0)],
        ElfCause::NotClass64,
        4,
    ),
    (
        184,
        [(5, 1, 2), (0, 0, 0), (0, 0, 0)],
        ElfCause::NotLittle,
        5,
    ),
    (
        184,
        [(16, 2, 3), (0, 0, 0), (0, 0, 0)],
        ElfCause::NotExec,
        16,
    ),
    (
        184,
        [(18, 2, 62), (0, 0, 0), (0, 0, 0)],
        ElfCause::NotRiscv,
        18,
    ),
    (
        184,
        [(54, 2, 55), (0, 0, 0), (0, 0, 0)],
        ElfCause::HeaderOut,
        54,
    ),
    (
        64,
        [(56, 2, 1), (0, 0, 0), (0, 0, 0)],
        ElfCause::HeaderOut,
        32,
    ),
    (
        175,
        [(0, 0, 0), (0, 0, 0), (0, 0, 0)],
        ElfCause::HeaderOut,
        32,
    ),
    (
        184,
        [(32, 8, u64::MAX), (0, 0, 0), (0, 0, 0)],
        ElfCause::HeaderOut,
        32,
    ),
    (
        184,
        [(56, 2, 0), (54, 2, 0), (0, 0, 0)],
        ElfCause::NoEntry,
        24,
    ),
    (
        120,
        [(56, 2, 1), (0, 0, 0), (0, 0, 0)],
        ElfCause::SegmentOut,
        64,
    ),
    (
        183,
        [(0, 0, 0), (0, 0, 0), (0, 0, 0)],
        ElfCause::SegmentOut,
        64,
    ),
    (
        184,
        [(72, 8, u64::MAX), (0, 0, 0), (0, 0, 0)],
        ElfCause::SegmentOut,
        64,
    ),
    (
        184,
        [(96, 8, 9), (104, 8, 8), (0, 0, 0)],
        ElfCause::SegmentOut,
        64,
    ),
    (
        184,
        [(136, 8, 0xfff), (0, 0, 0), (0, 0, 0)],
        ElfCause::SegmentOut,
        120,
    ),
    (
        184,
        [(136, 8, 0x6fff_f001), (0, 0, 0), (0, 0, 0)],
        ElfCause::SegmentOut,
        120,
    ),
    (
        184,
        [(80, 8, 0xffff_ffff_ffff_f000), (104, 8, 0x2000), (0, 0, 0)],
        ElfCause::SegmentOut,
        64,
    ),
    // the same byte, and another page of one that ends there
    (
        184,
        [(136, 8, 0x10007), (124, 4, 4), (0, 0, 0)],
        ElfCause::Overlap,
        120,
    ),
    (
        184,
        [(136, 8, 0xf001), (124, 4, 4), (0, 0, 0)],
        ElfCause::Overlap,
        120,
    ),
    // the same page, one of both writable
    (
        184,
        [(136, 8, 0x10800), (0, 0, 0), (0, 0, 0)],
        ElfCause::Overlap,
        120,
    ),
    (
        184,
        [(136, 8, 0xf800), (160, 8, 0x801), (0, 0, 0)],
        ElfCause::Overlap,
        120,
    ),
    // an overlap goes before a text that is writable, and before a missing entry
    (
        184,
        [(136, 8, 0x10007), (124, 4, 7), (0, 0, 0)],
        ElfCause::Overlap,
        120,
    ),
    (
        184,
        [(136, 8, 0x10007), (24, 8, 2), (0, 0, 0)],
        ElfCause::Overlap,
        120,
    ),
    (
        184,
        [(68, 4, 7), (0, 0, 0), (0, 0, 0)],
        ElfCause::WritableText,
        64,
    ),
    (
        184,
        [(124, 4, 3), (0, 0, 0), (0, 0, 0)],
        ElfCause::WritableText,
        120,
    ),
    (
        184,
        [(24, 8, 0x10002), (0, 0, 0), (0, 0, 0)],
        ElfCause::NoEntry,
        24,
    ),
    (
        184,
        [(24, 8, 0x10008), (0, 0, 0), (0, 0, 0)],
        ElfCause::NoEntry,
        24,
    ),
    (
        184,
        [(24, 8, 0x20000), (0, 0, 0), (0, 0, 0)],
        ElfCause::NoEntry,
        24,
    ),
    (
        184,
        [(68, 4, 4), (0, 0, 0), (0, 0, 0)],
        ElfCause::NoEntry,
        24,
    ),
    (
        184,
        [(160, 8, 16_777_209), (0, 0, 0), (0, 0, 0)],
        ElfCause::TooLarge,
        120,
    ),
    // 0x900000 each
    (
        184,
        [(104, 8, 0x90_0000), (160, 8, 0x90_0000), (0, 0, 0)],
        ElfCause::Overlap,
        120,
    ),
    (
        184,
        [
            (104, 8, 0x90_0000),
            (160, 8, 0x90_0000),
            (136, 8, 0x100_0000),
        ],
        ElfCause::TooLarge,
        120,
    ),
    (
        184,
        [(160, 8, 0x100_0001), (136, 8, 0x30_0000), (0, 0, 0)],
        ElfCause::TooLarge,
        120,
    ),
];

static ACCEPTED: [[(usize, usize, u64); 3]; 6] = [
    [(0, 0, 0), (0, 0, 0), (0, 0, 0)],
    // another type of header, out in every way
    [(120, 4, 0x7000_0003), (136, 8, u64::MAX), (0, 0, 0)],
    // a loadable one without memory
    [(160, 8, 0), (136, 8, u64::MAX), (0, 0, 0)],
    // 16,777,216 bytes in all
    [(160, 8, 16_777_208), (0, 0, 0), (0, 0, 0)],
    // the same page, both not writable
    [(136, 8, 0x10800), (124, 4, 4), (0, 0, 0)],
    // nothing in the file, at an offset that it hasn't
    [(128, 8, u64::MAX), (0, 0, 0), (0, 0, 0)],
];

// Writes the lowest bytes of a number.
fn change(file: &mut [u8], at: usize, width: usize, value: u64) {
    let bytes = value.to_le_bytes();
    for i in 0..8usize {
        if i < width && at < 1000 && at + i < file.len() {
            file[at + i] = bytes[i];
        }
    }
}

fn changed(changes: [(usize, usize, u64); 3]) -> [u8; 184] {
    let mut file = FILE;
    for (at, width, value) in changes {
        change(&mut file, at, width, value);
    }
    file
}

fn fault_of(alloc: Global, file: &[u8]) -> Option<ElfFault> {
    read_elf(alloc, file).err()
}

#[test]
fn files_have_their_first_fault(rt: HostRuntime) -> Result<(), Fail> {
    for (length, changes, cause, at) in FAULTS {
        let file = changed(changes);
        if length <= 184 {
            let fault = Some(ElfFault::Bad { cause, at });
            assert_eq!(rt; fault_of(rt.alloc(), &file[..length]), fault);
        }
    }
    Ok(())
}

#[test]
fn files_without_fault_are_read(rt: HostRuntime) -> Result<(), Fail> {
    for changes in ACCEPTED {
        let elf = read_elf(rt.alloc(), &changed(changes))?;
        assert_eq!(rt; elf.entry, 0x10000);
        assert!(rt; !elf.segments.as_slice().is_empty());
    }
    Ok(())
}

#[test]
fn a_file_has_its_segments(rt: HostRuntime) -> Result<(), Fail> {
    let elf = read_elf(rt.alloc(), &FILE)?;
    let segments = elf.segments.as_slice();
    assert_eq!(rt; segments.len(), 2);
    assert_eq!(rt; segments[0].addr, 0x10000);
    assert_eq!(rt;
        segments[0].bytes.as_slice(),
        [0x93, 8, 0xd0, 5, 0x73, 0, 0, 0].as_slice()
    );
    assert!(rt; segments[0].runnable && !segments[0].writable);
    assert_eq!(rt; segments[1].addr, 0x20000);
    assert_eq!(rt; segments[1].size, 0x1000);
    assert!(rt; segments[1].bytes.as_slice().is_empty());
    assert!(rt; segments[1].writable && !segments[1].runnable);
    Ok(())
}

const MANY: usize = 65_535;

// A file of 65,535 program headers, each with a page of its own, falling, and the last at an address.
fn many_headers(alloc: Global, last: u64) -> Result<Vec<u8>, Fail> {
    let mut file = Vec::from_slice(alloc, &FILE[..64])?;
    for i in 0..65_535u64 {
        let addr = if i == 65_534 {
            last
        } else {
            0x2000_0000 - 4096 * i
        };
        file.extend_from_slice(&[1, 0, 0, 0, 5, 0, 0, 0])?;
        file.extend_from_slice(&0u64.to_le_bytes())?;
        file.extend_from_slice(&addr.to_le_bytes())?;
        file.extend_from_slice(&addr.to_le_bytes())?;
        file.extend_from_slice(&0u64.to_le_bytes())?;
        file.extend_from_slice(&64u64.to_le_bytes())?;
        file.extend_from_slice(&4096u64.to_le_bytes())?;
    }
    Ok(file)
}

#[test]
fn many_headers_are_read(rt: HostRuntime) -> Result<(), Fail> {
    let mut file = many_headers(rt.alloc(), 0x3000_0000)?;
    change(file.as_mut_slice(), 24, 8, 0x2000_0000);
    change(file.as_mut_slice(), 56, 2, 65_535);
    let elf = read_elf(rt.alloc(), file.as_slice())?;
    assert_eq!(rt; elf.segments.as_slice().len(), MANY);
    Ok(())
}

#[test]
fn the_last_of_many_headers_overlaps(rt: HostRuntime) -> Result<(), Fail> {
    let mut file = many_headers(rt.alloc(), 0x1800_0020)?;
    change(file.as_mut_slice(), 56, 2, 65_535);
    let fault = ElfFault::Bad {
        cause: ElfCause::Overlap,
        at: 64 + 56 * 65_534,
    };
    assert_eq!(rt; fault_of(rt.alloc(), file.as_slice()), Some(fault));
    Ok(())
}

#[test]
fn raw_files_are_read(rt: HostRuntime) -> Result<(), Fail> {
    let files: [&[u8]; 5] = [
        &[4, 0, 0],
        &[3, 0, 0, 0, 0x73, 0, 0, 0],
        &[8, 0, 0, 0, 0x73, 0, 0, 0],
        &[0, 0, 0, 0, 0x73, 0, 0, 0],
        &[4, 0, 0xf, 0, 0x73, 0, 0, 0],
    ];
    for file in files {
        assert!(rt; matches!(read_raw(rt.alloc(), file), Err(RawFault::RawOut)));
    }
    let elf = read_raw(rt.alloc(), &[4, 0, 0, 0, 0x73, 0, 0, 0, 7])?;
    assert_eq!(rt; elf.entry, 0x10000);
    let segments = elf.segments.as_slice();
    assert_eq!(rt; segments.len(), 2);
    assert_eq!(rt; segments[0].size, 4);
    assert_eq!(rt; segments[1].addr, 0x100000);
    assert_eq!(rt; segments[1].size, 4096);
    assert_eq!(rt; segments[1].bytes.as_slice(), [7].as_slice());
    Ok(())
}
