//! Images, what stands in them, and where their pages stand.

ghost use Rattle.std.specs.Prelude.{◌≡◌, IfOk};

use crate::{Image, Layout, LayoutFault, storm_image};
use og_base::{Frame, Settings, VPage};
use og_elf::{read_elf, read_raw};
use std::alloc::Global;
use std::test::Fail;

const SETTINGS: Settings = Settings {
    nodes: 1,
    frames: 2,
    sets: 64,
    ways: 2,
    tlb: 8,
    instructions: 1_000_000,
    trigger: 64,
    sharing: 32,
    moves: 4,
    reset: 1024,
};

// An environment call in a raw file, with so many bytes of data.
fn raw_image(alloc: Global, data: usize) -> Result<Image, Fail>
    ensures { IfOk result (λ image. image.nodes ≡ 1) }
{
    let mut file = Vec::from_slice(alloc, &[4, 0, 0, 0, 0x73, 0, 0, 0])?;
    for _ in 0..data {
        file.push(7)?;
    }
    let elf = read_raw(alloc, file.as_slice())?;
    Ok(Image::make(alloc, elf, 1)?)
}

#[test]
fn a_raw_program_is_loaded(rt: HostRuntime) -> Result<(), Fail> {
    let image = raw_image(rt.alloc(), 3)?;
    assert_eq!(rt; image.entry(), 0x10000);
    assert_eq!(rt; image.fetch(0x10000), Some(0x73));
    // (address, bytes that are no data, byte at the start)
    let places: [(u64, Option<u64>, Option<u8>); 11] = [
        (0, None, None),
        (0xffff, None, None),
        (0x10000, Some(0x73), None),
        (0x10001, Some(0), None),
        (0x10004, None, None),
        (0x100000, None, Some(7)),
        (0x100003, None, Some(0)),
        (0x100fff, None, Some(0)),
        (0x101000, None, None),
        (0x7000_0000, None, Some(0)),
        (u64::MAX, None, None),
    ];
    for (addr, constant, byte) in places {
        assert_eq!(rt; image.read_only(addr, 1), constant);
        assert_eq!(rt; image.byte(addr), byte);
        assert_eq!(rt; image.is_data(addr), byte.is_some());
    }
    assert_eq!(rt; image.read_only(0x10001, 4), None);
    assert_eq!(rt; image.fetch(0x10001), None);
    assert_eq!(rt; image.byte(0x7000_1000), None);
    assert_eq!(rt; image.byte(0x7000_2000), None);
    Ok(())
}

#[test]
fn pages_have_frames_or_are_too_many(rt: HostRuntime) -> Result<(), Fail> {
    let image = raw_image(rt.alloc(), 0)?;
    let layout = Layout::make(rt.alloc(), &image, &SETTINGS)?;
    assert_eq!(rt;
        layout.first(VPage(0x100)),
        Some(Frame { home: 0, index: 0 })
    );
    assert_eq!(rt;
        layout.first(VPage(0x70000)),
        Some(Frame { home: 0, index: 1 })
    );
    assert_eq!(rt; layout.first(VPage(0x10)), None);
    let image = raw_image(rt.alloc(), 8192)?;
    let fault = Layout::make(rt.alloc(), &image, &SETTINGS).err();
    assert_eq!(rt; fault, Some(LayoutFault::NoFrames { need: 3, have: 2 }));
    Ok(())
}

#[test]
fn a_storm_has_its_instructions(rt: HostRuntime) -> Result<(), Fail> {
    let image = storm_image(rt.alloc(), 0x1_0000_0007, 200, 3)?;
    let words: [(u64, u32); 6] = [
        (0x10000, 0x000102b7),
        (0x10004, 0x0582b403),
        (0x10020, 0x0c800493),
        (0x10044, 0x01c33eaf),
        (0x1004c, 0xfc049ce3),
        (0x10054, 0x00000073),
    ];
    for (addr, word) in words {
        assert_eq!(rt; image.fetch(addr), Some(word));
    }
    assert_eq!(rt; image.read_only(0x10058, 8), Some(8));
    assert_eq!(rt; image.fetch(0x10060), None);
    assert_eq!(rt; image.byte(0x107fff), Some(0));
    assert!(rt; !image.is_data(0x108000));
    assert!(rt; image.is_data(0x7000_4000));
    Ok(())
}

// Three segments: data at 0x30000, text at 0x20000 and constants at 0x10000, in this order.
const FILE: [u8; 240] = [
    0x7f, 0x45, 0x4c, 0x46, 2, 1, 1, 0, 0, 0, 0, 0, 0, 0, 0, 0, // what it is
    2, 0, 0xf3, 0, 1, 0, 0, 0, 0, 0, 2, 0, 0, 0, 0, 0, // type, machine, version, entry
    64, 0, 0, 0, 0, 0, 0, 0, 0, 0, 0, 0, 0, 0, 0, 0, // program and section headers
    0, 0, 0, 0, 64, 0, 56, 0, 3, 0, 0, 0, 0, 0, 0, 0, // flags and sizes
    1, 0, 0, 0, 6, 0, 0, 0, 232, 0, 0, 0, 0, 0, 0, 0, // data
    0, 8, 3, 0, 0, 0, 0, 0, 0, 8, 3, 0, 0, 0, 0, 0, // addresses
    4, 0, 0, 0, 0, 0, 0, 0, 0, 0x20, 0, 0, 0, 0, 0, 0, // sizes
    4, 0, 0, 0, 0, 0, 0, 0, // alignment
    1, 0, 0, 0, 5, 0, 0, 0, 232, 0, 0, 0, 0, 0, 0, 0, // text
    0, 0, 2, 0, 0, 0, 0, 0, 0, 0, 2, 0, 0, 0, 0, 0, // addresses
    8, 0, 0, 0, 0, 0, 0, 0, 8, 0, 0, 0, 0, 0, 0, 0, // sizes
    4, 0, 0, 0, 0, 0, 0, 0, // alignment
    1, 0, 0, 0, 4, 0, 0, 0, 236, 0, 0, 0, 0, 0, 0, 0, // constants
    0, 0, 1, 0, 0, 0, 0, 0, 0, 0, 1, 0, 0, 0, 0, 0, // addresses
    4, 0, 0, 0, 0, 0, 0, 0, 6, 0, 0, 0, 0, 0, 0, 0, // sizes
    4, 0, 0, 0, 0, 0, 0, 0, // alignment
    1, 2, 3, 4, 5, 6, 7, 8, // contents
];

#[test]
fn segments_are_found_in_any_order(rt: HostRuntime) -> Result<(), Fail> {
    let elf = read_elf(rt.alloc(), &FILE)?;
    let image = Image::make(rt.alloc(), elf, 1)?;
    assert_eq!(rt; image.fetch(0x20004), Some(0x08070605));
    assert_eq!(rt; image.fetch(0x20006), None);
    assert_eq!(rt; image.fetch(0x10000), None);
    assert_eq!(rt; image.read_only(0x10002, 4), Some(0x0807));
    assert_eq!(rt; image.read_only(0x10003, 4), None);
    assert_eq!(rt; image.read_only(0x20000, 8), Some(0x0807060504030201));
    assert_eq!(rt; image.byte(0x30000), Some(0));
    assert_eq!(rt; image.byte(0x30803), Some(4));
    assert_eq!(rt; image.byte(0x32fff), Some(0));
    assert_eq!(rt; image.byte(0x33000), None);
    Ok(())
}
