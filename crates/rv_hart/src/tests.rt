use crate::hart::{Hart, Need};
use og_base::Cause;
use og_elf::read_raw;
use og_image::Image;
use og_line::Access;
use std::alloc::Global;
use std::process::Abort;
use std::test::Fail;

// A program of four words, what stops its plain instructions, and the pc then. Hart 3 of 4 runs it.
type Program = ([u32; 4], Need, u64);

static PROGRAMS: [Program; 20] = [
    // exit with x10, which is the hart's number
    (
        [0x05d00893, 0x00000073, 0x00000000, 0x00000000],
        Need::Stop(Cause::Exit(3)),
        0x10004,
    ),
    // emit x10
    (
        [0x00700513, 0x00100893, 0x00000073, 0x00000000],
        Need::Emit(7),
        0x10008,
    ),
    // another call
    (
        [0x00000073, 0x00000000, 0x00000000, 0x00000000],
        Need::Stop(Cause::Call),
        0x10000,
    ),
    // a breakpoint
    (
        [0x00000013, 0x00100073, 0x00000000, 0x00000000],
        Need::Stop(Cause::Break),
        0x10004,
    ),
    // no instruction
    (
        [0x00000013, 0x00000000, 0x00000000, 0x00000000],
        Need::Stop(Cause::Illegal),
        0x10004,
    ),
    // past the text
    (
        [0x00000013, 0x00000013, 0x00000013, 0x00000013],
        Need::Stop(Cause::Fetch),
        0x10010,
    ),
    // a jump to half an instruction
    (
        [0x006000ef, 0x00000000, 0x00000000, 0x00000000],
        Need::Stop(Cause::Misaligned),
        0x10000,
    ),
    // a register jump to 0x1000b
    (
        [0x00000297, 0x00b280e7, 0x00000000, 0x00000000],
        Need::Stop(Cause::Misaligned),
        0x10004,
    ),
    // a register jump to 0x10009 goes to 0x10008
    (
        [0x00000297, 0x009280e7, 0x00100073, 0x00000000],
        Need::Stop(Cause::Break),
        0x10008,
    ),
    // a branch that is taken, to half an instruction
    (
        [0x00000363, 0x00000000, 0x00000000, 0x00000000],
        Need::Stop(Cause::Misaligned),
        0x10000,
    ),
    // a branch that isn't taken, to half an instruction
    (
        [0x00001363, 0x00100073, 0x00000000, 0x00000000],
        Need::Stop(Cause::Break),
        0x10004,
    ),
    // a load off its width
    (
        [0x001002b7, 0x0022a303, 0x00000000, 0x00000000],
        Need::Stop(Cause::Misaligned),
        0x10004,
    ),
    // a load of the text needs no access
    (
        [0x000102b7, 0x0002a303, 0x00100073, 0x00000000],
        Need::Stop(Cause::Break),
        0x10008,
    ),
    // a store to the text
    (
        [0x000102b7, 0x0002a023, 0x00000000, 0x00000000],
        Need::Stop(Cause::Unmapped),
        0x10004,
    ),
    // a load-reserved of the text
    (
        [0x000102b7, 0x1002a32f, 0x00000000, 0x00000000],
        Need::Stop(Cause::Unmapped),
        0x10004,
    ),
    // a load of no page
    (
        [0x002002b7, 0x0002a303, 0x00000000, 0x00000000],
        Need::Stop(Cause::Unmapped),
        0x10004,
    ),
    // a load of data
    (
        [0x001002b7, 0x0082b303, 0x00000000, 0x00000000],
        Need::Access(Access::Load {
            addr: 0x10_0008,
            width: 8,
        }),
        0x10004,
    ),
    // a store to the stack page, below x2
    (
        [0xfea10fa3, 0x00000000, 0x00000000, 0x00000000],
        Need::Access(Access::Store {
            addr: 0x7000_6fff,
            width: 1,
            value: 3,
        }),
        0x10000,
    ),
    // x0 stays 0
    (
        [0x00500013, 0xfe013c23, 0x00000000, 0x00000000],
        Need::Access(Access::Store {
            addr: 0x7000_6ff8,
            width: 8,
            value: 0,
        }),
        0x10004,
    ),
    // the number of harts
    (
        [0xfeb13c23, 0x00000000, 0x00000000, 0x00000000],
        Need::Access(Access::Store {
            addr: 0x7000_6ff8,
            width: 8,
            value: 4,
        }),
        0x10000,
    ),
];

// The raw file of a program of four words without data.
fn raw_file(alloc: Global, words: &[u32; 4]) -> Result<Vec<u8>, Fail> {
    let mut bytes = Vec::new(alloc);
    bytes.extend_from_slice(&16u32.to_le_bytes())?;
    for word in words {
        bytes.extend_from_slice(&word.to_le_bytes())?;
    }
    Ok(bytes)
}

fn load(alloc: Global, words: &[u32; 4]) -> Result<Image, Fail> {
    let bytes = raw_file(alloc, words)?;
    let Ok(elf) = read_raw(alloc, bytes.as_slice()) else {
        return Err("no raw program".into());
    };
    Ok(Image::make(alloc, elf, 4)?)
}

// What stops the hart's plain instructions, of which it makes at most eight.
fn first_need(hart: &mut Hart, image: &Image) -> Need {
    for _ in 0..8 {
        if hart.stopped().is_some() {
            break;
        }
        match hart.next(image) {
            Need::Plain => hart.finish(image, 0),
            need => return need,
        }
    }
    Need::Plain
}

fn stop_at_needs(rt: &impl Abort, alloc: Global, table: &[Program]) -> Result<(), Fail> {
    for &(words, wanted, pc) in table {
        let image = load(alloc, &words)?;
        let mut hart = Hart::start(image.entry(), 3, 4, 0x7000_7000, 100);
        assert_eq!(rt; first_need(&mut hart, &image), wanted, "{words:?}");
        assert_eq!(rt; hart.pc(), pc, "{words:?}");
    }
    Ok(())
}

#[test]
fn needs(rt: HostRuntime) -> Result<(), Fail> {
    stop_at_needs(&rt, rt.alloc(), &PROGRAMS)
}

// A hart without instructions, and one that stops with its cause.
#[test]
fn spent(rt: HostRuntime) -> Result<(), Fail> {
    let image = load(rt.alloc(), &[0x13, 0x13, 0x13, 0x13])?;
    let mut hart = Hart::start(image.entry(), 0, 1, 0x7000_1000, 2);
    assert_eq!(rt; first_need(&mut hart, &image), Need::Stop(Cause::Spent));
    assert_eq!(rt; hart.pc(), 0x1_0008);
    assert_eq!(rt; hart.reg(2), 0x7000_1000);
    assert_eq!(rt; hart.stopped(), None);
    Ok(())
}
