ghost use Rattle.std.specs.Prelude.{◌<◌, length};

use crate::machine::FlatMachine;
use og_elf::read_raw;
use og_image::Image;
use og_line::{Access, AtomicOp};
use rv_hart::hart::{Hart, Need};
use std::alloc::Global;
use std::process::Abort;
use std::test::Fail;

const PLACE: u64 = 0x10_0000;

// A program of these words and one page of zeros at 0x100000, for two harts.
fn load(alloc: Global, words: &[u32]) -> Result<Image, Fail>
    requires { length words.now < 100 }
{
    let mut bytes = Vec::new(alloc);
    bytes.extend_from_slice(&(4 * words.len() as u32).to_le_bytes())?;
    for word in words {
        bytes.extend_from_slice(&word.to_le_bytes())?;
    }
    let Ok(elf) = read_raw(alloc, bytes.as_slice()) else {
        return Err("no raw program".into());
    };
    Ok(Image::make(alloc, elf, 2)?)
}

// An access that can be made is answered so.
fn answers(rt: &impl Abort, machine: &mut FlatMachine, hart: u8, access: Access, answer: u64) {
    assert!(rt; machine.takes(hart, &access), "{access:?}");
    assert_eq!(rt; machine.access(hart, &access), answer, "{access:?}");
}

// A conditional store fails after a store of another hart, also of the value that was there.
#[test]
fn another_hart_stores_the_same(rt: HostRuntime) -> Result<(), Fail> {
    let image = load(rt.alloc(), &[0x73])?;
    let mut machine = FlatMachine::make(rt.alloc(), &image, 2)?;
    let reserve = Access::Reserve {
        addr: PLACE,
        width: 4,
    };
    let store = Access::Store {
        addr: PLACE,
        width: 4,
        value: 0,
    };
    let conditional = Access::Conditional {
        addr: PLACE,
        width: 4,
        value: 5,
    };
    let load = Access::Load {
        addr: PLACE,
        width: 4,
    };
    answers(&rt, &mut machine, 0, reserve, 0);
    answers(&rt, &mut machine, 1, store, 0);
    answers(&rt, &mut machine, 0, conditional, 1);
    answers(&rt, &mut machine, 0, load, 0);
    answers(&rt, &mut machine, 0, reserve, 0);
    answers(&rt, &mut machine, 0, conditional, 0);
    answers(&rt, &mut machine, 1, load, 5);
    answers(&rt, &mut machine, 0, conditional, 1);
    Ok(())
}

// Two atomic additions at the greatest signed word.
#[test]
fn additions(rt: HostRuntime) -> Result<(), Fail> {
    let image = load(rt.alloc(), &[0x73])?;
    let mut machine = FlatMachine::make(rt.alloc(), &image, 2)?;
    let store = Access::Store {
        addr: PLACE,
        width: 4,
        value: 0x7fff_ffff,
    };
    let add = Access::Atomic {
        op: AtomicOp::Add,
        addr: PLACE,
        width: 4,
        value: 1,
    };
    answers(&rt, &mut machine, 0, store, 0);
    answers(&rt, &mut machine, 1, add, 0x7fff_ffff);
    answers(&rt, &mut machine, 0, add, 0x8000_0000);
    Ok(())
}

// What can't be made: an address off its width, a width that the kind hasn't, an address on no page, and
// a hart that isn't there.
#[test]
fn not_taken(rt: HostRuntime) -> Result<(), Fail> {
    let image = load(rt.alloc(), &[0x73])?;
    let machine = FlatMachine::make(rt.alloc(), &image, 2)?;
    let at = |addr, width| Access::Load { addr, width };
    assert!(rt; machine.takes(0, &at(PLACE, 8)));
    assert!(rt; machine.takes(1, &at(0x7000_2ff8, 8)));
    assert!(rt; !machine.takes(0, &at(PLACE + 2, 4)));
    assert!(rt; !machine.takes(0, &at(PLACE, 3)));
    assert!(rt; !machine.takes(0, &at(PLACE + 0x1000, 8)));
    assert!(rt; !machine.takes(0, &at(0x1_0000, 8)));
    assert!(rt; !machine.takes(2, &at(PLACE, 8)));
    assert!(rt;
        !machine.takes(
            0,
            &Access::Reserve {
                addr: PLACE,
                width: 2
            }
        )
    );
    Ok(())
}

// Runs a hart on the memory until it stops, at most so many instructions.
fn run(rt: &impl Abort, image: &Image, machine: &mut FlatMachine, hart: &mut Hart, steps: u32) {
    for _ in 0..steps {
        if hart.stopped().is_some() {
            return;
        }
        match hart.next(image) {
            Need::Stop(_) => hart.halt(image),
            Need::Plain | Need::Emit(_) => hart.finish(image, 0),
            Need::Access(access) => {
                assert!(rt; machine.takes(0, &access), "{access:?}");
                let answer = machine.access(0, &access);
                hart.finish(image, answer);
            }
        }
    }
}

// A hart adds 1 twice to the greatest signed word, and shifts the least one by 31.
#[test]
fn a_hart_adds(rt: HostRuntime) -> Result<(), Fail> {
    let words = [
        0x0010_0313, // addi x6, x0, 1
        0x0010_03b7, // lui x7, 0x100: 0x100000
        0x8000_0437, // lui x8, 0x80000
        0xfff4_0413, // addi x8, x8, -1
        0x0083_a023, // sw x8, 0(x7): 0x7fffffff
        0x0063_a4af, // amoadd.w x9, x6, (x7)
        0x0063_a2af, // amoadd.w x5, x6, (x7)
        0x8000_0637, // lui x12, 0x80000
        0x41f6_569b, // sraiw x13, x12, 31
        0x0000_0073, // ecall
    ];
    let image = load(rt.alloc(), &words)?;
    let mut machine = FlatMachine::make(rt.alloc(), &image, 2)?;
    let mut hart = Hart::start(image.entry(), 0, 2, 0x7000_1000, 100);
    run(&rt, &image, &mut machine, &mut hart, 20);
    assert!(rt; hart.stopped().is_some());
    assert_eq!(rt; hart.reg(9), 0x7fff_ffff);
    assert_eq!(rt; hart.reg(5), 0xffff_ffff_8000_0000);
    assert_eq!(rt; hart.reg(13), 0xffff_ffff_ffff_ffff);
    assert_eq!(rt; hart.pc(), 0x1_0024);
    Ok(())
}
