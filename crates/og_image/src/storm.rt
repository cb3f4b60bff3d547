//! The storm: a program whose harts add 1 to doublewords of eight pages that each picks by a
//! generator of its own.

ghost use Rattle.std.specs.Prelude.{◌≡◌, ◌≤◌, ◌+◌, ◌%◌, ◌^◌, ◌<◌, IfOk};
ghost use Rattle.og_image.specs.Storm.{storm_words, storm_bytes, storm_of};

use crate::image::Image;
use og_base::NoMemory;
use og_elf::{Bytes, Elf, Segment, Segments};
use std::alloc::Global;

const TEXT_ADDR: u64 = 0x10000;

const TEXT_BYTES: u64 = 96;

const DATA_ADDR: u64 = 0x100000;

const DATA_BYTES: u64 = 32_768;

/// The image of a storm of `loops` additions a hart, from 1 to 2,047, whose generators start by
/// `number`.
pub fn storm_image(alloc: Global, number: u64, loops: u16, nodes: u8) -> Result<Image, NoMemory>
    requires some { 1 ≤ loops }
    requires few { loops ≤ 2047 }
    requires nodes { 1 ≤ nodes }
    ensures { IfOk result (λ image. image ≡ storm_of number loops nodes) }
{
    let text = Segment {
        addr: TEXT_ADDR,
        size: TEXT_BYTES,
        bytes: Bytes::of(storm_bytes(alloc, number, loops)?),
        writable: false,
        runnable: true,
    };
    let data = Segment {
        addr: DATA_ADDR,
        size: DATA_BYTES,
        bytes: Bytes::of(Vec::new(alloc)),
        writable: true,
        runnable: false,
    };
    let mut segments = Vec::new(alloc);
    segments.push(text)?;
    segments.push(data)?;
    let elf = Elf {
        entry: TEXT_ADDR,
        segments: Segments::of(segments),
    };
    Image::make(alloc, elf, nodes)
}

/// The bytes of the text.
fn storm_bytes(alloc: Global, number: u64, loops: u16) -> Result<Vec<u8>, NoMemory>
    requires { loops ≤ 2047 }
    ensures { IfOk result (λ bytes. bytes.items ≡ storm_bytes number loops) }
{
    let words = storm_words(loops);
    let mut bytes = Vec::new(alloc);
    for word in &words {
        bytes.extend_from_slice(&word.to_le_bytes())?;
    }
    let start = number % (1 << 32) + 1;
    bytes.extend_from_slice(&start.to_le_bytes())?;
    Ok(bytes)
}

/// The instructions.
fn storm_words(loops: u16) -> [u32; 22]
    requires { loops ≤ 2047 }
    ensures { result ≡ storm_words loops }
{
    [
        0x0001_02b7, // lui t0,16
        0x0582_b403, // ld s0,88(t0)
        0x0084_1413, // slli s0,s0,8
        0x00a4_0433, // add s0,s0,a0
        0x0010_05b7, // lui a1,256
        0x0000_83b7, // lui t2,8
        0xff83_8393, // addi t2,t2,-8
        0x0010_0e13, // addi t3,x0,1
        u32::from(loops) * 0x10_0000 + 0x0493, // addi s1,x0,LOOPS
        0x00d4_1313, // slli t1,s0,13
        0x0064_4433, // xor s0,s0,t1
        0x0074_5313, // srli t1,s0,7
        0x0064_4433, // xor s0,s0,t1
        0x0114_1313, // slli t1,s0,17
        0x0064_4433, // xor s0,s0,t1
        0x0074_7333, // and t1,s0,t2
        0x00b3_0333, // add t1,t1,a1
        0x01c3_3eaf, // amoadd.d t4,t3,(t1)
        0xfff4_8493, // addi s1,s1,-1
        0xfc04_9ce3, // bne s1,x0,-40
        0x05d0_0893, // addi a7,x0,93
        0x0000_0073, // ecall
    ]
}
