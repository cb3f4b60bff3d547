//! Sources and words, both ways.

use crate::SourceCause::{Label, Name, Operands, Range, Register, Size, Syntax, Twice};
use crate::{SourceCause, SourceFault, assemble, print};
use std::alloc::Global;
use std::test::Fail;

fn fault_of(alloc: Global, source: &[u8]) -> Option<SourceFault> {
    assemble(alloc, source).err()
}

// A program that stores 42 and loads it again.
static WORDS: [u32; 7] = [
    0x001005b7, 0x02a00613, 0x00c5a023, 0x0005a683, 0x05d00893, 0x00000513, 0x00000073,
];

#[test]
fn a_program_is_assembled_and_printed(rt: HostRuntime) -> Result<(), Fail> {
    let source =
        b"lui a1,256\naddi a2,x0,42\nsw a2,0(a1)\nlw a3,0(a1)\naddi a7,x0,93\naddi a0,x0,0\necall\n";
    let text =
        b"lui x11,256\naddi x12,x0,42\nsw x12,0(x11)\nlw x13,0(x11)\naddi x17,x0,93\naddi x10,x0,0\necall\n";
    let words = assemble(rt.alloc(), source).ok().expect(&rt, "assembled");
    assert_eq!(rt; words.as_slice(), WORDS.as_slice());
    let printed = print(rt.alloc(), words.as_slice())?;
    assert_eq!(rt; printed.as_slice(), text.as_slice());
    Ok(())
}

#[test]
fn a_word_that_is_no_instruction_prints_itself(rt: HostRuntime) -> Result<(), Fail> {
    let words = assemble(rt.alloc(), b".word 0")
        .ok()
        .expect(&rt, "assembled");
    assert_eq!(rt; words.as_slice(), [0].as_slice());
    let printed = print(rt.alloc(), words.as_slice())?;
    assert_eq!(rt; printed.as_slice(), b".word 0\n".as_slice());
    Ok(())
}

// Sources of one instruction, with the words of another assembler.
#[test]
fn every_spelling_is_read(rt: HostRuntime) -> Result<(), Fail> {
    let sources: [(&[u8], u32); 26] = [
        (b"lr.w x7,(x5)", 0x1002a3af),
        (b"sc.w x28,x7,(x5)", 0x1872ae2f),
        (b"sc.w.aqrl t3,t2,(t0)", 0x1e72ae2f),
        (b"lr.w.aq t2,(t0)", 0x1402a3af),
        (b"amoadd.d.rl a0,a1,(s0)", 0x02b4352f),
        (b"  take:\tbne x28 , x0 ,-28 # a branch", 0xfe0e12e3),
        (b"here:beq zero,zero,here", 0x00000063),
        (b"jal ra,0x10", 0x010000ef),
        (b"jal x0,-1048576", 0x8000006f),
        (b"jalr ra,-4(sp)", 0xffc100e7),
        (b"lui s11,1048575", 0xfffffdb7),
        (b"auipc gp , 0", 0x00000197),
        (b"addi tp,t6,-2048", 0x800f8213),
        (b"addiw x1,x2,2047", 0x7ff1009b),
        (b"srai s1,s2,63", 0x43f95493),
        (b"sraiw s1,s2,0x1F", 0x41f9549b),
        (b"sub a0,a1,a2", 0x40c58533),
        (b"ld x7,0(x6)", 0x00033383),
        (b"sd x7 , -8 ( x6 )", 0xfe733c23),
        (b"fence x0,x0,255", 0x0ff0000f),
        (b"fence x0,x0,4095", 0xfff0000f),
        (b"ebreak", 0x00100073),
        (b".word 4294967295", 0xffffffff),
        (b".word 0x000000000000000000001", 1),
        (b"addi x1,x1,-0", 0x00008093),
        (b"x2: bgeu x1,x2,x2\n\n# ends\n", 0x0020f063),
    ];
    for (source, word) in sources {
        let words = assemble(rt.alloc(), source).ok().expect(&rt, "assembled");
        assert_eq!(rt; words.as_slice(), [word].as_slice());
    }
    Ok(())
}

#[test]
fn the_first_line_at_fault_is_named(rt: HostRuntime) -> Result<(), Fail> {
    let sources: [(&[u8], u64, SourceCause); 40] = [
        (b"a: beq x0,x0,a\njal x0,b\n", 2, Label),
        (b"addi x1,x0,2048\n", 1, Range),
        (b"addi x1,,x0", 1, Syntax),
        (b"addi x1,x0,1 2", 1, Syntax),
        (b"addi x1,x0,12ab", 1, Syntax),
        (b"addi x1,x0,-0x10", 1, Syntax),
        (b"addi x1,x0,0x", 1, Syntax),
        (b"addi x1,x0,-", 1, Syntax),
        (b"addi x1,x0,1,2", 1, Syntax),
        (b"addi x1,(x0),1", 1, Syntax),
        (b"1: ecall", 1, Syntax),
        (b"a.b: ecall", 1, Syntax),
        (b"a:b: ecall", 1, Syntax),
        (b"ecall # \xc3\xa9", 1, Syntax),
        (b"ecall\r\n", 1, Syntax),
        (b".word-1", 1, Syntax),
        (b"ecall\nnop\n", 2, Name),
        (b"ADDI x1,x0,1", 1, Name),
        (b"add.aq x1,x0,x0", 1, Name),
        (b"amoswap x1,x0,(x0)", 1, Name),
        (b"lr.w.rlaq x1,(x0)", 1, Name),
        (b"addi x1,x0,x2", 1, Operands),
        (b"add x1,x0,2", 1, Operands),
        (b"lw x1,x2", 1, Operands),
        (b"ecall 1", 1, Operands),
        (b"lr.w x1,0(x2)", 1, Operands),
        (b"addi x32,x0,1", 1, Register),
        (b"addi x1,x07,1", 1, Register),
        (b"addi t7,x0,1", 1, Register),
        (b"addi s12,x0,1", 1, Register),
        (b"addi a8,fp,1", 1, Register),
        (b"a: ecall\n\na: ebreak\n", 3, Twice),
        (b"a:\na: addi x32,x0,1\n", 2, Register),
        (b"beq x0,x0,a\na: addi x1,,x0\n", 1, Label),
        (b"jal x0,1", 1, Range),
        (b"beq x0,x0,4096", 1, Range),
        (b"slli x1,x1,64", 1, Range),
        (b".word 99999999999999999999999999999999", 1, Range),
        (b"", 1, Size),
        (b"# nothing\na:\n", 2, Size),
    ];
    for (source, number, cause) in sources {
        assert_eq!(rt;
            fault_of(rt.alloc(), source),
            Some(SourceFault::Line { number, cause })
        );
    }
    Ok(())
}
