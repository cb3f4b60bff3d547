ghost use Rattle.std.specs.Prelude.{◌<◌};

use crate::{Instr, Op, decode, encode};

fn instr(op: Op, rd: u8, rs1: u8, rs2: u8, imm: i64) -> Instr {
    Instr {
        op,
        rd,
        rs1,
        rs2,
        imm,
        aq: false,
        rl: false,
    }
}

// Word, operation, rd, rs1, rs2 and immediate, by the formats of the manual; the last ones are words of
// assembled programs.
type Vector = (u32, Op, u8, u8, u8, i64);

static VECTORS: [Vector; 106] = [
    (0x000002b7, Op::Lui, 5, 0, 0, 0x0),
    (0x000012b7, Op::Lui, 5, 0, 0, 0x1000),
    (0x7ffff2b7, Op::Lui, 5, 0, 0, 0x7ffff000),
    (0x800002b7, Op::Lui, 5, 0, 0, -0x80000000),
    (0xfffff2b7, Op::Lui, 5, 0, 0, -0x1000),
    (0xffffff97, Op::Auipc, 31, 0, 0, -0x1000),
    (0x000000ef, Op::Jal, 1, 0, 0, 0x0),
    (0x002000ef, Op::Jal, 1, 0, 0, 0x2),
    (0xfffff0ef, Op::Jal, 1, 0, 0, -0x2),
    (0x7ffff0ef, Op::Jal, 1, 0, 0, 0xffffe),
    (0x800000ef, Op::Jal, 1, 0, 0, -0x100000),
    (0x001000ef, Op::Jal, 1, 0, 0, 0x800),
    (0x344120ef, Op::Jal, 1, 0, 0, 0x12344),
    (0x000100e7, Op::Jalr, 1, 2, 0, 0x0),
    (0x7ff100e7, Op::Jalr, 1, 2, 0, 0x7ff),
    (0x800100e7, Op::Jalr, 1, 2, 0, -0x800),
    (0xfff100e7, Op::Jalr, 1, 2, 0, -0x1),
    (0xfc418ce3, Op::Beq, 0, 3, 4, -0x28),
    (0xfc419ce3, Op::Bne, 0, 3, 4, -0x28),
    (0xfc41cce3, Op::Blt, 0, 3, 4, -0x28),
    (0xfc41dce3, Op::Bge, 0, 3, 4, -0x28),
    (0xfc41ece3, Op::Bltu, 0, 3, 4, -0x28),
    (0xfc41fce3, Op::Bgeu, 0, 3, 4, -0x28),
    (0x000f8163, Op::Beq, 0, 31, 0, 0x2),
    (0xfe0f8fe3, Op::Beq, 0, 31, 0, -0x2),
    (0x7e0f8fe3, Op::Beq, 0, 31, 0, 0xffe),
    (0x800f8063, Op::Beq, 0, 31, 0, -0x1000),
    (0x000f80e3, Op::Beq, 0, 31, 0, 0x800),
    (0x400f8063, Op::Beq, 0, 31, 0, 0x400),
    (0x05848403, Op::Lb, 8, 9, 0, 0x58),
    (0x05849403, Op::Lh, 8, 9, 0, 0x58),
    (0x0584a403, Op::Lw, 8, 9, 0, 0x58),
    (0x0584b403, Op::Ld, 8, 9, 0, 0x58),
    (0x0584c403, Op::Lbu, 8, 9, 0, 0x58),
    (0x0584d403, Op::Lhu, 8, 9, 0, 0x58),
    (0x0584e403, Op::Lwu, 8, 9, 0, 0x58),
    (0x81f10023, Op::Sb, 0, 2, 31, -0x800),
    (0x81f11023, Op::Sh, 0, 2, 31, -0x800),
    (0x81f12023, Op::Sw, 0, 2, 31, -0x800),
    (0x81f13023, Op::Sd, 0, 2, 31, -0x800),
    (0x7e113fa3, Op::Sd, 0, 2, 1, 0x7ff),
    (0xfff10093, Op::Addi, 1, 2, 0, -0x1),
    (0xfff12093, Op::Slti, 1, 2, 0, -0x1),
    (0xfff13093, Op::Sltiu, 1, 2, 0, -0x1),
    (0xfff14093, Op::Xori, 1, 2, 0, -0x1),
    (0xfff16093, Op::Ori, 1, 2, 0, -0x1),
    (0xfff17093, Op::Andi, 1, 2, 0, -0x1),
    (0x00011093, Op::Slli, 1, 2, 0, 0x0),
    (0x03f11093, Op::Slli, 1, 2, 0, 0x3f),
    (0x00015093, Op::Srli, 1, 2, 0, 0x0),
    (0x03f15093, Op::Srli, 1, 2, 0, 0x3f),
    (0x40015093, Op::Srai, 1, 2, 0, 0x0),
    (0x43f15093, Op::Srai, 1, 2, 0, 0x3f),
    (0x003100b3, Op::Add, 1, 2, 3, 0x0),
    (0x003110b3, Op::Sll, 1, 2, 3, 0x0),
    (0x003120b3, Op::Slt, 1, 2, 3, 0x0),
    (0x003130b3, Op::Sltu, 1, 2, 3, 0x0),
    (0x003140b3, Op::Xor, 1, 2, 3, 0x0),
    (0x003150b3, Op::Srl, 1, 2, 3, 0x0),
    (0x003160b3, Op::Or, 1, 2, 3, 0x0),
    (0x003170b3, Op::And, 1, 2, 3, 0x0),
    (0x403100b3, Op::Sub, 1, 2, 3, 0x0),
    (0x403150b3, Op::Sra, 1, 2, 3, 0x0),
    (0x8001009b, Op::Addiw, 1, 2, 0, -0x800),
    (0x0003129b, Op::Slliw, 5, 6, 0, 0x0),
    (0x01f3129b, Op::Slliw, 5, 6, 0, 0x1f),
    (0x0003529b, Op::Srliw, 5, 6, 0, 0x0),
    (0x01f3529b, Op::Srliw, 5, 6, 0, 0x1f),
    (0x4003529b, Op::Sraiw, 5, 6, 0, 0x0),
    (0x41f3529b, Op::Sraiw, 5, 6, 0, 0x1f),
    (0x01df0fbb, Op::Addw, 31, 30, 29, 0x0),
    (0x01df1fbb, Op::Sllw, 31, 30, 29, 0x0),
    (0x01df5fbb, Op::Srlw, 31, 30, 29, 0x0),
    (0x41df0fbb, Op::Subw, 31, 30, 29, 0x0),
    (0x41df5fbb, Op::Sraw, 31, 30, 29, 0x0),
    (0x0ff0000f, Op::Fence, 0, 0, 0, 0xff),
    (0x8330000f, Op::Fence, 0, 0, 0, -0x7cd),
    (0x00000073, Op::Ecall, 0, 0, 0, 0x0),
    (0x00100073, Op::Ebreak, 0, 0, 0, 0x0),
    (0x1003a2af, Op::LrW, 5, 7, 0, 0x0),
    (0x1863a2af, Op::ScW, 5, 7, 6, 0x0),
    (0x0863a2af, Op::AmoswapW, 5, 7, 6, 0x0),
    (0x0063a2af, Op::AmoaddW, 5, 7, 6, 0x0),
    (0x2063a2af, Op::AmoxorW, 5, 7, 6, 0x0),
    (0x6063a2af, Op::AmoandW, 5, 7, 6, 0x0),
    (0x4063a2af, Op::AmoorW, 5, 7, 6, 0x0),
    (0x8063a2af, Op::AmominW, 5, 7, 6, 0x0),
    (0xa063a2af, Op::AmomaxW, 5, 7, 6, 0x0),
    (0xc063a2af, Op::AmominuW, 5, 7, 6, 0x0),
    (0xe063a2af, Op::AmomaxuW, 5, 7, 6, 0x0),
    (0x1003b2af, Op::LrD, 5, 7, 0, 0x0),
    (0x1863b2af, Op::ScD, 5, 7, 6, 0x0),
    (0x0863b2af, Op::AmoswapD, 5, 7, 6, 0x0),
    (0x0063b2af, Op::AmoaddD, 5, 7, 6, 0x0),
    (0x2063b2af, Op::AmoxorD, 5, 7, 6, 0x0),
    (0x6063b2af, Op::AmoandD, 5, 7, 6, 0x0),
    (0x4063b2af, Op::AmoorD, 5, 7, 6, 0x0),
    (0x8063b2af, Op::AmominD, 5, 7, 6, 0x0),
    (0xa063b2af, Op::AmomaxD, 5, 7, 6, 0x0),
    (0xc063b2af, Op::AmominuD, 5, 7, 6, 0x0),
    (0xe063b2af, Op::AmomaxuD, 5, 7, 6, 0x0),
    (0x001005b7, Op::Lui, 11, 0, 0, 0x100000),
    (0x02a00613, Op::Addi, 12, 0, 0, 0x2a),
    (0x00c5a023, Op::Sw, 0, 11, 12, 0x0),
    (0x0005a683, Op::Lw, 13, 11, 0, 0x0),
    (0x05d00893, Op::Addi, 17, 0, 0, 0x5d),
];

// Each operation decodes as the manual says, and encodes to its word.
#[test]
fn operations(rt: HostRuntime) {
    for (word, op, rd, rs1, rs2, imm) in VECTORS {
        let wanted = instr(op, rd, rs1, rs2, imm);
        assert_eq!(rt; decode(word), Some(wanted), "{word:08x}");
        assert_eq!(rt; encode(&wanted), word, "{wanted:?}");
    }
}

// The two bits of ordering.
#[test]
fn ordering(rt: HostRuntime) {
    let table = [
        (0x0063a2af, false, false),
        (0x0263a2af, false, true),
        (0x0463a2af, true, false),
        (0x0663a2af, true, true),
    ];
    for (word, aq, rl) in table {
        let wanted = Instr {
            aq,
            rl,
            ..instr(Op::AmoaddW, 5, 7, 6, 0)
        };
        assert_eq!(rt; decode(word), Some(wanted), "{word:08x}");
        assert_eq!(rt; encode(&wanted), word, "{wanted:?}");
    }
}

// Words that no row has: none of the listing's opcodes, and fields that a row asks to be otherwise.
#[test]
fn no_instruction(rt: HostRuntime) {
    let table = [
        0x0000_0000,
        0xffff_ffff,
        0x0000_1067,
        0x0000_2063,
        0x0000_7003,
        0x0000_4023,
        0x0400_1013,
        0x4000_1013,
        0x0200_5033,
        0x4000_7033,
        0x0200_101b,
        0x0000_201b,
        0x0000_203b,
        0x0000_100f,
        0x0000_00f3,
        0x0020_0073,
        0x0000_1073,
        0x1063_a2af,
        0x2863_a2af,
        0x0063_92af,
        0x0000_0033 | 1 << 31,
    ];
    for word in table {
        assert_eq!(rt; decode(word), None, "{word:08x}");
    }
}

// Which values of funct3 have a row, one bit each, by the opcode and by funct7, where all other bits
// are 0.
fn listed(opcode: u32, funct7: u32) -> u8 {
    match (opcode, funct7) {
        (0x37 | 0x17 | 0x6f, _) => 0b1111_1111,
        (0x67 | 0x0f, _) => 0b0000_0001,
        (0x63, _) => 0b1111_0011,
        (0x03, _) => 0b0111_1111,
        (0x23, _) => 0b0000_1111,
        (0x13, 0x00 | 0x01) => 0b1111_1111,
        (0x13, 0x20 | 0x21) => 0b1111_1101,
        (0x13, _) => 0b1101_1101,
        (0x33, 0x00) => 0b1111_1111,
        (0x33, 0x20) => 0b0010_0001,
        (0x1b, 0x00) => 0b0010_0011,
        (0x1b, 0x20) => 0b0010_0001,
        (0x1b, _) => 0b0000_0001,
        (0x3b, 0x00) => 0b0010_0011,
        (0x3b, 0x20) => 0b0010_0001,
        (0x73, 0x00) => 0b0000_0001,
        (0x2f, _) => listed_atomic(funct7 / 4),
        _ => 0,
    }
}

fn listed_atomic(funct5: u32) -> u8 {
    match funct5 {
        0 | 1 | 2 | 3 | 4 | 8 | 12 | 16 | 20 | 24 | 28 => 0b0000_1100,
        _ => 0,
    }
}

// The same by decoding.
fn decoded(opcode: u32, funct7: u32) -> u8
    requires opcode { opcode < 128 }
    requires funct7 { funct7 < 128 }
{
    let mut found = 0;
    for funct3 in 0..8u32 {
        let word = (funct7 << 25) | (funct3 << 12) | opcode;
        if decode(word).is_some() {
            found |= 1u8 << funct3;
        }
    }
    found
}

// All combinations of opcode and funct3, with all values of funct7.
#[test]
fn all_fields(rt: HostRuntime) {
    for opcode in 0..128 {
        for funct7 in 0..128 {
            assert_eq!(rt;
                decoded(opcode, funct7),
                listed(opcode, funct7),
                "{opcode:x} {funct7:x}"
            );
        }
    }
}
