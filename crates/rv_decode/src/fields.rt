// The fields of a word and the immediates that they make.

ghost use Rattle.std.specs.Prelude.{◌≡◌, ◌==◌, ◌&&◌, ◌+◌, ◌*◌, ◌^◌, ◌<◌, ◌≤◌};
ghost use Rattle.rv_decode.specs.Fields.{bits_of, sign_extended, imm_b, imm_j};

/// So many bits of a word, from bit `low` upwards.
pub(crate) fn bits(word: u32, low: u32, count: u32) -> u32
    requires some { 0 < count }
    requires narrow { count < 32 }
    requires within { low + count ≤ 32 }
    ensures { result ≡ bits_of word low count }
{
    (word >> low) & ((1 << count) - 1)
}

/// The number of a register, in the five bits from bit `low` upwards.
pub(crate) fn register(word: u32, low: u32) -> u8
    requires { low ≤ 27 }
    ensures { result ≡ bits_of word low 5 }
{
    bits(word, low, 5) as u8
}

/// The signed number that the low `count` bits are.
pub(crate) fn sign_extend(count: u32, x: u32) -> i64
    requires some { 0 < count }
    requires narrow { count ≤ 32 }
    requires fits { x < 2 ^ count }
    ensures { result ≡ sign_extended count x }
{
    if x < 1 << (count - 1) {
        i64::from(x)
    } else {
        i64::from(x) - (1 << count)
    }
}

/// The offset of a branch: bit 31, bit 7, bits 25 to 30 and bits 8 to 11, down to bit 1.
pub(crate) fn branch_offset(word: u32) -> i64
    ensures { result ≡ imm_b word }
{
    sign_extend(
        13,
        (bits(word, 31, 1) << 12)
            + (bits(word, 7, 1) << 11)
            + (bits(word, 25, 6) << 5)
            + (bits(word, 8, 4) << 1),
    )
}

/// The offset of a jump: bit 31, bits 12 to 19, bit 20 and bits 21 to 30, down to bit 1.
pub(crate) fn jump_offset(word: u32) -> i64
    ensures { result ≡ imm_j word }
{
    sign_extend(
        21,
        (bits(word, 31, 1) << 20)
            + (bits(word, 12, 8) << 12)
            + (bits(word, 20, 1) << 11)
            + (bits(word, 21, 10) << 1),
    )
}
