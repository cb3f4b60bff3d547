//! Words of a line and the numbers that they write. What is read of a word that writes no number
//! is some number all the same.

ghost use Rattle.std.specs.Prelude.{◌≡◌, ◌^◌, ◌/◌, ◌%◌, cond, drop};
ghost use Rattle.std.specs.Str.{bytes_eq};
ghost use Rattle.og_trace.specs.Reader.{before, from, word_in, after_word, decimal_of, hex_of, decimal_from, hex_from, with_decimal, with_hex, decimal_in, hex_in, byte_in, short_in, int_in, page_in, frame_of, frame_in};

use og_base::{Frame, VPage};

/// Whether a word is this one.
pub(crate) fn is(word: &[u8], name: &[u8]) -> bool
    ensures { result ≡ bytes_eq word.now name.now }
{
    word == name
}

/// What stands before the first such byte, and what stands from it on.
pub(crate) fn split(text: &[u8], at: u8) -> (&[u8], &[u8])
    ensures before { result.0.now ≡ before at text.now }
    ensures from { result.1.now ≡ from at text.now }
{
    let mut end = 0usize;
    while end < text.len() && text[end] != at {
        end += 1;
    }
    text.split_at(end)
}

/// All but the first byte.
pub(crate) fn skip(text: &[u8]) -> &[u8]
    ensures { result.now ≡ drop 1 text.now }
{
    match text {
        [] => text,
        [_, rest @ ..] => rest,
    }
}

/// The word after a blank, and what follows it.
pub(crate) fn word(rest: &[u8]) -> (&[u8], &[u8])
    ensures word { result.0.now ≡ word_in rest.now }
    ensures rest { result.1.now ≡ after_word rest.now }
{
    split(skip(rest), b' ')
}

/// What follows the word after a blank.
pub(crate) fn skip_word(rest: &[u8]) -> &[u8]
    ensures { result.now ≡ after_word rest.now }
{
    word(rest).1
}

#[tactic(auto, unfolding(crate::specs::Reader::decimal_of))]
fn decimal_of(word: &[u8]) -> u64
    ensures { result ≡ decimal_of word.now }
{
    let mut number = 0u64;
    for digit in word {
        number = with_decimal(number, *digit);
    }
    number
}

fn with_decimal(number: u64, digit: u8) -> u64
    ensures { result ≡ with_decimal number digit }
{
    number
        .wrapping_mul(10)
        .wrapping_add(u64::from(digit.saturating_sub(b'0')))
}

#[tactic(auto, unfolding(crate::specs::Reader::hex_of))]
fn hex_of(word: &[u8]) -> u64
    ensures { result ≡ hex_of word.now }
{
    let mut number = 0u64;
    for digit in word {
        number = with_hex(number, *digit);
    }
    number
}

fn with_hex(number: u64, digit: u8) -> u64
    ensures { result ≡ with_hex number digit }
{
    let value = if digit < 58 {
        digit.saturating_sub(b'0')
    } else {
        digit.saturating_sub(87)
    };
    number.wrapping_mul(16).wrapping_add(u64::from(value))
}

/// A decimal number after a blank, and what follows it.
pub(crate) fn decimal(rest: &[u8]) -> (u64, &[u8])
    ensures number { result.0 ≡ decimal_in rest.now }
    ensures rest { result.1.now ≡ after_word rest.now }
{
    let (word, rest) = word(rest);
    (decimal_of(word), rest)
}

/// A hexadecimal number after a blank, and what follows it.
pub(crate) fn hex(rest: &[u8]) -> (u64, &[u8])
    ensures number { result.0 ≡ hex_in rest.now }
    ensures rest { result.1.now ≡ after_word rest.now }
{
    let (word, rest) = word(rest);
    (hex_of(word), rest)
}

pub(crate) fn byte(rest: &[u8]) -> (u8, &[u8])
    ensures number { result.0 ≡ byte_in rest.now }
    ensures rest { result.1.now ≡ after_word rest.now }
{
    let (number, rest) = decimal(rest);
    ((number % 256) as u8, rest)
}

pub(crate) fn short(rest: &[u8]) -> (u16, &[u8])
    ensures number { result.0 ≡ short_in rest.now }
    ensures rest { result.1.now ≡ after_word rest.now }
{
    let (number, rest) = decimal(rest);
    ((number % 65_536) as u16, rest)
}

pub(crate) fn int(rest: &[u8]) -> (u32, &[u8])
    ensures number { result.0 ≡ int_in rest.now }
    ensures rest { result.1.now ≡ after_word rest.now }
{
    let (number, rest) = decimal(rest);
    ((number % 4_294_967_296) as u32, rest)
}

/// A page by its address.
pub(crate) fn page(rest: &[u8]) -> (VPage, &[u8])
    ensures page { result.0 ≡ page_in rest.now }
    ensures rest { result.1.now ≡ after_word rest.now }
{
    let (addr, rest) = hex(rest);
    (VPage(addr / 4096), rest)
}

pub(crate) fn frame(rest: &[u8]) -> (Frame, &[u8])
    ensures frame { result.0 ≡ frame_in rest.now }
    ensures rest { result.1.now ≡ after_word rest.now }
{
    let (word, rest) = word(rest);
    (frame_of(word), rest)
}

#[tactic(auto, unfolding(crate::specs::Reader::frame_of))]
fn frame_of(word: &[u8]) -> Frame
    ensures { result ≡ frame_of word.now }
{
    let (home, index) = split(word, b'.');
    Frame {
        home: (decimal_of(home) % 256) as u8,
        index: (decimal_of(skip(index)) % 65_536) as u16,
    }
}
