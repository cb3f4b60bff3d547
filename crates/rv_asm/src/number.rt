//! Numbers and registers, as words.

ghost use Rattle.std.specs.Prelude.{◌≡◌, ◌≤◌, ◌<◌, ◌^◌, ◌≤ℤ◌, pos, negsuc, min, cond, Bool, true, ◌&&◌, ◌||◌, ◌+◌, ◌-◌, ◌*◌, int_le, Some, None, IfSome};
ghost use Rattle.std.specs.List.{list_all};
ghost use Rattle.std.specs.Option.{option_or};
ghost use Rattle.rv_asm.specs.Syntax.{is_digit, is_hex_digit, are_digits, are_hex_digits, is_hex, is_number, digit_of, digits_from, hex_value, value_of};
ghost use Rattle.rv_asm.specs.Near.{IsNear};
ghost use Rattle.rv_asm.specs.Registers.{register_in, special_in, numbered, numbered_in, small_number, with_letter};

use crate::token::{is_digit, is_hex_digit};

fn all_digits(bytes: &[u8]) -> bool
    ensures { result ≡ list_all is_digit bytes.now }
{
    bytes.iter().all(|byte| is_digit(*byte))
}

fn all_hex_digits(bytes: &[u8]) -> bool
    ensures { result ≡ list_all is_hex_digit bytes.now }
{
    bytes.iter().all(|byte| is_hex_digit(*byte))
}

/// Whether a word is decimal digits.
fn are_digits(word: &[u8]) -> bool
    ensures { result ≡ are_digits word.now }
{
    match word.split_first() {
        None => false,
        Some(_) => all_digits(word),
    }
}

/// Whether a word is hexadecimal digits.
fn are_hex_digits(word: &[u8]) -> bool
    ensures { result ≡ are_hex_digits word.now }
{
    match word.split_first() {
        None => false,
        Some(_) => all_hex_digits(word),
    }
}

/// Whether a word is `0x` and hexadecimal digits.
fn is_hex(word: &[u8]) -> bool
    ensures { result ≡ is_hex word.now }
{
    let Some((zero, rest)) = word.split_first() else {
        return false;
    };
    match rest.split_first() {
        None => false,
        Some((letter, digits)) => *zero == b'0' && *letter == b'x' && are_hex_digits(digits),
    }
}

/// Whether a word is a number.
#[tactic(auto, unfolding(crate::specs::Syntax::is_number))]
pub(crate) fn is_number(word: &[u8]) -> bool
    ensures { result ≡ is_number word.now }
{
    match word.split_first() {
        None => false,
        Some((b'-', digits)) => are_digits(digits),
        Some(_) => are_digits(word) || is_hex(word),
    }
}

/// What no range reaches: numbers from here on are all alike.
pub(crate) const FAR: u64 = 1 << 40;

fn digit_of(digit: u8) -> u64
    ensures value { result ≡ digit_of digit }
    ensures small { result < 256 }
{
    let value = if digit < 58 {
        digit.saturating_sub(b'0')
    } else if digit < 71 {
        digit.saturating_sub(55)
    } else {
        digit.saturating_sub(87)
    };
    u64::from(value)
}

/// The number that digits write, or `FAR` where it is beyond that.
#[tactic(auto, using(crate::proofs::Numbers::capped_digit))]
fn digits_from(base: u64, digits: &[u8]) -> u64
    requires some { 1 ≤ base }
    requires small { base ≤ 16 }
    ensures value { result ≡ min (digits_from base 0 digits.now) (2 ^ 40) }
    ensures capped { result ≤ 2 ^ 40 }
{
    let mut number = 0u64;
    for digit in digits {
        number = (number * base + digit_of(*digit)).min(FAR);
    }
    number
}

/// The number after `0x`.
fn hex_value(word: &[u8]) -> u64
    ensures value { result ≡ min (hex_value word.now) (2 ^ 40) }
    ensures capped { result ≤ 2 ^ 40 }
{
    let Some((_, rest)) = word.split_first() else {
        return 0;
    };
    match rest.split_first() {
        None => 0,
        Some((_, digits)) => digits_from(16, digits),
    }
}

/// The number that a word is, or one as far on its side of 0 as no range reaches.
#[tactic(auto, unfolding(crate::specs::Syntax::value_of))]
pub(crate) fn number_of(word: &[u8]) -> i64
    ensures { IsNear result (value_of word.now) }
{
    match word.split_first() {
        None => 0,
        Some((b'-', digits)) => -(digits_from(10, digits) as i64),
        Some(_) if is_hex(word) => hex_value(word) as i64,
        Some(_) => digits_from(10, word) as i64,
    }
}

// ------------------------------------------------------------------------------ registers

/// The registers whose names have no number.
fn special_in(word: &[u8]) -> Option<u8>
    ensures { result ≡ special_in word.now }
{
    match word {
        b"zero" => Some(0),
        b"ra" => Some(1),
        b"sp" => Some(2),
        b"gp" => Some(3),
        b"tp" => Some(4),
        _ => None,
    }
}

/// A number of one digit, or of two without a zero in front.
#[tactic(auto, unfolding(crate::specs::Syntax::is_digit))]
fn small_number(word: &[u8]) -> Option<u8>
    ensures value { result ≡ small_number word.now }
    ensures small { IfSome result (λ n. n < 100) }
{
    let (tens, rest) = word.split_first()?;
    let Some((ones, rest)) = rest.split_first() else {
        return if is_digit(*tens) {
            Some(*tens - b'0')
        } else {
            None
        };
    };
    if !rest.is_empty() {
        return None;
    }
    if is_digit(*tens) && is_digit(*ones) && *tens != b'0' {
        Some((*tens - b'0') * 10 + (*ones - b'0'))
    } else {
        None
    }
}

/// The register of a letter and a number.
fn numbered(letter: u8, number: u8) -> Option<u8>
    requires { number < 100 }
    ensures { result ≡ numbered letter number }
{
    match letter {
        b'x' if number < 32 => Some(number),
        b't' if number < 3 => Some(number + 5),
        b't' if number < 7 => Some(number + 25),
        b's' if number < 2 => Some(number + 8),
        b's' if number < 12 => Some(number + 16),
        b'a' if number < 8 => Some(number + 10),
        _ => None,
    }
}

fn with_letter(word: &[u8]) -> Option<u8>
    ensures { result ≡ with_letter word.now }
{
    let (letter, rest) = word.split_first()?;
    let number = small_number(rest)?;
    numbered(*letter, number)
}

/// The register that a word names.
#[tactic(auto, unfolding(crate::specs::Registers::register_in))]
pub(crate) fn register_in(word: &[u8]) -> Option<u8>
    ensures { result ≡ register_in word.now }
{
    match special_in(word) {
        Some(register) => Some(register),
        None => with_letter(word),
    }
}
