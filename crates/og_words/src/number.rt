//! Decimal numbers of a range.

ghost use Rattle.std.specs.Prelude.{◌≡◌, ◌≤◌, IfSome};
ghost use Rattle.og_words.specs.Words.{number_in as number_written};

use itoa::Buffer;

/// The number that the word writes, if that is its decimal text and it is in this range.
pub(crate) fn number_in(word: &str, low: u64, high: u64) -> Option<u64>
    ensures value { result ≡ number_written low high word.now }
    ensures in_range { IfSome result (λ n. (low ≤ n) × (n ≤ high)) }
{
    let number = word.parse::<u64>().ok()?;
    let mut buffer = Buffer::new();
    let is_plain = buffer.format(number) == word;
    if is_plain && low <= number && number <= high {
        Some(number)
    } else {
        None
    }
}
