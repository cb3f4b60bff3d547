//! The bytes of a raw image, from words and back.

ghost use Rattle.std.specs.Prelude.{◌≡◌, ◌≤◌, ◌∷◌, length, drop, IfOk};
ghost use Rattle.og_tools.specs.Images.{raw_file as file_of, words_of as words_in_text};

use byteorder::{ByteOrder, LittleEndian};
use rv_asm::NoMemory;
use std::alloc::Global;

/// The raw image of a program without data.
pub(crate) fn raw_file(alloc: Global, words: &[u32]) -> Result<Vec<u8>, NoMemory>
    requires { length words.now ≤ 245760 }
    ensures { IfOk result (λ file. file.items ≡ file_of words.now) }
{
    let size = 4 * words.len() as u32;
    let mut file = Vec::new(alloc);
    file.extend_from_slice(&size.to_le_bytes())?;
    for word in words {
        file.extend_from_slice(&word.to_le_bytes())?;
    }
    Ok(file)
}

/// The first word of a text, and what follows it.
#[tactic(auto, using(crate::proofs::Images::words_next))]
fn next_word(text: &[u8]) -> (u32, &[u8])
    requires { 4 ≤ length text.now }
    ensures step { words_in_text text.now ≡ result.0 ∷ words_in_text result.1.now }
    ensures rest { result.1.now ≡ drop 4 text.now }
{
    (LittleEndian::read_u32(text), &text[4..])
}

/// The words of a text, of four bytes each.
#[tactic(auto, using(crate::proofs::Images::words_end, std::proofs::lemmas::Grind::common_steps))]
pub(crate) fn words_of(alloc: Global, text: &[u8]) -> Result<Vec<u32>, NoMemory>
    ensures { IfOk result (λ words. words.items ≡ words_in_text text.now) }
{
    let mut words = Vec::new(alloc);
    let mut rest = text;
    while rest.len() >= 4 {
        let (word, after) = next_word(rest);
        words.push(word)?;
        rest = after;
    }
    Ok(words)
}
