//! From a source to its words.

ghost use Rattle.std.specs.Prelude.{◌≡◌, ◌⊎◌, ◌<◌, ◌≤◌, ◌++◌, ◌∷◌, [], List, ℕ, Ok, Err, OnOk, IfOk, IfSome};
ghost use Rattle.rv_asm.specs.declared.source.SourceFault.{SourceFault};
ghost use Rattle.rv_asm.specs.declared.source.SourceFault.TheVariants.{Memory};
ghost use Rattle.rv_asm.specs.Meaning.{word_in};
ghost use Rattle.rv_asm.specs.Source.{drafted, is_twice, sized, line_word, assembled};
ghost use Rattle.rv_asm.specs.Seen.{word_seen, some_parts_seen, draft_seen, option_draft_seen};
ghost use Rattle.rv_asm.specs.Found.{places_in};
ghost use Rattle.rv_asm.specs.Laws.{IsProgram};
ghost use Rattle.rv_asm.specs.Printed.{printed};

use crate::NoMemory;
use crate::labels::{Labels, find_labels, place_of};
use crate::line::{Parts, line_of};
use crate::meaning::{Draft, draft_of, word_in};
use crate::text::split_line;
use std::alloc::Global;
use std::marker::Model;

/// Why a line of a source isn't taken, in the order in which the causes are looked for.
#[derive(Clone, Copy, PartialEq, Eq, Debug)]
pub enum SourceCause {
    /// It has no form of a line, whatever its words are.
    Syntax,
    /// There is no such mnemonic.
    Name,
    /// The mnemonic takes other operands.
    Operands,
    /// There is no such register.
    Register,
    /// Its label stands on an earlier line.
    Twice,
    /// The label of its target stands on no line.
    Label,
    /// Its number or its distance is out of range.
    Range,
    /// It is the instruction after the last that has room, or the last line of a source without any.
    Size,
}

/// Why a source isn't assembled.
#[derive(Clone, Copy, PartialEq, Eq, Debug)]
pub enum SourceFault {
    /// The source is longer than may be read. Who reads it answers so.
    TooLong,
    /// The first line that isn't taken, from 1, and why.
    Line { number: u64, cause: SourceCause },
    /// Want of memory.
    Memory,
}

impl From<NoMemory> for SourceFault {
    ghost use Rattle.rv_asm.specs.declared.source.SourceFault.TheVariants.{Memory};

    ghost from_gives = { λ _ fault. fault ≡ Memory };

    fn from(_: NoMemory) -> SourceFault {
        SourceFault::Memory
    }
}

/// The words of a program.
#[derive(Drop)]
pub struct Words {
    items: Vec<u32>,
}

impl Model for Words {
    ghost use Rattle.std.specs.Prelude.{List, ℕ};

    ghost Value = { List ℕ };

    ghost view = { λ w. w.items.items };
}

impl Words {
    /// The words of a vector.
    pub fn of(items: Vec<u32>) -> Self
        ensures { result ≡ items.items }
    {
        Words { items }
    }

    pub fn as_slice(&self) -> &[u32]
        ensures { result.now ≡ self.now }
    {
        self.items.as_slice()
    }
}

/// So many instructions have room.
const MOST: u64 = 245_760;

/// The draft of a line's instruction, if it has one.
fn drafted<'a>(statement: &Option<Parts<'a>>) -> Result<Option<Draft<'a>>, SourceCause>
    ensures { option_draft_seen result ≡ drafted (some_parts_seen statement.now) }
{
    match statement {
        None => Ok(None),
        Some(parts) => Ok(Some(draft_of(parts)?)),
    }
}

/// Whether a label stands on an earlier line.
fn is_twice(labels: &Labels<'_>, number: u64, label: Option<&[u8]>) -> bool
    ensures { result ≡ is_twice (places_in labels.now) number (word_seen label.entry) }
{
    let Some(name) = label else {
        return false;
    };
    match place_of(labels, name) {
        None => false,
        Some(place) => place.line < number,
    }
}

/// The word of a draft, where it has room.
fn word_for(labels: &Labels<'_>, index: u64, draft: &Draft<'_>) -> Result<Option<u32>, SourceCause>
    requires { index ≤ 245760 }
    ensures value { result ≡ sized index (word_in (places_in labels.now) index (draft_seen draft.now)) }
    ensures room { IfOk result (λ _. index < 245760) }
{
    let word = word_in(labels, index, draft)?;
    if index < MOST {
        Ok(Some(word))
    } else {
        Err(SourceCause::Size)
    }
}

/// The word of a line, if it has an instruction.
#[tactic(auto, unfolding(crate::specs::Source::line_word))]
fn line_word(
    labels: &Labels<'_>,
    number: u64,
    index: u64,
    line: &[u8],
) -> Result<Option<u32>, SourceCause>
    requires { index ≤ 245760 }
    ensures value { result ≡ line_word (places_in labels.now) number index line.now }
    ensures room { IfOk result (λ word. IfSome word (λ _. index < 245760)) }
{
    let Some(line) = line_of(line) else {
        return Err(SourceCause::Syntax);
    };
    let draft = drafted(&line.statement)?;
    if is_twice(labels, number, line.label) {
        return Err(SourceCause::Twice);
    }
    match draft {
        None => Ok(None),
        Some(draft) => word_for(labels, index, &draft),
    }
}

fn push_word(words: &mut Vec<u32>, word: u32) -> Result<(), NoMemory>
    ensures { OnOk result (words.new.items ≡ words.old.items ++ word ∷ []) }
{
    words.push(word)?;
    Ok(())
}

/// The words of a source; or its first line that isn't taken, with the first cause that applies
/// there; or want of memory. Labels are found in a map, so a source takes as long as its length times
/// the logarithm of the number of its labels, and as much memory as its words and its labels.
pub fn assemble(alloc: Global, text: &[u8]) -> Result<Words, SourceFault>
    ensures words { IfOk result (λ words. assembled text.now ≡ Ok words) }
    ensures refused { (fault : SourceFault) → result ≡ Err fault → (fault ≡ Memory) ⊎ (assembled text.now ≡ Err fault) }

    // Of what is printed.
    ensures printed { (ws : List ℕ) → IsProgram ws → text.now ≡ printed ws → IfOk result (λ words. words ≡ ws) }
    ensures accepted { (ws : List ℕ) → IsProgram ws → text.now ≡ printed ws → (fault : SourceFault) → result ≡ Err fault → fault ≡ Memory }
{
    let labels = find_labels(alloc, text)?;
    let mut words = Vec::new(alloc);
    let mut number = 0u64;
    let mut rest = text;
    while !rest.is_empty() {
        let (line, after) = split_line(rest);
        number += 1;
        match line_word(&labels, number, words.len() as u64, line) {
            Err(cause) => return Err(SourceFault::Line { number, cause }),
            Ok(None) => {}
            Ok(Some(word)) => push_word(&mut words, word)?,
        }
        rest = after;
    }
    if words.is_empty() {
        return Err(SourceFault::Line {
            number: number.max(1),
            cause: SourceCause::Size,
        });
    }
    Ok(Words::of(words))
}
