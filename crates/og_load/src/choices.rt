//! The choices of a choices file, and the settings that they are made with.

ghost use Rattle.std.specs.Prelude.{◌≡◌, ◌≤◌, ◌⊎◌, Err, None, IfOk, IfSome, length, true, false};
ghost use Rattle.og_io.specs.Outside.{TellsLongFile};
ghost use Rattle.og_load.specs.Choices.{ChoicesLoad, ChoicesRead, feeds_of, gives_other as gives_other_than, gives_others, differs as head_differs, used};

use crate::Unused;
use og_base::{NotEnabled, Settings};
use og_io::{Shelf, ShelfFault};
use og_runs::Choice;
use og_trace::{Listed, TextFault, read_text};
use og_words::Given;
use std::alloc::Global;

/// The most bytes of a choices file.
const MOST_BYTES: u64 = 536_870_912;

/// The most line feeds of a choices file.
const MOST_FEEDS: usize = 16_777_216;

/// Why choices aren't made.
#[derive(Clone, Copy, PartialEq, Eq, Debug)]
pub enum ChoiceFault {
    /// The first line outside the grammar, from 1.
    Grammar { line: u64 },
    /// The head has another value than an option that the words give.
    Settings,
    /// The choice in this line isn't enabled, for this reason.
    Refused { line: u64, cause: NotEnabled },
    /// More than 536,870,912 bytes or 16,777,216 line feeds.
    TooLong,
}

/// The choices of a file with the numbers of their lines, and the settings that they are made with.
#[derive(Drop)]
pub struct Choices {
    pub settings: Settings,
    pub choices: Listed<Choice>,
    pub lines: Listed<u64>,
}

/// How many line feeds a text has.
fn count_feeds(text: &[u8]) -> usize
    ensures { result ≡ feeds_of text.now }
{
    text.iter().filter(|byte| **byte == b'\n').count()
}

/// Whether an option that the words give has another value.
fn gives_other(given: Option<u32>, value: u32) -> bool
    ensures { result ≡ gives_other_than given value }
{
    match given {
        Some(given) => given != value,
        None => false,
    }
}

/// Whether the words give another value than the head has.
fn differs(given: &Given, head: &Settings) -> bool
    ensures { result ≡ gives_others given.now head.now }
{
    gives_other(given.nodes, u32::from(head.nodes))
        || gives_other(given.frames, u32::from(head.frames))
        || gives_other(given.sets, u32::from(head.sets))
        || gives_other(given.ways, u32::from(head.ways))
        || gives_other(given.tlb, u32::from(head.tlb))
        || gives_other(given.instructions, head.instructions)
        || gives_other(given.trigger, head.trigger)
        || gives_other(given.sharing, head.sharing)
        || gives_other(given.moves, head.moves)
        || gives_other(given.reset, head.reset)
}

/// The settings of the head, where there is one, else those of the words. None where the head differs from what the words give.
fn settings_used(words: &Settings, given: &Given, head: Option<Settings>) -> Option<Settings>
    ensures other { result ≡ None → head_differs given.now head ≡ true }
    ensures settings { IfSome result (λ settings. (settings ≡ used words.now head) × (head_differs given.now head ≡ false)) }
{
    let Some(head) = head else {
        return Some(*words);
    };
    if differs(given, &head) {
        return None;
    }
    Some(head)
}

/// The choices in the bytes of a file.
fn read_choices(
    alloc: Global,
    bytes: &[u8],
    words: &Settings,
    given: &Given,
) -> Result<Choices, Unused<ChoiceFault>>
    ensures read { ChoicesRead words.now given.now bytes.now result }
    ensures in_lines { IfOk result (λ loaded. length loaded.lines ≡ length loaded.choices) }
    ensures few { IfOk result (λ loaded. length loaded.choices ≤ 16777217) }
{
    if count_feeds(bytes) > MOST_FEEDS {
        return Err(Unused::Fault(ChoiceFault::TooLong));
    }
    let trace = match read_text(alloc, bytes) {
        Ok(trace) => trace,
        Err(TextFault::Grammar { line }) => {
            return Err(Unused::Fault(ChoiceFault::Grammar { line }));
        }
        Err(TextFault::Memory) => return Err(Unused::Memory),
    };
    match settings_used(words, given, trace.head) {
        Some(settings) => Ok(Choices {
            settings,
            choices: trace.choices,
            lines: trace.lines,
        }),
        None => Err(Unused::Fault(ChoiceFault::Settings)),
    }
}

/// The choices of the file with this name. `words` are the settings of the words with their defaults, `given` those that the words
/// themselves give.
pub fn load_choices<F: Shelf>(
    alloc: Global,
    shelf: &mut F,
    name: &str,
    words: &Settings,
    given: &Given,
) -> Result<Choices, Unused<ChoiceFault>>
    ensures loads { ChoicesLoad words.now given.now name.now (F.seen shelf.old) (F.seen shelf.new) result }
    ensures in_lines { IfOk result (λ loaded. length loaded.lines ≡ length loaded.choices) }
    ensures few { IfOk result (λ loaded. length loaded.choices ≤ 16777217) }
    ensures long { TellsLongFile (F.seen shelf.old).files name.now MOST_BYTES → (result ≡ Err Unused.Unread) ⊎ (result ≡ Err (Unused.Fault ChoiceFault.TooLong)) }
{
    match shelf.fetch(alloc, name, MOST_BYTES) {
        Ok(bytes) => read_choices(alloc, &bytes, words, given),
        Err(ShelfFault::Failed) => Err(Unused::Unread),
        Err(ShelfFault::TooLong) => Err(Unused::Fault(ChoiceFault::TooLong)),
        Err(ShelfFault::Memory) => Err(Unused::Memory),
    }
}
