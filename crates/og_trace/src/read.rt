//! Reading texts.

ghost use Rattle.std.specs.Prelude.{◌≡◌, Bool, ℕ, ◌+◌, ◌<◌, ◌++◌, ◌∷◌, [], List, length, OnOk, IfOk, IfSome, true, map};
ghost use Rattle.std.proofs.Common.{None, Some};
ghost use Rattle.std.specs.Str.{bytes_eq};
ghost use Rattle.std.specs.Option.{option_map, option_or};
ghost use Rattle.og_base.specs.declared.Settings.{Settings};
ghost use Rattle.og_runs.specs.declared.Event.{Event};
ghost use Rattle.og_msg.specs.declared.Note.{Note};
ghost use Rattle.og_trace.specs.Text.{item_text, head_of, text_of, items_of};
ghost use Rattle.og_trace.specs.Grammar.{lines_of, IsLine, IsOutside, IsFirstOutside, IsRead, IsWritten, AllInRange, is_in_range, is_head_line, choices_in, numbers_in, notes_in, head_in};

use crate::item::{Head, Item, Place};
use crate::line::parse;
use crate::listed::Listed;
use crate::ranges::is_in_range;
use crate::word::{is, skip, split};
use crate::write::push_item;
use og_base::{NoMemory, Settings};
use og_msg::Note;
use og_runs::{Choice, Stamp};
use std::alloc::Global;

/// Why a text isn't read.
#[derive(Clone, Copy, PartialEq, Eq, Debug)]
pub enum TextFault {
    /// The first line that is outside the grammar, from 1.
    Grammar { line: u64 },
    /// Want of memory.
    Memory,
}

impl From<NoMemory> for TextFault {
    ghost use Rattle.og_trace.specs.declared.read.TextFault.TheVariants.{Memory};

    ghost from_gives = { λ _ fault. fault ≡ Memory };

    fn from(_: NoMemory) -> TextFault {
        TextFault::Memory
    }
}

/// What a text says: the settings of its head, its choices with the numbers of their lines, and its
/// notes with their stamps.
#[derive(Drop)]
pub struct Trace {
    pub head: Option<Settings>,
    pub choices: Listed<Choice>,
    pub lines: Listed<u64>,
    pub notes: Listed<(Stamp, Note)>,
}

/// What was read so far.
#[derive(Drop)]
struct Reading {
    head: Option<Settings>,
    choices: Vec<Choice>,
    lines: Vec<u64>,
    notes: Vec<(Stamp, Note)>,
}

/// Reads a text: what it says, or its first line outside the grammar. The text of a run whose
/// numbers are in their ranges is read as that run.
pub fn read_text(alloc: Global, text: &[u8]) -> Result<Trace, TextFault>
    ensures read { IfOk result (λ trace. IsRead text.now trace.head trace.choices trace.lines trace.notes) }
    ensures grammar { (line : ℕ) → result ≡ Err (TextFault.Grammar line) → IsFirstOutside text.now line }

    // Of a run's text.
    ensures written { (settings : Settings) (events : List (Event Note)) (quiet : Bool) → text.now ≡ text_of settings events quiet → AllInRange (items_of settings events quiet) →
        IfOk result (λ trace. IsWritten settings events trace.head trace.choices trace.notes) }
    ensures accepted { (settings : Settings) (events : List (Event Note)) (quiet : Bool) → text.now ≡ text_of settings events quiet → AllInRange (items_of settings events quiet) →
        (line : ℕ) → result ≡ Err (TextFault.Grammar line) → ⊥ }
{
    let mut reading = Reading {
        head: None,
        choices: Vec::new(alloc),
        lines: Vec::new(alloc),
        notes: Vec::new(alloc),
    };
    let mut buffer = Vec::new(alloc);
    let mut place = Place::First;
    let mut number = 0u64;
    let mut rest = text;
    while !rest.is_empty() {
        let (line, after) = split_line(rest);
        number += 1;
        let Some(item) = read_line(&mut buffer, place, line)? else {
            return Err(TextFault::Grammar { line: number });
        };
        reading.add(number, item)?;
        place = item.place_after();
        rest = after;
    }
    Ok(reading.trace())
}

/// The first line, and what follows it.
fn split_line(text: &[u8]) -> (&[u8], &[u8])
    requires { 0 < length text.now }
    ensures lines { lines_of text.now ≡ result.0.now ∷ lines_of result.1.now }
    ensures shorter { length result.1.now < length text.now }
{
    let (line, rest) = split(text, b'\n');
    (line, skip(rest))
}

/// The item that a line at a place is, with a buffer for its text: None where it is outside the
/// grammar.
fn read_line(buffer: &mut Vec<u8>, place: Place, line: &[u8]) -> Result<Option<Item>, NoMemory>
    ensures inside { IfOk result (λ found. IfSome found (λ item. IsLine place line.now item)) }
    ensures outside { result ≡ Ok None → IsOutside place line.now }
{
    let Some(item) = parse(line) else {
        return Ok(None);
    };
    if !item.may_stand(place) {
        return Ok(None);
    }
    if !is_in_range(item) {
        return Ok(None);
    }
    if is_text(buffer, &item, line)? {
        Ok(Some(item))
    } else {
        Ok(None)
    }
}

/// Whether the line is the item's text.
fn is_text(buffer: &mut Vec<u8>, item: &Item, line: &[u8]) -> Result<bool, NoMemory>
    ensures { IfOk result (λ same. same ≡ bytes_eq (item_text item.now) line.now) }
{
    buffer.clear();
    push_item(buffer, item)?;
    Ok(is(buffer.as_slice(), line))
}

impl Reading {
    /// Adds what a line says.
    fn add(&mut self, number: u64, item: Item) -> Result<(), NoMemory>
        requires { is_in_range item ≡ true }
        ensures head { OnOk result (option_map head_of self.new.head ≡ option_or (option_map head_of self.old.head) (head_in (item ∷ []))) }
        ensures choices { OnOk result (self.new.choices.items ≡ self.old.choices.items ++ choices_in (item ∷ [])) }
        ensures lines { OnOk result (self.new.lines.items ≡ self.old.lines.items ++ numbers_in number (item ∷ [])) }
        ensures notes { OnOk result (self.new.notes.items ≡ self.old.notes.items ++ notes_in (item ∷ [])) }
    {
        match item {
            Item::Head(head) => {
                if self.head.is_none() {
                    self.head = Some(settings_of(head));
                }
            }
            Item::Choice(choice) => {
                self.choices.push(choice)?;
                self.lines.push(number)?;
            }
            Item::Note(stamp, note) => self.notes.push((stamp, note))?,
            Item::End(_) => {}
        }
        Ok(())
    }

    /// All that was read.
    fn trace(self) -> Trace
        ensures head { result.head ≡ self.head }
        ensures choices { result.choices ≡ self.choices.items }
        ensures lines { result.lines ≡ self.lines.items }
        ensures notes { result.notes ≡ self.notes.items }
    {
        let Reading {
            head,
            choices,
            lines,
            notes,
        } = self;
        Trace {
            head,
            choices: Listed::of(choices),
            lines: Listed::of(lines),
            notes: Listed::of(notes),
        }
    }
}

/// The settings of a head.
fn settings_of(head: Head) -> Settings
    requires { is_head_line head ≡ true }
    ensures { head_of result ≡ head }
{
    Settings {
        nodes: head.nodes,
        frames: head.frames,
        sets: head.sets,
        ways: head.ways,
        tlb: head.tlb,
        instructions: head.instructions,
        trigger: head.trigger,
        sharing: head.sharing,
        moves: head.moves,
        reset: head.reset,
    }
}
