//! The labels of a source.

ghost use Rattle.std.specs.Prelude.{◌≡◌, ℕ, ◌+◌, ◌<◌, ◌≤◌, List, [], ◌∷◌, length, IfOk, OnOk};
ghost use Rattle.std.specs.Option.{option_or};
ghost use Rattle.std.specs.Map.{lookup};
ghost use Rattle.std.specs.Str.{bytes_eq};
ghost use Rattle.rv_asm.specs.Source.{lines_of, places_of, size_of, with_label, place};
ghost use Rattle.rv_asm.specs.Seen.{some_line_seen, word_seen};
ghost use Rattle.rv_asm.specs.Found.{places_in};

use crate::NoMemory;
use crate::line::{Line, line_of};
use crate::text::split_line;
use std::alloc::Global;
use std::collections::BTreeMap;

/// Where a label stands: its line, from 1, and how many instructions stand before it.
#[derive(Clone, Copy, PartialEq, Eq, Debug)]
pub struct Place {
    pub line: u64,
    pub index: u64,
}

/// The labels with their first places.
pub(crate) type Labels<'a> = BTreeMap<&'a [u8], Place>;

/// The first place of a label.
pub(crate) fn place_of(labels: &Labels<'_>, name: &[u8]) -> Option<Place>
    ensures { result ≡ places_in labels.now name.now }
{
    labels.get(name).copied()
}

/// Adds a label, if it is new.
fn add_name<'a>(
    labels: &mut Labels<'a>,
    name: &'a [u8],
    line: u64,
    index: u64,
) -> Result<(), NoMemory>
    ensures { OnOk result ((q : List ℕ) → places_in labels.new q ≡ option_or (places_in labels.old q) (lookup (bytes_eq q) ((name.now, place line index) ∷ []))) }
{
    if labels.contains_key(name) {
        return Ok(());
    }
    labels.insert(name, Place { line, index })?;
    Ok(())
}

/// Adds a line's label.
fn add_label<'a>(
    labels: &mut Labels<'a>,
    line: &Option<Line<'a>>,
    number: u64,
    index: u64,
) -> Result<(), NoMemory>
    ensures { OnOk result ((q : List ℕ) → places_in labels.new q ≡ option_or (places_in labels.old q) (lookup (bytes_eq q) (with_label (some_line_seen line.now) number index []))) }
{
    let Some(line) = line else {
        return Ok(());
    };
    match line.label {
        None => Ok(()),
        Some(name) => add_name(labels, name, number, index),
    }
}

/// How many instructions a line has.
fn size_of(line: &Option<Line<'_>>) -> u64
    ensures value { result ≡ size_of (some_line_seen line.now) }
    ensures small { result ≤ 1 }
{
    match line {
        Some(
            Line {
                statement: Some(_),
                ..
            },
        ) => 1,
        _ => 0,
    }
}

/// The labels of a source.
pub(crate) fn find_labels(alloc: Global, text: &[u8]) -> Result<Labels<'_>, NoMemory>
    ensures { IfOk result (λ labels. (q : List ℕ) → places_in labels q ≡ places_of text.now q) }
{
    let mut labels = BTreeMap::new(alloc);
    let mut number = 0u64;
    let mut index = 0u64;
    let mut rest = text;
    while !rest.is_empty() {
        let (line, after) = split_line(rest);
        let line = line_of(line);
        number += 1;
        add_label(&mut labels, &line, number, index)?;
        index += size_of(&line);
        rest = after;
    }
    Ok(labels)
}
