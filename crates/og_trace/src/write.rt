//! Writing: words, lines, and the text of a run.
//!
//! The writer adds to one vector and takes no other memory. After want of memory the text is dropped.

ghost use Rattle.std.specs.Prelude.{◌≡◌, [], ◌<◌, ◌≤◌, ◌*◌, ◌/◌, ◌^◌, ◌%◌, ◌∷◌, ◌++◌, Some, OnOk, IfOk, decimal, codes};
ghost use Rattle.og_trace.specs.Text.{hex, hex_digit, hex_digits, page_word, frame_word, spaced, op_word, cause_word, reason_word, access_words, note_words, head_words, choice_words, end_word, item_text, items_text, with_note, with_events, end_of, items_of, text_of, access_count, is_access, head_of};

use crate::item::{End, Head, Item, make_head};
use itoa::Buffer;
use og_base::{Cause, Frame, NoMemory, NodeId, Reason, Settings, VPage};
use og_line::{Access, AtomicOp};
use og_msg::{Event, Note};
use og_runs::{Choice, Stamp};
use std::alloc::Global;

/// A blank and a word.
fn push_word(text: &mut Vec<u8>, word: &[u8]) -> Result<(), NoMemory>
    ensures { OnOk result (text.new.items ≡ text.old.items ++ 32 ∷ word.now) }
{
    text.push(b' ')?;
    text.extend_from_slice(word)
}

/// A blank and a decimal number.
fn push_decimal(text: &mut Vec<u8>, number: u64) -> Result<(), NoMemory>
    ensures { OnOk result (text.new.items ≡ text.old.items ++ 32 ∷ decimal number) }
{
    let mut buffer = Buffer::new();
    push_word(text, buffer.format(number).as_bytes())
}

/// The hexadecimal digit at this place, 0 for the lowest.
fn hex_digit_of(number: u64, place: u32) -> u8
    requires { place < 16 }
    ensures { result ≡ hex_digit (number / 2 ^ (4 * place) % 16) }
{
    let digit = (number >> (4 * place)) % 16;
    if digit < 10 {
        b'0' + digit as u8
    } else {
        b'a' + (digit - 10) as u8
    }
}

/// The lowest hexadecimal digits, so many of them, the highest first.
fn push_digits(text: &mut Vec<u8>, number: u64, count: u32) -> Result<(), NoMemory>
    requires { count ≤ 16 }
    ensures { OnOk result (text.new.items ≡ text.old.items ++ hex_digits count number) }
{
    let mut left = count;
    while left > 0 {
        left -= 1;
        text.push(hex_digit_of(number, left))?;
    }
    Ok(())
}

/// A blank and 16 hexadecimal digits.
fn push_hex(text: &mut Vec<u8>, number: u64) -> Result<(), NoMemory>
    ensures { OnOk result (text.new.items ≡ text.old.items ++ 32 ∷ hex number) }
{
    text.push(b' ')?;
    push_digits(text, number, 16)
}

/// A page, as its address.
fn push_page(text: &mut Vec<u8>, page: VPage) -> Result<(), NoMemory>
    ensures { OnOk result (text.new.items ≡ text.old.items ++ 32 ∷ page_word page.0) }
{
    push_hex(text, page.0.wrapping_mul(4096))
}

fn push_frame(text: &mut Vec<u8>, frame: Frame) -> Result<(), NoMemory>
    ensures { OnOk result (text.new.items ≡ text.old.items ++ 32 ∷ frame_word frame) }
{
    push_decimal(text, u64::from(frame.home))?;
    text.push(b'.')?;
    let mut buffer = Buffer::new();
    text.extend_from_slice(buffer.format(frame.index).as_bytes())
}

fn op_text(op: AtomicOp) -> &'static [u8]
    ensures { result.now ≡ op_word op }
{
    match op {
        AtomicOp::Swap => b"swap",
        AtomicOp::Add => b"add",
        AtomicOp::Xor => b"xor",
        AtomicOp::And => b"and",
        AtomicOp::Or => b"or",
        AtomicOp::Min => b"min",
        AtomicOp::Max => b"max",
        AtomicOp::Minu => b"minu",
        AtomicOp::Maxu => b"maxu",
    }
}

fn cause_text(cause: Cause) -> &'static [u8]
    ensures { result.now ≡ cause_word cause }
{
    match cause {
        Cause::Illegal => b"illegal",
        Cause::Fetch => b"fetch",
        Cause::Misaligned => b"misaligned",
        Cause::Unmapped => b"unmapped",
        Cause::Call => b"call",
        Cause::Break => b"break",
        Cause::Exit(_) => b"exit",
        Cause::Spent => b"spent",
    }
}

fn reason_text(reason: Reason) -> &'static [u8]
    ensures { result.now ≡ reason_word reason }
{
    match reason {
        Reason::Busy => b"busy",
        Reason::Shared => b"shared",
        Reason::Worn => b"worn",
        Reason::Full => b"full",
    }
}

/// The word of an access, its address and its width.
fn push_place(text: &mut Vec<u8>, word: &[u8], addr: u64, width: u8) -> Result<(), NoMemory>
    ensures { OnOk result (text.new.items ≡ text.old.items ++ spaced (word.now ∷ hex addr ∷ decimal width ∷ [])) }
{
    push_word(text, word)?;
    push_hex(text, addr)?;
    push_decimal(text, u64::from(width))
}

fn push_answer(text: &mut Vec<u8>, answer: u64) -> Result<(), NoMemory>
    ensures { OnOk result (text.new.items ≡ text.old.items ++ spaced (codes "=" ∷ hex answer ∷ [])) }
{
    push_word(text, b"=")?;
    push_hex(text, answer)
}

fn push_access(text: &mut Vec<u8>, access: &Access, answer: u64) -> Result<(), NoMemory>
    ensures { OnOk result (text.new.items ≡ text.old.items ++ spaced (access_words access.now answer)) }
{
    match *access {
        Access::Load { addr, width } => {
            push_place(text, b"load", addr, width)?;
            push_answer(text, answer)
        }
        Access::Store { addr, width, value } => {
            push_place(text, b"store", addr, width)?;
            push_hex(text, value)
        }
        Access::Reserve { addr, width } => {
            push_place(text, b"lr", addr, width)?;
            push_answer(text, answer)
        }
        Access::Conditional { addr, width, value } => {
            push_place(text, b"sc", addr, width)?;
            push_hex(text, value)?;
            push_answer(text, answer)
        }
        Access::Atomic {
            op,
            addr,
            width,
            value,
        } => {
            push_place(text, op_text(op), addr, width)?;
            push_hex(text, value)?;
            push_answer(text, answer)
        }
    }
}

/// A move of a page, begun or made.
fn push_move(
    text: &mut Vec<u8>,
    word: &[u8],
    page: VPage,
    old: Frame,
    new: Frame,
) -> Result<(), NoMemory>
    ensures { OnOk result (text.new.items ≡ text.old.items ++ spaced (word.now ∷ page_word page.0 ∷ frame_word old ∷ frame_word new ∷ [])) }
{
    push_word(text, word)?;
    push_page(text, page)?;
    push_frame(text, old)?;
    push_frame(text, new)
}

fn push_refusal(
    text: &mut Vec<u8>,
    reason: Reason,
    frame: Frame,
    node: NodeId,
) -> Result<(), NoMemory>
    ensures { OnOk result (text.new.items ≡ text.old.items ++ spaced (codes "no" ∷ reason_word reason ∷ frame_word frame ∷ decimal node ∷ [])) }
{
    push_word(text, b"no")?;
    push_word(text, reason_text(reason))?;
    push_frame(text, frame)?;
    push_decimal(text, u64::from(node))
}

/// A word and a value.
fn push_value(text: &mut Vec<u8>, word: &[u8], value: u64) -> Result<(), NoMemory>
    ensures { OnOk result (text.new.items ≡ text.old.items ++ spaced (word.now ∷ hex value ∷ [])) }
{
    push_word(text, word)?;
    push_hex(text, value)
}

fn push_trap(text: &mut Vec<u8>, cause: Cause, pc: u64) -> Result<(), NoMemory>
    ensures { OnOk result (text.new.items ≡ text.old.items ++ spaced (codes "trap" ∷ cause_word cause ∷ hex pc ∷ [])) }
{
    push_word(text, b"trap")?;
    push_word(text, cause_text(cause))?;
    push_hex(text, pc)
}

fn push_freed(text: &mut Vec<u8>, frame: Frame) -> Result<(), NoMemory>
    ensures { OnOk result (text.new.items ≡ text.old.items ++ spaced (codes "free" ∷ frame_word frame ∷ [])) }
{
    push_word(text, b"free")?;
    push_frame(text, frame)
}

fn push_note(text: &mut Vec<u8>, note: &Note) -> Result<(), NoMemory>
    ensures { OnOk result (text.new.items ≡ text.old.items ++ spaced (note_words note.now)) }
{
    match *note {
        Note::Access { access, answer } => push_access(text, &access, answer),
        Note::Emit(value) => push_value(text, b"emit", value),
        Note::Exit(value) => push_value(text, b"exit", value),
        Note::Spent => push_word(text, b"spent"),
        Note::Trap { cause, pc } => push_trap(text, cause, pc),
        Note::Begin { page, old, new } => push_move(text, b"begin", page, old, new),
        Note::Moved { page, old, new } => push_move(text, b"move", page, old, new),
        Note::Freed(frame) => push_freed(text, frame),
        Note::No {
            reason,
            frame,
            node,
        } => push_refusal(text, reason, frame, node),
    }
}

#[tactic(auto, unfolding(crate::specs::Text::item_text))]
fn push_choice(text: &mut Vec<u8>, choice: Choice) -> Result<(), NoMemory>
    ensures { OnOk result (text.new.items ≡ text.old.items ++ item_text (Item.Choice choice)) }
{
    match choice {
        Choice::Act(actor) => {
            text.extend_from_slice(b"act")?;
            push_decimal(text, u64::from(actor))
        }
        Choice::Take(actor, id) => {
            text.extend_from_slice(b"take")?;
            push_decimal(text, u64::from(actor))?;
            push_decimal(text, u64::from(id.sender))?;
            push_decimal(text, id.seq)
        }
    }
}

#[tactic(auto, unfolding(crate::specs::Text::item_text))]
fn push_stamped(text: &mut Vec<u8>, stamp: Stamp, note: &Note) -> Result<(), NoMemory>
    ensures { OnOk result (text.new.items ≡ text.old.items ++ item_text (Item.Note stamp note.now)) }
{
    text.extend_from_slice(b"at")?;
    push_decimal(text, stamp.clock)?;
    push_decimal(text, u64::from(stamp.actor))?;
    push_note(text, note)
}

#[tactic(auto, unfolding(crate::specs::Text::item_text))]
fn push_head(text: &mut Vec<u8>, head: &Head) -> Result<(), NoMemory>
    ensures { OnOk result (text.new.items ≡ text.old.items ++ item_text (Item.Head head.now)) }
{
    text.extend_from_slice(b"origin")?;
    push_word(text, b"2")?;
    push_machine(text, head)?;
    push_policy(text, head)
}

fn push_machine(text: &mut Vec<u8>, head: &Head) -> Result<(), NoMemory>
    ensures { OnOk result (text.new.items ≡ text.old.items ++ spaced (decimal head.now.nodes ∷ decimal head.now.frames ∷ decimal head.now.sets ∷ decimal head.now.ways ∷ decimal head.now.tlb ∷ [])) }
{
    push_decimal(text, u64::from(head.nodes))?;
    push_decimal(text, u64::from(head.frames))?;
    push_decimal(text, u64::from(head.sets))?;
    push_decimal(text, u64::from(head.ways))?;
    push_decimal(text, u64::from(head.tlb))
}

fn push_policy(text: &mut Vec<u8>, head: &Head) -> Result<(), NoMemory>
    ensures { OnOk result (text.new.items ≡ text.old.items ++ spaced (decimal head.now.instructions ∷ decimal head.now.trigger ∷ decimal head.now.sharing ∷ decimal head.now.moves ∷ decimal head.now.reset ∷ [])) }
{
    push_decimal(text, u64::from(head.instructions))?;
    push_decimal(text, u64::from(head.trigger))?;
    push_decimal(text, u64::from(head.sharing))?;
    push_decimal(text, u64::from(head.moves))?;
    push_decimal(text, u64::from(head.reset))
}

#[tactic(auto, unfolding(crate::specs::Text::item_text))]
fn push_end(text: &mut Vec<u8>, end: End) -> Result<(), NoMemory>
    ensures { OnOk result (text.new.items ≡ text.old.items ++ item_text (Item.End end)) }
{
    text.extend_from_slice(if end.quiet { b"quiet" } else { b"limit" })?;
    push_decimal(text, end.events)?;
    push_decimal(text, end.accesses)
}

/// Adds a line without its line feed.
pub(crate) fn push_item(text: &mut Vec<u8>, item: &Item) -> Result<(), NoMemory>
    ensures { OnOk result (text.new.items ≡ text.old.items ++ item_text item.now) }
{
    match item {
        Item::Head(head) => push_head(text, head),
        Item::Choice(choice) => push_choice(text, *choice),
        Item::Note(stamp, note) => push_stamped(text, *stamp, note),
        Item::End(end) => push_end(text, *end),
    }
}

/// A line with its line feed.
fn push_line(text: &mut Vec<u8>, item: &Item) -> Result<(), NoMemory>
    ensures { OnOk result (text.new.items ≡ text.old.items ++ (item_text item.now ++ 10 ∷ [])) }
{
    push_item(text, item)?;
    text.push(b'\n')?;
    Ok(())
}

fn push_event(text: &mut Vec<u8>, event: &Event) -> Result<(), NoMemory>
    ensures { OnOk result (text.new.items ≡ text.old.items ++ items_text (Item.Choice event.now.choice ∷ with_note event.now.stamp event.now.note [])) }
{
    push_line(text, &Item::Choice(event.choice))?;
    match event.note {
        Some(note) => push_line(text, &Item::Note(event.stamp, note)),
        None => Ok(()),
    }
}

fn is_access_note(note: &Option<Note>) -> bool
    ensures { result ≡ is_access note.now }
{
    matches!(note, Some(Note::Access { .. }))
}

/// How many of the events completed an access.
pub fn count_accesses(events: &[Event]) -> usize
    ensures { result ≡ access_count events.now }
{
    let mut count = 0usize;
    for event in events {
        if is_access_note(&event.note) {
            count += 1;
        }
    }
    count
}

/// The text of a run with these settings and events, which ended quiet or at its limit: a head, for
/// each event the line of its choice and of its note if it has one, and an end.
pub fn write_text(
    alloc: Global,
    settings: &Settings,
    events: &[Event],
    quiet: bool,
) -> Result<Vec<u8>, NoMemory>
    ensures { IfOk result (λ text. text.items ≡ text_of settings.now events.now quiet) }
{
    let mut text = Vec::new(alloc);
    push_line(&mut text, &Item::Head(make_head(settings)))?;
    for event in events {
        push_event(&mut text, event)?;
    }
    let end = End {
        quiet,
        events: events.len() as u64,
        accesses: count_accesses(events) as u64,
    };
    push_line(&mut text, &Item::End(end))?;
    Ok(text)
}
