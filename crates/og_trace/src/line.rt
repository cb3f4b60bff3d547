//! What a line says, if it is a line of a text.

ghost use Rattle.std.specs.Prelude.{◌≡◌};
ghost use Rattle.std.specs.Option.{option_map};
ghost use Rattle.og_trace.specs.Reader.{op_of, cause_of, reason_of, access_in, hart_in, mover_in, note_in, load_in, store_in, reserve_in, conditional_in, atomic_in, head_from, item_in, item_of, take_in, end_in, stamp_in, after_word, word_in, hex_in, frame_in, byte_in};

use crate::item::{End, Head, Item};
use crate::word::{byte, decimal, frame, hex, int, is, page, short, skip_word, split, word};
use og_base::{Cause, Reason};
use og_line::{Access, AtomicOp};
use og_msg::Note;
use og_runs::{Choice, MsgId, Stamp};

/// What the line says.
pub(crate) fn parse(line: &[u8]) -> Option<Item>
    ensures { result ≡ item_of line.now }
{
    let (first, rest) = split(line, b' ');
    parse_item(first, rest)
}

/// What a line says with this first word.
#[tactic(auto, unfolding(crate::specs::Reader::item_in))]
fn parse_item(first: &[u8], rest: &[u8]) -> Option<Item>
    ensures { result ≡ item_in first.now rest.now }
{
    if is(first, b"act") {
        return Some(Item::Choice(Choice::Act(byte(rest).0)));
    }
    if is(first, b"take") {
        return Some(Item::Choice(parse_take(rest)));
    }
    if is(first, b"at") {
        return parse_stamped(rest);
    }
    if is(first, b"quiet") {
        return Some(Item::End(parse_end(true, rest)));
    }
    if is(first, b"limit") {
        return Some(Item::End(parse_end(false, rest)));
    }
    if is(first, b"origin") {
        return Some(Item::Head(parse_head(skip_word(rest))));
    }
    None
}

fn parse_take(rest: &[u8]) -> Choice
    ensures { result ≡ take_in rest.now }
{
    let (actor, rest) = byte(rest);
    let (sender, rest) = byte(rest);
    let (seq, _) = decimal(rest);
    Choice::Take(actor, MsgId { sender, seq })
}

fn parse_end(quiet: bool, rest: &[u8]) -> End
    ensures { result ≡ end_in quiet rest.now }
{
    let (events, rest) = decimal(rest);
    let (accesses, _) = decimal(rest);
    End {
        quiet,
        events,
        accesses,
    }
}

fn parse_head(rest: &[u8]) -> Head
    ensures { result ≡ head_from rest.now }
{
    let (nodes, rest) = byte(rest);
    let (frames, rest) = short(rest);
    let (sets, rest) = short(rest);
    let (ways, rest) = byte(rest);
    let (tlb, rest) = byte(rest);
    let (instructions, rest) = int(rest);
    let (trigger, rest) = int(rest);
    let (sharing, rest) = int(rest);
    let (moves, rest) = int(rest);
    let (reset, _) = int(rest);
    Head {
        nodes,
        frames,
        sets,
        ways,
        tlb,
        instructions,
        trigger,
        sharing,
        moves,
        reset,
    }
}

/// A note with its stamp.
fn parse_stamped(rest: &[u8]) -> Option<Item>
    ensures { result ≡ option_map (λ note. Item.Note (stamp_in rest.now) note) (note_in (after_word (after_word rest.now))) }
{
    let (clock, rest) = decimal(rest);
    let (actor, rest) = byte(rest);
    let note = parse_note(rest)?;
    Some(Item::Note(Stamp { clock, actor }, note))
}

fn parse_note(rest: &[u8]) -> Option<Note>
    ensures { result ≡ note_in rest.now }
{
    let (kind, rest) = word(rest);
    if let Some(note) = parse_access(kind, rest) {
        return Some(note);
    }
    if let Some(note) = parse_hart(kind, rest) {
        return Some(note);
    }
    parse_mover(kind, rest)
}

/// The note of an access.
#[tactic(auto, unfolding(crate::specs::Reader::access_in))]
fn parse_access(kind: &[u8], rest: &[u8]) -> Option<Note>
    ensures { result ≡ access_in kind.now rest.now }
{
    if is(kind, b"load") {
        return Some(parse_load(rest));
    }
    if is(kind, b"store") {
        return Some(parse_store(rest));
    }
    if is(kind, b"lr") {
        return Some(parse_reserve(rest));
    }
    if is(kind, b"sc") {
        return Some(parse_conditional(rest));
    }
    let op = parse_op(kind)?;
    Some(parse_atomic(op, rest))
}

fn parse_load(rest: &[u8]) -> Note
    ensures { result ≡ load_in rest.now }
{
    let (addr, rest) = hex(rest);
    let (width, rest) = byte(rest);
    let (answer, _) = hex(skip_word(rest));
    let access = Access::Load { addr, width };
    Note::Access { access, answer }
}

fn parse_store(rest: &[u8]) -> Note
    ensures { result ≡ store_in rest.now }
{
    let (addr, rest) = hex(rest);
    let (width, rest) = byte(rest);
    let (value, _) = hex(rest);
    let access = Access::Store { addr, width, value };
    Note::Access { access, answer: 0 }
}

fn parse_reserve(rest: &[u8]) -> Note
    ensures { result ≡ reserve_in rest.now }
{
    let (addr, rest) = hex(rest);
    let (width, rest) = byte(rest);
    let (answer, _) = hex(skip_word(rest));
    let access = Access::Reserve { addr, width };
    Note::Access { access, answer }
}

fn parse_conditional(rest: &[u8]) -> Note
    ensures { result ≡ conditional_in rest.now }
{
    let (addr, rest) = hex(rest);
    let (width, rest) = byte(rest);
    let (value, rest) = hex(rest);
    let (answer, _) = hex(skip_word(rest));
    let access = Access::Conditional { addr, width, value };
    Note::Access { access, answer }
}

fn parse_atomic(op: AtomicOp, rest: &[u8]) -> Note
    ensures { result ≡ atomic_in op rest.now }
{
    let (addr, rest) = hex(rest);
    let (width, rest) = byte(rest);
    let (value, rest) = hex(rest);
    let (answer, _) = hex(skip_word(rest));
    let access = Access::Atomic {
        op,
        addr,
        width,
        value,
    };
    Note::Access { access, answer }
}

#[tactic(auto, unfolding(crate::specs::Reader::op_of))]
fn parse_op(word: &[u8]) -> Option<AtomicOp>
    ensures { result ≡ op_of word.now }
{
    if is(word, b"add") {
        return Some(AtomicOp::Add);
    }
    if is(word, b"swap") {
        return Some(AtomicOp::Swap);
    }
    if is(word, b"xor") {
        return Some(AtomicOp::Xor);
    }
    if is(word, b"and") {
        return Some(AtomicOp::And);
    }
    if is(word, b"or") {
        return Some(AtomicOp::Or);
    }
    if is(word, b"min") {
        return Some(AtomicOp::Min);
    }
    if is(word, b"max") {
        return Some(AtomicOp::Max);
    }
    if is(word, b"minu") {
        return Some(AtomicOp::Minu);
    }
    if is(word, b"maxu") {
        return Some(AtomicOp::Maxu);
    }
    None
}

/// A note of a hart.
#[tactic(auto, unfolding(crate::specs::Reader::hart_in))]
fn parse_hart(kind: &[u8], rest: &[u8]) -> Option<Note>
    ensures { result ≡ hart_in kind.now rest.now }
{
    if is(kind, b"emit") {
        return Some(Note::Emit(hex(rest).0));
    }
    if is(kind, b"exit") {
        return Some(Note::Exit(hex(rest).0));
    }
    if is(kind, b"spent") {
        return Some(Note::Spent);
    }
    if is(kind, b"trap") {
        return parse_trap(rest);
    }
    None
}

fn parse_trap(rest: &[u8]) -> Option<Note>
    ensures { result ≡ option_map (λ cause. Note.Trap cause (hex_in (after_word rest.now))) (cause_of (word_in rest.now)) }
{
    let (name, rest) = word(rest);
    let cause = parse_cause(name)?;
    let (pc, _) = hex(rest);
    Some(Note::Trap { cause, pc })
}

#[tactic(auto, unfolding(crate::specs::Reader::cause_of))]
fn parse_cause(word: &[u8]) -> Option<Cause>
    ensures { result ≡ cause_of word.now }
{
    if is(word, b"illegal") {
        return Some(Cause::Illegal);
    }
    if is(word, b"fetch") {
        return Some(Cause::Fetch);
    }
    if is(word, b"misaligned") {
        return Some(Cause::Misaligned);
    }
    if is(word, b"unmapped") {
        return Some(Cause::Unmapped);
    }
    if is(word, b"call") {
        return Some(Cause::Call);
    }
    if is(word, b"break") {
        return Some(Cause::Break);
    }
    None
}

/// A note of the mover.
#[tactic(auto, unfolding(crate::specs::Reader::mover_in))]
fn parse_mover(kind: &[u8], rest: &[u8]) -> Option<Note>
    ensures { result ≡ mover_in kind.now rest.now }
{
    if is(kind, b"begin") {
        let (page, rest) = page(rest);
        let (old, rest) = frame(rest);
        let (new, _) = frame(rest);
        return Some(Note::Begin { page, old, new });
    }
    if is(kind, b"move") {
        let (page, rest) = page(rest);
        let (old, rest) = frame(rest);
        let (new, _) = frame(rest);
        return Some(Note::Moved { page, old, new });
    }
    if is(kind, b"free") {
        return Some(Note::Freed(frame(rest).0));
    }
    if is(kind, b"no") {
        return parse_refusal(rest);
    }
    None
}

fn parse_refusal(rest: &[u8]) -> Option<Note>
    ensures { result ≡ option_map (λ reason. Note.No reason (frame_in (after_word rest.now)) (byte_in (after_word (after_word rest.now)))) (reason_of (word_in rest.now)) }
{
    let (name, rest) = word(rest);
    let reason = parse_reason(name)?;
    let (frame, rest) = frame(rest);
    let (node, _) = byte(rest);
    Some(Note::No {
        reason,
        frame,
        node,
    })
}

#[tactic(auto, unfolding(crate::specs::Reader::reason_of))]
fn parse_reason(word: &[u8]) -> Option<Reason>
    ensures { result ≡ reason_of word.now }
{
    if is(word, b"busy") {
        return Some(Reason::Busy);
    }
    if is(word, b"shared") {
        return Some(Reason::Shared);
    }
    if is(word, b"worn") {
        return Some(Reason::Worn);
    }
    if is(word, b"full") {
        return Some(Reason::Full);
    }
    None
}
