//! The ranges of the numbers of a line.

ghost use Rattle.std.specs.Prelude.{◌≡◌};
ghost use Rattle.og_trace.specs.Grammar.{is_actor, is_width, is_frame, is_page, is_trap, is_access_line, is_note_line, is_choice_line, is_machine_line, is_policy_line, is_head_line, is_end_line, is_in_range};

use crate::item::{End, Head, Item};
use og_base::{ActorId, Cause, Frame, VPage};
use og_line::Access;
use og_msg::Note;
use og_runs::Choice;

const MOST_ACTOR: u8 = 128;

fn is_actor(actor: ActorId) -> bool
    ensures { result ≡ is_actor actor }
{
    actor <= MOST_ACTOR
}

fn is_width(width: u8) -> bool
    ensures { result ≡ is_width width }
{
    width == 1 || width == 2 || width == 4 || width == 8
}

fn is_page(page: VPage) -> bool
    ensures { result ≡ is_page page.0 }
{
    page.0 < 1 << 52
}

fn is_frame(_frame: Frame) -> bool
    ensures { result ≡ is_frame _frame }
{
    true
}

fn is_trap(cause: Cause) -> bool
    ensures { result ≡ is_trap cause }
{
    match cause {
        Cause::Exit(_) | Cause::Spent => false,
        Cause::Illegal
        | Cause::Fetch
        | Cause::Misaligned
        | Cause::Unmapped
        | Cause::Call
        | Cause::Break => true,
    }
}

fn is_access(access: Access, answer: u64) -> bool
    ensures { result ≡ is_access_line access answer }
{
    match access {
        Access::Load { addr: _, width } => is_width(width),
        Access::Store {
            addr: _,
            width,
            value: _,
        } => is_width(width) && answer == 0,
        Access::Reserve { addr: _, width } => is_width(width),
        Access::Conditional {
            addr: _,
            width,
            value: _,
        } => is_width(width),
        Access::Atomic {
            op: _,
            addr: _,
            width,
            value: _,
        } => is_width(width),
    }
}

fn is_note(note: Note) -> bool
    ensures { result ≡ is_note_line note }
{
    match note {
        Note::Access { access, answer } => is_access(access, answer),
        Note::Emit(_) | Note::Exit(_) | Note::Spent => true,
        Note::Trap { cause, pc: _ } => is_trap(cause),
        Note::Begin { page, old, new } => is_page(page) && is_frame(old) && is_frame(new),
        Note::Moved { page, old, new } => is_page(page) && is_frame(old) && is_frame(new),
        Note::Freed(frame) => is_frame(frame),
        Note::No {
            reason: _,
            frame,
            node,
        } => is_frame(frame) && is_actor(node),
    }
}

fn is_choice(choice: Choice) -> bool
    ensures { result ≡ is_choice_line choice }
{
    match choice {
        Choice::Act(actor) => is_actor(actor),
        Choice::Take(actor, id) => is_actor(actor) && is_actor(id.sender),
    }
}

fn is_machine(head: Head) -> bool
    ensures { result ≡ is_machine_line head }
{
    (1..=128).contains(&head.nodes)
        && (2..=1024).contains(&head.frames)
        && u32::from(head.nodes) * u32::from(head.frames) <= 16_384
        && (1..=1024).contains(&head.sets)
        && (1..=8).contains(&head.ways)
        && (1..=64).contains(&head.tlb)
}

fn is_policy(head: Head) -> bool
    ensures { result ≡ is_policy_line head }
{
    head.instructions <= 1_000_000
        && (1..=1_000_000).contains(&head.trigger)
        && (1..=1_000_000).contains(&head.sharing)
        && head.moves <= 1_000_000
        && (1..=1_000_000).contains(&head.reset)
}

fn is_head(head: Head) -> bool
    ensures { result ≡ is_head_line head }
{
    is_machine(head) && is_policy(head)
}

/// Whether the numbers of a line are in their ranges.
#[tactic(auto, unfolding(crate::specs::Grammar::is_in_range))]
pub(crate) fn is_in_range(item: Item) -> bool
    ensures { result ≡ is_in_range item }
{
    match item {
        Item::Head(head) => is_head(head),
        Item::Choice(choice) => is_choice(choice),
        Item::Note(stamp, note) => is_actor(stamp.actor) && is_note(note),
        Item::End(_) => true,
    }
}
