//! The drain: which choice a machine makes next once all its harts have stopped.

ghost use Rattle.std.specs.Prelude.{◌≡◌, not};
ghost use Rattle.std.specs.List.{filter};
ghost use Rattle.og_flight.specs.Flight.{first_sent, sent_before, sooner_of};
ghost use Rattle.og_machine.specs.Machine.{Setup};
ghost use Rattle.og_machine.specs.Choices.{drain_of, is_poison_read};
ghost use Rattle.og_engine.specs.Kept.{machine_of, WasMade};

use crate::Machine;
use og_base::Choice;
use og_flight::Flight;
use og_msg::{Kind, Msg};

impl Machine {
    /// The next choice of a stopped machine: the take of the message that was sent first, but the mover's request for a block only
    /// where nothing else is in flight; then the mover's act, where it is enabled. It looks at all messages in flight.
    pub fn drain_next(&self) -> Option<Choice>
        requires made { WasMade self.now }
        ensures { (setup : Setup) → result ≡ drain_of setup (machine_of self.now) }
    {
        if let Some(message) = first_answer(self.choices.flight()) {
            return Some(Choice::Take(message.to, message.id));
        }
        if let Some(message) = self.choices.flight().least() {
            return Some(Choice::Take(message.to, message.id));
        }
        if self.mover.local.can_act() {
            return Some(Choice::Act(self.settings.nodes));
        }
        None
    }
}

/// Of the messages in flight that aren't the mover's request for a block, the one that was sent first.
fn first_answer(flight: &Flight<Kind>) -> Option<Msg>
    ensures { result ≡ first_sent (filter (λ m. not (is_poison_read m.kind)) flight.now.messages) }
{
    let mut least = None;
    let mut k = flight.len();
    while k > 0 {
        k -= 1;
        let message = flight.select(k);
        if is_answer(&message.kind) {
            least = sooner(message, least);
        }
    }
    least
}

/// Whether a message isn't the mover's request for a block.
fn is_answer(kind: &Kind) -> bool
    ensures { result ≡ not (is_poison_read kind.now) }
{
    !matches!(kind, Kind::PoisonRead { .. })
}

/// The one that was sent first.
fn sooner(message: Msg, other: Option<Msg>) -> Option<Msg>
    ensures { result ≡ sooner_of message other }
{
    match other {
        Some(second) => {
            if was_sent_before(&message, &second) {
                Some(message)
            } else {
                Some(second)
            }
        }
        None => Some(message),
    }
}

/// Whether the first message was sent before the second: by clock, then sender, then number.
fn was_sent_before(first: &Msg, second: &Msg) -> bool
    ensures { result ≡ sent_before first.now second.now }
{
    if first.stamp.clock != second.stamp.clock {
        return first.stamp.clock < second.stamp.clock;
    }
    if first.id.sender != second.id.sender {
        return first.id.sender < second.id.sender;
    }
    first.id.seq < second.id.seq
}
