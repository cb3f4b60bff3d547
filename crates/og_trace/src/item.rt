//! What a line of a text is.

ghost use Rattle.std.specs.Prelude.{◌≡◌};
ghost use Rattle.og_trace.specs.Text.{head_of};
ghost use Rattle.og_trace.specs.Grammar.{may_stand, place_after};

use og_base::Settings;
use og_msg::Note;
use og_runs::{Choice, Stamp};

/// The numbers of a head: the settings of a run, which needn't be in their ranges.
#[derive(Clone, Copy, PartialEq, Eq, Debug)]
pub struct Head {
    pub nodes: u8,
    pub frames: u16,
    pub sets: u16,
    pub ways: u8,
    pub tlb: u8,
    pub instructions: u32,
    pub trigger: u32,
    pub sharing: u32,
    pub moves: u32,
    pub reset: u32,
}

/// The end of a text: whether the run ended quiet or at its limit, and how many events and how many
/// accesses it had.
#[derive(Clone, Copy, PartialEq, Eq, Debug)]
pub struct End {
    pub quiet: bool,
    pub events: u64,
    pub accesses: u64,
}

/// A line of a text.
#[derive(Clone, Copy, PartialEq, Eq, Debug)]
pub enum Item {
    Head(Head),
    Choice(Choice),
    Note(Stamp, Note),
    End(End),
}

/// Where in a text a line stands: first, after others, or after the end.
#[derive(Clone, Copy, PartialEq, Eq, Debug)]
pub enum Place {
    First,
    Middle,
    Ended,
}

/// The head of a run with these settings.
pub(crate) fn make_head(settings: &Settings) -> Head
    ensures { result ≡ head_of settings.now }
{
    Head {
        nodes: settings.nodes,
        frames: settings.frames,
        sets: settings.sets,
        ways: settings.ways,
        tlb: settings.tlb,
        instructions: settings.instructions,
        trigger: settings.trigger,
        sharing: settings.sharing,
        moves: settings.moves,
        reset: settings.reset,
    }
}

impl Item {
    ghost use Rattle.og_trace.specs.Grammar.{may_stand, place_after};

    /// Whether the line may stand at a place: a head only first, and nothing after an end.
    pub(crate) fn may_stand(&self, place: Place) -> bool
        ensures { result ≡ may_stand place self.now }
    {
        match place {
            Place::First => true,
            Place::Middle => match self {
                Item::Head(_) => false,
                Item::Choice(_) => true,
                Item::Note(_, _) => true,
                Item::End(_) => true,
            },
            Place::Ended => false,
        }
    }

    /// The place after the line.
    pub(crate) fn place_after(&self) -> Place
        ensures { result ≡ place_after self.now }
    {
        match self {
            Item::Head(_) => Place::Middle,
            Item::Choice(_) => Place::Middle,
            Item::Note(_, _) => Place::Middle,
            Item::End(_) => Place::Ended,
        }
    }
}
