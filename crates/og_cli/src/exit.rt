//! How the command ends.

ghost use Rattle.std.specs.Prelude.{◌≡◌};

use og_load::{ChoiceFault, ImageFault};
use rv_asm::SourceCause;

/// Which file of the words.
#[derive(Clone, Copy, PartialEq, Eq, Debug)]
pub enum WordsFile {
    /// The one that is named first.
    First,
    /// The choices of a replay.
    Choices,
}

/// Why a source isn't assembled.
#[derive(Clone, Copy, PartialEq, Eq, Debug)]
pub enum SourceFault {
    /// The first line that isn't taken, from 1, and why.
    Line { number: u64, cause: SourceCause },
    /// A source of more than 16,777,216 bytes.
    TooLong,
}

/// How the command ends, in the order in which it meets these answers.
#[derive(Clone, Copy, PartialEq, Eq, Debug)]
pub enum Exit {
    /// The words aren't understood.
    Words,
    /// This file of the words couldn't be read.
    ShelfFault(WordsFile),
    /// The image is refused.
    Image(ImageFault),
    /// The choices are refused.
    Choices(ChoiceFault),
    /// The source is refused.
    Source(SourceFault),
    /// Want of memory.
    Memory,
    /// The text couldn't be written.
    SinkFault,
    /// The events or the choices were used up before the machine was quiet.
    Limit,
    /// What was asked for was written.
    Done,
    /// The run ended quiet.
    Quiet,
}

impl Exit {
    ghost use Rattle.og_cli.specs.Exit.{status_of};

    /// The status of the process.
    pub fn status(&self) -> u8
        ensures { result ≡ status_of self.now }
    {
        match self {
            Exit::Done | Exit::Quiet => 0,
            Exit::ShelfFault(_) => 1,
            Exit::Words => 2,
            Exit::Limit => 3,
            Exit::Image(_) => 4,
            Exit::Memory => 5,
            Exit::Choices(_) => 6,
            Exit::Source(_) => 12,
            Exit::SinkFault => 14,
        }
    }
}
