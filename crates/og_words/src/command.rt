//! Commands, and which options each has.

ghost use Rattle.std.specs.Prelude.{◌≡◌};
ghost use Rattle.og_words.specs.Words.{command_of as command_named, option_of as option_with_name, has_option as may_have, has_raw as may_be_raw};

/// What the program is to do.
#[derive(Clone, Copy, PartialEq, Eq, Debug)]
pub enum Command {
    Simulate,
    Run,
    Replay,
    Storm,
    Assemble,
    Disassemble,
}

/// An option that takes a value, by its name.
#[derive(Clone, Copy, PartialEq, Eq, Debug)]
pub enum Named {
    Nodes,
    Frames,
    Sets,
    Ways,
    Tlb,
    Instructions,
    Trigger,
    Sharing,
    Moves,
    Reset,
    Draw,
    Events,
    Loops,
    Rounds,
    Turns,
}

/// The command of this name.
pub(crate) fn command_of(word: &str) -> Option<Command>
    ensures { result ≡ command_named word.now }
{
    if word == "simulate" {
        Some(Command::Simulate)
    } else if word == "run" {
        Some(Command::Run)
    } else if word == "replay" {
        Some(Command::Replay)
    } else if word == "storm" {
        Some(Command::Storm)
    } else if word == "assemble" {
        Some(Command::Assemble)
    } else if word == "disassemble" {
        Some(Command::Disassemble)
    } else {
        None
    }
}

/// The option that takes a value and has this name.
pub(crate) fn option_of(word: &str) -> Option<Named>
    ensures { result ≡ option_with_name word.now }
{
    if word == "--nodes" {
        Some(Named::Nodes)
    } else if word == "--frames" {
        Some(Named::Frames)
    } else if word == "--sets" {
        Some(Named::Sets)
    } else if word == "--ways" {
        Some(Named::Ways)
    } else if word == "--tlb" {
        Some(Named::Tlb)
    } else if word == "--instructions" {
        Some(Named::Instructions)
    } else if word == "--trigger" {
        Some(Named::Trigger)
    } else if word == "--sharing" {
        Some(Named::Sharing)
    } else if word == "--moves" {
        Some(Named::Moves)
    } else if word == "--reset" {
        Some(Named::Reset)
    } else if word == "--draw" {
        Some(Named::Draw)
    } else if word == "--events" {
        Some(Named::Events)
    } else if word == "--loops" {
        Some(Named::Loops)
    } else if word == "--rounds" {
        Some(Named::Rounds)
    } else if word == "--turns" {
        Some(Named::Turns)
    } else {
        None
    }
}

impl Command {
    /// Whether the command has this option.
    pub(crate) fn has_option(self, option: Named) -> bool
        ensures { result ≡ may_have self option }
    {
        match option {
            Named::Draw => matches!(self, Command::Simulate),
            Named::Events => matches!(self, Command::Simulate | Command::Storm),
            Named::Loops => matches!(self, Command::Storm),
            Named::Rounds | Named::Turns => matches!(self, Command::Run),
            _ => !matches!(self, Command::Assemble | Command::Disassemble),
        }
    }

    /// Whether the command may have `--raw`.
    pub(crate) fn has_raw(self) -> bool
        ensures { result ≡ may_be_raw self }
    {
        matches!(self, Command::Simulate | Command::Run | Command::Replay)
    }
}
