//! Simulations, replays and storms, as the command answers for them.

ghost use Rattle.std.specs.Prelude.{◌≡◌, ◌≤◌, ◌⊎◌};
ghost use Rattle.og_io.specs.Outside.{TellsLongFile};
ghost use Rattle.og_cli.specs.Runs.{run_exit, Simulates, Replays, Storms};

use crate::exit::{Exit, WordsFile};
use og_base::Settings;
use og_io::{Shelf, Sink};
use og_load::ImageFault;
use og_print::{RunFault, print_storm, replay_file, simulate_file};
use og_words::Given;
use std::alloc::Global;

/// The answer to how a run ended.
pub fn ended(run: Result<bool, RunFault>) -> Exit
    ensures { result ≡ run_exit run }
{
    match run {
        Ok(true) => Exit::Quiet,
        Ok(false) => Exit::Limit,
        Err(RunFault::Unread) => Exit::ShelfFault(WordsFile::First),
        Err(RunFault::ChoicesUnread) => Exit::ShelfFault(WordsFile::Choices),
        Err(RunFault::Image(fault)) => Exit::Image(fault),
        Err(RunFault::Choices(fault)) => Exit::Choices(fault),
        Err(RunFault::Memory) => Exit::Memory,
        Err(RunFault::Unwritten) => Exit::SinkFault,
    }
}

/// Simulates the program in the file of this name, with choices drawn from a number, for so many events at most.
pub(crate) fn simulate<F: Shelf, K: Sink>(
    alloc: Global,
    image: &str,
    raw: bool,
    settings: &Settings,
    draw: u64,
    events: u32,
    shelf: &mut F,
    out: &mut K,
) -> Exit
    ensures ends { Simulates raw image.now settings.now draw events (F.seen shelf.old) (F.seen shelf.new) (K.seen out.old) (K.seen out.new) result }
    ensures long { TellsLongFile (F.seen shelf.old).files image.now 67108864 → (result ≡ Exit.ShelfFault WordsFile.First) ⊎ (result ≡ Exit.Image ImageFault.TooLong) }
{
    ended(simulate_file(alloc, image, raw, settings, draw, events, shelf, out))
}

/// Makes the choices in the file `choices` on the program in the file `image`.
pub(crate) fn replay<F: Shelf, K: Sink>(
    alloc: Global,
    image: &str,
    choices: &str,
    raw: bool,
    settings: &Settings,
    given: &Given,
    shelf: &mut F,
    out: &mut K,
) -> Exit
    ensures ends { Replays raw image.now choices.now settings.now given.now (F.seen shelf.old) (F.seen shelf.new) (K.seen out.old) (K.seen out.new) result }
    ensures long { TellsLongFile (F.seen shelf.old).files image.now 67108864 → (result ≡ Exit.ShelfFault WordsFile.First) ⊎ (result ≡ Exit.Image ImageFault.TooLong) }
{
    ended(replay_file(alloc, image, choices, raw, settings, given, shelf, out))
}

/// Simulates the storm of a number, and tells it in one line.
pub(crate) fn storm<K: Sink>(
    alloc: Global,
    number: u64,
    settings: &Settings,
    loops: u16,
    events: u32,
    out: &mut K,
) -> Exit
    requires { (1 ≤ loops) × (loops ≤ 2047) }
    ensures { Storms number loops settings.now events (K.seen out.old) (K.seen out.new) result }
{
    ended(print_storm(alloc, number, settings, loops, events, out))
}
