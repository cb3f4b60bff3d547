//! A run of an image, from its placing to its printed text.

ghost use Rattle.std.specs.Prelude.{◌≡◌, ◌≤◌, length};
ghost use Rattle.og_print.specs.Runs.{PlayEnds, by_draws};
ghost use Rattle.og_print.specs.Files.{GivenEnds};

use crate::RunFault;
use crate::place::place_machine;
use crate::text::print_run;
use og_base::{Choice, Settings};
use og_driver::{Unmade, replay, simulate};
use og_image::Image;
use og_io::Sink;
use og_load::ChoiceFault;
use std::alloc::Global;

/// Simulates the program of an image, with choices drawn from a number, for so many events at most.
pub(crate) fn play_drawn<K: Sink>(
    alloc: Global,
    image: &Image,
    settings: &Settings,
    number: u64,
    most: u32,
    out: &mut K,
) -> Result<bool, RunFault>
    requires { settings.now.nodes ≡ image.now.nodes }
    ensures { PlayEnds image.now settings.now (by_draws number most) (K.seen out.old) (K.seen out.new) result }
{
    let mut machine = place_machine(alloc, image, settings)?;
    let made = simulate(alloc, image, &mut machine, number, most)?;
    print_run(alloc, settings, &made, out)
}

/// Makes the choices on the program of an image. They stand in these lines.
pub(crate) fn play_given<K: Sink>(
    alloc: Global,
    image: &Image,
    settings: &Settings,
    choices: &[Choice],
    lines: &[u64],
    out: &mut K,
) -> Result<bool, RunFault>
    requires nodes { settings.now.nodes ≡ image.now.nodes }
    requires in_lines { length lines.now ≡ length choices.now }
    requires few { length choices.now ≤ 16777217 }
    ensures { GivenEnds image.now settings.now choices.now lines.now (K.seen out.old) (K.seen out.new) result }
{
    let mut machine = place_machine(alloc, image, settings)?;
    match replay(alloc, image, &mut machine, choices) {
        Ok(made) => print_run(alloc, settings, &made, out),
        Err(Unmade::Refused { at, cause }) => Err(RunFault::Choices(ChoiceFault::Refused {
            line: lines[at],
            cause,
        })),
        Err(Unmade::Memory) => Err(RunFault::Memory),
    }
}
