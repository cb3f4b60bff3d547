//! A simulation of the program in a file.

ghost use Rattle.std.specs.Prelude.{◌≡◌, ◌⊎◌, Err};
ghost use Rattle.og_io.specs.Outside.{TellsLongFile};
ghost use Rattle.og_print.specs.Files.{SimulationEnds};

use crate::RunFault;
use crate::play::play_drawn;
use og_base::Settings;
use og_image::Image;
use og_io::{Shelf, Sink};
use og_load::{ImageFault, load_program};
use std::alloc::Global;

/// Simulates the program in the file of this name, with choices drawn from a number, for so many events at most; writes the text of the
/// run, and answers whether it ended quiet.
pub fn simulate_file<F: Shelf, K: Sink>(
    alloc: Global,
    name: &str,
    raw: bool,
    settings: &Settings,
    number: u64,
    most: u32,
    shelf: &mut F,
    out: &mut K,
) -> Result<bool, RunFault>
    ensures ends { SimulationEnds raw name.now settings.now number most (F.seen shelf.old) (F.seen shelf.new) (K.seen out.old) (K.seen out.new) result }
    ensures long { TellsLongFile (F.seen shelf.old).files name.now 67108864 → (result ≡ Err RunFault.Unread) ⊎ (result ≡ Err (RunFault.Image ImageFault.TooLong)) }
{
    let program = load_program(alloc, shelf, name, raw)?;
    let image = Image::make(alloc, program, settings.nodes)?;
    play_drawn(alloc, &image, settings, number, most, out)
}
