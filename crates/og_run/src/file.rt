//! A run of the program in a file that begins in threads.

ghost use Rattle.std.specs.Prelude.{◌≡◌, ◌*◌, ◌+◌, ◌≤◌, ◌⊎◌, Err};
ghost use Rattle.og_io.specs.Outside.{TellsLongFile};
ghost use Rattle.og_print.specs.Runs.{PlayEnds};
ghost use Rattle.og_print.specs.Files.{FileEnds};
ghost use Rattle.og_run.specs.Threaded.{by_threads};

use og_actors::Gate;
use og_base::Settings;
use og_finish::finish_run;
use og_image::Image;
use og_io::{Shelf, Sink};
use og_load::{ImageFault, load_program};
use og_print::{RunFault, place_machine, print_run};
use og_threads::run_in_threads;
use std::alloc::Global;
use std::sync::Wait;
use std::thread::Threads;

/// Runs the program of an image in threads, in so many rounds of so many turns of each actor, finishes the run, and prints it.
fn play_threads<R: Threads + Wait + Sync, K: Sink, G: Gate + Sync>(
    rt: &R,
    alloc: Global,
    image: &Image,
    settings: &Settings,
    rounds: u32,
    turns: u32,
    gate: &G,
    out: &mut K,
) -> Result<bool, RunFault>
    requires nodes { settings.now.nodes ≡ image.now.nodes }
    requires turns { rounds * turns * (settings.now.nodes + 1) ≤ 4000000 }
    ensures { PlayEnds image.now settings.now (by_threads rounds turns) (K.seen out.old) (K.seen out.new) result }
{
    let mut machine = place_machine(alloc, image, settings)?;
    let begun = run_in_threads(rt, alloc, image, settings, gate, rounds, turns)?;
    let most = rounds * turns * (u32::from(settings.nodes) + 1);
    let run = finish_run(alloc, image, &mut machine, &begun.events, most)?;
    print_run(alloc, settings, &run, out)
}

/// Runs the program in the file of this name in threads; writes the text of the whole run, and answers whether it ended quiet.
pub(crate) fn run_file<R: Threads + Wait + Sync, F: Shelf, K: Sink, G: Gate + Sync>(
    rt: &R,
    alloc: Global,
    name: &str,
    raw: bool,
    settings: &Settings,
    rounds: u32,
    turns: u32,
    shelf: &mut F,
    out: &mut K,
    gate: &G,
) -> Result<bool, RunFault>
    requires turns { rounds * turns * (settings.now.nodes + 1) ≤ 4000000 }
    ensures ends { FileEnds raw name.now settings.now (by_threads rounds turns) (F.seen shelf.old) (F.seen shelf.new) (K.seen out.old) (K.seen out.new) result }
    ensures long { TellsLongFile (F.seen shelf.old).files name.now 67108864 → (result ≡ Err RunFault.Unread) ⊎ (result ≡ Err (RunFault.Image ImageFault.TooLong)) }
{
    let program = load_program(alloc, shelf, name, raw)?;
    let image = Image::make(alloc, program, settings.nodes)?;
    play_threads(rt, alloc, &image, settings, rounds, turns, gate, out)
}
