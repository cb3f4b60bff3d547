//! A replay of the choices in a file.

ghost use Rattle.std.specs.Prelude.{◌≡◌, ◌⊎◌, Err};
ghost use Rattle.og_io.specs.Outside.{TellsLongFile};
ghost use Rattle.og_print.specs.Files.{ReplayEnds};

use crate::RunFault;
use crate::play::play_given;
use og_base::Settings;
use og_image::Image;
use og_io::{Shelf, Sink};
use og_load::{ImageFault, load_choices, load_program};
use og_words::Given;
use std::alloc::Global;

/// Makes the choices in the file `choices` on the program in the file `image`; writes the text of the run, and answers whether it ended
/// quiet. The settings are those of the text's head; where it has none, `words`. `given` are the settings that the words themselves give.
pub fn replay_file<F: Shelf, K: Sink>(
    alloc: Global,
    image: &str,
    choices: &str,
    raw: bool,
    words: &Settings,
    given: &Given,
    shelf: &mut F,
    out: &mut K,
) -> Result<bool, RunFault>
    ensures ends { ReplayEnds raw image.now choices.now words.now given.now (F.seen shelf.old) (F.seen shelf.new) (K.seen out.old) (K.seen out.new) result }
    ensures long { TellsLongFile (F.seen shelf.old).files image.now 67108864 → (result ≡ Err RunFault.Unread) ⊎ (result ≡ Err (RunFault.Image ImageFault.TooLong)) }
{
    let program = load_program(alloc, shelf, image, raw)?;
    let loaded = load_choices(alloc, shelf, choices, words, given)?;
    let image = Image::make(alloc, program, loaded.settings.nodes)?;
    play_given(
        alloc,
        &image,
        &loaded.settings,
        loaded.choices.as_slice(),
        loaded.lines.as_slice(),
        out,
    )
}
