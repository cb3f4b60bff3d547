//! The machine of an image at its start.

ghost use Rattle.std.specs.Prelude.{◌≡◌, ◌⊎◌, Err, None, Some, IfOk, OnOk};
ghost use Rattle.og_engine.specs.Kept.{setup_in};
ghost use Rattle.og_machine.specs.Machine.{setup_of};
ghost use Rattle.og_driver.specs.Driven.{IsAtStart};
ghost use Rattle.og_print.specs.Runs.{frames_fault};

use crate::RunFault;
use og_base::Settings;
use og_engine::Machine;
use og_image::{Image, Layout, LayoutFault};
use og_load::ImageFault;
use std::alloc::Global;

/// The machine of an image at its start, where there are frames for its pages.
pub fn place_machine(alloc: Global, image: &Image, settings: &Settings) -> Result<Machine, RunFault>
    requires { settings.now.nodes ≡ image.now.nodes }
    ensures start { IfOk result (λ machine. IsAtStart image.now machine) }
    ensures setup { IfOk result (λ machine. setup_in image.now machine ≡ setup_of image.now settings.now) }
    ensures frames { OnOk result (frames_fault image.now settings.now ≡ None) }
    ensures fault { (fault : RunFault) → result ≡ Err fault → (fault ≡ RunFault.Memory) ⊎ ((f : ImageFault) × (fault ≡ RunFault.Image f) × (frames_fault image.now settings.now ≡ Some f)) }
{
    let layout = match Layout::make(alloc, image, settings) {
        Ok(layout) => layout,
        Err(LayoutFault::NoFrames { need, have }) => {
            return Err(RunFault::Image(ImageFault::NoFrames { need, have }));
        }
        Err(LayoutFault::Memory) => return Err(RunFault::Memory),
    };
    Ok(Machine::start(alloc, image, &layout, settings)?)
}
