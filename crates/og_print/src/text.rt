//! The text of a run.

ghost use Rattle.std.specs.Prelude.{◌≡◌};
ghost use Rattle.og_base.specs.Settings.{settings_seen};
ghost use Rattle.og_trace.specs.Text.{text_with, head_seen};
ghost use Rattle.og_print.specs.Runs.{TextEnds};

use crate::RunFault;
use og_base::Settings;
use og_driver::Run;
use og_io::{Sink, SinkFault, write_all};
use og_trace::write_text;
use std::alloc::Global;

/// Writes the text of a run, and answers whether it ended quiet.
pub fn print_run<K: Sink>(
    alloc: Global,
    settings: &Settings,
    run: &Run,
    out: &mut K,
) -> Result<bool, RunFault>
    ensures { TextEnds (text_with (head_seen (settings_seen settings.now)) run.now.events.items run.now.quiet) run.now.quiet (K.seen out.old) (K.seen out.new) result }
{
    let text = write_text(alloc, settings, &run.events, run.quiet)?;
    match write_all(out, &text) {
        Ok(()) => Ok(run.quiet),
        Err(SinkFault::Failed) => Err(RunFault::Unwritten),
        Err(SinkFault::Memory) => Err(RunFault::Memory),
    }
}
