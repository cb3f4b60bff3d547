//! The command from its words to its answer.

ghost use Rattle.std.specs.Prelude.{◌≡◌, ◌↔◌, None, IfOk, Some};
ghost use Rattle.og_io.specs.Outside.{texts};
ghost use Rattle.og_cli.specs.Exit.{IsReported, error_line, refused_of};
ghost use Rattle.og_cli.specs.Names.{names_seen};
ghost use Rattle.og_cli.specs.Command.{JobEnds, CommandEnds, EndsUnhindered, LongFileIsTold, no_names, files_of, names_of as names_in};
ghost use Rattle.og_words.specs.Words.{job_of, job_seen, IsWithin};

use crate::exit::Exit;
use crate::report::{Names, report};
use crate::runs::{replay, simulate, storm};
use crate::tools::{assemble, disassemble};
use og_io::{Shelf, Sink};
use og_words::{Job, WordsFault, read_words};
use std::alloc::Global;

/// Does what the words ask for. A run in threads isn't begun.
fn perform<F: Shelf, K: Sink>(alloc: Global, job: &Job, shelf: &mut F, out: &mut K) -> Exit
    requires within { IsWithin (job_seen job.now) }
    ensures ends { JobEnds (job_seen job.now) (F.seen shelf.old) (F.seen shelf.new) (K.seen out.old) (K.seen out.new) result }
    ensures long { LongFileIsTold (job_seen job.now) (F.seen shelf.old).files result }
{
    match job {
        Job::Simulate {
            image,
            raw,
            settings,
            draw,
            events,
        } => simulate(
            alloc,
            image.as_str(),
            *raw,
            settings,
            *draw,
            *events,
            shelf,
            out,
        ),
        Job::Run { .. } => Exit::Words,
        Job::Replay {
            image,
            choices,
            raw,
            settings,
            given,
        } => replay(
            alloc,
            image.as_str(),
            choices.as_str(),
            *raw,
            settings,
            given,
            shelf,
            out,
        ),
        Job::Storm {
            number,
            settings,
            loops,
            events,
        } => storm(alloc, *number, settings, *loops, *events, out),
        Job::Assemble { source } => assemble(alloc, source.as_str(), shelf, out),
        Job::Disassemble { image } => disassemble(alloc, image.as_str(), shelf, out),
    }
}

/// The names of a job's files.
fn names_of(job: &Job) -> Names<'_>
    ensures { names_seen result ≡ files_of (job_seen job.now) }
{
    let (first, choices) = match job {
        Job::Simulate { image, .. } | Job::Run { image, .. } => (image.as_str(), ""),
        Job::Replay { image, choices, .. } => (image.as_str(), choices.as_str()),
        Job::Storm { .. } => ("", ""),
        Job::Assemble { source } => (source.as_str(), ""),
        Job::Disassemble { image } => (image.as_str(), ""),
    };
    Names { first, choices }
}

/// Does what the words ask for, and answers how it ended. It waits for nobody. What is printed is on
/// `out`, the one line of an answer on `err`.
pub fn origin_alone<F: Shelf, K: Sink, E: Sink>(
    alloc: Global,
    words: &[String],
    shelf: &mut F,
    out: &mut K,
    err: &mut E,
) -> Exit
    ensures ends { CommandEnds (job_of (texts words.now)) (F.seen shelf.old) (F.seen shelf.new) (K.seen out.old) (K.seen out.new) result }
    ensures unhindered { EndsUnhindered (job_of (texts words.now)) (F.seen shelf.old) (F.seen shelf.new) (K.seen out.old) (K.seen out.new) result }
    ensures reported { IsReported (error_line (names_in (job_of (texts words.now))) result) (E.seen err.old) (E.seen err.new) }
{
    let job = match read_words(alloc, words) {
        Ok(job) => job,
        Err(fault) => return refuse(fault, err),
    };
    let exit = perform(alloc, &job, shelf, out);
    report(&exit, &names_of(&job), err);
    exit
}

/// The answer to words that aren't understood, or for want of memory.
pub fn refuse<E: Sink>(fault: WordsFault, err: &mut E) -> Exit
    ensures answer { result ≡ refused_of fault }
    ensures reported { IsReported (error_line no_names result) (E.seen err.old) (E.seen err.new) }
{
    let exit = match fault {
        WordsFault::Words => Exit::Words,
        WordsFault::Memory => Exit::Memory,
    };
    let names = Names {
        first: "",
        choices: "",
    };
    report(&exit, &names, err);
    exit
}

#[cfg(test)]
mod tests;
