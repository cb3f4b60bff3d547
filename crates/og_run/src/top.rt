//! The command from its words to its answer, a run in threads among them.

ghost use Rattle.og_io.specs.Outside.{texts};
ghost use Rattle.og_cli.specs.Exit.{IsReported, error_line};
ghost use Rattle.og_cli.specs.Command.{names_of};
ghost use Rattle.og_words.specs.Words.{job_of};
ghost use Rattle.og_run.specs.Command.{CommandEnds, EndsUnhindered};

use crate::file::run_file;
use og_actors::Gate;
use og_cli::exit::Exit;
use og_cli::report::{Names, report};
use og_cli::runs::ended;
use og_cli::top::{origin_alone, refuse};
use og_io::{Shelf, Sink};
use og_words::{Job, WordsFault, read_words};
use std::alloc::Global;
use std::sync::Wait;
use std::thread::Threads;

/// Does what the words ask for, and answers how it ended. What is printed is on `out`, the one line of an answer on `err`. Of a
/// run in threads the gate is called before each turn; no other command starts a thread.
pub fn origin<R: Threads + Wait + Sync, F: Shelf, K: Sink, E: Sink, G: Gate + Sync>(
    rt: &R,
    alloc: Global,
    words: &[String],
    shelf: &mut F,
    out: &mut K,
    err: &mut E,
    gate: &G,
) -> Exit
    ensures ends { CommandEnds (job_of (texts words.now)) (F.seen shelf.old) (F.seen shelf.new) (K.seen out.old) (K.seen out.new) result }
    ensures unhindered { EndsUnhindered (job_of (texts words.now)) (F.seen shelf.old) (F.seen shelf.new) (K.seen out.old) (K.seen out.new) result }
    ensures reported { IsReported (error_line (names_of (job_of (texts words.now))) result) (E.seen err.old) (E.seen err.new) }
{
    match read_words(alloc, words) {
        Ok(
            Job::Run {
                image,
                raw,
                settings,
                rounds,
                turns,
            },
        ) => {
            let run = run_file(
                rt,
                alloc,
                image.as_str(),
                raw,
                &settings,
                rounds,
                turns,
                shelf,
                out,
                gate,
            );
            let exit = ended(run);
            let names = Names {
                first: image.as_str(),
                choices: "",
            };
            report(&exit, &names, err);
            exit
        }
        Err(WordsFault::Memory) => refuse(WordsFault::Memory, err),
        Ok(_) | Err(WordsFault::Words) => origin_alone(alloc, words, shelf, out, err),
    }
}

#[cfg(test)]
mod tests;
