//! The whole program, around which each `main` is one line.
//!
//! It hands the words of the command line, the files of the system and its standard streams to the
//! command, and ends with the command's status. What a file of the system holds and what standard
//! output shows no clause tells.

ghost use Rattle.std.specs.Prelude.{◌≡◌, None, IfSome, drop};
ghost use Rattle.og_run.specs.Command.{EndsWithStatus, ProgramEnds};
ghost use Rattle.og_words.specs.Words.{job_of};
ghost use Rattle.og_io.specs.Outside.{texts};

use crate::top::origin;
use og_actors::{Gate, NoGate};
use og_io::real::{FileShelf, StreamSink};
use og_io::{Shelf, Sink};
use std::alloc::Global;
use std::env;
use std::io::Write;
use std::rt::Files;
use std::sync::Wait;
use std::thread::Threads;

/// The status where the system doesn't give the program's words.
pub const NO_WORDS: u8 = 15;

/// The program over the system's files and these streams, from its arguments to its status.
pub fn run_program<R: Files + Threads + Wait + Sync, O: Write + Drop, E: Write + Drop>(
    rt: &R,
    alloc: Global,
    arguments: Option<Vec<String>>,
    stdout: O,
    stderr: E,
) -> u8
    ensures without_words { arguments ≡ None → result ≡ 15 }
    ensures with_words { IfSome arguments (λ words. ProgramEnds (texts words.items) result) }
{
    let Some(arguments) = arguments else {
        return NO_WORDS;
    };
    let mut shelf = FileShelf::make(rt, alloc);
    let mut out = StreamSink::make(stdout);
    let mut err = StreamSink::make(stderr);
    run_words(
        rt, alloc, &arguments, &mut shelf, &mut out, &mut err, &NoGate,
    )
}

/// Does what the arguments after the program's name ask for. The status is that of the answer with
/// which the command ends.
pub fn run_words<R: Threads + Wait + Sync, F: Shelf, K: Sink, E: Sink, G: Gate + Sync>(
    rt: &R,
    alloc: Global,
    arguments: &[String],
    shelf: &mut F,
    out: &mut K,
    err: &mut E,
    gate: &G,
) -> u8
    ensures { EndsWithStatus (job_of (drop 1 (texts arguments.now))) (F.seen shelf.old) (F.seen shelf.new) (K.seen out.old) (K.seen out.new) (E.seen err.old) (E.seen err.new) result }
{
    origin(rt, alloc, after_name(arguments), shelf, out, err, gate).status()
}

/// The arguments of the program; None where the system doesn't give them.
pub fn arguments(rt: &HostRuntime) -> Option<Vec<String>> {
    env::args(rt).ok()?.collect(rt.alloc()).ok()
}

/// The words: the arguments after the program's name, which is the first of them.
fn after_name(arguments: &[String]) -> &[String]
    ensures { texts result.now ≡ drop 1 (texts arguments.now) }
{
    match arguments {
        [_, words @ ..] => words,
        [] => &[],
    }
}
