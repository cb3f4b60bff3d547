//! The words of the command line, and the job that they ask for.
//!
//! Below stand the settings (`og_base`); above, the command. This crate keeps the table of commands and
//! options, with their ranges and defaults (`specs/Words`). Reading the words takes one pass over them.
#![tactic(auto)]

mod asked;
mod command;
mod job;
mod number;
mod reading;
#[cfg(test)]
mod tests;

ghost use Rattle.std.specs.Prelude.{◌≡◌, ◌↔◌, Err, None, IfOk, Some};
ghost use Rattle.og_io.specs.Outside.{texts};
ghost use Rattle.og_words.specs.Words.{job_of, job_seen, IsWithin};

pub use command::Command;
pub use job::{Given, Job};
use std::alloc::Global;

/// Why there is no job.
#[derive(Clone, Copy, PartialEq, Eq, Debug)]
pub enum WordsFault {
    /// The words are refused.
    Words,
    /// Want of memory.
    Memory,
}

/// The job that the words ask for, without the program's name: `Words` exactly where they are refused.
pub fn read_words(alloc: Global, words: &[String]) -> Result<Job, WordsFault>
    ensures words { result ≡ Err WordsFault.Words ↔ (job_of (texts words.now) ≡ None) }
    ensures job { IfOk result (λ job. job_of (texts words.now) ≡ Some (job_seen job)) }
    ensures within { IfOk result (λ job. IsWithin (job_seen job)) }
{
    let [first, rest @ ..] = words else {
        return Err(WordsFault::Words);
    };
    let Some(command) = command::command_of(first.as_str()) else {
        return Err(WordsFault::Words);
    };
    let Some(reading) = reading::read(command, rest) else {
        return Err(WordsFault::Words);
    };
    match asked::job_in(alloc, command, &reading) {
        Ok(Some(job)) => Ok(job),
        Ok(None) => Err(WordsFault::Words),
        Err(_) => Err(WordsFault::Memory),
    }
}
