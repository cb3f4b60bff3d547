//! Texts both ways, to be measured: `og_measure write EVENTS` writes the text of a run of so many events, each an access
//! with its note, and prints how many bytes it has; `og_measure both EVENTS` reads it again, too, and prints how many
//! choices and notes were read.
//!
//! Below stands the text of runs (`og_trace`). `bench/files` measures this program; of its text it has no contract.
#![tactic(auto)]

ghost use Rattle.std.specs.Prelude.{◌≡◌, OnOk, OnErr};
ghost use Rattle.std.specs.Process.{exit_status};

use og_base::{Choice, NoMemory, Settings, Stamp};
use og_line::Access;
use og_msg::{Event, Note};
use og_trace::{read_text, write_text};
use std::alloc::Global;
use std::process::ExitCode;
use std::{env, io};

/// Whether the text is read again, and how many events it has.
#[derive(Clone, Copy)]
struct Size {
    is_read: bool,
    events: u64,
}

const SETTINGS: Settings = Settings {
    nodes: 1,
    frames: 64,
    sets: 64,
    ways: 2,
    tlb: 8,
    instructions: 1_000_000,
    trigger: 64,
    sharing: 32,
    moves: 4,
    reset: 1024,
};

fn main(rt: HostRuntime) -> ExitCode {
    let Ok(Some(size)) = read_words(&rt) else {
        return ExitCode::FAILURE;
    };
    let Ok(text) = write(rt.alloc(), size.events) else {
        return ExitCode::FAILURE;
    };
    let bytes = text.len();
    if !size.is_read {
        return done(println!(rt; "bytes {bytes}"));
    }
    let Ok(trace) = read_text(rt.alloc(), &text) else {
        return ExitCode::FAILURE;
    };
    let (choices, notes) = (trace.choices.as_slice().len(), trace.notes.as_slice().len());
    done(println!(rt; "bytes {bytes} choices {choices} notes {notes}"))
}

/// The process ends with 0 exactly where its line was printed.
fn done(printed: io::Result<()>) -> ExitCode
    ensures printed { OnOk printed (exit_status result ≡ 0) }
    ensures failed { OnErr printed (exit_status result ≡ 1) }
{
    match printed {
        Ok(()) => ExitCode::SUCCESS,
        Err(_) => ExitCode::FAILURE,
    }
}

/// The words: what is done, and a number.
fn read_words(rt: &HostRuntime) -> io::Result<Option<Size>> {
    let mut words = env::args(rt)?.skip(1);
    let is_read = words.next().map(|word| word.as_str() == "both");
    let events = words
        .next()
        .and_then(|word| word.as_str().parse::<u32>().ok());
    Ok(match (is_read, events) {
        (Some(is_read), Some(events)) => Some(Size {
            is_read,
            events: u64::from(events),
        }),
        _ => None,
    })
}

/// The text of so many loads.
fn write(alloc: Global, count: u64) -> Result<Vec<u8>, NoMemory> {
    let mut events = Vec::new(alloc);
    for clock in 0..count {
        let access = Access::Load {
            addr: 0x10_0000,
            width: 8,
        };
        events.push(Event {
            choice: Choice::Act(0),
            stamp: Stamp { clock, actor: 0 },
            note: Some(Note::Access {
                access,
                answer: clock,
            }),
        })?;
    }
    write_text(alloc, &SETTINGS, &events, true)
}
