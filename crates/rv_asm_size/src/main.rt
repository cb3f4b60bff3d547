//! A long source, to be measured: `rv_asm_size INSTRUCTIONS` makes a source of so many branches, each
//! with a label of its own that it goes to, assembles it, prints the words, and says how long all are.
//!
//! Below stands the assembler. `bench/assembler` measures this program; of what it measures it has no contract.
#![tactic(auto)]

ghost use Rattle.std.specs.Prelude.{◌≡◌, OnOk, OnErr};
ghost use Rattle.std.specs.Process.{exit_status};

use rv_asm::{NoMemory, SourceFault, assemble, print};
use std::alloc::Global;
use std::process::ExitCode;
use std::{env, io};

fn main(rt: HostRuntime) -> ExitCode {
    let Ok(Some(count)) = read_words(&rt) else {
        return ExitCode::FAILURE;
    };
    let Ok(source) = make_source(rt.alloc(), count) else {
        return ExitCode::FAILURE;
    };
    let Ok(lengths) = measure(rt.alloc(), source.as_slice()) else {
        return ExitCode::FAILURE;
    };
    let (words, text) = lengths;
    done(println!(rt; "source {} words {words} text {text}", source.len()))
}

/// The process ends with 0 exactly where its line was printed.
fn done(printed: io::Result<()>) -> ExitCode
    ensures printed { OnOk printed (exit_status result ≡ 0) }
    ensures failed { OnErr printed (exit_status result ≡ 1) }
{
    match printed {
        Ok(()) => ExitCode::SUCCESS,
        Err(_) => ExitCode::FAILURE,
    }
}

/// The words: one number.
fn read_words(rt: &HostRuntime) -> io::Result<Option<u32>> {
    let mut words = env::args(rt)?.skip(1);
    Ok(
        words
            .next()
            .and_then(|word| word.as_str().parse::<u32>().ok()),
    )
}

/// So many branches to themselves, each with a label.
fn make_source(alloc: Global, count: u32) -> Result<Vec<u8>, NoMemory> {
    let mut source = Vec::new(alloc);
    for number in 0..count {
        let line = format!(in alloc; "label{number}: beq x0,x0,label{number}\n")?;
        source.extend_from_slice(line.as_bytes())?;
    }
    Ok(source)
}

/// How many words a source has, and how many bytes their text.
fn measure(alloc: Global, source: &[u8]) -> Result<(usize, usize), SourceFault> {
    let words = assemble(alloc, source)?;
    match print(alloc, words.as_slice()) {
        Ok(text) => Ok((words.as_slice().len(), text.len())),
        Err(_) => Err(SourceFault::Memory),
    }
}
