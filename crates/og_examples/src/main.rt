//! The examples of this project, in the folder `data`: each has to be as stored.
#![tactic(auto)]

ghost use Rattle.std.specs.Prelude.{◌≡◌, ◌≢◌, Ok, true};
ghost use Rattle.std.specs.Process.{exit_status};

use og_compare::check_arguments;
use std::io;
use std::process::ExitCode;

fn main(rt: HostRuntime) -> ExitCode {
    exit(check_arguments(&rt))
}

/// The process ends with 0 exactly where all were read and are as stored.
fn exit(all: io::Result<bool>) -> ExitCode
    ensures stored { all ≡ Ok true → exit_status result ≡ 0 }
    ensures other { all ≢ Ok true → exit_status result ≡ 1 }
{
    match all {
        Ok(true) => ExitCode::SUCCESS,
        _ => ExitCode::FAILURE,
    }
}
