//! The program `origin` once more, for a stored run that doesn't end quiet: its status is that of a run
//! at its limit.
#![tactic(auto)]

ghost use Rattle.std.specs.Prelude.{◌≡◌};
ghost use Rattle.std.specs.Process.{exit_status};

use og_run::program::{arguments, run_program};
use std::process::ExitCode;

fn main(rt: HostRuntime) -> ExitCode {
    exit(run_program(&rt, rt.alloc(), arguments(&rt), rt.stdout(), rt.stderr()))
}

/// The process ends with the command's status.
fn exit(status: u8) -> ExitCode
    ensures { exit_status result ≡ status }
{
    ExitCode::from(status)
}
