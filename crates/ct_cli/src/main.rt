//! The program `ct`: the words after its name, the files of the file system, and standard output.
#![tactic(auto)]

ghost use Rattle.std.specs.Prelude.{◌≡◌};
ghost use Rattle.std.specs.Process.{exit_status};
ghost use Rattle.ct_run.specs.Status.{number_of};

mod program;
#[cfg(test)]
mod tests;

use crate::program::run_program;
use ct_run::Status;
use std::process::ExitCode;

fn main(rt: HostRuntime) -> ExitCode {
    exit_code(run_program(&rt, &rt, &rt, &rt))
}

// The code of a status, with which the program ends.
fn exit_code(status: Status) -> ExitCode
    ensures { exit_status result ≡ number_of status }
{
    ExitCode::from(status.number())
}
