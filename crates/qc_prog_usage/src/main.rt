//! The program `qc`, run with words that are no command.
#![tactic(auto)]

use std::process::ExitCode;

fn main(rt: HostRuntime) -> ExitCode {
    qc_run::start(&rt, rt)
}
