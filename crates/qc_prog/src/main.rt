//! The program `qc`.
#![tactic(auto)]

use std::process::ExitCode;

fn main(rt: HostRuntime) -> ExitCode {
    qc_run::start(&rt, rt)
}
