//! The program's body: its words, the standard streams and the real shop of disks, handed to the top call.
ghost use Rattle.std.specs.Prelude.{◌≡◌};
ghost use Rattle.std.specs.Process.{exit_status};
ghost use Rattle.qc_run.specs.FaultLine.{exit_code};

use crate::program::run;
use crate::status::Status;
use qc_disk::HomeShop;
use qc_gate::{Gate, NoGate};
use qc_io::{StdSink, StdSource};
use std::alloc::{AllocError, Global};
use std::env;
use std::process::ExitCode;
use std::sync::Wait;
use std::thread::Threads;

// The words after the program's name. Words that cannot be told as text are no command, as none are.
fn words(rt: &HostRuntime, alloc: Global) -> Result<Vec<String>, AllocError> {
    let mut words = Vec::new(alloc);
    if let Ok(args) = env::args(rt) {
        for word in args.skip(1) {
            words.push(word)?;
        }
    }
    Ok(words)
}

fn ended(status: &Status) -> ExitCode
    ensures { exit_status result ≡ exit_code status.now }
{
    ExitCode::from(status.code())
}

/// Does what words say over the standard streams and the real shop, behind a gate, and tells how it ended. The handle is that
/// of the runtime, which alone may wait and make threads.
pub fn start_behind<R: Threads + Wait + Sync, G: Gate + Sync>(
    handle: &R,
    rt: HostRuntime,
    words: &[String],
    gate: &G,
) -> ExitCode {
    let alloc = rt.alloc();
    let mut source = StdSource::new(rt.stdin());
    let mut sink = StdSink::new(rt.stdout());
    let mut shop = HomeShop::new(rt);
    let ran = run(
        handle,
        alloc,
        words,
        &mut source,
        &mut sink,
        &mut shop,
        gate,
    );
    ended(&ran.status)
}

/// Does what the program's words say, behind an open gate.
pub fn start<R: Threads + Wait + Sync>(handle: &R, rt: HostRuntime) -> ExitCode {
    let Ok(words) = words(&rt, rt.alloc()) else {
        return ended(&Status::Memory);
    };
    start_behind(handle, rt, words.as_slice(), &NoGate)
}
