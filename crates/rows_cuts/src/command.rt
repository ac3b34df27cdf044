//! Scripts, and how they are run.

use qc_disk::{MemDisk, MemShop};
use qc_run::io::{MemSink, MemSource};
use qc_run::{NoGate, Ran, run};
use std::alloc::{AllocError, Global};
use std::sync::Wait;
use std::thread::Threads;

/// At which calls the streams of a run fail, counted from 1; at 0 never.
#[derive(Clone, Copy)]
pub(crate) struct Fails {
    pub(crate) source: u64,
    pub(crate) sink: u64,
}

/// Streams that do not fail.
pub(crate) const NEVER: Fails = Fails { source: 0, sink: 0 };

/// What came of a run, and what it wrote.
#[derive(Drop)]
pub(crate) struct Outcome {
    pub(crate) ran: Ran<MemDisk>,
    pub(crate) sink: MemSink,
}

/// Runs the script that the bytes are.
pub(crate) fn run_bytes<R: Threads + Wait + Sync>(
    handle: &R,
    alloc: Global,
    bytes: &[u8],
    fails: Fails,
    mut shop: MemShop,
) -> Result<Outcome, AllocError> {
    let mut words = Vec::new(alloc);
    words.push(String::from_str(alloc, "run")?)?;
    words.push(String::from_str(alloc, "--serial")?)?;
    let script = bytes.to_vec(alloc)?;
    let mut source = MemSource::new(script, vec![in alloc; fails.source]?);
    let mut sink = MemSink::new(alloc, vec![in alloc; fails.sink]?);
    let ran = run(
        handle,
        alloc,
        &words,
        &mut source,
        &mut sink,
        &mut shop,
        &NoGate,
    );
    Ok(Outcome { ran, sink })
}
