//! The time of a run in order, and that of one in threads.

use crate::measure::run_words;
use crate::trouble::Trouble;
use qc_disk::MemShop;
use qc_run::io::{MemSink, MemSource};
use qc_run::{NoGate, Status, run};
use rows_watched::{Watch, WatchedShop};
use std::alloc::Global;
use std::sync::Wait;
use std::thread;
use std::thread::Threads;
use std::time::{Clock, Duration, Instant};

/// How often each is measured.
const ROUNDS: u8 = 5;

/// The least time of a run in order, and of one in threads.
#[derive(Clone, Copy)]
pub(crate) struct Pair {
    pub(crate) serial: Duration,
    pub(crate) threads: Duration,
}

/// Syncs that take their time.
#[derive(Drop)]
struct Slow<'a, C> {
    clock: &'a C,
    sync: Duration,
}

impl<'a, C: Clock> Watch for Slow<'a, C> {
    fn write(&self, _which: u8) {}

    fn sync(&self, _which: u8) {
        if self.sync > Duration::ZERO {
            thread::sleep(self.clock, self.sync);
        }
    }
}

// How long the script that the bytes are runs with an option.
fn time_of<R: Threads + Wait + Sync, C: Clock + Sync>(
    handle: &R,
    clock: &C,
    alloc: Global,
    bytes: &[u8],
    option: Option<&str>,
    sync: Duration,
) -> Result<Duration, Trouble> {
    let words = run_words(alloc, option)?;
    let mut source = MemSource::new(bytes.to_vec(alloc)?, Vec::new(alloc));
    let mut sink = MemSink::new(alloc, Vec::new(alloc));
    let slow = Slow { clock, sync };
    let mut shop = WatchedShop {
        shop: MemShop::new(Vec::new(alloc), Vec::new(alloc)),
        watch: &slow,
    };
    let words = words.as_slice();
    let start = Instant::now(clock)?;
    let ran = run(
        handle,
        alloc,
        words,
        &mut source,
        &mut sink,
        &mut shop,
        &NoGate,
    );
    let time = start.elapsed(clock)?;
    match ran.status {
        Status::Done => Ok(time),
        _ => Err(Trouble::Script),
    }
}

/// Runs the script that the bytes are by turns in order and in threads, on disks in memory whose syncs take so long.
pub(crate) fn compared<R: Threads + Wait + Sync, C: Clock + Sync>(
    handle: &R,
    clock: &C,
    alloc: Global,
    bytes: &[u8],
    sync: Duration,
) -> Result<Pair, Trouble> {
    let mut serial = Duration::MAX;
    let mut threads = Duration::MAX;
    for _ in 0..ROUNDS {
        serial = serial.min(time_of(handle, clock, alloc, bytes, Some("--serial"), sync)?);
        threads = threads.min(time_of(handle, clock, alloc, bytes, None, sync)?);
    }
    Ok(Pair { serial, threads })
}
