//! The runs of a script by one seed after another.

use qc_disk::MemShop;
use qc_io::{MemSink, MemSource, StdSink, StdSource, Untaken, take_all, write_all};
use qc_run::run;
use qc_turns::Turns;
use std::alloc::{AllocError, Global};
use std::io;
use std::sync::Wait;
use std::thread::Threads;

// More bytes than a script has.
const MOST: usize = 1 << 24;

// How `qc` ends where a top is in doubt, where its input failed, and where its output did.
const IN_DOUBT: u8 = 8;

const READ_FAULT: u8 = 4;

const WRITE_FAULT: u8 = 5;

/// What a run came to: how it ended, and what it wrote.
#[derive(Drop)]
struct Told {
    status: u8,
    text: Vec<u8>,
}

/// Runs that came to the same: the least of their seeds, and how many there were.
#[derive(Drop)]
struct Alike {
    seed: u64,
    runs: u64,
    told: Told,
}

// Runs the script that the bytes are by a seed, over disks in memory.
fn run_by<R: Threads + Wait + Sync>(
    handle: &R,
    alloc: Global,
    words: &[String],
    bytes: &[u8],
    seed: u64,
) -> Result<Told, AllocError> {
    let gate = Turns::new(handle, alloc, seed)?;
    let mut source = MemSource::new(bytes.to_vec(alloc)?, Vec::new(alloc));
    let mut sink = MemSink::new(alloc, Vec::new(alloc));
    let mut shop = MemShop::new(Vec::new(alloc), Vec::new(alloc));
    let ran = run(
        handle,
        alloc,
        words,
        &mut source,
        &mut sink,
        &mut shop,
        &gate,
    );
    Ok(Told {
        status: ran.status.code(),
        text: sink.bytes().to_vec(alloc)?,
    })
}

// Counts a run among those that came to the same.
fn count(all: &mut Vec<Alike>, seed: u64, told: Told) -> Result<(), AllocError> {
    for alike in all.iter_mut() {
        if alike.told.status == told.status && alike.told.text.as_slice() == told.text.as_slice() {
            alike.runs = alike.runs.wrapping_add(1);
            return Ok(());
        }
    }
    all.push(Alike {
        seed,
        runs: 1,
        told,
    })?;
    Ok(())
}

// Writes of each kind of runs the least seed and how many there were, and how many kinds.
fn tell(rt: &HostRuntime, all: &[Alike]) -> io::Result<()> {
    for alike in all {
        println!(rt;
            "seed {} runs {} status {}",
            alike.seed, alike.runs, alike.told.status
        )?;
    }
    println!(rt; "reports {}", all.len())
}

// What a script is refused for is the same by each seed.
fn is_refused(told: &Told) -> bool {
    told.status != 0 && told.status != IN_DOUBT
}

// Writes what a run wrote, and answers how it ended.
fn write_out(rt: &HostRuntime, told: &Told) -> u8 {
    let mut sink = StdSink::new(rt.stdout());
    match write_all(&mut sink, told.text.as_slice()) {
        Ok(()) => told.status,
        Err(_) => WRITE_FAULT,
    }
}

/// Runs the script of the input by each of these seeds, and writes which came to the same. Where one
/// has no report, it writes what that wrote and answers how it ended, and runs no further.
pub(crate) fn run_each<R: Threads + Wait + Sync>(
    handle: &R,
    rt: &HostRuntime,
    words: &[String],
    first: u64,
    last: u64,
) -> Result<u8, AllocError> {
    let alloc = rt.alloc();
    let mut source = StdSource::new(rt.stdin());
    let bytes = match take_all(alloc, &mut source, MOST) {
        Ok(bytes) => bytes,
        Err(Untaken::Memory) => return Err(AllocError),
        Err(Untaken::Failed) => return Ok(READ_FAULT),
    };
    let mut all = Vec::new(alloc);
    for seed in first..=last {
        let told = run_by(handle, alloc, words, bytes.as_slice(), seed)?;
        if is_refused(&told) {
            return Ok(write_out(rt, &told));
        }
        count(&mut all, seed, told)?;
    }
    match tell(rt, all.as_slice()) {
        Ok(()) => Ok(0),
        Err(_) => Ok(WRITE_FAULT),
    }
}
