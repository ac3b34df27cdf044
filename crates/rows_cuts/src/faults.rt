//! Runs of a transfer over streams and a shop that fail.

use crate::command::{Fails, NEVER, Outcome, run_bytes};
use crate::store::Store;
use crate::told::joined;
use qc_disk::MemDisk;
use std::alloc::{AllocError, Global};
use std::io;
use std::sync::Wait;
use std::thread::Threads;

/// Three copies, and a top with a child that moves 30 from one record to the other.
const MOVING: &str = r#"{"copies":3,"records":[
{"name":"a","start":100,"config":{"votes":[1,1,1],"read":2,"write":2}},
{"name":"b","start":0,"config":{"votes":[1,1,1],"read":2,"write":2}}],
"sessions":[{"tops":[{"steps":[["child",{"must":true,
"steps":[["need","a",30],["sub","a",30],["add","b",30]]}]]}]}]}"#;

/// Its report.
const MOVED: &str = "read 1/1.1.1 a 100
read 1/1.1.2 a 100
set 1/1.1.3 a 70
read 1/1.1.4 b 0
set 1/1.1.5 b 30
commit 1/1.1
commit 1/1
final a 70
final b 30
tops 1 committed 1 aborted 0 doubt 0
";

/// A top that reads both records.
const READING: &str = r#"{"copies":3,"records":[
{"name":"a","start":100,"config":{"votes":[1,1,1],"read":2,"write":2}},
{"name":"b","start":0,"config":{"votes":[1,1,1],"read":2,"write":2}}],
"sessions":[{"tops":[{"steps":[["read","a"],["read","b"]]}]}]}"#;

/// How many disks the store has without its spares.
const DISKS: usize = 4;

/// More calls than a stream meets.
const CALLS: u64 = 100;

/// The numbers of the disks and their spares.
const NUMBERS: [u8; 8] = [0, 1, 2, 3, 17, 18, 19, 20];

/// Which stream fails.
#[derive(Clone, Copy)]
pub(crate) enum Stream {
    Source,
    Sink,
}

// What was written: so much of the report, or other lines.
fn written(alloc: Global, bytes: &[u8]) -> Result<String, AllocError> {
    let report = MOVED.as_bytes();
    if bytes.len() == report.len() && report.starts_with(bytes) {
        String::from_str(alloc, "the report")
    } else if report.starts_with(bytes) {
        format!(in alloc; "{} bytes of the report", bytes.len())
    } else {
        joined(alloc, bytes, "")
    }
}

// The values that are read over the disks that came back.
fn restored<R: Threads + Wait + Sync>(
    handle: &R,
    alloc: Global,
    back: &[MemDisk],
) -> Result<String, AllocError> {
    if back.is_empty() {
        return String::from_str(alloc, "none back");
    }
    let shop = Store::of(alloc, back, DISKS)?.shop(alloc, Vec::new(alloc))?;
    let outcome = run_bytes(handle, alloc, READING.as_bytes(), NEVER, shop)?;
    let values = joined(alloc, outcome.sink.bytes(), "read ")?;
    let (code, count) = (outcome.ran.status.code(), back.len());
    format!(in alloc; "{count} back, status {code}: {values}")
}

// What a run came to: its status, what it wrote, and what the disks restore.
fn told_of<R: Threads + Wait + Sync>(
    handle: &R,
    alloc: Global,
    outcome: &Outcome,
) -> Result<String, AllocError> {
    let text = written(alloc, outcome.sink.bytes())?;
    let values = restored(handle, alloc, &outcome.ran.disks)?;
    let code = outcome.ran.status.code();
    format!(in alloc; "status {code}, {text}, {values}")
}

// The calls that fail where one of a stream does.
fn fails_at(stream: Stream, call: u64) -> Fails {
    match stream {
        Stream::Source => Fails {
            source: call,
            sink: 0,
        },
        Stream::Sink => Fails {
            source: 0,
            sink: call,
        },
    }
}

/// Moves over empty disks where a stream fails at a call, from the first on until a run meets no failure.
pub(crate) fn print_stream<R: Threads + Wait + Sync>(
    handle: &R,
    rt: &HostRuntime,
    alloc: Global,
    stream: Stream,
) -> io::Result<()> {
    for call in 1..CALLS {
        let fails = fails_at(stream, call);
        let shop = Store::empty(alloc).shop(alloc, Vec::new(alloc))?;
        let outcome = run_bytes(handle, alloc, MOVING.as_bytes(), fails, shop)?;
        let answer = told_of(handle, alloc, &outcome)?;
        println!(rt; "{call}: {answer}")?;
        if outcome.ran.status.code() == 0 {
            break;
        }
    }
    Ok(())
}

/// Moves over a shop that fails at each of its disks in turn.
pub(crate) fn print_shop<R: Threads + Wait + Sync>(
    handle: &R,
    rt: &HostRuntime,
    alloc: Global,
) -> io::Result<()> {
    for which in NUMBERS {
        let shop = Store::empty(alloc).shop(alloc, vec![in alloc; which]?)?;
        let outcome = run_bytes(handle, alloc, MOVING.as_bytes(), NEVER, shop)?;
        let answer = told_of(handle, alloc, &outcome)?;
        println!(rt; "{which}: {answer}")?;
    }
    Ok(())
}
