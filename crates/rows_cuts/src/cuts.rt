//! Scripts and disks that are cut.

use crate::command::{NEVER, run_bytes};
use crate::store::Store;
use crate::told::{print_spans, told};
use std::alloc::{AllocError, Global};
use std::io;
use std::sync::Wait;
use std::thread::Threads;

/// A copy, and a top that sets a record to 5 and reads it.
const SETTING: &str = r#"{"copies":1,"records":[
{"name":"x","start":0,"config":{"votes":[1],"read":1,"write":1}}],
"sessions":[{"tops":[{"steps":[["set","x",5],["read","x"]]}]}]}"#;

/// A top that reads the record.
const READING: &str = r#"{"copies":1,"records":[
{"name":"x","start":0,"config":{"votes":[1],"read":1,"write":1}}],
"sessions":[{"tops":[{"steps":[["read","x"]]}]}]}"#;

/// How many disks the store has without its spares.
const DISKS: usize = 2;

// What a script comes to over a store.
fn told_over<R: Threads + Wait + Sync>(
    handle: &R,
    alloc: Global,
    script: &[u8],
    store: Store,
) -> Result<String, AllocError> {
    let shop = store.shop(alloc, Vec::new(alloc))?;
    told(alloc, &run_bytes(handle, alloc, script, NEVER, shop)?)
}

/// Runs each proper front of the script that sets.
pub(crate) fn print_prefixes<R: Threads + Wait + Sync>(
    handle: &R,
    rt: &HostRuntime,
    alloc: Global,
) -> io::Result<()> {
    let whole = SETTING.as_bytes();
    let mut answers = Vec::new(alloc);
    for length in 0..whole.len() {
        let script = &whole[..length];
        answers.push(told_over(handle, alloc, script, Store::empty(alloc))?)?;
    }
    print_spans(rt, &answers)
}

/// Runs so many opening brackets.
pub(crate) fn print_brackets<R: Threads + Wait + Sync>(
    handle: &R,
    rt: &HostRuntime,
    alloc: Global,
    count: usize,
) -> io::Result<()> {
    let mut script = Vec::new(alloc);
    for _ in 0..count {
        script.push(b'[')?;
    }
    let answer = told_over(handle, alloc, &script, Store::empty(alloc))?;
    println!(rt; "{answer}")
}

/// Reads over the disks that the script that sets left, one of them cut to each length. The spares are as they were
/// left, or empty.
pub(crate) fn print_cuts<R: Threads + Wait + Sync>(
    handle: &R,
    rt: &HostRuntime,
    alloc: Global,
    which: usize,
    keeps_spares: bool,
) -> io::Result<()> {
    let shop = Store::empty(alloc).shop(alloc, Vec::new(alloc))?;
    let outcome = run_bytes(handle, alloc, SETTING.as_bytes(), NEVER, shop)?;
    let mut store = Store::of(alloc, &outcome.ran.disks, DISKS)?;
    if !keeps_spares {
        store.empty_spares();
    }
    let mut answers = Vec::new(alloc);
    for length in 0..=store.length(which) {
        let cut = store.cut(alloc, which, length)?;
        answers.push(told_over(handle, alloc, READING.as_bytes(), cut)?)?;
    }
    print_spans(rt, &answers)
}
