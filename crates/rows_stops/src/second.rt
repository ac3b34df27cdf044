//! A run that stops, over what one that stopped left.

use crate::command::run_script;
use crate::ends::{End, ends_of, read_over};
use crate::store::Store;
use crate::tally::Tally;
use std::alloc::{AllocError, Global};
use std::io;
use std::sync::Wait;
use std::thread::Threads;

/// A copy, and a top that sets a record to 5.
const SETTING: &str = r#"{"copies":1,"records":[
{"name":"x","start":0,"config":{"votes":[1],"read":1,"write":1}}],
"sessions":[{"tops":[{"steps":[["set","x",5]]}]}]}"#;

/// A top that reads the record.
const READING: &str = r#"{"copies":1,"records":[
{"name":"x","start":0,"config":{"votes":[1],"read":1,"write":1}}],
"sessions":[{"tops":[{"steps":[["read","x"]]}]}]}"#;

/// The triples whose second run's disks keep what was not synced, and those whose disks lose it.
#[derive(Clone, Copy)]
struct Tallies {
    kept: Tally,
    lost: Tally,
}

// Adds what is read over what the second runs behind an end left.
fn add_thirds<R: Threads + Wait + Sync>(
    handle: &R,
    alloc: Global,
    tally: &mut Tally,
    first: &End,
    seconds: &[End],
) -> Result<(), AllocError> {
    for second in seconds {
        let (code, read) = read_over(handle, alloc, READING, &second.left)?;
        tally.add(first, second, code, read.as_slice());
    }
    Ok(())
}

// What comes of the ends of first runs, each gone on from by runs that stop in their turn.
fn tallies_of<R: Threads + Wait + Sync>(
    handle: &R,
    alloc: Global,
    firsts: &[End],
) -> Result<Tallies, AllocError> {
    let (mut kept, mut lost) = (Tally::new(), Tally::new());
    for first in firsts {
        let seconds = ends_of(handle, alloc, READING, &first.left)?;
        add_thirds(handle, alloc, &mut kept, first, &seconds.kept)?;
        add_thirds(handle, alloc, &mut lost, first, &seconds.lost)?;
    }
    Ok(Tallies { kept, lost })
}

// Prints what comes of the ends of first runs.
fn print_tallies<R: Threads + Wait + Sync>(
    handle: &R,
    rt: &HostRuntime,
    alloc: Global,
    word: &str,
    firsts: &[End],
) -> io::Result<()> {
    let Tallies { kept, lost } = tallies_of(handle, alloc, firsts)?;
    println!(rt; "{word}, then kept: {kept}")?;
    println!(rt; "{word}, then lost: {lost}")
}

// Prints what comes of a first run over a store.
fn print_over<R: Threads + Wait + Sync>(
    handle: &R,
    rt: &HostRuntime,
    alloc: Global,
    store: &Store,
) -> io::Result<()> {
    let firsts = ends_of(handle, alloc, SETTING, store)?;
    print_tallies(handle, rt, alloc, "kept", &firsts.kept)?;
    print_tallies(handle, rt, alloc, "lost", &firsts.lost)
}

/// Sets over empty disks that stop, reads over what is left and stops again, and reads once more.
pub(crate) fn print_second<R: Threads + Wait + Sync>(
    handle: &R,
    rt: &HostRuntime,
    alloc: Global,
) -> io::Result<()> {
    print_over(handle, rt, alloc, &Store::empty(alloc))
}

/// The same over disks into which a run that read has folded.
pub(crate) fn print_fold<R: Threads + Wait + Sync>(
    handle: &R,
    rt: &HostRuntime,
    alloc: Global,
) -> io::Result<()> {
    let shop = Store::empty(alloc).stop_shop(alloc, u64::MAX)?;
    let ran = run_script(handle, alloc, READING, shop)?;
    print_over(handle, rt, alloc, &Store::left(alloc, &ran.disks, true)?)
}
