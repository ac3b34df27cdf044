//! The program `bench_steps`: how long the script on its standard input runs, and how long its report takes alone.
//! With a number, how long it runs in order and how long in threads, on disks whose syncs take so many microseconds.
#![tactic(auto)]

mod compare;
mod measure;
mod trouble;

use compare::{Pair, compared};
use measure::{Times, both_times};
use qc_run::io::{StdSource, Untaken, take_all};
use qc_script::MOST_BYTES;
use std::alloc::Global;
use std::process::ExitCode;
use std::sync::Wait;
use std::thread::Threads;
use std::time::Duration;
use std::{env, io};
use trouble::Trouble;

/// What was measured.
#[derive(Clone, Copy)]
enum Outcome {
    Report(Times),
    Modes(Pair),
}

// The number of microseconds that the program's first word is.
fn sync_micros(rt: &HostRuntime) -> Option<u64> {
    let mut words = env::args(rt).ok()?.skip(1);
    words.next()?.as_str().parse::<u64>().ok()
}

// What stands on the standard input.
fn taken(rt: &HostRuntime, alloc: Global) -> Result<Vec<u8>, Trouble> {
    match take_all(alloc, &mut StdSource::new(rt.stdin()), MOST_BYTES) {
        Ok(bytes) => Ok(bytes),
        Err(Untaken::Failed) => Err(Trouble::Script),
        Err(Untaken::Memory) => Err(Trouble::Memory),
    }
}

fn measured<R: Threads + Wait + Sync>(handle: &R, rt: &HostRuntime) -> Result<Outcome, Trouble> {
    let alloc = rt.alloc();
    let bytes = taken(rt, alloc)?;
    match sync_micros(rt) {
        Some(micros) => {
            let sync = Duration::from_micros(micros);
            let pair = compared(handle, rt, alloc, bytes.as_slice(), sync)?;
            Ok(Outcome::Modes(pair))
        }
        None => Ok(Outcome::Report(both_times(handle, rt, alloc, bytes)?)),
    }
}

fn whole_micros(time: Duration) -> u64 {
    u64::try_from(time.as_micros()).unwrap_or(u64::MAX)
}

fn print_times(rt: &HostRuntime, times: &Times) -> io::Result<()> {
    let run = whole_micros(times.run);
    let report = whole_micros(times.report);
    let entries = times.entries;
    println!(rt; "run {run} us")?;
    println!(rt; "report {report} us")?;
    println!(rt; "entries {entries}")
}

fn print_pair(rt: &HostRuntime, pair: &Pair) -> io::Result<()> {
    let serial = whole_micros(pair.serial);
    let threads = whole_micros(pair.threads);
    println!(rt; "serial {serial} us")?;
    println!(rt; "threads {threads} us")
}

// Prints what came of it, and gives the status.
fn told(rt: &HostRuntime, measured: &Result<Outcome, Trouble>) -> io::Result<u8> {
    Ok(match measured {
        Ok(Outcome::Report(times)) => {
            print_times(rt, times)?;
            0
        }
        Ok(Outcome::Modes(pair)) => {
            print_pair(rt, pair)?;
            0
        }
        Err(Trouble::Script) => {
            println!(rt; "bench_steps: no script that runs to its end")?;
            3
        }
        Err(Trouble::Differs) => {
            println!(rt; "bench_steps: the reports differ")?;
            1
        }
        Err(Trouble::Memory) => 9,
        Err(Trouble::Clock) => 4,
    })
}

fn main(rt: HostRuntime) -> ExitCode {
    let told = told(&rt, &measured(&rt, &rt));
    // The output could not be written.
    ExitCode::from(told.unwrap_or(5))
}
