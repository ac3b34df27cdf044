//! The program `bench_appends`: what the appends of a journal in a file cost over their writes alone.
#![tactic(auto)]

ghost use Rattle.std.specs.Prelude.{◌≡◌, ◌*◌, ◌/◌, max};

mod measure;
mod trouble;

use measure::{Times, both_times};
use qc_disk::FileDisk;
use std::alloc::Global;
use std::process::ExitCode;
use std::time::Duration;
use std::{env, io};
use trouble::Trouble;

const MOST: u32 = 100_000;

/// What the words ask for.
#[derive(Drop)]
struct Task {
    folder: String,
    count: u32,
}

// The task that the words after the program's name are.
fn asked(rt: &HostRuntime) -> Result<Task, Trouble> {
    let mut words = env::args(rt).map_err(of_words)?.skip(1);
    let (Some(folder), Some(count), None) = (words.next(), words.next(), words.next()) else {
        return Err(Trouble::Usage);
    };
    let count = count.as_str().parse::<u32>().unwrap_or(0);
    if folder.is_empty() || count == 0 || count > MOST {
        return Err(Trouble::Usage);
    }
    Ok(Task { folder, count })
}

// Words that cannot be told as text are no task.
fn of_words(error: io::Error) -> Trouble {
    match error.kind() {
        io::ErrorKind::OutOfMemory => Trouble::Memory,
        _ => Trouble::Usage,
    }
}

// Opens a file of the folder as a disk.
fn opened(rt: &HostRuntime, alloc: Global, folder: &str, name: &str) -> Result<FileDisk, Trouble> {
    let path = format!(in alloc; "{folder}/{name}")?;
    FileDisk::open(rt, folder, path.as_str()).map_err(|_| Trouble::Disk)
}

fn measured(rt: &HostRuntime, alloc: Global) -> Result<Times, Trouble> {
    let task = asked(rt)?;
    let folder = task.folder.as_str();
    let first = opened(rt, alloc, folder, "journal")?;
    let second = opened(rt, alloc, folder, "bare")?;
    both_times(rt, alloc, first, second, task.count)
}

fn whole_micros(time: Duration) -> u64 {
    u64::try_from(time.as_micros()).unwrap_or(u64::MAX)
}

// How many hundredths of one time another is.
fn hundredths(time: u64, of: u64) -> u128
    ensures { result ≡ time * 100 / max of 1 }
{
    u128::from(time) * 100 / u128::from(of.max(1))
}

fn report(rt: &HostRuntime, times: &Times) -> io::Result<()> {
    let journal = whole_micros(times.journal);
    let bare = whole_micros(times.bare);
    let ratio = hundredths(journal, bare);
    println!(rt; "journal {journal} us")?;
    println!(rt; "bare {bare} us")?;
    println!(rt; "ratio {}.{:02}", ratio / 100, ratio % 100)
}

// Prints what came of it, and gives the status.
fn told(rt: &HostRuntime, measured: &Result<Times, Trouble>) -> io::Result<u8> {
    Ok(match measured {
        Ok(times) => {
            report(rt, times)?;
            0
        }
        Err(Trouble::Usage) => {
            println!(rt; "usage: bench_appends FOLDER N")?;
            2
        }
        Err(Trouble::Disk) => {
            println!(rt; "bench_appends: disk fault")?;
            6
        }
        Err(Trouble::Memory) => 9,
        Err(Trouble::Clock) => 4,
    })
}

fn main(rt: HostRuntime) -> ExitCode {
    let told = told(&rt, &measured(&rt, rt.alloc()));
    // The output could not be written.
    ExitCode::from(told.unwrap_or(5))
}
