//! The program `qc` behind a gate that lets one pass at a time, whom a seed chooses.
//!
//! Its first word is a seed, or the first and the last of some with `..` between them; the words of `qc` stand behind. With a
//! seed it does what they say, and what it writes goes by the script and the seed alone. With some seeds, over a `run` on no
//! folder, it runs the script once by each, and writes how many reports were the same, with the least of their seeds.
#![tactic(auto)]

mod each;
mod seeds;

use each::run_each;
use qc_run::{NoGate, start_behind};
use qc_turns::Turns;
use seeds::{Seeds, keeps_no_disks, seeds_in};
use std::alloc::{AllocError, Global};
use std::env;
use std::process::ExitCode;
use std::sync::Wait;
use std::thread::Threads;

// How `qc` ends where memory was wanting.
const MEMORY: u8 = 9;

// The words after the program's name. Words that cannot be told as text are no command, as none are.
fn words(rt: &HostRuntime, alloc: Global) -> Result<Vec<String>, AllocError> {
    let mut words = Vec::new(alloc);
    if let Ok(args) = env::args(rt) {
        for word in args.skip(1) {
            words.push(word)?;
        }
    }
    Ok(words)
}

// Does what words say, one at a time by a seed.
fn start_by<R: Threads + Wait + Sync>(
    handle: &R,
    rt: HostRuntime,
    words: &[String],
    seed: u64,
) -> ExitCode {
    match Turns::new(handle, rt.alloc(), seed) {
        Ok(turns) => start_behind(handle, rt, words, &turns),
        Err(AllocError) => ExitCode::from(MEMORY),
    }
}

// Runs the script of the input by each of these seeds.
fn start_each<R: Threads + Wait + Sync>(
    handle: &R,
    rt: HostRuntime,
    words: &[String],
    first: u64,
    last: u64,
) -> ExitCode {
    match run_each(handle, &rt, words, first, last) {
        Ok(status) => ExitCode::from(status),
        Err(AllocError) => ExitCode::from(MEMORY),
    }
}

// Does what the program's words say. Where they are no command, neither are none.
fn start<R: Threads + Wait + Sync>(handle: &R, rt: HostRuntime, words: &[String]) -> ExitCode {
    let Some((first, rest)) = words.split_first() else {
        return start_behind(handle, rt, words, &NoGate);
    };
    match seeds_in(first.as_str()) {
        Some(Seeds::One(seed)) => start_by(handle, rt, rest, seed),
        Some(Seeds::Each { first, last }) if keeps_no_disks(rest) => {
            start_each(handle, rt, rest, first, last)
        }
        _ => start_behind(handle, rt, &words[..0], &NoGate),
    }
}

fn main(rt: HostRuntime) -> ExitCode {
    match words(&rt, rt.alloc()) {
        Ok(words) => start(&rt, rt, words.as_slice()),
        Err(AllocError) => ExitCode::from(MEMORY),
    }
}
