//! Runs sessions in threads behind a gate that lets one pass at a time, and prints what came of it.
//!
//! Each line is printed, and where it is a question, its answer behind it:
//! - `turns NUMBER SCRIPTS SEEDS OPTION ..`: so many scripts that are made from a number, each by so many seeds, twice; how many
//!   runs left the same trail and the same disks again, how many of these have a legal history, as the audit has it, and
//!   follow their script, as the judge has it; and how many met a lock, a mark, or a change of quorums.
//! - `branches NUMBER SCRIPTS SEEDS OPTION ..`: the same of scripts that run bodies at once.
//!
//! The options are those of `run`.
#![tactic(auto)]

mod counted;
mod meets;

use counted::count_runs;
use rows_runs::Tops;
use std::alloc::Global;
use std::io;
use std::sync::Wait;
use std::thread::Threads;

// A number; what is none is 0.
fn number(word: &str) -> u64 {
    word.parse::<u64>().unwrap_or(0)
}

// Runs scripts by seeds.
fn print_turns<R: Threads + Wait + Sync>(
    handle: &R,
    rt: &HostRuntime,
    alloc: Global,
    tops: Tops,
    words: &str,
) -> io::Result<()> {
    let (first, rest) = words.split_once(' ').unwrap_or((words, ""));
    let (scripts, rest) = rest.split_once(' ').unwrap_or((rest, ""));
    let (seeds, options) = rest.split_once(' ').unwrap_or((rest, ""));
    let count = count_runs(
        handle,
        alloc,
        tops,
        number(first),
        number(scripts),
        number(seeds),
        options,
    )?;
    println!(rt; ": {count}")
}

// Answers a question.
fn answer<R: Threads + Wait + Sync>(
    handle: &R,
    rt: &HostRuntime,
    alloc: Global,
    line: &str,
) -> io::Result<()> {
    print!(rt; "{line}")?;
    let (name, rest) = line.split_once(' ').unwrap_or((line, ""));
    match name {
        "turns" => print_turns(handle, rt, alloc, Tops::InTurn, rest),
        "branches" => print_turns(handle, rt, alloc, Tops::AtOnce, rest),
        _ => println!(rt;),
    }
}

fn main(rt: HostRuntime) -> io::Result<()> {
    let alloc = rt.alloc();
    for line in rt.lines(alloc) {
        answer(&rt, &rt, alloc, line?.as_str())?;
    }
    Ok(())
}
