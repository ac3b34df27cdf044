//! Runs sessions in threads, and prints what came of it, which is the same however the threads are scheduled.
//!
//! Each line is printed, and where it is a question, its answer behind it:
//! - `gate OPTION ..`: two sessions that add to one record pass a gate at which each waits for the other; the status, whether
//!   they met there, and whether each top that was committed was counted.
//! - `disks OPTION ..`: each of two sessions writes at a copy of its own, where its first write waits for that of the
//!   other; the status, whether the writes met, and whether a transaction was killed. `par OPTION ..` is the same of two
//!   bodies at once, and `kill OPTION ..` of a session that marks the other's top before it writes.
//! - `adds SESSIONS RUNS`: each session adds to one record; how many runs counted each top that was committed, and no
//!   other, and had no request refused twice, as each is delivered once.
//! - `carries SESSIONS RUNS`: the same over the disks of one store; how many runs ended with the value of all that was
//!   committed up to then, and left each pair of disks folded.
//! - `follow SEED RUNS OPTION ..`: scripts made from a seed; how many of their histories are legal as the checker has it,
//!   pass the audit of their saved trail, and follow their script as the judge has it, and whether a transaction was killed.
//! - `branches SEED RUNS OPTION ..`: the same of scripts that run bodies at once.
//! - `slip KIND SEED`: the first of such scripts, in order, whose trail can be spoilt in this way; the fault that the judge
//!   then finds.
//!
//! The options are those of `run`.
#![tactic(auto)]

mod adds;
mod audits;
mod branches;
mod carried;
mod crossing;
mod ends;
mod meeting;
mod renamed;
mod slips;
mod spoiled;
mod spots;
mod starts;

use adds::{agrees, count_agreed};
use audits::count_following;
use carried::count_carried;
use crossing::Crossing;
use meeting::Meeting;
use qc_disk::MemShop;
use rows_runs::{Tops, has_killed, run_text};
use rows_watched::WatchedShop;
use slips::fault_of_slip;
use std::alloc::Global;
use std::io;
use std::sync::Wait;
use std::thread::Threads;

/// Two sessions with a top each.
const AT_ONE_COPY: &str = r#"{"copies":1,"records":[
{"name":"x","start":0,"config":{"votes":[1],"read":1,"write":1}}],
"sessions":[{"tops":[{"tries":16,"steps":[["add","x",1]]}]},
{"tops":[{"tries":16,"steps":[["add","x",1]]}]}]}"#;

/// Two sessions, each of which writes a record at a copy of its own.
const AT_TWO_COPIES: &str = r#"{"copies":2,"records":[
{"name":"x","start":0,"config":{"votes":[1,0],"read":1,"write":1}},
{"name":"y","start":0,"config":{"votes":[0,1],"read":1,"write":1}}],
"sessions":[{"tops":[{"steps":[["set","x",1]]}]},{"tops":[{"steps":[["set","y",1]]}]}]}"#;

/// Two bodies at once, each of which writes a record at a copy of its own.
const AT_ONCE: &str = r#"{"copies":2,"records":[
{"name":"x","start":0,"config":{"votes":[1,0],"read":1,"write":1}},
{"name":"y","start":0,"config":{"votes":[0,1],"read":1,"write":1}}],
"sessions":[{"tops":[{"steps":[["par",[{"steps":[["set","x",1]]},{"steps":[["set","y",1]]}]]]}]}]}"#;

/// Two sessions, of which the second marks the top of the first, and then writes.
const MARKING: &str = r#"{"copies":2,"records":[
{"name":"x","start":0,"config":{"votes":[1,0],"read":1,"write":1}},
{"name":"y","start":0,"config":{"votes":[0,1],"read":1,"write":1}}],
"sessions":[{"tops":[{"steps":[["set","x",1],["set","x",2]]}]},
{"tops":[{"steps":[["kill",0],["set","y",1]]}]}]}"#;

// Runs two sessions that meet at a gate.
fn print_gate<R: Threads + Wait + Sync>(
    handle: &R,
    rt: &HostRuntime,
    alloc: Global,
    options: &str,
) -> io::Result<()> {
    let gate = Meeting::new();
    let mut shop = MemShop::new(Vec::new(alloc), Vec::new(alloc));
    let outcome = run_text(handle, alloc, options, AT_ONE_COPY, &mut shop, &gate)?;
    let word = if agrees(&outcome) { "each" } else { "not each" };
    println!(rt;
        ": status {}, {}, {word} commit counted",
        outcome.ran.status.code(),
        gate.met()
    )
}

// Runs sessions, or bodies at once, whose first writes meet.
fn print_disks<R: Threads + Wait + Sync>(
    handle: &R,
    rt: &HostRuntime,
    alloc: Global,
    script: &str,
    crossing: Crossing,
    options: &str,
) -> io::Result<()> {
    let mut shop = WatchedShop {
        shop: MemShop::new(Vec::new(alloc), Vec::new(alloc)),
        watch: &crossing,
    };
    let outcome = run_text(handle, alloc, options, script, &mut shop, &crossing)?;
    let entries = outcome.ran.trail.to_vec(alloc)?;
    let killed = if has_killed(entries.as_slice()) {
        "one is killed"
    } else {
        "none is killed"
    };
    println!(rt;
        ": status {}, {}, {killed}",
        outcome.ran.status.code(),
        crossing.met()
    )
}

// Spoils a trail.
fn print_slip<R: Threads + Wait + Sync>(
    handle: &R,
    rt: &HostRuntime,
    alloc: Global,
    kind: &str,
    seed: u64,
) -> io::Result<()> {
    match fault_of_slip(handle, alloc, kind, seed)? {
        Some(fault) => println!(rt; ": {fault}"),
        None => println!(rt; ": no fault"),
    }
}

// A number; what is none is 0.
fn number(word: &str) -> u64 {
    word.parse::<u64>().unwrap_or(0)
}

// Runs scripts of a seed.
fn print_follow<R: Threads + Wait + Sync>(
    handle: &R,
    rt: &HostRuntime,
    alloc: Global,
    tops: Tops,
    words: &str,
) -> io::Result<()> {
    let (seed, rest) = words.split_once(' ').unwrap_or((words, ""));
    let (runs, options) = rest.split_once(' ').unwrap_or((rest, ""));
    let count = count_following(handle, alloc, tops, number(seed), number(runs), options)?;
    println!(rt; ": {count}")
}

// Answers a question.
fn answer<R: Threads + Wait + Sync>(
    handle: &R,
    rt: &HostRuntime,
    alloc: Global,
    line: &str,
) -> io::Result<()> {
    print!(rt; "{line}")?;
    let (name, rest) = line.split_once(' ').unwrap_or((line, ""));
    let (first, second) = rest.split_once(' ').unwrap_or((rest, ""));
    match name {
        "gate" => print_gate(handle, rt, alloc, rest),
        "disks" => print_disks(handle, rt, alloc, AT_TWO_COPIES, Crossing::new(false), rest),
        "par" => print_disks(handle, rt, alloc, AT_ONCE, Crossing::new(false), rest),
        "kill" => print_disks(handle, rt, alloc, MARKING, Crossing::new(true), rest),
        "adds" => {
            let agreed = count_agreed(handle, alloc, number(first), number(second))?;
            println!(rt; ": {agreed} agreed")
        }
        "carries" => {
            let carried = count_carried(handle, alloc, number(first), number(second))?;
            println!(rt; ": {carried} carried")
        }
        "follow" => print_follow(handle, rt, alloc, Tops::InTurn, rest),
        "branches" => print_follow(handle, rt, alloc, Tops::AtOnce, rest),
        "slip" => print_slip(handle, rt, alloc, first, number(second)),
        _ => println!(rt;),
    }
}

fn main(rt: HostRuntime) -> io::Result<()> {
    let alloc = rt.alloc();
    for line in rt.lines(alloc) {
        answer(&rt, &rt, alloc, line?.as_str())?;
    }
    Ok(())
}
