//! Runs over disks that stop, and runs over what a crash then leaves of them.
//!
//! Disks stop together, at each of their calls in turn and last at none. What was written to a disk behind its last
//! sync is kept on each disk, or lost on each. Each line is printed, and behind it what it asks for:
//! - `transfer`: a script moves a number from one record to another over disks that stop, and another one reads both
//!   over what is left. By the calls: the status, whether the transfer was committed, and what was read.
//! - `second`: a script sets a record from 0 to 5 over disks that stop, another one reads it over what is left, and
//!   stops too, and does so once more over what is left then. By what is kept or lost the first time and the second:
//!   how many triples of runs there are, and how many end in which way. What is read last is 5 where the first run
//!   committed, and else 5 or 0; where the second run read, it is the same.
//! - `fold`: the same, but that the first run begins over disks into which an earlier one has folded.
//!
//! A line `memory BEFORE NUMBER OPTIONS` is for `bench/memory`: a request for memory of the process is refused, by its
//! number, and so many are made before the transfer. It prints whether the transfer met it, and what it came to.
#![tactic(auto)]

mod command;
mod ends;
mod found;
mod memory;
mod second;
mod store;
mod tally;
mod transfer;

use memory::{Refusal, print_refusal};
use second::{print_fold, print_second};
use std::io;
use std::sync::Wait;
use std::thread::Threads;
use transfer::print_transfer;

// Answers a line.
fn answer<R: Threads + Wait + Sync>(handle: &R, rt: &HostRuntime, line: &str) -> io::Result<()> {
    println!(rt; "{line}")?;
    match line {
        "transfer" => print_transfer(handle, rt, rt.alloc()),
        "second" => print_second(handle, rt, rt.alloc()),
        "fold" => print_fold(handle, rt, rt.alloc()),
        _ => match Refusal::of(line) {
            Some(refusal) => print_refusal(handle, rt, rt.alloc(), refusal),
            None => Ok(()),
        },
    }
}

fn main(rt: HostRuntime) -> io::Result<()> {
    for line in rt.lines(rt.alloc()) {
        answer(&rt, &rt, line?.as_str())?;
    }
    Ok(())
}
