//! Runs scripts and disks that are cut short, and runs over streams and a shop that fail.
//!
//! Each line is printed, and behind it what it asks for:
//! - `prefixes`: what each proper front of a script comes to, by its length.
//! - `brackets COUNT`: what so many opening brackets come to.
//! - `cut W`: a script sets a record, and a second one reads it over the disks that the first left. Disk W is cut to
//!   each length in turn, and the spares are empty; what the second comes to, by the length.
//! - `kept W`: the same with the spares as the first left them. Disk 17 + W is the spare of disk W.
//! - `source`, `sink`: a script moves a number from one record to another over a stream that fails at a call, from the
//!   first on until a run meets no failure; by the call, the status, what was written, and how many disks came back,
//!   with what a script that reads both records over them comes to.
//! - `shop`: the same over a shop that fails at each of its disks in turn, by the disk.
//!
//! What a run comes to is its status and the lines that it wrote. Titles, which begin with `#`, and empty lines are
//! printed as they are.
#![tactic(auto)]

mod command;
mod cuts;
mod faults;
mod store;
mod told;

use cuts::{print_brackets, print_cuts, print_prefixes};
use faults::{Stream, print_shop, print_stream};
use std::io;
use std::sync::Wait;
use std::thread::Threads;

// Answers a line.
fn answer<R: Threads + Wait + Sync>(handle: &R, rt: &HostRuntime, line: &str) -> io::Result<()> {
    let alloc = rt.alloc();
    println!(rt; "{line}")?;
    let (name, word) = line.split_once(' ').unwrap_or((line, ""));
    let number = word.parse::<usize>().unwrap_or(0);
    match name {
        "prefixes" => print_prefixes(handle, rt, alloc),
        "brackets" => print_brackets(handle, rt, alloc, number),
        "cut" => print_cuts(handle, rt, alloc, number, false),
        "kept" => print_cuts(handle, rt, alloc, number, true),
        "source" => print_stream(handle, rt, alloc, Stream::Source),
        "sink" => print_stream(handle, rt, alloc, Stream::Sink),
        "shop" => print_shop(handle, rt, alloc),
        _ => Ok(()),
    }
}

fn main(rt: HostRuntime) -> io::Result<()> {
    for line in rt.lines(rt.alloc()) {
        answer(&rt, &rt, line?.as_str())?;
    }
    Ok(())
}
