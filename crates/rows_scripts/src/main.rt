//! Runs the case that each line of the input is, and prints what came of it.
//!
//! A case is the command's words, the calls at which the source and the sink fail (0: never), and the
//! script, with bars between them. Where a fifth field stands, blanks are put behind the script up to that
//! length. Blank lines and titles, which begin with `#`, are printed as they are.
//!
//! A case runs over empty disks in memory, but that a line before it begins with `disks:`, which is printed
//! too. Behind that stand steps with `;` between:
//! - `keep`: the disks are those that came back from the last case.
//! - `image N BODY ..`: disk N is a journal of these records, each body in hex.
//! - `bytes N HEX`: disk N has these bytes.
//! - `fail N CALL done CALL not ..`: disk N fails at these calls, its work done or not.
//! - `shop N ..`: the shop fails at these numbers.
//!
//! Disk 17 + N is the spare of disk N. A line `bytes:` prints what the disks that came back from the last case have, in
//! hex. A line `gen N` runs that command over a source that fails when it is read, and `text N SCRIPT` tells whether the
//! script made of N is the one that the text is.
#![tactic(auto)]

mod case;
mod same;
mod told;

use case::Case;
use qc_run::{Status, fault_line};
use rows_kit::{Shelf, Step, is_title};
use same::print_same;
use std::alloc::Global;
use std::io;
use std::sync::Wait;
use std::thread::Threads;
use told::{print_disks, print_end, print_outcome, print_text};

// Prints the line of each status that no case can reach.
fn print_unreached(rt: &HostRuntime, alloc: Global) -> io::Result<()> {
    for status in [Status::Memory, Status::Room] {
        println!(rt; "# Status {}", status.code())?;
        print_text(rt, &fault_line(alloc, &status)?)?;
    }
    Ok(())
}

// Makes the steps of a line on the disks of the next case.
fn prepare(rt: &HostRuntime, alloc: Global, shelf: &mut Shelf, steps: &str) -> io::Result<()> {
    println!(rt; "disks:{steps}")?;
    for text in steps.split(';') {
        if shelf.step(&Step::of(alloc, text)?)?.is_none() {
            println!(rt; "no step: {text}")?;
        }
    }
    Ok(())
}

// Runs the case that a line is, or compares its text.
fn run_line<R: Threads + Wait + Sync>(
    handle: &R,
    rt: &HostRuntime,
    shelf: &mut Shelf,
    line: &str,
) -> io::Result<()> {
    let alloc = rt.alloc();
    if let Some(case) = Case::of(line) {
        return print_outcome(rt, &case.run(handle, alloc, shelf)?);
    }
    if let Some(case) = Case::made(line) {
        return print_end(rt, &case.run(handle, alloc, shelf)?);
    }
    match line.strip_prefix("text ") {
        Some(text) => print_same(rt, alloc, text),
        None => println!(rt; "no case: {line}"),
    }
}

// Prints a line, makes its steps, or runs it.
fn answer<R: Threads + Wait + Sync>(
    handle: &R,
    rt: &HostRuntime,
    shelf: &mut Shelf,
    line: &str,
) -> io::Result<()> {
    if is_title(line) {
        return println!(rt; "{line}");
    }
    if line == "bytes:" {
        return print_disks(rt, rt.alloc(), shelf.back());
    }
    match line.strip_prefix("disks:") {
        Some(steps) => prepare(rt, rt.alloc(), shelf, steps),
        None => run_line(handle, rt, shelf, line),
    }
}

fn main(rt: HostRuntime) -> io::Result<()> {
    let alloc = rt.alloc();
    print_unreached(&rt, alloc)?;
    let mut shelf = Shelf::new(alloc);
    for line in rt.lines(alloc) {
        answer(&rt, &rt, &mut shelf, line?.as_str())?;
    }
    Ok(())
}
