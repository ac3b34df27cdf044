//! Saves trails and audits them.
//!
//! A line is printed with what came of it. `save SCRIPT` runs a script's sessions in order, and keeps the saved trail;
//! `load BYTES` keeps these, in hex. `bytes` prints what is kept. `audit` audits it, and `audit EDIT ..` what the edits
//! make of it: `PLACE=BYTES` puts bytes over others, `PLACE+BYTES` between others, and `PLACE-NUMBER` takes some out.
//! `source N` and `sink N` audit it where that stream fails at its Nth call. Titles, which begin with `#`, and empty
//! lines are printed as they are.
#![tactic(auto)]

mod command;
mod edits;

use command::Command;
use edits::edited;
use qc_run::Ran;
use qc_run::io::MemSink;
use rows_kit::is_title;
use std::alloc::Global;
use std::io;
use std::sync::Wait;
use std::thread::Threads;

// Prints the status, and the text that was written.
fn print_said<D>(rt: &HostRuntime, ran: &Ran<D>, sink: &MemSink) -> io::Result<()> {
    println!(rt; "status {}", ran.status.code())?;
    match std::str::from_utf8(sink.bytes()) {
        Ok(text) => print!(rt; "{text}"),
        Err(_) => println!(rt; "no text"),
    }
}

// Runs a script and keeps what it saved.
fn save<R: Threads + Wait + Sync>(
    handle: &R,
    rt: &HostRuntime,
    kept: &mut Vec<u8>,
    script: &str,
) -> io::Result<()> {
    let alloc = rt.alloc();
    let outcome = Command::saving(alloc, script)?.run(handle, alloc)?;
    *kept = outcome.sink.bytes().to_vec(alloc)?;
    let (status, entries) = (outcome.ran.status.code(), outcome.ran.trail.len());
    println!(rt; "status {status}, entries {entries}, bytes {}", kept.len())
}

// Audits bytes, with streams that fail at these calls.
fn audit<R: Threads + Wait + Sync>(
    handle: &R,
    rt: &HostRuntime,
    bytes: Vec<u8>,
    source_fails: u64,
    sink_fails: u64,
) -> io::Result<()> {
    let alloc = rt.alloc();
    let outcome = Command::auditing(alloc, bytes, source_fails, sink_fails)?.run(handle, alloc)?;
    print_said(rt, &outcome.ran, &outcome.sink)
}

// Does what a line asks for.
fn answer<R: Threads + Wait + Sync>(
    handle: &R,
    rt: &HostRuntime,
    kept: &mut Vec<u8>,
    line: &str,
) -> io::Result<()> {
    let alloc = rt.alloc();
    let mut words = line.splitn(2, ' ');
    let (name, rest) = (words.next().unwrap_or(""), words.next().unwrap_or(""));
    match name {
        "save" => save(handle, rt, kept, rest),
        "load" => match hex::decode(alloc, rest) {
            Ok(bytes) => {
                *kept = bytes;
                Ok(())
            }
            Err(_) => println!(rt; "no hex"),
        },
        "bytes" => println!(rt; "{}", hex::encode(alloc, kept.as_slice())?),
        "audit" => match edited(alloc, kept.as_slice(), rest)? {
            Some(bytes) => audit(handle, rt, bytes, 0, 0),
            None => println!(rt; "no edit"),
        },
        "source" => audit(
            handle,
            rt,
            kept.to_vec(alloc)?,
            rest.parse::<u64>().unwrap_or(0),
            0,
        ),
        "sink" => audit(
            handle,
            rt,
            kept.to_vec(alloc)?,
            0,
            rest.parse::<u64>().unwrap_or(0),
        ),
        _ => println!(rt; "no such line"),
    }
}

fn main(rt: HostRuntime) -> io::Result<()> {
    let alloc: Global = rt.alloc();
    let mut kept = Vec::new(alloc);
    for line in rt.lines(alloc) {
        let line = line?;
        let line = line.as_str();
        println!(&rt; "{line}")?;
        if !is_title(line) {
            answer(&rt, &rt, &mut kept, line)?;
        }
    }
    Ok(())
}
