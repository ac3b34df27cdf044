//! What is printed of a run.
use crate::case::Outcome;
use qc_event::{Entry, Event, Kind, Op};
use rows_kit::Blank;
use std::alloc::Global;
use std::io;

/// Prints the status, the number of entries, what the copies did, and the text that was written.
pub(crate) fn print_outcome(rt: &HostRuntime, outcome: &Outcome) -> io::Result<()> {
    let ran = &outcome.ran;
    println!(rt; "status {}, entries {}", ran.status.code(), ran.trail.len())?;
    if !ran.trail.is_empty() {
        let entries = ran.trail.to_vec(rt.alloc())?;
        print_grants(rt, ran.start.copies(), entries.as_slice())?;
        print_order(rt, entries.as_slice())?;
    }
    print_text(rt, outcome.sink.bytes())
}

/// Prints the status and the text that was written.
pub(crate) fn print_end(rt: &HostRuntime, outcome: &Outcome) -> io::Result<()> {
    println!(rt; "status {}", outcome.ran.status.code())?;
    print_text(rt, outcome.sink.bytes())
}

/// Prints a text as it is.
pub(crate) fn print_text(rt: &HostRuntime, bytes: &[u8]) -> io::Result<()> {
    match std::str::from_utf8(bytes) {
        Ok(text) => print!(rt; "{text}"),
        Err(_) => println!(rt; "no text"),
    }
}

/// Prints the bytes of disks in hex, each behind its number.
pub(crate) fn print_disks(rt: &HostRuntime, alloc: Global, disks: &[Blank]) -> io::Result<()> {
    for disk in disks {
        let (which, bytes) = (disk.which, hex::encode(alloc, disk.bytes.as_slice())?);
        println!(rt; "disk {which} {bytes}")?;
    }
    Ok(())
}

// Prints the number of grants at each copy.
fn print_grants(rt: &HostRuntime, copies: usize, entries: &[Entry]) -> io::Result<()> {
    print!(rt; "grants")?;
    for copy in 0..copies {
        let granted = entries.iter().filter(|e| is_granted_at(e, copy));
        print!(rt; " {}", granted.count())?;
    }
    println!(rt;)
}

fn is_granted_at(entry: &Entry, at: usize) -> bool {
    match &entry.event {
        Event::Granted { copy, .. } => usize::from(*copy) == at,
        _ => false,
    }
}

// Prints what began and what the copies answered, in order: a body by its number, `[0]`; a grant by its
/// operation and copy, `g0` for a read, `v0` for a value, `c0` for a configuration; a refusal by its copy, `!0`.
fn print_order(rt: &HostRuntime, entries: &[Entry]) -> io::Result<()> {
    print!(rt; "order")?;
    for entry in entries {
        print_step(rt, &entry.event)?;
    }
    println!(rt;)
}

fn print_step(rt: &HostRuntime, event: &Event) -> io::Result<()> {
    match event {
        Event::Start {
            kind: Kind::User { body, .. },
            ..
        } => print!(rt; " [{body}]"),
        Event::Granted { copy, grant } => print!(rt; " {}{copy}", letter(&grant.op)),
        Event::Refused { copy, .. } => print!(rt; " !{copy}"),
        _ => Ok(()),
    }
}

fn letter(op: &Op) -> char {
    match op {
        Op::Get => 'g',
        Op::PutData { .. } => 'v',
        Op::PutConfig { .. } => 'c',
    }
}
