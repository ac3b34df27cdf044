//! A transfer whose disks stop.

use crate::command::run_with;
use crate::ends::{End, end_of, ends_of, read_over};
use crate::store::Store;
use std::alloc::{AllocError, Global};
use std::io;
use std::sync::Wait;
use std::thread::Threads;

/// Three copies, and a top with a child that moves 30 from one record to the other.
const MOVING: &str = r#"{"copies":3,"records":[
{"name":"a","start":100,"config":{"votes":[1,1,1],"read":2,"write":2}},
{"name":"b","start":0,"config":{"votes":[1,1,1],"read":2,"write":2}}],
"sessions":[{"tops":[{"steps":[["child",{"must":true,
"steps":[["need","a",30],["sub","a",30],["add","b",30]]}]]}]}]}"#;

/// A top that reads both records.
const READING: &str = r#"{"copies":3,"records":[
{"name":"a","start":100,"config":{"votes":[1,1,1],"read":2,"write":2}},
{"name":"b","start":0,"config":{"votes":[1,1,1],"read":2,"write":2}}],
"sessions":[{"tops":[{"steps":[["read","a"],["read","b"]]}]}]}"#;

/// Stops in a row, and what each comes to.
#[derive(Drop)]
struct Span {
    stops: u64,
    text: String,
}

// What a transfer came to, and what is read over what a crash then left of its disks.
fn told<R: Threads + Wait + Sync>(
    handle: &R,
    alloc: Global,
    end: &End,
) -> Result<String, AllocError> {
    let (next, read) = read_over(handle, alloc, READING, &end.left)?;
    let then = match (next, read.as_slice()) {
        (0, [70, 30]) => "a 70 b 30",
        (0, [100, 0]) if !end.committed => "a 100 b 0",
        (5, _) => "a write fault",
        (9, _) => "no memory",
        _ => "WRONG",
    };
    let (code, word) = (end.code, if end.committed { "" } else { "not " });
    format!(in alloc; "status {code}, {word}committed, then {then}")
}

// Adds a span, or lengthens the last one where it comes to the same.
fn add(spans: &mut Vec<Span>, span: Span) -> Result<(), AllocError> {
    if let Some(last) = spans.last_mut()
        && last.text == span.text
    {
        last.stops = last.stops.saturating_add(span.stops);
        return Ok(());
    }
    spans.push(span)?;
    Ok(())
}

// What the stops come to, the first one first.
fn spans_of<R: Threads + Wait + Sync>(
    handle: &R,
    alloc: Global,
    ends: &[End],
) -> Result<Vec<Span>, AllocError> {
    let mut spans = Vec::new(alloc);
    for end in ends {
        let text = told(handle, alloc, end)?;
        let stops = end.stops;
        add(&mut spans, Span { stops, text })?;
    }
    Ok(spans)
}

// Prints each span by its calls.
fn print_spans(rt: &HostRuntime, word: &str, spans: &[Span]) -> io::Result<()> {
    let mut before: u64 = 0;
    for span in spans {
        let (first, last) = (before.saturating_add(1), before.saturating_add(span.stops));
        let text = span.text.as_str();
        if first < last {
            println!(rt; "{word}, {first} to {last}: {text}")?;
        } else {
            println!(rt; "{word}, {last}: {text}")?;
        }
        before = last;
    }
    Ok(())
}

/// Moves over empty disks that stop at each of their calls in turn.
pub(crate) fn print_transfer<R: Threads + Wait + Sync>(
    handle: &R,
    rt: &HostRuntime,
    alloc: Global,
) -> io::Result<()> {
    let ends = ends_of(handle, alloc, MOVING, &Store::empty(alloc))?;
    let calls = ends.calls;
    println!(rt; "{calls} stops, and a run without one")?;
    print_spans(rt, "kept", &spans_of(handle, alloc, &ends.kept)?)?;
    print_spans(rt, "lost", &spans_of(handle, alloc, &ends.lost)?)
}

/// Moves with these options over empty disks that do not stop, and tells what came of it.
pub(crate) fn told_of_transfer<R: Threads + Wait + Sync>(
    handle: &R,
    alloc: Global,
    options: &str,
) -> Result<String, AllocError> {
    let shop = Store::empty(alloc).stop_shop(alloc, u64::MAX)?;
    let ran = run_with(handle, alloc, options, MOVING, shop)?;
    told(handle, alloc, &end_of(alloc, &ran, true)?)
}
