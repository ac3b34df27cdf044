//! Sinks that take texts.

use qc_io::{Failed, MemSink, StdSink, write_all};
use std::alloc::Global;
use std::io::{self, BufWriter};

// Prints whether a text was written.
fn print_written(rt: &HostRuntime, written: Result<(), Failed>) -> io::Result<()> {
    match written {
        Ok(()) => println!(rt; "written"),
        Err(Failed) => println!(rt; "failed"),
    }
}

// Prints bytes as the text that they are.
fn print_bytes(rt: &HostRuntime, bytes: &[u8]) -> io::Result<()> {
    let text = std::str::from_utf8(bytes).unwrap_or("no text");
    println!(rt; "took '{text}'")
}

/// Writes texts with commas between them to memory, where two calls fail, and prints what was taken.
pub(crate) fn memory(
    rt: &HostRuntime,
    alloc: Global,
    first: usize,
    second: usize,
    texts: &str,
) -> io::Result<()> {
    let mut sink = MemSink::new(alloc, vec![in alloc; first as u64, second as u64]?);
    for text in texts.split(',') {
        print_written(rt, write_all(&mut sink, text.as_bytes()))?;
    }
    print_bytes(rt, sink.bytes())
}

/// Writes a text to a writer that has so much room, and prints what it took.
pub(crate) fn straight(rt: &HostRuntime, room: usize, text: &str) -> io::Result<()> {
    let mut bytes = [0; 16];
    let room = room.min(16);
    let written = write_all(&mut StdSink::new(&mut bytes[..room]), text.as_bytes());
    print_written(rt, written)?;
    print_bytes(rt, &bytes[..room.min(text.len())])
}

/// Writes a text to a buffer before a writer that has so much room, and prints what the writer took.
pub(crate) fn buffered(rt: &HostRuntime, alloc: Global, room: usize, text: &str) -> io::Result<()> {
    let mut bytes = [0; 16];
    let room = room.min(16);
    let writer = BufWriter::new(alloc, &mut bytes[..room])?;
    let written = write_all(&mut StdSink::new(writer), text.as_bytes());
    print_written(rt, written)?;
    print_bytes(rt, &bytes[..room.min(text.len())])
}
