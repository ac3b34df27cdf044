//! Reads and writes what each line says, over streams that fail where it says, and prints what came.
#![tactic(auto)]

mod sinks;
mod sources;

use std::alloc::Global;
use std::io;

// A number in a line; 0 for what is none.
fn number(word: &str) -> usize {
    word.parse::<usize>().unwrap_or(0)
}

// Writes a text to a writer that has so much room, straight or through a buffer.
fn write(rt: &HostRuntime, alloc: Global, room: usize, way: &str, text: &str) -> io::Result<()> {
    match way {
        "straight" => sinks::straight(rt, room, text),
        "buffered" => sinks::buffered(rt, alloc, room, text),
        _ => println!(rt; "what is this?"),
    }
}

// What a line says: where bytes go to or come from, two numbers, and a text.
fn case(rt: &HostRuntime, alloc: Global, line: &str) -> io::Result<()> {
    let words: Vec<&str> = line.splitn(4, ' ').collect(alloc)?;
    let [kind, first, second, text] = words.as_slice() else {
        return println!(rt; "what is this?");
    };
    match *kind {
        "source" => sources::memory(rt, alloc, number(first), number(second), number(text)),
        "reader" => sources::reader(rt, alloc, number(first), number(second), text),
        "sink" => sinks::memory(rt, alloc, number(first), number(second), text),
        "writer" => write(rt, alloc, number(first), second, text),
        _ => println!(rt; "what is this?"),
    }
}

fn main(rt: HostRuntime) -> io::Result<()> {
    let alloc = rt.alloc();
    for line in rt.lines(alloc) {
        case(&rt, alloc, line?.as_str())?;
    }
    Ok(())
}
