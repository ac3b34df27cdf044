//! Reads the body that each line of the input is, in hex behind the word of its kind, and prints what it says and,
//! below that, the bytes that are written of it again, in the current format. What is no such body is `bad`. Blank
//! lines and titles, which begin with `#`, are printed as they are.
#![tactic(auto)]

mod bases;
mod ends;
mod events;
mod grants;
mod ledgers;
mod mades;
mod trails;

use qc_codec::CodecNo;
use rows_text::{BadLine, Words};
use std::alloc::Global;
use std::io;

/// What a line answers: whether it was printed, or why it says nothing.
type Answer = Result<io::Result<()>, BadLine>;

/// Prints why bytes were not read.
fn print_fault(rt: &HostRuntime, fault: CodecNo) -> io::Result<()> {
    match fault {
        CodecNo::Bad => println!(rt; "bad"),
        CodecNo::Memory => println!(rt; "no memory"),
    }
}

/// Prints bytes in hex.
fn print_bytes(rt: &HostRuntime, alloc: Global, bytes: &[u8]) -> io::Result<()> {
    let text = hex::encode(alloc, bytes)?;
    println!(rt; "{text}")
}

/// The bytes that the next word is in hex.
fn bytes_of(alloc: Global, words: &mut Words<'_>) -> Result<Vec<u8>, BadLine> {
    match hex::decode(alloc, words.word()?) {
        Ok(bytes) => Ok(bytes),
        Err(_) => Err(BadLine::Word),
    }
}

// Answers a line by its first word.
fn answer(rt: &HostRuntime, alloc: Global, line: &str) -> Answer {
    let mut words = Words::new(line);
    match words.word()? {
        "made" => mades::made(rt, alloc, words),
        "base" => bases::base(rt, alloc, words),
        "grant" => grants::grant(rt, alloc, words),
        "ledger" => ledgers::ledger(rt, alloc, words),
        "trail" => trails::trail(rt, alloc, words),
        _ => Err(BadLine::Word),
    }
}

fn case(rt: &HostRuntime, alloc: Global, line: &str) -> io::Result<()> {
    if line.is_empty() || line.starts_with('#') {
        return println!(rt; "{line}");
    }
    match answer(rt, alloc, line) {
        Ok(printed) => printed,
        Err(fault) => println!(rt; "{fault}: {line}"),
    }
}

fn main(rt: HostRuntime) -> io::Result<()> {
    let alloc = rt.alloc();
    for line in rt.lines(alloc) {
        case(&rt, alloc, line?.as_str())?;
    }
    Ok(())
}
