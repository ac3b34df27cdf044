//! What is printed of runs.

use crate::command::Outcome;
use std::alloc::{AllocError, Global};
use std::io;

/// The lines of bytes that begin with a front, joined.
pub(crate) fn joined(alloc: Global, bytes: &[u8], front: &str) -> Result<String, AllocError> {
    let mut text = String::new(alloc);
    for line in std::str::from_utf8(bytes).unwrap_or("no text").lines() {
        if line.starts_with(front) {
            if !text.is_empty() {
                text.push_str("; ")?;
            }
            text.push_str(line)?;
        }
    }
    Ok(text)
}

/// What a run came to: its status, and the lines that it wrote.
pub(crate) fn told(alloc: Global, outcome: &Outcome) -> Result<String, AllocError> {
    let lines = joined(alloc, outcome.sink.bytes(), "")?;
    let code = outcome.ran.status.code();
    format!(in alloc; "status {code}: {lines}")
}

/// Prints the answers of the lengths from 0 on, a line for each run of equal ones.
pub(crate) fn print_spans(rt: &HostRuntime, answers: &[String]) -> io::Result<()> {
    let mut first = 0;
    for (last, answer) in answers.iter().enumerate() {
        let next = last.saturating_add(1);
        if answers.get(next) == Some(answer) {
            continue;
        }
        if first < last {
            println!(rt; "{first} to {last}: {answer}")?;
        } else {
            println!(rt; "{last}: {answer}")?;
        }
        first = next;
    }
    Ok(())
}
