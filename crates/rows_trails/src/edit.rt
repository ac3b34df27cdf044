//! Changes of a history. Each makes another history, and leaves the first as it is.
ghost use Rattle.std.specs.Prelude.{◌<◌, IfOk, length};

use crate::wrong::Wrong;
use qc_event::Entry;
use rows_text::{BadLine, Log, Words};
use std::alloc::Global;

fn append(log: &mut Log, entries: &[Entry]) -> Result<(), Wrong> {
    for entry in entries {
        log.push(*entry)?;
    }
    Ok(())
}

// The number of an entry that is there.
fn place(h: &[Entry], words: &mut Words<'_>) -> Result<usize, Wrong>
    ensures { IfOk result (λ at. at < length h.now) }
{
    let at = words.number()?;
    if at < h.len() {
        Ok(at)
    } else {
        Err(Wrong::Entry(at))
    }
}

fn first(log: &mut Log, h: &[Entry], words: &mut Words<'_>) -> Result<(), Wrong> {
    let at = place(h, words)?;
    append(log, &h[..at])
}

fn without(log: &mut Log, h: &[Entry], words: &mut Words<'_>) -> Result<(), Wrong> {
    let at = place(h, words)?;
    append(log, &h[..at])?;
    append(log, &h[at + 1..])
}

fn twice(log: &mut Log, h: &[Entry], words: &mut Words<'_>) -> Result<(), Wrong> {
    let at = place(h, words)?;
    append(log, &h[..at + 1])?;
    append(log, &h[at..])
}

fn seat(log: &mut Log, h: &[Entry], words: &mut Words<'_>) -> Result<(), Wrong> {
    let seat = words.number()?;
    words.expect("at")?;
    let at = place(h, words)?;
    append(log, &h[..at])?;
    log.push(Entry {
        seat,
        event: h[at].event,
    })?;
    append(log, &h[at + 1..])
}

fn replace(log: &mut Log, h: &[Entry], words: &mut Words<'_>) -> Result<(), Wrong> {
    let at = place(h, words)?;
    words.expect("by")?;
    append(log, &h[..at])?;
    words.append_entry(log)?;
    append(log, &h[at + 1..])
}

fn then(log: &mut Log, h: &[Entry], words: &mut Words<'_>) -> Result<(), Wrong> {
    append(log, h)?;
    words.append_entry(log)?;
    Ok(())
}

/// The history changed as the text says: `first 3` leaves the first three entries, `without 3` and `twice 3`
/// leave out or repeat an entry, `seat 19 at 3` and `replace 3 by ENTRY` change one, and `then ENTRY` appends.
pub fn edited(alloc: Global, h: &[Entry], text: &str) -> Result<Log, Wrong> {
    let mut log = Log::new(alloc);
    let mut words = Words::new(text);
    match words.word()? {
        "first" => first(&mut log, h, &mut words)?,
        "without" => without(&mut log, h, &mut words)?,
        "twice" => twice(&mut log, h, &mut words)?,
        "seat" => seat(&mut log, h, &mut words)?,
        "replace" => replace(&mut log, h, &mut words)?,
        "then" => then(&mut log, h, &mut words)?,
        _ => return Err(Wrong::Line(BadLine::Word)),
    }
    words.end()?;
    Ok(log)
}

/// The history as it is.
pub fn copied(alloc: Global, h: &[Entry]) -> Result<Log, Wrong> {
    let mut log = Log::new(alloc);
    append(&mut log, h)?;
    Ok(log)
}
