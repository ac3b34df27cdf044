//! Cases, and how they are run.
use qc_disk::MemDisk;
use qc_run::io::{MemSink, MemSource};
use qc_run::{NoGate, Ran, run};
use qc_script::{BadScript, Script};
use rows_kit::Shelf;
use std::alloc::{AllocError, Global};
use std::sync::Wait;
use std::thread::Threads;

/// What a line asks for.
#[derive(Drop)]
pub(crate) struct Case<'l> {
    words: &'l str,
    source_fails: u64,
    sink_fails: u64,
    script: &'l str,
    length: usize,
}

/// What came of it.
#[derive(Drop)]
pub(crate) struct Outcome {
    pub(crate) ran: Ran<MemDisk>,
    pub(crate) sink: MemSink,
}

impl<'l> Case<'l> {
    /// The case that a line tells.
    pub(crate) fn of(line: &'l str) -> Option<Self> {
        let mut fields = line.split('|');
        Some(Case {
            words: fields.next()?,
            source_fails: fields.next()?.parse::<u64>().ok()?,
            sink_fails: fields.next()?.parse::<u64>().ok()?,
            script: fields.next()?,
            length: fields.next().unwrap_or("0").parse::<usize>().ok()?,
        })
    }

    /// `gen N`: that command, over a source that fails when it is read.
    pub(crate) fn made(line: &'l str) -> Option<Self> {
        if !line.starts_with("gen ") {
            return None;
        }
        Some(Case {
            words: line,
            source_fails: 1,
            sink_fails: 0,
            script: "",
            length: 0,
        })
    }

    /// Runs it over the disks on the shelf, and puts back what came back.
    pub(crate) fn run<R: Threads + Wait + Sync>(
        &self,
        handle: &R,
        alloc: Global,
        shelf: &mut Shelf,
    ) -> Result<Outcome, AllocError> {
        let script = bytes_of(alloc, self.script, self.length)?;
        let copies = copies_of(alloc, self.words, script.as_slice());
        let words = words_of(alloc, self.words)?;
        let mut source = MemSource::new(script, vec![in alloc; self.source_fails]?);
        let mut sink = MemSink::new(alloc, vec![in alloc; self.sink_fails]?);
        let mut shop = shelf.shop()?;
        let ran = run(
            handle,
            alloc,
            &words,
            &mut source,
            &mut sink,
            &mut shop,
            &NoGate,
        );
        shelf.take_back_store(copies, &ran.disks)?;
        Ok(Outcome { ran, sink })
    }
}

// The script that is run: the one that the bytes are, or the one that is made of a number.
fn script_of(alloc: Global, words: &str, bytes: &[u8]) -> Result<Script, BadScript> {
    match words.strip_prefix("gen ") {
        Some(number) => Ok(Script::made(alloc, number.parse::<u64>().unwrap_or(0))?),
        None => Script::read(alloc, bytes),
    }
}

// How many copies it has. Where there is none, no disk is asked for.
fn copies_of(alloc: Global, words: &str, bytes: &[u8]) -> u8 {
    match script_of(alloc, words, bytes) {
        Ok(script) => script.table.copies,
        Err(_) => 0,
    }
}

fn words_of(alloc: Global, line: &str) -> Result<Vec<String>, AllocError> {
    let mut words = Vec::new(alloc);
    for word in line.split_whitespace() {
        words.push(String::from_str(alloc, word)?)?;
    }
    Ok(words)
}

// The bytes of a script, one for each character, so that a line can tell bytes that are no text.
fn bytes_of(alloc: Global, script: &str, length: usize) -> Result<Vec<u8>, AllocError> {
    let mut bytes = Vec::new(alloc);
    for letter in script.chars() {
        bytes.push(u8::try_from(letter).unwrap_or(b'?'))?;
    }
    for _ in bytes.len()..length {
        bytes.push(b' ')?;
    }
    Ok(bytes)
}
