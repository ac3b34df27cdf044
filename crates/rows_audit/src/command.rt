//! The command over a source in memory.
use qc_disk::{MemDisk, MemShop};
use qc_run::io::{MemSink, MemSource};
use qc_run::{NoGate, Ran, run};
use rows_kit::Shelf;
use std::alloc::{AllocError, Global};
use std::sync::Wait;
use std::thread::Threads;

/// Words, and streams that fail at these calls (0: never).
#[derive(Drop)]
pub(crate) struct Command {
    words: Vec<String>,
    bytes: Vec<u8>,
    source_fails: u64,
    sink_fails: u64,
}

/// What came of it.
#[derive(Drop)]
pub(crate) struct Outcome {
    pub(crate) ran: Ran<MemDisk>,
    pub(crate) sink: MemSink,
}

impl Command {
    /// A script is run, its sessions in order, and its trail saved.
    pub(crate) fn saving(alloc: Global, script: &str) -> Result<Self, AllocError> {
        Ok(Command {
            words: words_of(alloc, "run --serial --trail")?,
            bytes: script.as_bytes().to_vec(alloc)?,
            source_fails: 0,
            sink_fails: 0,
        })
    }

    /// Bytes are audited.
    pub(crate) fn auditing(
        alloc: Global,
        bytes: Vec<u8>,
        source_fails: u64,
        sink_fails: u64,
    ) -> Result<Self, AllocError> {
        Ok(Command {
            words: words_of(alloc, "audit")?,
            bytes,
            source_fails,
            sink_fails,
        })
    }

    /// Runs it over empty disks in memory.
    pub(crate) fn run<R: Threads + Wait + Sync>(
        self,
        handle: &R,
        alloc: Global,
    ) -> Result<Outcome, AllocError> {
        let mut source = MemSource::new(self.bytes, vec![in alloc; self.source_fails]?);
        let mut sink = MemSink::new(alloc, vec![in alloc; self.sink_fails]?);
        let mut shop: MemShop = Shelf::new(alloc).shop()?;
        let ran = run(
            handle,
            alloc,
            &self.words,
            &mut source,
            &mut sink,
            &mut shop,
            &NoGate,
        );
        Ok(Outcome { ran, sink })
    }
}

fn words_of(alloc: Global, line: &str) -> Result<Vec<String>, AllocError> {
    let mut words = Vec::new(alloc);
    for word in line.split_whitespace() {
        words.push(String::from_str(alloc, word)?)?;
    }
    Ok(words)
}
