//! The command over a script's text, and over a trail that it saved.

use qc_disk::{MemDisk, MemShop, Shop};
use qc_run::io::{MemSink, MemSource};
use qc_run::{Gate, NoGate, Ran, run};
use std::alloc::{AllocError, Global};
use std::sync::Wait;
use std::thread::Threads;

/// What came of a run, and what it wrote.
#[derive(Drop)]
pub struct Outcome<D> {
    pub ran: Ran<D>,
    pub sink: MemSink,
}

// The words of a command with these options.
fn words_of(alloc: Global, command: &str, options: &str) -> Result<Vec<String>, AllocError> {
    let mut words = Vec::new(alloc);
    words.push(String::from_str(alloc, command)?)?;
    for word in options.split_ascii_whitespace() {
        words.push(String::from_str(alloc, word)?)?;
    }
    Ok(words)
}

// Does what words ask for, over bytes.
fn run_words<R: Threads + Wait + Sync, H: Shop, G: Gate + Sync>(
    handle: &R,
    alloc: Global,
    words: &[String],
    bytes: Vec<u8>,
    shop: &mut H,
    gate: &G,
) -> Outcome<H::D>
where
    H::D: Drop + Send,
{
    let mut source = MemSource::new(bytes, Vec::new(alloc));
    let mut sink = MemSink::new(alloc, Vec::new(alloc));
    let ran = run(handle, alloc, words, &mut source, &mut sink, shop, gate);
    Outcome { ran, sink }
}

/// Runs the script that the text is.
pub fn run_text<R: Threads + Wait + Sync, H: Shop, G: Gate + Sync>(
    handle: &R,
    alloc: Global,
    options: &str,
    script: &str,
    shop: &mut H,
    gate: &G,
) -> Result<Outcome<H::D>, AllocError>
where
    H::D: Drop + Send,
{
    let words = words_of(alloc, "run", options)?;
    let bytes = script.as_bytes().to_vec(alloc)?;
    Ok(run_words(handle, alloc, words.as_slice(), bytes, shop, gate))
}

/// Runs the script that the text is, over disks in memory, and saves its trail.
pub fn save_trail<R: Threads + Wait + Sync, G: Gate + Sync>(
    handle: &R,
    alloc: Global,
    options: &str,
    script: &str,
    gate: &G,
) -> Result<Outcome<MemDisk>, AllocError> {
    let mut words = words_of(alloc, "run", options)?;
    words.push(String::from_str(alloc, "--trail")?)?;
    let bytes = script.as_bytes().to_vec(alloc)?;
    let mut shop = MemShop::new(Vec::new(alloc), Vec::new(alloc));
    Ok(run_words(handle, alloc, words.as_slice(), bytes, &mut shop, gate))
}

/// Whether a saved trail is audited as legal, and as accepted by the serial machine.
pub fn passes_audit<R: Threads + Wait + Sync>(
    handle: &R,
    alloc: Global,
    saved: &[u8],
) -> Result<bool, AllocError> {
    let words = words_of(alloc, "audit", "")?;
    let bytes = saved.to_vec(alloc)?;
    let mut shop = MemShop::new(Vec::new(alloc), Vec::new(alloc));
    let outcome = run_words(handle, alloc, words.as_slice(), bytes, &mut shop, &NoGate);
    Ok(outcome.ran.status.code() == 0)
}
