//! Scripts, and how they are run.

use qc_disk::Shop;
use qc_run::io::{MemSink, MemSource};
use qc_run::{NoGate, Ran, run};
use std::alloc::{AllocError, Global};
use std::sync::Wait;
use std::thread::Threads;

/// Runs a script with these options over the disks of a shop.
pub(crate) fn run_with<R: Threads + Wait + Sync, H: Shop>(
    handle: &R,
    alloc: Global,
    options: &str,
    script: &str,
    mut shop: H,
) -> Result<Ran<H::D>, AllocError>
where
    H: Drop,
    H::D: Drop + Send,
{
    let mut words = Vec::new(alloc);
    words.push(String::from_str(alloc, "run")?)?;
    for word in options.split_ascii_whitespace() {
        words.push(String::from_str(alloc, word)?)?;
    }
    let bytes = script.as_bytes().to_vec(alloc)?;
    let mut source = MemSource::new(bytes, Vec::new(alloc));
    let mut sink = MemSink::new(alloc, Vec::new(alloc));
    Ok(run(
        handle,
        alloc,
        words.as_slice(),
        &mut source,
        &mut sink,
        &mut shop,
        &NoGate,
    ))
}

/// Runs a script in order over the disks of a shop.
pub(crate) fn run_script<R: Threads + Wait + Sync, H: Shop>(
    handle: &R,
    alloc: Global,
    script: &str,
    shop: H,
) -> Result<Ran<H::D>, AllocError>
where
    H: Drop,
    H::D: Drop + Send,
{
    run_with(handle, alloc, "--serial", script, shop)
}
