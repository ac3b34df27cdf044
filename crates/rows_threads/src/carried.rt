//! Sessions that add to one record, run after run over the disks of one store.

use crate::adds::{number_behind, script_of};
use qc_disk::{MemDisk, MemShop};
use qc_run::NoGate;
use rows_runs::run_text;
use std::alloc::{AllocError, Global};
use std::sync::Wait;
use std::thread::Threads;

/// The pairs of a store with three copies.
const PAIRS: usize = 4;

/// The number of the first spare.
const SPARES: usize = 17;

/// How long the ledger's journal is where it has just how its disk was made and a base.
const LEDGER: usize = 48;

/// How long a copy's then is.
const COPY: usize = 81;

// A disk with the bytes of another.
fn again(alloc: Global, disk: &MemDisk) -> Result<MemDisk, AllocError> {
    let bytes = disk.bytes().to_vec(alloc)?;
    Ok(MemDisk::new(bytes, Vec::new(alloc)))
}

// A shop of the disks that came back, each at its number.
fn shop_of(alloc: Global, back: &[MemDisk]) -> Result<MemShop, AllocError> {
    let (disks, spares) = back.split_at(back.len().min(PAIRS));
    let mut all = Vec::new(alloc);
    for disk in disks {
        all.push(again(alloc, disk)?)?;
    }
    for _ in all.len()..SPARES {
        all.push(MemDisk::new(Vec::new(alloc), Vec::new(alloc)))?;
    }
    for spare in spares {
        all.push(again(alloc, spare)?)?;
    }
    Ok(MemShop::new(all, Vec::new(alloc)))
}

// Whether each pair of the disks that came back was folded: one of both has just what a fold leaves.
fn are_folded(back: &[MemDisk]) -> bool {
    let (disks, spares) = back.split_at(back.len().min(PAIRS));
    let mut length = LEDGER;
    for (disk, spare) in disks.iter().zip(spares) {
        if disk.bytes().len() != length && spare.bytes().len() != length {
            return false;
        }
        length = COPY;
    }
    spares.len() == PAIRS
}

/// How many of so many runs of so many sessions, over the disks of one store, end with as great a value as the number
/// of tops that they and those before them committed, and leave each pair folded.
pub(crate) fn count_carried<R: Threads + Wait + Sync>(
    handle: &R,
    alloc: Global,
    sessions: u64,
    runs: u64,
) -> Result<u64, AllocError> {
    let script = script_of(alloc, sessions)?;
    let mut back = Vec::new(alloc);
    let mut committed: u64 = 0;
    let mut carried: u64 = 0;
    for _ in 0..runs {
        let mut shop = shop_of(alloc, back.as_slice())?;
        let outcome = run_text(handle, alloc, "", script.as_str(), &mut shop, &NoGate)?;
        let text = std::str::from_utf8(outcome.sink.bytes()).unwrap_or("");
        let more = number_behind(text, " committed ").unwrap_or(0);
        committed = committed.saturating_add(more);
        let last = number_behind(text, "\nfinal x ");
        let ran = outcome.ran;
        back = ran.disks;
        if last == Some(committed) && are_folded(back.as_slice()) {
            carried = carried.saturating_add(1);
        }
    }
    Ok(carried)
}
