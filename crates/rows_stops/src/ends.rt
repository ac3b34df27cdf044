//! What runs come to whose disks stop.

use crate::command::run_script;
use crate::found::{has_committed, values_read};
use crate::store::{Store, calls_of};
use qc_disk::StopDisk;
use qc_run::Ran;
use std::alloc::{AllocError, Global};
use std::sync::Wait;
use std::thread::Threads;

/// What a run came to whose disks stopped at a call, and at how many calls in a row it came to the same: its status,
/// whether its top was committed, what it read, and what a crash then left of the disks.
#[derive(Drop)]
pub(crate) struct End {
    pub(crate) code: u8,
    pub(crate) committed: bool,
    pub(crate) read: Vec<u64>,
    pub(crate) left: Store,
    pub(crate) stops: u64,
}

/// What comes of the stops of a run at each of its calls in turn, and last of none: where a crash keeps what was not
/// synced, and where it loses it.
#[derive(Drop)]
pub(crate) struct Ends {
    pub(crate) calls: u64,
    pub(crate) kept: Vec<End>,
    pub(crate) lost: Vec<End>,
}

impl End {
    fn is_same(&self, other: &End) -> bool {
        self.code == other.code
            && self.committed == other.committed
            && self.read == other.read
            && self.left.is_same(&other.left)
    }
}

/// What a run came to, where a crash keeps what was not synced, or loses it.
pub(crate) fn end_of(alloc: Global, ran: &Ran<StopDisk>, kept: bool) -> Result<End, AllocError> {
    Ok(End {
        code: ran.status.code(),
        committed: has_committed(&ran.trail),
        read: values_read(alloc, &ran.trail)?,
        left: Store::left(alloc, &ran.disks, kept)?,
        stops: 1,
    })
}

// Adds an end, or counts it where it is that of the stop before it.
fn add(ends: &mut Vec<End>, end: End) -> Result<(), AllocError> {
    if let Some(last) = ends.last_mut()
        && last.is_same(&end)
    {
        last.stops = last.stops.saturating_add(1);
        return Ok(());
    }
    ends.push(end)?;
    Ok(())
}

/// What a script comes to over the disks of a store that stop.
pub(crate) fn ends_of<R: Threads + Wait + Sync>(
    handle: &R,
    alloc: Global,
    script: &str,
    store: &Store,
) -> Result<Ends, AllocError> {
    let calls = calls_of(&run_script(handle, alloc, script, store.shop(alloc)?)?.disks);
    let (mut kept, mut lost) = (Vec::new(alloc), Vec::new(alloc));
    for stop in 1..=calls.saturating_add(1) {
        let ran = run_script(handle, alloc, script, store.stop_shop(alloc, stop)?)?;
        add(&mut kept, end_of(alloc, &ran, true)?)?;
        add(&mut lost, end_of(alloc, &ran, false)?)?;
    }
    Ok(Ends { calls, kept, lost })
}

/// What a script that reads comes to over a store that does not stop: its status, and what it read.
pub(crate) fn read_over<R: Threads + Wait + Sync>(
    handle: &R,
    alloc: Global,
    script: &str,
    store: &Store,
) -> Result<(u8, Vec<u64>), AllocError> {
    let ran = run_script(handle, alloc, script, store.shop(alloc)?)?;
    Ok((ran.status.code(), values_read(alloc, &ran.trail)?))
}
