//! The times of a journal's appends, and of the writes and syncs that they are made of.
ghost use Rattle.std.specs.Prelude.{◌≡◌, ◌+◌, ◌*◌, ◌≤◌, max, IfOk, OnOk};
ghost use Rattle.qc_journal.specs.Journal.{IsUp, place_of};

use crate::trouble::Trouble;
use qc_disk::{Disk, DiskNo};
use qc_journal::Journal;
use std::alloc::Global;
use std::time::{Clock, Duration, Instant};

/// The body of each record.
const BODY: [u8; 32] = [b'q'; 32];

/// As many bytes as a journal writes behind a gate: a length, the body and the next gate.
const BLOCK: [u8; 37] = [b'q'; 37];

/// How long each took.
#[derive(Clone, Copy)]
pub(crate) struct Times {
    pub(crate) journal: Duration,
    pub(crate) bare: Duration,
}

// A disk on which nothing stands.
fn empty<D: Disk + Drop>(disk: D) -> Result<D, Trouble>
    ensures { IfOk result (λ d. (D.view d).size ≡ 0) }
{
    let mut disk = disk;
    if disk.len()? > 0 {
        return Err(Trouble::Disk);
    }
    Ok(disk)
}

// Mounts a journal on an empty disk.
fn mounted<D: Disk + Drop>(alloc: Global, disk: D) -> Result<Journal<D>, Trouble>
    ensures { IfOk result IsUp }
{
    match Journal::mount(alloc, empty(disk)?, u64::MAX) {
        Ok((journal, _)) => Ok(journal),
        Err((_, fault)) => Err(Trouble::from(fault)),
    }
}

// Makes the one byte on an empty disk that a mount makes.
fn with_gate<D: Disk + Drop>(disk: D) -> Result<D, Trouble>
    ensures { IfOk result (λ d. (D.view d).size ≡ 1) }
{
    let mut disk = empty(disk)?;
    disk.write_at(0, &[0])?;
    disk.sync()?;
    Ok(disk)
}

// The writes and syncs of an append behind a number of others.
fn write_both<D: Disk>(disk: &mut D, turn: u32) -> Result<(), DiskNo>
    requires { 37 * turn + 1 ≤ (D.view disk.old).size }
    ensures { OnOk result ((D.view disk.new).size ≡ max (D.view disk.old).size (37 * turn + 38)) }
{
    let place = 37 * u64::from(turn);
    disk.write_at(place + 1, &BLOCK)?;
    disk.sync()?;
    disk.write_at(place, &[1])?;
    disk.sync()
}

// The time of a number of appends.
fn journal_time<D: Disk>(
    clock: &impl Clock,
    journal: &mut Journal<D>,
    count: u32,
) -> Result<Duration, Trouble>
    requires { IsUp journal.old }
    ensures { OnOk result (place_of journal.new ≡ place_of journal.old + 37 * count) }
{
    let start = Instant::now(clock)?;
    for _turn in 0..count {
        journal.append(&BODY)?;
    }
    Ok(start.elapsed(clock)?)
}

// The time of the writes and syncs of a number of appends.
fn bare_time<D: Disk>(clock: &impl Clock, disk: &mut D, count: u32) -> Result<Duration, Trouble>
    requires { (D.view disk.old).size ≡ 1 }
    ensures { OnOk result ((D.view disk.new).size ≡ 1 + 37 * count) }
{
    let start = Instant::now(clock)?;
    for turn in 0..count {
        write_both(disk, turn)?;
    }
    Ok(start.elapsed(clock)?)
}

/// The times of a number of appends and of their writes alone, each on an empty disk. What makes a disk ready for
/// the first is in neither.
pub(crate) fn both_times<D: Disk + Drop>(
    clock: &impl Clock,
    alloc: Global,
    first: D,
    second: D,
    count: u32,
) -> Result<Times, Trouble> {
    let mut journal = mounted(alloc, first)?;
    let mut disk = with_gate(second)?;
    let journal = journal_time(clock, &mut journal, count)?;
    let bare = bare_time(clock, &mut disk, count)?;
    Ok(Times { journal, bare })
}
