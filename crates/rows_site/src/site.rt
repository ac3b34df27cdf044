//! Mounting a copy.
ghost use Rattle.qc_codec.specs.Bodies as body;
ghost use Rattle.qc_codec.specs.Fields.{current_format};
ghost use Rattle.qc_codec.specs.declared.record.Made.{Made};

use crate::answer::refused;
use crate::state::State;
use qc_codec::{LedgerRecord, Logged, Made, Past, Tops, read_ledger};
use qc_disk::MemDisk;
use qc_names::lists::append_moved;
use qc_site::mount_pair;
use rows_kit::{Step, bytes, made_of, said};
use std::alloc::{AllocError, Global};

// The top that a record tells.
fn logged_in(told: LedgerRecord) -> Option<Logged> {
    match told {
        LedgerRecord::Made(_) | LedgerRecord::Epoch(_) => None,
        LedgerRecord::Top { top, aborted } => Some(Logged { top, aborted }),
    }
}

// The top that a body tells.
fn logged_by(alloc: Global, word: &str) -> Result<Option<Logged>, AllocError> {
    let spelled = bytes(alloc, word)?;
    match read_ledger(alloc, &spelled) {
        Ok(told) => Ok(logged_in(told)),
        Err(_) => Ok(None),
    }
}

// What a ledger told: an epoch, and the tops of bodies. A word that is none tells nothing.
fn past_by(alloc: Global, epoch: u32, words: &[&str]) -> Result<Past, AllocError> {
    let mut tops = Vec::new(alloc);
    for word in words {
        if let Some(logged) = logged_by(alloc, word)? {
            append_moved(&mut tops, logged)?;
        }
    }
    Ok(Past {
        epoch,
        base: None,
        tops: Tops::new(tops),
    })
}

// Mounts the copy of a made record beside an empty spare, which is dropped.
fn mounted_by(
    alloc: Global,
    disk: MemDisk,
    made: &Made,
    past: &Past,
    limit: u64,
) -> Result<(State, String), AllocError>
    requires { (body.table current_format).fits made.now.table }
{
    if made.who == 0 || made.who > made.table.copies {
        return State::Disk(disk).no_such(alloc);
    }
    let copy = made.who - 1;
    let spare = MemDisk::new(Vec::new(alloc), Vec::new(alloc));
    let epoch = past.epoch.saturating_add(1);
    match mount_pair(alloc, copy, disk, spare, &made.table, past, epoch, limit) {
        Ok((site, _)) => Ok((State::Mounted(site), said(alloc, "ok")?)),
        Err((disk, _, no)) => Ok((State::Disk(disk), refused(alloc, &no)?)),
    }
}

/// Mounts a copy.
pub(crate) fn mounted(
    alloc: Global,
    disk: MemDisk,
    step: &Step<'_>,
) -> Result<(State, String), AllocError> {
    let Some(made) = made_of(alloc, step.word(1))? else {
        return State::Disk(disk).no_such(alloc);
    };
    let epoch = step.word(2).parse::<u32>().unwrap_or(0);
    let past = past_by(alloc, epoch, step.words_from(3))?;
    mounted_by(alloc, disk, &made, &past, step.number(0))
}
