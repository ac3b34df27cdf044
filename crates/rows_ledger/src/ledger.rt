//! Steps on a ledger.
ghost use Rattle.std.specs.Prelude.{IfOk, IfSome};
ghost use Rattle.qc_codec.specs.Bodies as body;
ghost use Rattle.qc_codec.specs.Fields.{current_format};
ghost use Rattle.qc_codec.specs.declared.record.Made.{Made};

use crate::answer::{active, done, hand_text, mounted as mounted_text, no_such, not_now, refused};
use crate::folds::{Folds, Ready};
use crate::state::State;
use qc_codec::{LedgerRecord, Made, read_ledger};
use qc_disk::MemDisk;
use qc_ledger::{Shelf, mount_pair};
use rows_kit::{Step, bytes, made_of, said};
use std::alloc::{AllocError, Global};

/// How disk 0 was made, for a store of one copy and the record `x`, which starts with 0.
const X0: &str = "01020001010178000000000000000000010100010001";

/// The same, where it starts with 1.
const X1: &str = "01020001010178000000000000000001010100010001";

// How disk 0 was made, by the table that a step says.
fn made(alloc: Global, step: &Step<'_>) -> Result<Option<Made>, AllocError>
    ensures { IfOk result (λ made. IfSome made (λ m. (body.table current_format).fits m.table)) }
{
    made_of(alloc, if step.word(1) == "x1" { X1 } else { X0 })
}

/// Mounts a ledger beside an empty spare, which is dropped.
pub(crate) fn mounted(
    alloc: Global,
    disk: MemDisk,
    step: &Step<'_>,
) -> Result<(State, String), AllocError> {
    let Some(made) = made(alloc, step)? else {
        return State::Disk(disk).no_such(alloc);
    };
    let spare = MemDisk::new(Vec::new(alloc), Vec::new(alloc));
    match mount_pair(alloc, disk, spare, &made.table, step.number(0)) {
        Ok((book, _, past, epoch)) => {
            let text = mounted_text(alloc, epoch, &past)?;
            Ok((State::Book(book, epoch, Folds::NoSpare), text))
        }
        Err((disk, _, no)) => Ok((State::Disk(disk), refused(alloc, &no)?)),
    }
}

/// Mounts a ledger with its spare. A refusal gives the spare back beside the disk.
pub(crate) fn both(
    alloc: Global,
    disk: MemDisk,
    spare: MemDisk,
    step: &Step<'_>,
) -> Result<(State, Option<MemDisk>, String), AllocError> {
    let Some(made) = made(alloc, step)? else {
        return Ok((State::Disk(disk), Some(spare), no_such(alloc)?));
    };
    match mount_pair(alloc, disk, spare, &made.table, step.number(0)) {
        Ok((book, fold, past, epoch)) => {
            let mut text = active(alloc, fold.disk(0))?;
            text.push_str(mounted_text(alloc, epoch, &past)?.as_str())?;
            let folds = Folds::Ready(Ready { fold });
            Ok((State::Book(book, epoch, folds), None, text))
        }
        Err((disk, spare, no)) => Ok((State::Disk(disk), Some(spare), no.to_string(alloc)?)),
    }
}

// Logs a top, where the ledger is up with nothing in hand.
fn log_top(
    alloc: Global,
    shelf: &mut Shelf<MemDisk>,
    told: &LedgerRecord,
) -> Result<String, AllocError>
    requires { body.ledger.fits told.now }
{
    let LedgerRecord::Top { top, aborted } = told else {
        return no_such(alloc);
    };
    if !shelf.is_up() {
        return not_now(alloc);
    }
    match shelf.hand() {
        Some(_) => not_now(alloc),
        None => done(alloc, shelf.log(top, aborted.as_slice())),
    }
}

// Logs the top that bytes tell.
fn log(alloc: Global, shelf: &mut Shelf<MemDisk>, word: &str) -> Result<String, AllocError> {
    let spelled = bytes(alloc, word)?;
    match read_ledger(alloc, &spelled) {
        Ok(told) => log_top(alloc, shelf, &told),
        Err(_) => no_such(alloc),
    }
}

// Revives a ledger, where it is down.
fn revive(alloc: Global, shelf: &mut Shelf<MemDisk>) -> Result<String, AllocError> {
    if shelf.is_up() {
        return not_now(alloc);
    }
    match shelf.revive() {
        Ok(stands) => stands.to_string(alloc),
        Err(no) => no.to_string(alloc),
    }
}

/// Makes a step on an open ledger.
pub(crate) fn on_shelf(
    alloc: Global,
    shelf: &mut Shelf<MemDisk>,
    step: &Step<'_>,
) -> Result<String, AllocError> {
    match step.name {
        "log" => log(alloc, shelf, step.word(0)),
        "revive" => revive(alloc, shelf),
        "let" => {
            shelf.let_go();
            said(alloc, "ok")
        }
        "hand" => hand_text(alloc, &shelf.hand()),
        "up" => shelf.is_up().to_string(alloc),
        _ => no_such(alloc),
    }
}
