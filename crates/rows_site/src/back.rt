//! Reading a copy's disk back.
ghost use Rattle.std.specs.Prelude.{◌≤◌};

use crate::state::State;
use qc_codec::{FORMAT, read_grant};
use qc_disk::MemDisk;
use qc_event::{Grant, Op};
use qc_journal::Journal;
use qc_names::lists::append;
use qc_site::{BackNo, Strange, read_back};
use rows_kit::{Step, bytes, made_of, said};
use std::alloc::{AllocError, Global};

// It makes the type known that a grant holds.
fn is_op(_op: &Op) {}

// The grant that a body is; what is none is nothing.
fn grant_by(alloc: Global, copies: u8, word: &str) -> Result<Option<Grant>, AllocError>
    requires { copies ≤ 16 }
{
    let spelled = bytes(alloc, word)?;
    Ok(read_grant(&spelled, copies, FORMAT).ok())
}

fn grants_by(alloc: Global, copies: u8, words: &[&str]) -> Result<Vec<Grant>, AllocError>
    requires { copies ≤ 16 }
{
    let mut grants = Vec::new(alloc);
    for word in words {
        if let Some(grant) = grant_by(alloc, copies, word)? {
            is_op(&grant.op);
            append(&mut grants, grant)?;
        }
    }
    Ok(grants)
}

// The access of a grant; none is a stroke.
fn access(alloc: Global, grant: &Option<Grant>) -> Result<String, AllocError> {
    match grant {
        Some(grant) => grant.access.to_string(alloc),
        None => said(alloc, "-"),
    }
}

// At which record the disk differs from the history, and both accesses.
fn differs(
    alloc: Global,
    index: u64,
    disk: &Option<Grant>,
    desk: &Option<Grant>,
) -> Result<String, AllocError> {
    let disk = access(alloc, disk)?;
    let desk = access(alloc, desk)?;
    format!(in alloc; "strange: at {index} the disk has {disk} and the history {desk}")
}

fn strange(alloc: Global, why: &Strange) -> Result<String, AllocError> {
    match why {
        Strange::Broken { place } => format!(in alloc; "strange: broken at {place}"),
        Strange::Grammar { index } => format!(in alloc; "strange: record {index} grammar"),
        Strange::Short { records, old } => {
            format!(in alloc; "strange: {records} records where {old} were")
        }
        Strange::Differs { index, disk, desk } => differs(alloc, *index, disk, desk),
    }
}

fn told(alloc: Global, answer: &Result<bool, BackNo>) -> Result<String, AllocError> {
    match answer {
        Ok(stands) => stands.to_string(alloc),
        Err(BackNo::Disk) => said(alloc, "the disk failed"),
        Err(BackNo::Memory) => said(alloc, "no memory"),
        Err(BackNo::Strange(why)) => strange(alloc, why),
    }
}

// How many copies the table of a made record has; none where it is no such record.
fn copies_by(alloc: Global, word: &str) -> Result<Option<u8>, AllocError> {
    match made_of(alloc, word)? {
        Some(made) => Ok(Some(made.table.copies)),
        None => Ok(None),
    }
}

// Reads a mounted journal back, by the words of a step.
fn reading(
    alloc: Global,
    journal: &mut Journal<MemDisk>,
    copies: u8,
    step: &Step<'_>,
) -> Result<String, AllocError>
    requires { copies ≤ 16 }
{
    let old = step.number(1) as usize;
    let hand = grant_by(alloc, copies, step.word(2))?;
    let given = grants_by(alloc, copies, step.words_from(3))?;
    told(
        alloc,
        &read_back(alloc, journal, copies, old, &given, &hand),
    )
}

/// Reads a disk back, by a journal over it.
pub(crate) fn back(
    alloc: Global,
    disk: MemDisk,
    step: &Step<'_>,
) -> Result<(State, String), AllocError> {
    let copies = match copies_by(alloc, step.word(0))? {
        Some(copies) if copies <= 16 => copies,
        _ => return State::Disk(disk).no_such(alloc),
    };
    match Journal::mount(alloc, disk, 0) {
        Ok((mut journal, _)) => {
            let answer = reading(alloc, &mut journal, copies, step)?;
            Ok((State::Disk(journal.into_disk()), answer))
        }
        Err((disk, _)) => State::Disk(disk).no_such(alloc),
    }
}
