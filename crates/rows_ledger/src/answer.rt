//! What a step answered, as text.

use qc_codec::Past;
use qc_event::Name;
use qc_ledger::LedgerNo;
use qc_pair::PairNo;
use rows_kit::said;
use std::alloc::{AllocError, Global};

/// What a call answered that gives nothing.
pub(crate) fn done(alloc: Global, answer: Result<(), LedgerNo>) -> Result<String, AllocError> {
    match answer {
        Ok(()) => said(alloc, "ok"),
        Err(no) => no.to_string(alloc),
    }
}

/// A step that comes at a wrong time.
pub(crate) fn not_now(alloc: Global) -> Result<String, AllocError> {
    said(alloc, "not now")
}

/// A step that what the case stands on does not have.
pub(crate) fn no_such(alloc: Global) -> Result<String, AllocError> {
    said(alloc, "no such step here")
}

/// A top in hand; none is a stroke.
pub(crate) fn hand_text(alloc: Global, hand: &Option<Name>) -> Result<String, AllocError> {
    match hand {
        Some(top) => top.to_string(alloc),
        None => said(alloc, "-"),
    }
}

// Puts the aborted names behind a text, each in brackets.
fn put_aborted(alloc: Global, text: &mut String, aborted: &[Name]) -> Result<(), AllocError> {
    for name in aborted {
        text.push_str(" (")?;
        text.push_str(name.to_string(alloc)?.as_str())?;
        text.push(')')?;
    }
    Ok(())
}

/// The epoch, and what was told before: each top, with its aborted names in brackets.
pub(crate) fn mounted(alloc: Global, epoch: u32, past: &Past) -> Result<String, AllocError> {
    let last = past.epoch;
    let mut text = format!(in alloc; "epoch {epoch} after {last}")?;
    for logged in past.tops.as_slice() {
        text.push(' ')?;
        text.push_str(logged.top.to_string(alloc)?.as_str())?;
        put_aborted(alloc, &mut text, logged.aborted.as_slice())?;
    }
    Ok(text)
}

/// Why a disk beside an empty spare is not mounted. It alone may fail.
pub(crate) fn refused(alloc: Global, no: &PairNo) -> Result<String, AllocError> {
    match no {
        PairNo::Disk(_) => said(alloc, "the disk failed"),
        PairNo::Image(_) | PairNo::Memory => no.to_string(alloc),
    }
}

/// Which disk is active, by the number of the other one.
pub(crate) fn active(alloc: Global, other: u8) -> Result<String, AllocError> {
    said(
        alloc,
        if other == 0 {
            "disk 17 active, "
        } else {
            "disk 0 active, "
        },
    )
}

/// Whether a step of a disk is one of its spare too: it changes nothing.
pub(crate) fn of_both(name: &str) -> bool {
    name == "bytes" || name == "calls"
}
