//! What a mounting gave, as text.

use qc_config::Tuple;
use qc_disk::Disk;
use qc_opening::Parts;
use rows_kit::tuple;
use std::alloc::{AllocError, Global};

// Puts the tuples with which a copy starts behind a text.
fn put_start(alloc: Global, text: &mut String, tuples: &[Tuple]) -> Result<(), AllocError> {
    text.push_str(", copy")?;
    for item in tuples {
        text.push_str(tuple(alloc, item)?.as_str())?;
    }
    Ok(())
}

fn starts<D: Disk>(alloc: Global, parts: &Parts<D>) -> Result<String, AllocError> {
    let mut text = String::new(alloc);
    for pair in parts.copies.as_slice() {
        put_start(alloc, &mut text, pair.copy.start())?;
    }
    Ok(text)
}

/// The epoch and the number of tops that were logged before, and what each copy starts with.
pub(crate) fn store<D: Disk>(alloc: Global, parts: &Parts<D>) -> Result<String, AllocError> {
    let (epoch, tops) = (parts.epoch, parts.past.tops.as_slice().len());
    let starts = starts(alloc, parts)?;
    format!(in alloc; "epoch {epoch}, {tops} tops{starts}")
}

/// Which disk failed.
pub(crate) fn failed(alloc: Global, which: u8) -> Result<String, AllocError> {
    format!(in alloc; "disk {which} failed")
}
