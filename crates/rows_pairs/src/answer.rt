//! What an opening gave, as text.

use qc_disk::Disk;
use qc_journal::Body;
use rows_kit::records;
use std::alloc::{AllocError, Global};

/// Which disk is active and which is not, the number of the next fold, and the records.
pub(crate) fn opened(
    alloc: Global,
    active: u8,
    other: u8,
    next: Option<u64>,
    bodies: &[Body],
) -> Result<String, AllocError> {
    let next = match next {
        Some(next) => next.to_string(alloc)?,
        None => String::from_str(alloc, "none")?,
    };
    let records = records(alloc, bodies)?;
    format!(in alloc; "disk {active} active, {other} not, next {next}, {records}")
}

/// The length of both disks behind a text; `?` where one fails again.
pub(crate) fn put_lengths<D: Disk>(
    alloc: Global,
    text: &mut String,
    disks: &mut [D],
) -> Result<(), AllocError> {
    text.push_str("; back")?;
    for disk in disks {
        text.push(' ')?;
        match disk.len() {
            Ok(length) => text.push_str(length.to_string(alloc)?.as_str())?,
            Err(_) => text.push('?')?,
        }
    }
    Ok(())
}
