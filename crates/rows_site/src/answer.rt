//! What a mounted copy has, or why none is mounted, as text.

use qc_config::Tuple;
use qc_pair::PairNo;
use rows_kit::{said, tuple};
use std::alloc::{AllocError, Global};

/// The tuple of each record: its value and version, the read and write quorum of its configuration, and the generation.
pub(crate) fn tuples(alloc: Global, tuples: &[Tuple]) -> Result<String, AllocError> {
    let mut text = tuples.len().to_string(alloc)?;
    text.push_str(" tuples")?;
    for item in tuples {
        text.push_str(tuple(alloc, item)?.as_str())?;
    }
    Ok(text)
}

/// Why a disk beside an empty spare is not mounted. It alone may fail.
pub(crate) fn refused(alloc: Global, no: &PairNo) -> Result<String, AllocError> {
    match no {
        PairNo::Disk(_) => said(alloc, "the disk failed"),
        PairNo::Image(_) | PairNo::Memory => no.to_string(alloc),
    }
}
