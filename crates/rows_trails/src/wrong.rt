//! Why a line cannot be taken.

use qc_event::Short;
use rows_text::BadLine;
use std::alloc::{AllocError, AllocFailed};
use thiserror::Error;

/// Why a line cannot be taken.
#[derive(Clone, Copy, Debug, Error)]
pub enum Wrong {
    #[error("{0}")]
    Line(BadLine),
    /// An edit names an entry that is not there.
    #[error("no entry {0}")]
    Entry(usize),
    /// A copy or a record is named that is not there.
    #[error("no such copy or record")]
    Place,
    /// An access did not ask the copy.
    #[error("no such request")]
    Ask,
    #[error("no memory")]
    Memory,
}

impl From<BadLine> for Wrong {
    fn from(bad: BadLine) -> Self {
        Wrong::Line(bad)
    }
}

impl From<Short> for Wrong {
    fn from(_: Short) -> Self {
        Wrong::Memory
    }
}

impl From<AllocError> for Wrong {
    fn from(_: AllocError) -> Self {
        Wrong::Memory
    }
}

impl<T: Drop> From<AllocFailed<T>> for Wrong {
    fn from(_: AllocFailed<T>) -> Self {
        Wrong::Memory
    }
}
