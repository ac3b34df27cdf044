//! Why a trail does not follow its script.

use qc_event::Name;
use std::alloc::{AllocError, AllocFailed};
use thiserror::Error;

/// Why a trail does not follow its script, and about whom.
#[derive(Clone, Copy, Debug, Error)]
pub enum Fault {
    /// There was no memory. It says nothing of the trail.
    #[error("no memory")]
    Memory,
    #[error("{0} starts, is ready or ends more than once")]
    Twice(Name),
    #[error("{0} does not end")]
    Open(Name),
    #[error("{0} has not the next number")]
    Number(Name),
    #[error("session {0} does not run all its tops")]
    Missing(usize),
    #[error("{0} is not what is due")]
    Other(Name),
    #[error("{0} is more than the steps ask for")]
    Extra(Name),
    #[error("{0} is a further try where none is due")]
    Again(Name),
    #[error("{0} is not tried again")]
    Untried(Name),
    #[error("{0} does not write what it read, changed")]
    Unwritten(Name),
    #[error("{0} ends before its steps are done")]
    Early(Name),
    #[error("{0} commits though a step does not go on")]
    Committed(Name),
    #[error("{0} is aborted though each step goes on")]
    Aborted(Name),
    #[error("{0} is aborted for another cause than its steps give")]
    Cause(Name),
    #[error("{0} is aborted by one that does not come to ask for it")]
    Asked(Name),
    #[error("{0} ends as an orphan of one that is not aborted")]
    Orphan(Name),
    #[error("{0} is killed without a mark")]
    Unmarked(Name),
    #[error("{0} is killed where it does not look")]
    Killed(Name),
    #[error("{0} goes on though its session marked itself")]
    Spared(Name),
    #[error("{0} marks what its steps do not mark")]
    Mark(Name),
    #[error("{0} acts under another seat than its own")]
    Seat(Name),
    #[error("{0} acts while one that it does not stand below is open")]
    Turn(Name),
    #[error("{0} acts before each branch beside it has started")]
    Ahead(Name),
    #[error("{0} does not end as an orphan that did nothing, though not each branch has started")]
    Turned(Name),
    #[error("{0} starts before the top before it is over")]
    Before(Name),
}

impl From<AllocError> for Fault {
    fn from(_: AllocError) -> Self {
        Fault::Memory
    }
}

impl<T: Drop> From<AllocFailed<T>> for Fault {
    fn from(_: AllocFailed<T>) -> Self {
        Fault::Memory
    }
}
