//! What a case stands on.

use qc_disk::MemDisk;
use qc_site::Mounted;
use rows_kit::said;
use std::alloc::{AllocError, Global};

/// What a case stands on.
#[derive(Drop)]
pub(crate) enum State {
    Nothing,
    Disk(MemDisk),
    Mounted(Mounted<MemDisk>),
}

impl State {
    /// The disk below it: a mounted copy ends.
    pub(crate) fn into_disk(self) -> Option<MemDisk> {
        match self {
            State::Nothing => None,
            State::Disk(disk) => Some(disk),
            State::Mounted(site) => Some(site.into_disk()),
        }
    }

    /// It stays, and answers that it has no such step.
    pub(crate) fn no_such(self, alloc: Global) -> Result<(State, String), AllocError> {
        Ok((self, said(alloc, "no such step here")?))
    }
}
