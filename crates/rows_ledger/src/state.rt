//! What a case stands on.

use crate::answer::no_such;
use crate::folds::Folds;
use qc_disk::MemDisk;
use qc_ledger::{Book, Shelf};
use std::alloc::{AllocError, Global};

/// What a case stands on.
#[derive(Drop)]
pub(crate) enum State {
    Nothing,
    Disk(MemDisk),
    /// A mounted ledger, with its epoch, and what its journal may be folded into.
    Book(Book<MemDisk>, u32, Folds),
    Shelf(Shelf<MemDisk>, Folds),
}

impl State {
    /// The disk below it, and its spare, where both were mounted: a ledger ends.
    pub(crate) fn into_disks(self) -> Option<(MemDisk, Option<MemDisk>)> {
        match self {
            State::Nothing => None,
            State::Disk(disk) => Some((disk, None)),
            State::Book(book, _, folds) => Some(folds.into_disks(book.into_disk())),
            State::Shelf(shelf, folds) => Some(folds.into_disks(shelf.into_disk())),
        }
    }

    /// It stays, and answers that it has no such step.
    pub(crate) fn no_such(self, alloc: Global) -> Result<(State, String), AllocError> {
        Ok((self, no_such(alloc)?))
    }
}
