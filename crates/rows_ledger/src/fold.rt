//! How a ledger is folded.

use crate::folds::{Folds, Ready};
use qc_desk::Store;
use qc_disk::MemDisk;
use qc_ledger::Ledger;
use rows_kit::said;
use std::alloc::{AllocError, Global};
use std::mem;

/// Folds a ledger that is up.
pub(crate) fn fold<N: Store>(
    alloc: Global,
    ledger: &Ledger<MemDisk, N>,
    folds: &mut Folds,
) -> Result<String, AllocError> {
    if !ledger.is_up() {
        return said(alloc, "down");
    }
    let mut fold = match mem::replace(folds, Folds::NoSpare) {
        Folds::NoSpare => return said(alloc, "no spare"),
        Folds::Ready(ready) => ready.fold,
        Folds::Refused(fold) => {
            *folds = Folds::Refused(fold);
            return said(alloc, "it was refused before");
        }
    };
    match ledger.checkpoint(&mut fold) {
        Ok(()) => {
            *folds = Folds::Ready(Ready { fold });
            said(alloc, "folded")
        }
        Err(no) => {
            *folds = Folds::Refused(fold);
            no.to_string(alloc)
        }
    }
}
