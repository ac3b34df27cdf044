//! Room that is taken before the disks of a store are obtained.
ghost use Rattle.std.specs.Prelude.{◌≡◌, ◌≤◌, [], vec_capacity};
ghost use Rattle.qc_system.specs.Pairs.{pairs_in};

use qc_disk::Disk;
use qc_pair::Fold;
use qc_system::{Boxed, MOST_PAIRS, Returns};
use std::alloc::{AllocError, Global};

/// Empty room for what the pairs of a store may be folded into, and to hand all its disks back.
#[derive(Drop)]
pub(crate) struct Rooms<D: Disk + Drop>
where
    Boxed<D>: Disk,
{
    pub(crate) folds: Vec<Fold<Boxed<D>>>,
    pub(crate) returns: Returns<D>,
    ghost no_folds: { folds.items ≡ [] },
    ghost enough: { 17 ≤ vec_capacity folds },
    ghost none: { pairs_in returns ≡ [] },
}

impl<D: Disk + Drop> Rooms<D> {
    /// Room for as many disks as a store may have.
    pub(crate) fn new(alloc: Global) -> Result<Self, AllocError> {
        Ok(Rooms {
            folds: Vec::with_capacity(alloc, MOST_PAIRS)?,
            returns: Returns::new(alloc)?,
        })
    }
}
