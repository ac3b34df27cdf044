//! What stands beside a system until it is taken apart.

use crate::boxed::Boxed;
use crate::returns::Returns;
use qc_disk::Disk;
use qc_pair::Fold;

/// What the pairs of a store may be folded into, the ledger's first, and the room to hand all disks back. No call of a
/// session touches it, so it stands beside the system.
#[derive(Drop)]
pub struct Others<D: Disk + Drop>
where
    Boxed<D>: Disk,
{
    pub(crate) folds: Vec<Fold<Boxed<D>>>,
    pub(crate) returns: Returns<D>,
}
