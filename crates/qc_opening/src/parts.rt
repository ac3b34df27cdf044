//! A store that was mounted.

use qc_codec::Past;
use qc_disk::Disk;
use qc_system::{CopyPair, LedgerPair};

/// A store that was mounted: its ledger, with what that told before and the epoch that it logged, and its copies in
/// rising number.
#[derive(Drop)]
pub struct Parts<D: Disk> {
    pub ledger: LedgerPair<D>,
    pub past: Past,
    pub epoch: u32,
    pub copies: Vec<CopyPair<D>>,
}
