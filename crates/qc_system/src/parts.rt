//! What was mounted, without a name.
ghost use Rattle.std.specs.Prelude.{◌≡◌};
ghost use Rattle.qc_journal.specs.Journal.{disk_of};
ghost use Rattle.qc_ledger.specs.Mounted as ledger;
ghost use Rattle.qc_pair.specs.Fold.{own_disk, spare_disk};
ghost use Rattle.qc_site.specs.Mounted as copy;

use crate::boxed::Boxed;
use crate::returns::Returns;
use qc_desk::Blank;
use qc_disk::Disk;
use qc_ledger::Book;
use qc_pair::Fold;
use qc_site::Mounted;

/// The ledger's pair, mounted: its active journal, and the other one, into which that may be folded.
#[derive(Drop)]
pub struct LedgerPair<D: Disk> {
    pub book: Book<D>,
    pub fold: Fold<D>,
}

impl<D: Disk> LedgerPair<D> {
    /// The disk and its spare.
    pub fn into_disks(self) -> (D, D)
        ensures own { result.0 ≡ own_disk self.fold (disk_of (ledger.journal_of self.book)) }
        ensures spare { result.1 ≡ spare_disk self.fold (disk_of (ledger.journal_of self.book)) }
    {
        self.fold.into_disks(self.book.into_disk())
    }
}

/// A copy's pair, mounted: its active journal, and the other one, into which that may be folded.
#[derive(Drop)]
pub struct CopyPair<D: Disk> {
    pub copy: Mounted<D>,
    pub fold: Fold<D>,
}

impl<D: Disk> CopyPair<D> {
    /// The disk and its spare.
    pub fn into_disks(self) -> (D, D)
        ensures own { result.0 ≡ own_disk self.fold (disk_of (copy.journal_of self.copy)) }
        ensures spare { result.1 ≡ spare_disk self.fold (disk_of (copy.journal_of self.copy)) }
    {
        self.fold.into_disks(self.copy.into_disk())
    }
}

/// All that was mounted, without a name: a desk, the ledger, and the copies in rising number, with room for what their
/// pairs may be folded into, and to hand all disks back.
#[derive(Drop)]
pub struct Parts<D: Disk + Drop>
where
    Boxed<D>: Disk,
{
    pub blank: Blank,
    pub ledger: LedgerPair<Boxed<D>>,
    pub copies: Vec<CopyPair<Boxed<D>>>,
    pub folds: Vec<Fold<Boxed<D>>>,
    pub returns: Returns<D>,
}
