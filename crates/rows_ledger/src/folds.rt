//! What the ledger's journal is folded into.
ghost use Rattle.qc_journal.specs.Journal.{IsDown};
ghost use Rattle.qc_pair.specs.Fold.{other_in};

use qc_disk::MemDisk;
use qc_pair::Fold;

/// A journal that is up.
#[derive(Drop)]
pub struct Ready {
    pub fold: Fold<MemDisk>,
    ghost up: { IsDown (other_in fold) → ⊥ },
}

/// What the ledger's journal may be folded into. A fold that was refused may have left it down: it is not tried again.
#[derive(Drop)]
pub enum Folds {
    NoSpare,
    Ready(Ready),
    Refused(Fold<MemDisk>),
}

impl Folds {
    /// The disk, and the spare, where there is one; this one is active.
    pub(crate) fn into_disks(self, disk: MemDisk) -> (MemDisk, Option<MemDisk>) {
        let fold = match self {
            Folds::NoSpare => return (disk, None),
            Folds::Ready(ready) => ready.fold,
            Folds::Refused(fold) => fold,
        };
        let (own, spare) = fold.into_disks(disk);
        (own, Some(spare))
    }
}
