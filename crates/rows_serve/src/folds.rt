//! What the copy's journal is folded into.
ghost use Rattle.std.specs.Prelude.{◌≡◌};
ghost use Rattle.qc_pair.specs.Fold.{copies_in, other_in};
ghost use Rattle.qc_journal.specs.Journal.{IsDown};

use crate::disks::Disks;
use qc_disk::HomeDisk;
use qc_pair::Fold;

/// A journal that is up, of a store of one copy.
#[derive(Drop)]
pub struct Ready {
    pub fold: Fold<HomeDisk>,
    ghost up: { IsDown (other_in fold) → ⊥ },
    ghost copies: { copies_in fold ≡ 1 },
}

/// What the copy's journal may be folded into. A fold that was refused may have left it down: it is not tried again.
#[derive(Drop)]
pub enum Folds {
    NoSpare,
    Ready(Ready),
    Refused(Fold<HomeDisk>),
}

// The number of the active disk, by that of the other one.
fn active(fold: &Fold<HomeDisk>) -> u8 {
    if fold.disk(1) == 1 { 18 } else { 1 }
}

impl Folds {
    /// The number of the active disk, where there are two.
    pub(crate) fn active(&self) -> Option<u8> {
        match self {
            Folds::NoSpare => None,
            Folds::Ready(ready) => Some(active(&ready.fold)),
            Folds::Refused(fold) => Some(active(fold)),
        }
    }

    /// The disks, of which this one is active.
    pub(crate) fn into_disks(self, disk: HomeDisk) -> Disks {
        let fold = match self {
            Folds::NoSpare => {
                return Disks {
                    own: disk,
                    spare: None,
                };
            }
            Folds::Ready(ready) => ready.fold,
            Folds::Refused(fold) => fold,
        };
        let (own, spare) = fold.into_disks(disk);
        Disks {
            own,
            spare: Some(spare),
        }
    }
}
