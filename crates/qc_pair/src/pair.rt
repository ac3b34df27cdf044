//! A pair of journals.
ghost use Rattle.std.specs.Prelude.{◌≡◌, ◌+◌, ◌<◌, ◌≤◌, if◌then◌else◌};
ghost use Rattle.qc_journal.specs.Journal.{disk_of};
ghost use Rattle.qc_pair.specs.Fold.{active_number, copies_in, epoch_in, made_in, other_in, swapped_in};

use crate::fold::Fold;
use qc_disk::Disk;
use qc_journal::{Body, Journal};

/// The journals of a disk and of its spare: the active one, and the one into which it may be folded.
#[derive(Drop)]
pub struct Pair<D: Disk> {
    pub active: Journal<D>,
    other: Journal<D>,
    number: u64,
    is_swapped: bool,
}

impl<D: Disk> Pair<D> {
    ghost use Rattle.qc_pair.specs.Pair.{active_of, number_at, number_of, other_of, own_of, spare_of, swapped};

    /// A pair of the journal of a disk and that of its spare.
    pub(crate) fn new(own: Journal<D>, spare: Journal<D>, number: u64, is_swapped: bool) -> Self
        ensures own { own_of result ≡ own }
        ensures spare { spare_of result ≡ spare }
        ensures number { number_of result ≡ number }
        ensures swapped { swapped result ≡ is_swapped }
        ensures active { active_of result ≡ (if is_swapped then spare else own) }
        ensures other { other_of result ≡ (if is_swapped then own else spare) }
    {
        let (active, other) = if is_swapped {
            (spare, own)
        } else {
            (own, spare)
        };
        Pair {
            active,
            other,
            number,
            is_swapped,
        }
    }

    /// The number of the active disk of the pair of a disk of this number.
    pub fn active_disk(&self, who: u8) -> u8
        requires { who ≤ 16 }
        ensures { result ≡ number_at (swapped self.now) who }
    {
        if self.is_swapped { who + 17 } else { who }
    }

    /// The number of the other disk.
    pub fn other_disk(&self, who: u8) -> u8
        requires { who ≤ 16 }
        ensures { result ≡ (if swapped self.now then who else who + 17) }
    {
        if self.is_swapped { who } else { who + 17 }
    }

    /// The active journal, and the other one with what a fold of this epoch writes there: the body that says how its
    /// disk was made, of a store of so many copies.
    pub fn into_fold(self, made: Body, epoch: u32, copies: u8) -> (Journal<D>, Fold<D>)
        requires few { copies ≤ 16 }
        ensures active { result.0 ≡ active_of self }
        ensures other { other_in result.1 ≡ other_of self }
        ensures number { active_number result.1 ≡ number_of self }
        ensures swapped { swapped_in result.1 ≡ swapped self }
        ensures made { made_in result.1 ≡ made.items }
        ensures epoch { epoch_in result.1 ≡ epoch }
        ensures copies { copies_in result.1 ≡ copies }
    {
        let fold = Fold {
            other: self.other,
            number: self.number,
            is_swapped: self.is_swapped,
            made,
            epoch,
            copies,
        };
        (self.active, fold)
    }

    /// The disk, and then the spare, whichever is active.
    pub fn into_disks(self) -> (D, D)
        ensures own { result.0 ≡ disk_of (own_of self) }
        ensures spare { result.1 ≡ disk_of (spare_of self) }
    {
        let (active, other) = (self.active.into_disk(), self.other.into_disk());
        if self.is_swapped {
            (other, active)
        } else {
            (active, other)
        }
    }
}
