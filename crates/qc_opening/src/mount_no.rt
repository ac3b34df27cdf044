//! Why a store is not mounted.
ghost use Rattle.std.specs.Prelude.{◌≡◌};
ghost use Rattle.qc_opening.specs.Refusing.{disks_in, reason_in};

use qc_codec::BadImage;
use qc_pair::PairNo;

/// Why a store is not mounted, with the disks that were obtained, in the order in which they were.
#[derive(Drop)]
pub enum MountNo<D> {
    /// The disk of this number failed, or the shop did where it is the next after those handed back. The count of faults
    /// of the one or the other says so.
    Disk { which: u8, disks: Vec<D> },
    /// What stands on a disk is refused.
    Image { fault: BadImage, disks: Vec<D> },
    /// There was no memory.
    Memory { disks: Vec<D> },
}

impl<D> MountNo<D> {
    /// A refusal of a pair, with all disks.
    pub(crate) fn new(no: PairNo, disks: Vec<D>) -> Self
        ensures reason { reason_in result ≡ no }
        ensures disks { disks_in result ≡ disks.items }
    {
        match no {
            PairNo::Disk(which) => MountNo::Disk { which, disks },
            PairNo::Image(fault) => MountNo::Image { fault, disks },
            PairNo::Memory => MountNo::Memory { disks },
        }
    }
}
