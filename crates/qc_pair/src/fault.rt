//! Why a pair was not opened.
ghost use Rattle.std.specs.Prelude.{◌≡◌};
ghost use Rattle.qc_pair.specs.Opening.{grammar_no, mount_no};

use qc_codec::{BadImage, ImageFault};
use qc_journal::Fault;
use thiserror::Error;

/// Why a pair was not opened.
#[derive(Drop, Debug, Error)]
pub enum PairNo {
    /// The disk of this number failed. Its count of faults says that it was the disk.
    #[error("disk {0} failed")]
    Disk(u8),
    /// What stands on a disk is refused.
    #[error("{0}")]
    Image(BadImage),
    /// There was no memory.
    #[error("no memory")]
    Memory,
}

/// The record of this index may not stand on a disk.
pub(crate) fn grammar_no(disk: u8, index: u64) -> PairNo
    ensures { result ≡ grammar_no disk index }
{
    let fault = ImageFault::Grammar { index };
    PairNo::Image(BadImage { disk, fault })
}

/// What a fault of a disk's journal is to the opening of its pair.
pub fn mount_no(disk: u8, fault: Fault) -> PairNo
    ensures { result ≡ mount_no disk fault }
{
    let fault = match fault {
        Fault::Disk => return PairNo::Disk(disk),
        Fault::Broken { place } => ImageFault::Broken { place },
        Fault::Full { place } => ImageFault::Full { place },
        Fault::Memory => return PairNo::Memory,
    };
    PairNo::Image(BadImage { disk, fault })
}
