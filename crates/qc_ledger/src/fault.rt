//! Why the ledger did not do what it was asked.
ghost use Rattle.std.specs.Prelude.{◌≡◌};
ghost use Rattle.qc_ledger.specs.Pairs.{pair_no};
ghost use Rattle.qc_ledger.specs.Refusing.{ledger_mount_no, image_no, log_no};
ghost use Rattle.qc_event.specs.declared.short.Short.TheVariants.{Memory};
ghost use Rattle.qc_ledger.specs.declared.fault.LedgerNo.TheVariants as no;

use qc_codec::{BadImage, ImageFault};
use qc_event::Short;
use qc_journal::Fault;
use qc_pair::PairNo;
use std::alloc::{AllocError, AllocFailed};
use thiserror::Error;

/// Why the ledger did not do what it was asked.
#[derive(Drop, Debug, Error)]
pub enum LedgerNo {
    /// The disk failed. Its count of faults says that it was the disk.
    #[error("the disk failed")]
    Disk,
    /// What stands on the disk is refused. Mounting alone says so.
    #[error("{0}")]
    Image(BadImage),
    /// A record, behind the gate at this place, would pass the limit: a top's, or one of a checkpoint, which says 0 too
    /// where the last number of a fold was used up.
    #[error("no room at {place}")]
    Full { place: u64 },
    /// There was no memory; or the history takes no more entries, which logging and reviving alone say.
    #[error("{0}")]
    Short(Short),
}

impl From<Short> for LedgerNo {
    ghost from_gives = { λ short e. e ≡ no.Short short };

    fn from(short: Short) -> Self {
        LedgerNo::Short(short)
    }
}

impl From<AllocError> for LedgerNo {
    ghost from_gives = { λ _ e. e ≡ no.Short Memory };

    fn from(_: AllocError) -> Self {
        LedgerNo::Short(Short::Memory)
    }
}

impl<T: Drop> From<AllocFailed<T>> for LedgerNo {
    ghost from_gives = { λ _ e. e ≡ no.Short Memory };

    fn from(_: AllocFailed<T>) -> Self {
        LedgerNo::Short(Short::Memory)
    }
}

/// What a fault of the journal is to a logging. A journal that is up answers no other.
pub(crate) fn log_no(fault: Fault) -> LedgerNo
    ensures { result ≡ log_no fault }
{
    match fault {
        Fault::Disk | Fault::Broken { .. } => LedgerNo::Disk,
        Fault::Full { place } => LedgerNo::Full { place },
        Fault::Memory => LedgerNo::Short(Short::Memory),
    }
}

/// The image of the ledger's disk of this number is refused.
pub(crate) fn image_no(disk: u8, fault: ImageFault) -> LedgerNo
    ensures { result ≡ image_no disk fault }
{
    LedgerNo::Image(BadImage { disk, fault })
}

/// What a fault of the journal is to a mounting of the disk of this number.
pub(crate) fn mount_no(disk: u8, fault: Fault) -> LedgerNo
    ensures { result ≡ ledger_mount_no disk fault }
{
    match fault {
        Fault::Disk => LedgerNo::Disk,
        Fault::Broken { place } => image_no(disk, ImageFault::Broken { place }),
        Fault::Full { place } => image_no(disk, ImageFault::Full { place }),
        Fault::Memory => LedgerNo::Short(Short::Memory),
    }
}

/// What a refusal over the disk of this number is to the mounting of its pair.
pub(crate) fn pair_no(disk: u8, no: LedgerNo) -> PairNo
    ensures { result ≡ pair_no disk no }
{
    match no {
        LedgerNo::Disk => PairNo::Disk(disk),
        LedgerNo::Image(bad) => PairNo::Image(bad),
        LedgerNo::Full { place } => {
            let fault = ImageFault::Full { place };
            PairNo::Image(BadImage { disk, fault })
        }
        LedgerNo::Short(_) => PairNo::Memory,
    }
}
