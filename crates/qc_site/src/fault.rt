//! Why a site did not do what it was asked.
ghost use Rattle.std.specs.Prelude.{◌≡◌};
ghost use Rattle.qc_event.specs.declared.short.Short.TheVariants.{Memory};
ghost use Rattle.qc_site.specs.Pairs.{pair_no};
ghost use Rattle.qc_site.specs.Refusing.{image_no, copy_mount_no};
ghost use Rattle.qc_site.specs.declared.fault.SiteNo.TheVariants as no;

use qc_codec::{BadImage, ImageFault};
use qc_event::Short;
use qc_journal::Fault;
use qc_pair::PairNo;
use std::alloc::{AllocError, AllocFailed};
use thiserror::Error;

/// Why a site did not do what it was asked.
#[derive(Drop, Debug, Error)]
pub enum SiteNo {
    /// The disk failed. Its count of faults says that it was the disk.
    #[error("the disk failed")]
    Disk,
    /// What stands on the disk is refused, which mounting alone says; or the disk named has no room for a checkpoint.
    #[error("{0}")]
    Image(BadImage),
    /// The disk does not say what the history says. Mounting never answers so.
    #[error("the disk is strange")]
    Strange,
    /// There was no memory; or the history takes no more entries, which mounting never answers.
    #[error("{0}")]
    Short(Short),
}

impl From<Short> for SiteNo {
    ghost from_gives = { λ short e. e ≡ no.Short short };

    fn from(short: Short) -> Self {
        SiteNo::Short(short)
    }
}

impl From<AllocError> for SiteNo {
    ghost from_gives = { λ _ e. e ≡ no.Short Memory };

    fn from(_: AllocError) -> Self {
        SiteNo::Short(Short::Memory)
    }
}

impl<T: Drop> From<AllocFailed<T>> for SiteNo {
    ghost from_gives = { λ _ e. e ≡ no.Short Memory };

    fn from(_: AllocFailed<T>) -> Self {
        SiteNo::Short(Short::Memory)
    }
}

/// The image of the disk of this number is refused.
pub(crate) fn image_no(disk: u8, fault: ImageFault) -> SiteNo
    ensures { result ≡ image_no disk fault }
{
    SiteNo::Image(BadImage { disk, fault })
}

/// What a fault of the journal on the disk of this number is to the mounting of a copy.
pub(crate) fn mount_no(disk: u8, fault: Fault) -> SiteNo
    ensures { result ≡ copy_mount_no disk fault }
{
    match fault {
        Fault::Disk => SiteNo::Disk,
        Fault::Broken { place } => image_no(disk, ImageFault::Broken { place }),
        Fault::Full { place } => image_no(disk, ImageFault::Full { place }),
        Fault::Memory => SiteNo::Short(Short::Memory),
    }
}

/// What a refusal over the disk of this number is to the mounting of its pair.
pub(crate) fn pair_no(disk: u8, no: SiteNo) -> PairNo
    ensures { result ≡ pair_no disk no }
{
    match no {
        SiteNo::Disk => PairNo::Disk(disk),
        SiteNo::Image(bad) => PairNo::Image(bad),
        // No mounting answers that a disk is strange, or that room is wanting.
        SiteNo::Strange | SiteNo::Short(_) => PairNo::Memory,
    }
}
