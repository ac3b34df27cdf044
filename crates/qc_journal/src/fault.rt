//! Why a journal did not do what it was asked.
ghost use Rattle.std.specs.Prelude.{◌≡◌};

use qc_disk::DiskNo;
use std::alloc::{AllocError, AllocFailed};
use thiserror::Error;

/// Why a journal did not do what it was asked.
#[derive(Clone, Copy, PartialEq, Eq, Debug, Error)]
pub enum Fault {
    /// The disk failed. Its count of faults says that it was the disk.
    #[error("the disk failed")]
    Disk,
    /// The gate at this place is open, and no whole record and gate stand behind it.
    #[error("the record at {place} is cut off")]
    Broken { place: u64 },
    /// The body, behind the gate at this place, would pass the limit, or is too long for any journal.
    #[error("no room at {place}")]
    Full { place: u64 },
    /// There was no memory.
    #[error("no memory")]
    Memory,
}

impl From<DiskNo> for Fault {
    ghost use Rattle.qc_journal.specs.Fault.{fault_of};

    ghost from_gives = { λ no e. e ≡ fault_of no };

    fn from(no: DiskNo) -> Self {
        match no {
            DiskNo::Failed => Fault::Disk,
            DiskNo::Memory => Fault::Memory,
        }
    }
}

impl From<AllocError> for Fault {
    ghost use Rattle.qc_journal.specs.declared.fault.Fault.TheVariants.{Memory};

    ghost from_gives = { λ _ e. e ≡ Memory };

    fn from(_: AllocError) -> Self {
        Fault::Memory
    }
}

impl<T: Drop> From<AllocFailed<T>> for Fault {
    ghost use Rattle.qc_journal.specs.declared.fault.Fault.TheVariants.{Memory};

    ghost from_gives = { λ _ e. e ≡ Memory };

    fn from(_: AllocFailed<T>) -> Self {
        Fault::Memory
    }
}
