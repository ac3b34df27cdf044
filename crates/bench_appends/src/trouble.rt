//! Why there are no times.

use qc_disk::DiskNo;
use qc_journal::Fault;
use std::alloc::AllocError;
use std::io;

/// Why there are no times.
#[derive(Clone, Copy)]
pub(crate) enum Trouble {
    /// The words are no task.
    Usage,
    /// A disk failed, or its file was not empty.
    Disk,
    /// There was no memory.
    Memory,
    /// The clock could not be read.
    Clock,
}

impl From<DiskNo> for Trouble {
    fn from(no: DiskNo) -> Self {
        match no {
            DiskNo::Failed => Trouble::Disk,
            DiskNo::Memory => Trouble::Memory,
        }
    }
}

impl From<Fault> for Trouble {
    fn from(fault: Fault) -> Self {
        match fault {
            Fault::Disk | Fault::Broken { .. } | Fault::Full { .. } => Trouble::Disk,
            Fault::Memory => Trouble::Memory,
        }
    }
}

impl From<AllocError> for Trouble {
    fn from(_: AllocError) -> Self {
        Trouble::Memory
    }
}

impl From<io::Error> for Trouble {
    fn from(_: io::Error) -> Self {
        Trouble::Clock
    }
}
