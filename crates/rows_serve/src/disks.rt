//! The disk of the copy, and its spare.

use qc_disk::{HomeDisk, MemDisk};
use rows_kit::{hex, said};
use std::alloc::{AllocError, Global};

/// The disk of the copy, and its spare, where it has one.
#[derive(Drop)]
pub(crate) struct Disks {
    pub(crate) own: HomeDisk,
    pub(crate) spare: Option<HomeDisk>,
}

/// What may be told of a disk in memory.
#[derive(Clone, Copy)]
pub(crate) enum Tell {
    Bytes,
    Calls,
}

// What is told of a disk, where it is in memory.
fn told(alloc: Global, disk: &HomeDisk, tell: Tell) -> Result<String, AllocError> {
    match (disk, tell) {
        (HomeDisk::Memory(disk), Tell::Bytes) => hex(alloc, disk.bytes()),
        (HomeDisk::Memory(disk), Tell::Calls) => disk.calls().to_string(alloc),
        (HomeDisk::File(_), _) => said(alloc, "no such disk"),
    }
}

// A disk that has what one in memory has synced last.
fn left(alloc: Global, disk: &HomeDisk) -> Result<Option<HomeDisk>, AllocError> {
    let HomeDisk::Memory(disk) = disk else {
        return Ok(None);
    };
    let next = disk.calls().saturating_add(1);
    let left = disk.image_at(alloc, next, false)?;
    Ok(Some(HomeDisk::Memory(MemDisk::new(left, Vec::new(alloc)))))
}

impl Disks {
    /// What is told of the disk, and then of its spare, where it has one.
    pub(crate) fn told(&self, alloc: Global, tell: Tell) -> Result<String, AllocError> {
        let mut text = told(alloc, &self.own, tell)?;
        if let Some(spare) = &self.spare {
            text.push_str(" / ")?;
            text.push_str(told(alloc, spare, tell)?.as_str())?;
        }
        Ok(text)
    }

    /// Each of both that is in memory loses what was not synced; tells whether the copy's own is.
    pub(crate) fn lose(&mut self, alloc: Global) -> Result<bool, AllocError> {
        let Some(own) = left(alloc, &self.own)? else {
            return Ok(false);
        };
        self.own = own;
        if let Some(spare) = &self.spare {
            self.spare = left(alloc, spare)?;
        }
        Ok(true)
    }
}
