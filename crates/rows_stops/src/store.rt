//! The disks of a store, each at its number.

use qc_disk::{MemDisk, MemShop, StopDisk, StopShop};
use std::alloc::{AllocError, Global};

/// The number of the first spare.
const SPARES: usize = 17;

/// What each disk has, by its number.
#[derive(Drop)]
pub(crate) struct Store {
    images: Vec<Vec<u8>>,
}

impl Store {
    /// The store of no disks: each is empty.
    pub(crate) fn empty(alloc: Global) -> Self {
        Store {
            images: Vec::new(alloc),
        }
    }

    /// What a crash leaves of all disks of a store, of which half are spares, where it keeps what was not synced, or
    /// loses it.
    pub(crate) fn left(alloc: Global, back: &[StopDisk], kept: bool) -> Result<Self, AllocError> {
        let (disks, spares) = back.split_at(back.len() / 2);
        let mut store = Store::empty(alloc);
        store.add_left(alloc, disks, kept)?;
        for _ in store.images.len()..SPARES {
            store.images.push(Vec::new(alloc))?;
        }
        store.add_left(alloc, spares, kept)?;
        Ok(store)
    }

    // Adds what a crash leaves of disks.
    fn add_left(
        &mut self,
        alloc: Global,
        disks: &[StopDisk],
        kept: bool,
    ) -> Result<(), AllocError> {
        for disk in disks {
            self.images.push(disk.left(alloc, kept)?)?;
        }
        Ok(())
    }

    /// Whether each disk has the same as that of another store.
    pub(crate) fn is_same(&self, other: &Store) -> bool {
        self.images == other.images
    }

    // What each disk has, by its number.
    fn bytes(&self, alloc: Global) -> Result<Vec<Vec<u8>>, AllocError> {
        let mut bytes = Vec::new(alloc);
        for image in &self.images {
            bytes.push(image.to_vec(alloc)?)?;
        }
        Ok(bytes)
    }

    /// A shop of the disks, which stop at this call of them.
    pub(crate) fn stop_shop(&self, alloc: Global, stop: u64) -> Result<StopShop, AllocError> {
        StopShop::new(self.bytes(alloc)?, stop)
    }

    /// A shop of the disks, which do not stop.
    pub(crate) fn shop(&self, alloc: Global) -> Result<MemShop, AllocError> {
        let mut disks = Vec::new(alloc);
        for bytes in self.bytes(alloc)? {
            disks.push(MemDisk::new(bytes, Vec::new(alloc)))?;
        }
        Ok(MemShop::new(disks, Vec::new(alloc)))
    }
}

/// How many calls of disks were made.
pub(crate) fn calls_of(disks: &[MemDisk]) -> u64 {
    let mut calls: u64 = 0;
    for disk in disks {
        calls = calls.saturating_add(disk.calls());
    }
    calls
}
