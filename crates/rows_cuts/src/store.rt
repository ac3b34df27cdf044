//! The disks of a store, each at its number.

use qc_disk::{MemDisk, MemShop};
use std::alloc::{AllocError, Global};

/// The number of the first spare.
const SPARES: usize = 17;

/// What each disk has, by its number.
#[derive(Drop)]
pub(crate) struct Store {
    images: Vec<Vec<u8>>,
}

impl Store {
    /// The store of no disks: each is empty.
    pub(crate) fn empty(alloc: Global) -> Self {
        Store {
            images: Vec::new(alloc),
        }
    }

    /// The store of the disks that came back, of which so many are no spares.
    pub(crate) fn of(alloc: Global, back: &[MemDisk], disks: usize) -> Result<Self, AllocError> {
        let (disks, spares) = back.split_at(back.len().min(disks));
        let mut images = Vec::new(alloc);
        for disk in disks {
            images.push(disk.bytes().to_vec(alloc)?)?;
        }
        for _ in images.len()..SPARES {
            images.push(Vec::new(alloc))?;
        }
        for spare in spares {
            images.push(spare.bytes().to_vec(alloc)?)?;
        }
        Ok(Store { images })
    }

    /// Empties the spares.
    pub(crate) fn empty_spares(&mut self) {
        self.images.truncate(SPARES);
    }

    /// How long a disk is.
    pub(crate) fn length(&self, which: usize) -> usize {
        match self.images.get(which) {
            Some(image) => image.len(),
            None => 0,
        }
    }

    /// The store with a disk that is cut to a length.
    pub(crate) fn cut(
        &self,
        alloc: Global,
        which: usize,
        length: usize,
    ) -> Result<Self, AllocError> {
        let mut images = Vec::new(alloc);
        for (number, image) in self.images.iter().enumerate() {
            let mut image = image.to_vec(alloc)?;
            if number == which {
                image.truncate(length);
            }
            images.push(image)?;
        }
        Ok(Store { images })
    }

    /// A shop of the disks, which fails at the listed numbers.
    pub(crate) fn shop(self, alloc: Global, fails: Vec<u8>) -> Result<MemShop, AllocError> {
        let Store { images } = self;
        let mut disks = Vec::new(alloc);
        for image in images {
            disks.push(MemDisk::new(image, Vec::new(alloc)))?;
        }
        Ok(MemShop::new(disks, fails))
    }
}
