//! A disk that is watched.

use crate::watch::Watch;
use qc_disk::{Disk, DiskNo};

/// A disk with its number, and who is told of its writes and its syncs.
#[derive(Drop)]
pub struct WatchedDisk<'a, D, W> {
    pub disk: D,
    pub which: u8,
    pub watch: &'a W,
}

impl<'a, D: Disk, W: Watch> Disk for WatchedDisk<'a, D, W> {
    ghost view = { λ watched. D.view watched.disk };

    ghost reads_as_image = { λ watched. D.reads_as_image watched.disk };

    ghost has_size = { λ watched. D.has_size watched.disk };

    ghost leaves_now = { λ watched. D.leaves_now watched.disk };

    fn len(&mut self) -> Result<u64, DiskNo> {
        self.disk.len()
    }

    fn read(&mut self, at: u64, into: &mut [u8]) -> Result<(), DiskNo> {
        self.disk.read(at, into)
    }

    fn write_at(&mut self, at: u64, bytes: &[u8]) -> Result<(), DiskNo> {
        self.watch.write(self.which);
        self.disk.write_at(at, bytes)
    }

    fn cut(&mut self, to: u64) -> Result<(), DiskNo> {
        self.disk.cut(to)
    }

    fn sync(&mut self) -> Result<(), DiskNo> {
        self.watch.sync(self.which);
        self.disk.sync()
    }
}
