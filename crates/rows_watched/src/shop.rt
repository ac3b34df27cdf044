//! A shop of disks that are watched.

use crate::disk::WatchedDisk;
use crate::watch::Watch;
use qc_disk::{DiskNo, Shop};
use std::alloc::Global;

/// Gives the disks of a shop, all with the same watcher.
#[derive(Drop)]
pub struct WatchedShop<'a, S, W> {
    pub shop: S,
    pub watch: &'a W,
}

impl<'a, S: Shop, W: Watch + Sync> Shop for WatchedShop<'a, S, W> {
    type D = WatchedDisk<'a, S::D, W>;

    ghost view = { λ watched. S.view watched.shop };

    fn obtain(
        &mut self,
        alloc: Global,
        place: &str,
        which: u8,
    ) -> Result<WatchedDisk<'a, S::D, W>, DiskNo> {
        match self.shop.obtain(alloc, place, which) {
            Ok(disk) => Ok(WatchedDisk {
                disk,
                which,
                watch: self.watch,
            }),
            Err(no) => Err(no),
        }
    }
}
