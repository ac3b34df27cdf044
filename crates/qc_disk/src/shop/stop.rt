//! A shop of disks in memory that stop together.
ghost use Rattle.std.specs.Prelude.{◌≡◌, [], IfOk};

use super::memory::exchange;
use super::{Given, Shop};
use crate::disk::DiskNo;
use crate::stop::{Calls, StopDisk};
use std::alloc::{AllocError, Global};
use std::sync::Arc;

/// Disks in memory, each of which is given once, and then empty ones, with one count of their calls: at a call of any of
/// them all stop for good. The place is of no account.
#[derive(Drop)]
pub struct StopShop {
    disks: Vec<Vec<u8>>,
    calls: Arc<Calls, Global>,
    given: Given,
}

impl StopShop {
    ghost use Rattle.std.specs.Prelude.{map, vec_items};
    ghost use Rattle.qc_disk.specs.Given.{given_list};
    ghost use Rattle.qc_disk.specs.StopShop.{stop_disks};

    /// A shop of disks of these bytes by their numbers, which stop at this call of them, counted from 1.
    pub fn new(disks: Vec<Vec<u8>>, stop: u64) -> Result<Self, AllocError>
        ensures disks { IfOk result (λ shop. stop_disks shop ≡ map vec_items disks.items) }
        ensures gave { IfOk result (λ shop. given_list shop.given ≡ []) }
    {
        let alloc = *disks.allocator();
        let calls = Arc::new(alloc, Calls::new(stop))?;
        Ok(StopShop {
            disks,
            calls,
            given: Given::new(alloc),
        })
    }
}

impl Shop for StopShop {
    type D = StopDisk;

    ghost use Rattle.std.specs.Prelude.{◌≢◌, ◌++◌, ℕ, List, Some, OnErr, IsErrOf};
    ghost use Rattle.qc_disk.specs.Disk.{HasCause, CountsOnce};
    ghost use Rattle.qc_disk.specs.Shop.{Tells, TellsAlike, if_given};
    ghost use Rattle.qc_disk.specs.Given.{given_list};
    ghost use Rattle.qc_disk.specs.StopDisk.{stop_first, stop_bytes, stop_acts, stop_refused};
    ghost use Rattle.qc_disk.specs.StopShop.{offered, stop_disks, stop_shop_view, StopGives};

    ghost view = { stop_shop_view };

    fn obtain(&mut self, alloc: Global, place: &str, which: u8) -> Result<StopDisk, DiskNo>
        ensures given { IfOk result (λ disk. Tells (Some (offered self.old which))
            (Some (stop_bytes disk))) }
        ensures counted { IfOk result (λ disk. stop_refused disk ≡ 0) }
        ensures others { (p : List ℕ) (n : ℕ) → n ≢ which
            → TellsAlike (stop_shop_view self.old) (stop_shop_view self.new) p n }
        ensures kept { OnErr result ((p : List ℕ) (n : ℕ)
            → TellsAlike (stop_shop_view self.old) (stop_shop_view self.new) p n) }
        ensures cause { HasCause 0 0 (IsErrOf result DiskNo.Failed) }
        ensures counts_once { CountsOnce 0 0 (IsErrOf result DiskNo.Failed) }
        ensures gives { IfOk result (StopGives self.old self.new which) }
        ensures gave { given_list self.new.given ≡ given_list self.old.given
            ++ if_given result place.now which }
    {
        let calls = Arc::try_clone(&self.calls)?;
        self.given.add(alloc, place, which)?;
        let bytes = exchange(&mut self.disks, which as usize, Vec::new(alloc));
        Ok(StopDisk::new(bytes, calls))
    }
}
