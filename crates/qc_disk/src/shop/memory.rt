//! A shop of disks in memory, which fails at the numbers that it is told to.
ghost use Rattle.std.specs.Prelude.{◌≡◌, slice_index_or, slice_set};

use super::{Given, Shop};
use crate::disk::DiskNo;
use crate::memory::MemDisk;
use std::alloc::Global;
use std::mem;

/// Disks in memory, each of which is given once, and then empty ones. The place is of no account.
#[derive(Drop)]
pub struct MemShop {
    disks: Vec<MemDisk>,
    fails: Vec<u8>,
    faults: u64,
    given: Given,
}

// Puts an item in the place of another, and gives that, or the item itself where there is no such place.
pub(super) fn exchange<T: Drop>(items: &mut Vec<T>, at: usize, item: T) -> T
    ensures answer { result ≡ slice_index_or items.old.items at item }
    ensures items { items.new.items ≡ slice_set items.old.items at item }
{
    match items.get_mut(at) {
        Some(place) => mem::replace(place, item),
        None => item,
    }
}

impl MemShop {
    ghost use Rattle.qc_disk.specs.MemShop.{shop_disks, shop_fails, shop_faults};

    /// A shop of these disks by their numbers, which fails at the listed numbers.
    pub fn new(disks: Vec<MemDisk>, fails: Vec<u8>) -> Self
        ensures disks { shop_disks result ≡ disks.items }
        ensures fails { shop_fails result ≡ fails.items }
        ensures faults { shop_faults result ≡ 0 }
    {
        let given = Given::new(*disks.allocator());
        MemShop {
            disks,
            fails,
            faults: 0,
            given,
        }
    }
}

impl Shop for MemShop {
    type D = MemDisk;

    ghost use Rattle.std.specs.Prelude.{◌≢◌, ◌↔◌, ◌++◌, ℕ, List, Some, Contains, IfOk, OnErr, IsErrOf, if◌then◌else◌};
    ghost use Rattle.qc_disk.specs.Disk.{HasCause, CountsOnce, next};
    ghost use Rattle.qc_disk.specs.Shop.{Tells, TellsAlike, if_given};
    ghost use Rattle.qc_disk.specs.Given.{given_list};
    ghost use Rattle.qc_disk.specs.MemDisk.{mem_bytes, mem_faults};
    ghost use Rattle.qc_disk.specs.MemShop.{has_failed, shop_bytes, shop_counts, shop_disks, shop_fails, shop_faults, shop_view, Gives};

    ghost view = { shop_view };

    fn obtain(&mut self, alloc: Global, place: &str, which: u8) -> Result<MemDisk, DiskNo>
        ensures given { IfOk result (λ disk. Tells (Some (shop_bytes self.old which))
            (Some (mem_bytes disk))) }
        ensures counted { IfOk result (λ disk. mem_faults disk ≡ shop_counts self.old which) }
        ensures others { (p : List ℕ) (n : ℕ) → n ≢ which
            → TellsAlike (shop_view self.old) (shop_view self.new) p n }
        ensures kept { OnErr result ((p : List ℕ) (n : ℕ)
            → TellsAlike (shop_view self.old) (shop_view self.new) p n) }
        ensures cause { HasCause (shop_faults self.old) (shop_faults self.new)
            (IsErrOf result DiskNo.Failed) }
        ensures counts_once { CountsOnce (shop_faults self.old) (shop_faults self.new)
            (IsErrOf result DiskNo.Failed) }
        ensures gives { IfOk result (Gives self.old self.new which) }
        ensures disks { OnErr result (shop_disks self.new ≡ shop_disks self.old) }
        ensures listed { IsErrOf result DiskNo.Failed ↔ Contains (shop_fails self.old) which }
        ensures fails { shop_fails self.new ≡ shop_fails self.old }
        ensures faults { shop_faults self.new ≡ (if has_failed result
            then next (shop_faults self.old) else shop_faults self.old) }
        ensures gave { given_list self.new.given ≡ given_list self.old.given
            ++ if_given result place.now which }
    {
        if self.fails.contains(&which) {
            self.faults = self.faults.saturating_add(1);
            return Err(DiskNo::Failed);
        }
        self.given.add(alloc, place, which)?;
        let empty = MemDisk::new(Vec::new(alloc), Vec::new(alloc));
        Ok(exchange(&mut self.disks, which as usize, empty))
    }
}
