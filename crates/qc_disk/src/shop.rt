//! Where disks come from.
ghost use Rattle.std.specs.Prelude.{◌≡◌, ◌≢◌, ◌++◌, ℕ, List, IfOk, OnErr, IsErrOf};
ghost use Rattle.qc_disk.specs.Disk.{HasCause, CountsOnce};
ghost use Rattle.qc_disk.specs.Shop.{ShopView, Tells, TellsAlike, if_given};

mod given;
mod memory;
mod stop;

use crate::disk::{Disk, DiskNo};
pub(crate) use given::Given;
pub use memory::MemShop;
use std::alloc::Global;
pub use stop::StopShop;

/// Gives the disks of a place, by their numbers.
pub trait Shop {
    type D: Disk + Send;

    /// The bytes of the disks that it would give, where it tells, how often each has failed, its own faults, and what
    /// it gave.
    ghost view: { Self → ShopView };

    /// Gives a disk. The others are as before, and so is each where it fails.
    fn obtain(&mut self, alloc: Global, place: &str, which: u8) -> Result<Self::D, DiskNo>
        ensures given { IfOk result (λ disk. Tells ((view self.old).offers place.now which)
            (Self.D.view disk).content) }
        ensures counted { IfOk result (λ disk. (Self.D.view disk).faults
            ≡ (view self.old).counts place.now which) }
        ensures others { (p : List ℕ) (n : ℕ) → n ≢ which
            → TellsAlike (view self.old) (view self.new) p n }
        ensures kept { OnErr result ((p : List ℕ) (n : ℕ)
            → TellsAlike (view self.old) (view self.new) p n) }
        ensures gave { (view self.new).gave ≡ (view self.old).gave
            ++ if_given result place.now which }
        ensures cause { HasCause (view self.old).faults (view self.new).faults
            (IsErrOf result DiskNo.Failed) }
        ensures counts_once { CountsOnce (view self.old).faults (view self.new).faults
            (IsErrOf result DiskNo.Failed) };
}
