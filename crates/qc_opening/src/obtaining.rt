//! Obtaining the disks of a store.
ghost use Rattle.std.specs.Prelude.{ℕ, ◌≡◌, ◌≢◌, ◌≤◌, ◌<◌, ◌++◌, All, List, length, IfOk, IfErr};
ghost use Rattle.qc_disk.specs.Shop.{TellsAlike, disks_of_place};
ghost use Rattle.qc_opening.specs.Disks.{all_places, by_place, first_numbers, number_of, AreCounted, AreOffered};
ghost use Rattle.qc_opening.specs.Obtained.{disks_of, IsNotGiven};

use crate::mount_no::MountNo;
use qc_disk::{DiskNo, Shop};
use std::alloc::Global;

// The number of the disk at a place: behind the disks of all pairs stand their spares.
fn number_of(copies: u8, place: u8) -> u8
    requires few { copies ≤ 16 }
    requires place { place < all_places copies }
    ensures { result ≡ number_of copies place }
{
    if place <= copies {
        place
    } else {
        place - (copies + 1) + 17
    }
}

/// Obtains the disks of a store of so many copies: the ledger's, each copy's, and then the spares in the same order. The
/// room for all is taken before the first, so that handing them back takes no memory.
pub fn obtain_all<H: Shop>(
    alloc: Global,
    shop: &mut H,
    place: &str,
    copies: u8,
) -> Result<Vec<H::D>, MountNo<H::D>>
    requires few { copies ≤ 16 }
    ensures offered { AreOffered H.D.view
        (by_place copies ((H.view shop.old).offers place.now)) 0 (disks_of result) }
    ensures counted { AreCounted H.D.view
        (by_place copies ((H.view shop.old).counts place.now)) 0 (disks_of result) }
    ensures all { IfOk result (λ disks. length disks.items ≡ all_places copies) }
    ensures not_all { IfErr result (IsNotGiven copies (H.view shop.old).faults
        (H.view shop.new).faults) }

    // The disks that come back are all that the shop gave. It tells of the others as before.
    ensures others { (p : List ℕ) (n : ℕ)
        → All (λ which. n ≢ which) (first_numbers copies (length (disks_of result)))
        → TellsAlike (H.view shop.old) (H.view shop.new) p n }
    ensures gave { (H.view shop.new).gave ≡ (H.view shop.old).gave
        ++ disks_of_place place.now (first_numbers copies (length (disks_of result))) }
    ensures later { (H.view shop.old).faults ≤ (H.view shop.new).faults }
{
    let count = 2 * (copies + 1);
    let Ok(mut disks) = Vec::with_capacity(alloc, usize::from(count)) else {
        let disks = Vec::new(alloc);
        return Err(MountNo::Memory { disks });
    };
    for at in 0..count {
        let which = number_of(copies, at);
        match shop.obtain(alloc, place, which) {
            Ok(disk) => disks.push_reserved(disk),
            Err(DiskNo::Failed) => return Err(MountNo::Disk { which, disks }),
            Err(DiskNo::Memory) => return Err(MountNo::Memory { disks }),
        }
    }
    Ok(disks)
}
