//! What a refusal of a mounting is once its disks are out of their places.
ghost use Rattle.std.specs.Prelude.{◌≡◌, ◌≤◌, ◌+◌, ◌++◌, [], ◌∷◌, length, map, reverse};
ghost use Rattle.std.specs.Vec.{vec_capacity};
ghost use Rattle.qc_opening.specs.Boxes.{unboxed, unboxed_pairs};
ghost use Rattle.qc_opening.specs.Mounted.{copy_disks};
ghost use Rattle.qc_opening.specs.Parts.{disks_held};
ghost use Rattle.qc_opening.specs.Refusing.{disks_in, reason_in};
ghost use Rattle.qc_system.specs.Pairs.{pairs_in};

use crate::boxing::{turned, unbox_all};
use crate::mount_no::MountNo;
use crate::parts::Parts;
use qc_disk::Disk;
use qc_system::{Boxed, CopyPair, Returns};

/// The refusal with the disks themselves.
pub(crate) fn unbox_refusal<D: Drop>(refused: MountNo<Boxed<D>>, returns: Returns<D>) -> MountNo<D>
    requires none { pairs_in returns ≡ [] }
    requires room { length (disks_in refused) ≤ 34 }
    ensures reason { reason_in result ≡ reason_in refused }
    ensures disks { disks_in result ≡ unboxed (disks_in refused) }
{
    let room = returns.into_room();
    match refused {
        MountNo::Disk { which, disks } => MountNo::Disk {
            which,
            disks: unbox_all(room, disks),
        },
        MountNo::Image { fault, disks } => MountNo::Image {
            fault,
            disks: unbox_all(room, disks),
        },
        MountNo::Memory { disks } => MountNo::Memory {
            disks: unbox_all(room, disks),
        },
    }
}

// The disks of a pair, out of their places.
fn put<D: Drop>(returns: &mut Returns<D>, disks: (Boxed<D>, Boxed<D>))
    requires room { length (pairs_in returns.old) + 1 ≤ 17 }
    ensures { pairs_in returns.new ≡ pairs_in returns.old ++ unboxed_pairs (disks ∷ []) }
{
    let (disk, spare) = disks;
    returns.put(disk.into_disk(), spare.into_disk());
}

// The disks of copies, the last of these first.
fn put_copies<D: Disk + Drop>(returns: &mut Returns<D>, mut copies: Vec<CopyPair<Boxed<D>>>)
    requires room { length (pairs_in returns.old) + length copies.items ≤ 17 }
    ensures { pairs_in returns.new
        ≡ pairs_in returns.old ++ unboxed_pairs (reverse (map copy_disks copies.items)) }
{
    while let Some(last) = copies.pop() {
        put(returns, last.into_disks());
    }
}

/// The disks of a store that was mounted, each at its place.
pub(crate) fn take_apart<D: Disk + Drop>(parts: Parts<Boxed<D>>, mut returns: Returns<D>) -> Vec<D>
    requires none { pairs_in returns ≡ [] }
    requires room { length parts.copies.items + 1 ≤ 17 }
    ensures { result.items ≡ unboxed (disks_held parts) }
{
    let Parts { ledger, copies, .. } = parts;
    put(&mut returns, ledger.into_disks());
    put_copies(&mut returns, turned(copies));
    returns.into_disks()
}
