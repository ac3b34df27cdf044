//! Disks go into places of their own in memory, and come out of them.
ghost use Rattle.std.specs.Prelude.{◌≡◌, ◌≤◌, ◌+◌, ◌++◌, [], length, reverse, IfOk, IfErr};
ghost use Rattle.std.specs.Vec.{vec_capacity};
ghost use Rattle.qc_opening.specs.Boxes.{unboxed};

use qc_system::Boxed;
use std::alloc::Global;

/// The same items, the last first.
pub(crate) fn turned<T>(mut items: Vec<T>) -> Vec<T>
    ensures { result.items ≡ reverse items.items }
{
    items.as_mut_slice().reverse();
    items
}

// Takes the disks out of their places, the last first.
fn take_out<D: Drop>(disks: &mut Vec<D>, mut boxed: Vec<Boxed<D>>)
    requires room { length disks.old.items + length boxed.items ≤ vec_capacity disks.old }
    ensures { disks.new.items ≡ disks.old.items ++ reverse (unboxed boxed.items) }
{
    while let Some(last) = boxed.pop() {
        disks.push_reserved(last.into_disk());
    }
}

/// Puts each disk in a place of its own, in their order. Where memory is wanting, all come back as they were.
pub(crate) fn box_all<D: Drop>(alloc: Global, mut disks: Vec<D>) -> Result<Vec<Boxed<D>>, Vec<D>>
    ensures boxed { IfOk result (λ boxed. unboxed boxed.items ≡ disks.items) }
    ensures back { IfErr result (λ back. back.items ≡ disks.items) }
{
    let Ok(mut boxed) = Vec::with_capacity(alloc, disks.len()) else {
        return Err(disks);
    };
    while let Some(last) = disks.pop() {
        match Box::new(alloc, last) {
            Ok(disk) => boxed.push_reserved(Boxed { disk }),
            Err(full) => {
                disks.push_reserved(full.value);
                take_out(&mut disks, boxed);
                return Err(disks);
            }
        }
    }
    Ok(turned(boxed))
}

/// Takes the disks out of their places, in their order, into a room for them.
pub(crate) fn unbox_all<D: Drop>(mut room: Vec<D>, boxed: Vec<Boxed<D>>) -> Vec<D>
    requires none { room.items ≡ [] }
    requires room { length boxed.items ≤ vec_capacity room }
    ensures { result.items ≡ unboxed boxed.items }
{
    take_out(&mut room, turned(boxed));
    room
}
