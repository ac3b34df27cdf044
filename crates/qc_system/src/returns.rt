//! Disks on their way back.
ghost use Rattle.std.specs.Prelude.{◌≡◌, ◌≤◌, ◌<◌, ◌+◌, ◌++◌, [], ◌∷◌, length, vec_capacity, IfOk};

use std::alloc::{AllocError, Global};

/// A store has at most so many pairs of disks: the ledger's, and one for each of sixteen copies.
pub const MOST_PAIRS: usize = 17;

/// Room to hand the disks of a store back, which takes no memory then: the disks of its pairs, and their spares.
#[derive(Drop)]
pub struct Returns<D> {
    pub(crate) disks: Vec<D>,
    pub(crate) spares: Vec<D>,
    ghost as_many: { length spares.items ≡ length disks.items },
    ghost few: { length disks.items ≤ 17 },
    ghost enough: { 34 ≤ vec_capacity disks },
    ghost enough_spares: { 17 ≤ vec_capacity spares },
}

// Puts items behind others, in their order.
fn put_behind<T: Drop>(all: &mut Vec<T>, mut more: Vec<T>)
    requires room { length all.old.items + length more.items ≤ vec_capacity all.old }
    ensures { all.new.items ≡ all.old.items ++ more.items }
{
    more.as_mut_slice().reverse();
    while let Some(next) = more.pop() {
        all.push_reserved(next);
    }
}

// Puts an item before others.
fn put_before<T: Drop>(all: &mut Vec<T>, item: T)
    requires room { length all.old.items < vec_capacity all.old }
    ensures items { all.new.items ≡ item ∷ all.old.items }
    ensures capacity { vec_capacity all.new ≡ vec_capacity all.old }
{
    all.as_mut_slice().reverse();
    all.push_reserved(item);
    all.as_mut_slice().reverse();
}

impl<D: Drop> Returns<D> {
    ghost use Rattle.qc_system.specs.Pairs.{own_then_spares, pairs_in};

    /// Room for as many disks as a store may have.
    pub fn new(alloc: Global) -> Result<Self, AllocError>
        ensures { IfOk result (λ returns. pairs_in returns ≡ []) }
    {
        Ok(Returns {
            disks: Vec::with_capacity(alloc, 2 * MOST_PAIRS)?,
            spares: Vec::with_capacity(alloc, MOST_PAIRS)?,
        })
    }

    /// Puts a disk and its spare behind the others.
    pub fn put(&mut self, disk: D, spare: D)
        requires { length (pairs_in self.old) < 17 }
        ensures { pairs_in self.new ≡ pairs_in self.old ++ (disk, spare) ∷ [] }
    {
        self.disks.push_reserved(disk);
        self.spares.push_reserved(spare);
    }

    /// Puts a disk and its spare before the others.
    pub fn put_first(&mut self, disk: D, spare: D)
        requires { length (pairs_in self.old) < 17 }
        ensures { pairs_in self.new ≡ (disk, spare) ∷ pairs_in self.old }
    {
        put_before(&mut self.disks, disk);
        put_before(&mut self.spares, spare);
    }

    /// The disks in their order, and then their spares.
    pub fn into_disks(self) -> Vec<D>
        ensures { result.items ≡ own_then_spares (pairs_in self) }
    {
        let Returns {
            mut disks,
            spares,
            ..
        } = self;
        put_behind(&mut disks, spares);
        disks
    }

    /// The room alone, where nothing was put.
    pub fn into_room(self) -> Vec<D>
        requires { pairs_in self ≡ [] }
        ensures none { result.items ≡ [] }
        ensures room { 34 ≤ vec_capacity result }
    {
        self.disks
    }
}
