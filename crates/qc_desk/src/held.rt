//! What a copy holds: its start tuples, changed by its grants that are not dead.
ghost use Rattle.std.specs.Prelude.{◌≡◌, ◌<◌, ◌≤◌, length, slice_set, slice_index_or, [], IfOk};
ghost use Rattle.qc_config.specs.Tuple.{after};
ghost use Rattle.qc_event.specs.Tables.{setting_of};
ghost use Rattle.qc_desk.specs.Calling.{Shown};
ghost use Rattle.qc_desk.specs.Held.{changed_row, from_row, held_row, is_alive};
ghost use Rattle.qc_desk.specs.Known.{IsKnown};

use crate::desk::Desk;
use crate::locked::Locked;
use crate::pass::Pass;
use crate::store::Store;
use qc_config::Tuple;
use qc_event::{Grant, Name};
use std::alloc::{AllocError, Global};
use std::sync::Wait;

/// Changes the tuple of a grant's record, where there is one.
pub fn change_tuple(tuples: &mut Vec<Tuple>, grant: &Grant)
    ensures known { grant.now.rec < length tuples.old.items → tuples.new.items ≡ slice_set
        tuples.old.items grant.now.rec
        (after (from_row tuples.old.items grant.now.rec) grant.now.op) }
    ensures past { length tuples.old.items ≤ grant.now.rec → tuples.new.items ≡ tuples.old.items }
{
    let rec = usize::from(grant.rec);
    if rec < tuples.len() {
        tuples[rec] = tuples[rec].after(&grant.op);
    }
}

impl<N: Store> Locked<N> {
    // Whether a name is not dead.
    fn is_alive(&self, name: &Name) -> bool
        ensures { result ≡ is_alive self.now name.now }
    {
        self.dead(name).is_none()
    }

    // What a copy holds that started with these tuples.
    fn held(&self, alloc: Global, start: &[Tuple], copy: u8) -> Result<Vec<Tuple>, AllocError>
        ensures { IfOk result (λ row. row.items ≡ held_row start.now self.now copy) }
    {
        let mut row = start.to_vec(alloc)?;
        for index in 0..self.count_of(copy) {
            let Some(grant) = self.put_at(copy, index) else {
                continue;
            };
            if self.is_alive(&grant.access) {
                change_tuple(&mut row, &grant);
            }
        }
        Ok(row)
    }
}

impl<N: Store> Desk<N> {
    /// What a copy holds of each record, in the history at this step. It reads each grant of the copy once, and takes a
    /// step for each of the numbers of its access. The only error is want of memory for the row.
    pub fn held<R: Wait>(
        &self,
        rt: &R,
        alloc: Global,
        pass: &mut Pass<N>,
        copy: u8,
    ) -> Result<Vec<Tuple>, AllocError>
        requires { copy < 16 }
        ensures looked { Shown pass.old pass.new }
        ensures held { IfOk result (λ row. row.items
            ≡ held_row (slice_index_or N.base copy []) pass.new.seen copy) }
        ensures known { IsKnown (setting_of N.table N.base) pass.new }
    {
        let mut locked = self.locked.lock(rt);
        locked.look(&self.room, pass);
        locked.held(alloc, self.base.row(copy), copy)
    }
}
