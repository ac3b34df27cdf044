//! What a copy granted, grant behind grant.
ghost use Rattle.std.specs.Prelude.{◌≡◌, ◌+◌, ◌++◌, ◌∷◌, [], ◌↔◌, IfOk, OnOk, OnErr, IsTrue};
ghost use Rattle.std.specs.Bool.{OnTrue};
ghost use Rattle.qc_codec.specs.Copy.{IsLater, MayFollow};
ghost use Rattle.qc_codec.specs.Ledger.{IsOld};

use qc_codec::Past;
use qc_event::{Grant, Name, Table};
use qc_names::lists::append;
use std::alloc::{AllocError, Global};
use std::collections::BTreeSet;

/// The first number past the half of a top's number that counts tops.
const EPOCH: u64 = 0x1_0000_0000;

/// Grants, with the names of their accesses.
#[derive(Drop)]
pub(crate) struct Granted {
    grants: Vec<Grant>,
    accesses: BTreeSet<Name>,
}

// Whether an access is below a top of an epoch that is at most the last.
fn is_old(access: &Name, last: u32) -> bool
    ensures { IsTrue result ↔ IsOld (last + 1) access.now }
{
    match access.number(0) {
        None => false,
        Some(top) => top / EPOCH <= u64::from(last),
    }
}

// Whether an access is below a top of a later epoch than this.
fn is_later(access: &Name, epoch: u32) -> bool
    ensures { IsTrue result ↔ IsLater epoch access.now }
{
    match access.number(0) {
        None => false,
        Some(top) => u64::from(epoch) < top / EPOCH,
    }
}

impl Granted {
    ghost use Rattle.qc_site.specs.Granted.{given_by, HasAccesses};

    /// Nothing was granted.
    pub(crate) fn new(alloc: Global) -> Self
        ensures none { given_by result ≡ [] }
        ensures accesses { HasAccesses result }
    {
        Granted {
            grants: Vec::new(alloc),
            accesses: BTreeSet::new(alloc),
        }
    }

    /// Takes in a grant, where it may stand behind a base of this epoch and those before it. Its access is looked up among
    /// theirs, and not held against each. Behind an error nothing is known.
    pub(crate) fn take(
        &mut self,
        table: &Table,
        past: &Past,
        base: u32,
        grant: Grant,
    ) -> Result<bool, AllocError>
        requires { HasAccesses self.old }
        ensures tells { IfOk result (λ taken. IsTrue taken ↔ MayFollow table.now past.now base
            (given_by self.old) grant) }
        ensures taken { IfOk result (λ taken. OnTrue taken (given_by self.new ≡ given_by self.old
            ++ grant ∷ [])) }
        ensures accesses { IfOk result (λ taken. OnTrue taken (HasAccesses self.new)) }
    {
        let known = usize::from(grant.rec) < table.records.as_slice().len();
        if !known || !is_old(&grant.access, past.epoch) || !is_later(&grant.access, base) {
            return Ok(false);
        }
        if !self.accesses.insert(grant.access)? {
            return Ok(false);
        }
        append(&mut self.grants, grant)?;
        Ok(true)
    }

    /// The grants.
    pub(crate) fn into_grants(self) -> Vec<Grant>
        ensures { result.items ≡ given_by self }
    {
        self.grants
    }
}
