//! The journal of a pair that is not active, and what is folded into it.
ghost use Rattle.std.specs.Prelude.{ℕ, ◌≡◌, ◌<◌, ◌≤◌, ◌+◌, ◌^◌, ◌⊎◌, ◌∷◌, [], nat_lt, List, All, None, Some, IfErr, IfOk, OnErr, OnOk, IsErrAnd, IsErrOf, Err, length, if◌then◌else◌};
ghost use Rattle.qc_codec.specs.Bodies as body;
ghost use Rattle.qc_codec.specs.Fields as field;
ghost use Rattle.qc_codec.specs.Fields.{current};
ghost use Rattle.qc_disk.specs.Disk.{HasCause, CountsOnce, LeavesOnly};
ghost use Rattle.qc_journal.specs.Image.{bodies_of};
ghost use Rattle.qc_journal.specs.Journal.{disk_of, limit_of, IsUp, Keeps};
ghost use Rattle.qc_journal.specs.declared.fault.Fault.TheVariants.{Full, Memory};
ghost use Rattle.qc_pair.specs.Folding.{HasNoRoom, IsFolding, IsFoldNo, IsFullFold};

use crate::folding::fold;
use qc_codec::{BaseRecord, Tuples, write_base};
use qc_config::Tuple;
use qc_disk::Disk;
use qc_journal::{Body, Fault, Journal};
use std::alloc::Global;

/// Folds have the numbers up to this one.
const LAST: u64 = 9_223_372_036_854_775_808;

// The body of a base, of a store of so many copies.
fn write(
    alloc: Global,
    number: u64,
    epoch: u32,
    copies: u8,
    tuples: Vec<Tuple>,
) -> Result<Body, Fault>
    requires counted { 0 < number }
    requires last { number ≤ 2 ^ 63 }
    requires few { copies ≤ 16 }
    requires fit { All (field.tuple (current copies)).fits tuples.items }
    ensures spelled { IfOk result (λ bytes. bytes.items ≡ (body.base (current copies)
        (length tuples.items)).spell
        (record { number = number; epoch = epoch; tuples = tuples.items })) }
    ensures memory { IfErr result (λ no. no ≡ Memory) }
{
    let base = BaseRecord {
        number,
        epoch,
        tuples: Tuples::new(tuples),
    };
    let bytes = write_base(alloc, &base, copies)?;
    Ok(bytes)
}

/// The journal of a pair that is not active, the number of the active one's base, 0 where it has none, and what a fold
/// writes behind it: the body that says how the disk was made, and the epoch of the run.
#[derive(Drop)]
pub struct Fold<D: Disk> {
    pub(crate) other: Journal<D>,
    pub(crate) number: u64,
    pub(crate) is_swapped: bool,
    pub(crate) made: Body,
    pub(crate) epoch: u32,
    pub(crate) copies: u8,
    ghost few: { copies ≤ 16 },
}

impl<D: Disk> Fold<D> {
    ghost use Rattle.qc_pair.specs.Fold.{active_number, copies_in, folded_base, folded_bodies, folded_disk, made_in, other_in, own_disk, renewed_base, renewed_bodies, spare_disk, swapped_in, IsExchanged, IsFullFor, IsSameFold};

    /// The number of the next fold, none where the last has the number 2^63.
    pub fn next(&self) -> Option<u64>
        ensures { result ≡ (if nat_lt (active_number self.now) (2 ^ 63)
            then Some (active_number self.now + 1) else None) }
    {
        if self.number < LAST {
            Some(self.number + 1)
        } else {
            None
        }
    }

    // The body of the next base, with these tuples. Full comes where the last number was used up.
    fn base(&self, alloc: Global, epoch: u32, tuples: Vec<Tuple>) -> Result<Body, Fault>
        requires fit { All (field.tuple (current (copies_in self.now))).fits tuples.items }
        ensures base { IfOk result (λ base. base.items
            ≡ renewed_base self.now epoch tuples.items) }
        ensures some { OnOk result (active_number self.now < 2 ^ 63) }
        ensures refused { OnErr result ((result ≡ Err Memory)
            ⊎ ((result ≡ Err (Full 0)) × (2 ^ 63 ≤ active_number self.now))) }
        ensures last { 2 ^ 63 ≤ active_number self.now → result ≡ Err (Full 0) }
    {
        match self.next() {
            Some(number) => write(alloc, number, epoch, self.copies, tuples),
            None => Err(Fault::Full { place: 0 }),
        }
    }

    /// Drops what the journal has, and writes there how its disk was made and a base with the next number, the epoch of
    /// the run and these tuples, one for each record; a ledger's has none. The active journal is not touched: after a
    /// refusal it is the one that is read.
    pub fn fold(&mut self, alloc: Global, tuples: Vec<Tuple>) -> Result<(), Fault>
        requires up { IsUp (other_in self.old) }
        requires fit { All (field.tuple (current (copies_in self.old))).fits tuples.items }
        ensures up { OnOk result (IsUp (other_in self.new)) }
        ensures same { IsSameFold self.old self.new }

        // Full comes where one of both would pass the limit, or the last number was used up, and nowhere else. The latter
        // comes before any call of the disk.
        ensures full { (place : ℕ) → result ≡ Err (Full place)
            → IsFullFor self.old tuples.items place }
        ensures room { OnOk result ((place : ℕ) → IsFullFor self.old tuples.items place → ⊥) }
        ensures last { 2 ^ 63 ≤ active_number self.old
            → (result ≡ Err (Full 0)) × (other_in self.new ≡ other_in self.old) }
        ensures fault { IfErr result IsFoldNo }

        // Where the disk tells its bytes, each image has both after `Ok`; and at any moment of the call what it had,
        // none, the first, or both.
        ensures keeps { OnOk result ((bodies : List (List ℕ)) → Keeps (other_in self.old) bodies
            → Keeps (other_in self.new) (folded_bodies self.old tuples.items)) }
        ensures any_moment { (bodies : List (List ℕ)) → Keeps (other_in self.old) bodies
            → LeavesOnly D.view (disk_of (other_in self.old)) (disk_of (other_in self.new))
            (IsFolding bodies (made_in self.old) (folded_base self.old tuples.items)) }
        ensures cause { HasCause (D.view (disk_of (other_in self.old))).faults
            (D.view (disk_of (other_in self.new))).faults (IsErrOf result Fault.Disk) }
        ensures counts_once { CountsOnce (D.view (disk_of (other_in self.old))).faults
            (D.view (disk_of (other_in self.new))).faults (IsErrOf result Fault.Disk) }
    {
        let base = self.base(alloc, self.epoch, tuples)?;
        self.fold_base(&base)
    }

    // Drops what the journal has, and writes there how its disk was made and a base.
    fn fold_base(&mut self, base: &[u8]) -> Result<(), Fault>
        requires up { IsUp (other_in self.old) }
        ensures up { OnOk result (IsUp (other_in self.new)) }
        ensures same { IsSameFold self.old self.new }
        ensures full { (place : ℕ) → result ≡ Err (Full place)
            → IsFullFold (limit_of (other_in self.old)) (made_in self.old) base.now place }
        ensures room { OnOk result ((place : ℕ)
            → IsFullFold (limit_of (other_in self.old)) (made_in self.old) base.now place → ⊥) }
        ensures fault { IfErr result IsFoldNo }
        ensures keeps { OnOk result ((bodies : List (List ℕ)) → Keeps (other_in self.old) bodies
            → Keeps (other_in self.new) (made_in self.old ∷ base.now ∷ [])) }
        ensures any_moment { (bodies : List (List ℕ)) → Keeps (other_in self.old) bodies
            → LeavesOnly D.view (disk_of (other_in self.old)) (disk_of (other_in self.new))
            (IsFolding bodies (made_in self.old) base.now) }
        ensures cause { HasCause (D.view (disk_of (other_in self.old))).faults
            (D.view (disk_of (other_in self.new))).faults (IsErrOf result Fault.Disk) }
        ensures counts_once { CountsOnce (D.view (disk_of (other_in self.old))).faults
            (D.view (disk_of (other_in self.new))).faults (IsErrOf result Fault.Disk) }
    {
        fold(&mut self.other, &self.made, base)
    }

    /// Folds these tuples, as of an epoch, into the journal, which is the active one from then on; the one that was active
    /// is the other, into which the next fold writes the body that says how its disk was made. It tells the bodies that
    /// the active one has. A refusal hands the journal back that is still active.
    pub fn renew(
        mut self,
        alloc: Global,
        active: Journal<D>,
        made: Body,
        epoch: u32,
        tuples: Vec<Tuple>,
    ) -> Result<(Journal<D>, Vec<Body>, Self), (Journal<D>, Self, Fault)>
        requires up { IsUp (other_in self) }
        requires fit { All (field.tuple (current (copies_in self))).fits tuples.items }
        ensures up { IfOk result (λ renewed. IsUp renewed.0) }
        ensures limit { IfOk result (λ renewed. limit_of renewed.0 ≡ limit_of (other_in self)) }
        ensures bodies { IfOk result (λ renewed. bodies_of renewed.1.items
            ≡ renewed_bodies self epoch tuples.items) }
        ensures keeps { IfOk result (λ renewed. (bodies : List (List ℕ))
            → Keeps (other_in self) bodies → Keeps renewed.0 (bodies_of renewed.1.items)) }
        ensures exchanged { IfOk result (λ renewed. IsExchanged self active made.items renewed.2) }
        ensures back { IfErr result (λ refused. (refused.0 ≡ active)
            × IsSameFold self refused.1) }

        // Full comes where a body would pass the limit, or the last number was used up, and nowhere else.
        ensures fault { IfErr result (λ refused. IsFoldNo refused.2) }
        ensures full { (place : ℕ) → IsErrAnd result (λ refused. refused.2 ≡ Full place)
            → HasNoRoom (active_number self) (limit_of (other_in self)) (made_in self)
            (renewed_base self epoch tuples.items) place }
        ensures room { OnOk result ((place : ℕ) → HasNoRoom (active_number self)
            (limit_of (other_in self)) (made_in self) (renewed_base self epoch tuples.items) place
            → ⊥) }
        ensures low { OnOk result (active_number self < 2 ^ 63) }
        ensures last { 2 ^ 63 ≤ active_number self
            → folded_disk result ≡ disk_of (other_in self) }

        // What it leaves of the disk into which it folds at each moment, and what it costs.
        ensures any_moment { (bodies : List (List ℕ)) → Keeps (other_in self) bodies
            → LeavesOnly D.view (disk_of (other_in self)) (folded_disk result)
            (IsFolding bodies (made_in self) (renewed_base self epoch tuples.items)) }
        ensures cause { HasCause (D.view (disk_of (other_in self))).faults
            (D.view (folded_disk result)).faults
            (IsErrAnd result (λ refused. refused.2 ≡ Fault.Disk)) }
        ensures counts_once { CountsOnce (D.view (disk_of (other_in self))).faults
            (D.view (folded_disk result)).faults
            (IsErrAnd result (λ refused. refused.2 ≡ Fault.Disk)) }
    {
        let base = match self.base(alloc, epoch, tuples) {
            Ok(base) => base,
            Err(fault) => return Err((active, self, fault)),
        };
        let Ok(mut bodies) = Vec::with_capacity(alloc, 2) else {
            return Err((active, self, Fault::Memory));
        };
        match self.fold_base(&base) {
            Ok(()) => {}
            Err(fault) => return Err((active, self, fault)),
        }
        bodies.push_reserved(self.made);
        bodies.push_reserved(base);
        let fold = Fold {
            other: active,
            number: self.number + 1,
            is_swapped: !self.is_swapped,
            made,
            epoch: self.epoch,
            copies: self.copies,
        };
        Ok((self.other, bodies, fold))
    }

    /// The number of its disk, in the pair of a disk of this number.
    pub fn disk(&self, who: u8) -> u8
        requires { who ≤ 16 }
        ensures { result ≡ (if swapped_in self.now then who else who + 17) }
    {
        if self.is_swapped { who } else { who + 17 }
    }

    /// The number of the active disk there.
    pub fn active_disk(&self, who: u8) -> u8
        requires { who ≤ 16 }
        ensures { result ≡ (if swapped_in self.now then who + 17 else who) }
    {
        if self.is_swapped { who + 17 } else { who }
    }

    /// The disk, and then the spare, of which this one is active.
    pub fn into_disks(self, active: D) -> (D, D)
        ensures own { result.0 ≡ own_disk self active }
        ensures spare { result.1 ≡ spare_disk self active }
    {
        let other = self.other.into_disk();
        if self.is_swapped {
            (other, active)
        } else {
            (active, other)
        }
    }
}
