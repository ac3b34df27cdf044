//! What records tell, one behind another.
ghost use Rattle.std.specs.Prelude.{◌≡◌, ◌++◌, ◌∷◌, [], ◌↔◌, IfOk, OnOk, OnErr, IsTrue, None, Some};
ghost use Rattle.std.specs.Bool.{OnTrue};
ghost use Rattle.qc_codec.specs.Ledger.{MayFollow};
ghost use Rattle.qc_codec.specs.declared.record.LedgerRecord.TheVariants.{Epoch, Top};

use qc_codec::{LedgerRecord, Logged, Names, Past, Tops};
use qc_event::Name;
use qc_names::lists::append_moved;
use std::alloc::{AllocError, Global};
use std::collections::BTreeSet;

/// The first number past the half of a top's number that counts tops.
const EPOCH: u64 = 0x1_0000_0000;

/// What was told so far, with the numbers of the tops.
#[derive(Drop)]
pub(crate) struct Seen {
    epoch: u32,
    base: Option<u32>,
    tops: Vec<Logged>,
    numbers: BTreeSet<u64>,
}

impl Seen {
    ghost use Rattle.qc_ledger.specs.Seen.{told_by, HasNumbers, with_record};

    /// Nothing was told.
    pub(crate) fn new(alloc: Global) -> Self
        ensures none { told_by result ≡ record { epoch = 0; base = None; tops = [] } }
        ensures numbers { HasNumbers result }
    {
        Seen {
            epoch: 0,
            base: None,
            tops: Vec::new(alloc),
            numbers: BTreeSet::new(alloc),
        }
    }

    /// Takes in the epoch of a base.
    pub(crate) fn take_base(&mut self, epoch: u32)
        requires { HasNumbers self.old }
        ensures taken { told_by self.new ≡ record {
          epoch = epoch;
          base = Some epoch;
          tops = (told_by self.old).tops;
        } }
        ensures numbers { HasNumbers self.new }
    {
        self.epoch = epoch;
        self.base = Some(epoch);
    }

    // Takes in an epoch, where it is the next.
    fn take_epoch(&mut self, epoch: u32) -> bool
        requires { HasNumbers self.old }
        ensures tells { IsTrue result ↔ MayFollow (told_by self.old) (Epoch epoch) }
        ensures taken { OnTrue result (told_by self.new ≡ with_record (told_by self.old)
            (Epoch epoch)) }
        ensures numbers { HasNumbers self.new }
    {
        if epoch == 0 || epoch - 1 != self.epoch {
            return false;
        }
        self.epoch = epoch;
        true
    }

    // Takes in a top, where it is of the last epoch, which is no base's, and new. Behind an error nothing is known.
    fn take_top(&mut self, top: Name, aborted: Names) -> Result<bool, AllocError>
        requires { HasNumbers self.old }
        ensures tells { IfOk result (λ taken. IsTrue taken ↔ MayFollow (told_by self.old)
            (Top top aborted)) }
        ensures taken { IfOk result (λ taken. OnTrue taken (told_by self.new ≡ with_record
            (told_by self.old) (Top top aborted))) }
        ensures numbers { IfOk result (λ taken. OnTrue taken (HasNumbers self.new)) }
    {
        let (1, Some(number)) = (top.len(), top.number(0)) else {
            return Ok(false);
        };
        if number / EPOCH != u64::from(self.epoch) || self.base == Some(self.epoch) {
            return Ok(false);
        }
        if !self.numbers.insert(number)? {
            return Ok(false);
        }
        append_moved(&mut self.tops, Logged { top, aborted })?;
        Ok(true)
    }

    /// Takes in a record, where it may stand behind those before it. Behind an error nothing is known.
    pub(crate) fn take(&mut self, next: LedgerRecord) -> Result<bool, AllocError>
        requires { HasNumbers self.old }
        ensures tells { IfOk result (λ taken. IsTrue taken ↔ MayFollow (told_by self.old) next) }
        ensures taken { IfOk result (λ taken. OnTrue taken (told_by self.new ≡ with_record
            (told_by self.old) next)) }
        ensures numbers { IfOk result (λ taken. OnTrue taken (HasNumbers self.new)) }
    {
        match next {
            LedgerRecord::Made(_) => Ok(false),
            LedgerRecord::Epoch(epoch) => Ok(self.take_epoch(epoch)),
            LedgerRecord::Top { top, aborted } => self.take_top(top, aborted),
        }
    }

    /// The last epoch, 0 where there is neither an epoch nor a base.
    pub(crate) fn epoch(&self) -> u32
        ensures { result ≡ (told_by self.now).epoch }
    {
        self.epoch
    }

    /// What was told.
    pub(crate) fn into_past(self) -> Past
        ensures { result ≡ told_by self }
    {
        Past {
            epoch: self.epoch,
            base: self.base,
            tops: Tops::new(self.tops),
        }
    }
}
