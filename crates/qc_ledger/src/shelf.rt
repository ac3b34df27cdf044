//! An open ledger: tops are logged one by one.
ghost use Rattle.std.specs.Prelude.{◌≡◌, ◌↔◌, ◌+◌, ℕ, List, [], ◌∷◌, ◌++◌, IfOk, IfErr, OnOk, OnErr, IsErrOf, IsSome, IsTrue, None, Some, Err, length, if◌then◌else◌};
ghost use Rattle.qc_codec.specs.Bodies as body;
ghost use Rattle.qc_codec.specs.declared.record.LedgerRecord.TheVariants.{Top};
ghost use Rattle.qc_journal.specs.Journal.{behind_hand, disk_of, in_hand, limit_of, place_of, with_hand, IsDown, IsTooLong, IsUp, Keeps};
ghost use Rattle.qc_ledger.specs.Runs.{HasOrMore, Leaves, LosesNone, Falls, Costs, CostsOnce, CostsTwice, CostsTwo};
ghost use Rattle.qc_ledger.specs.declared.fault.LedgerNo.TheVariants.{Disk, Full};

use crate::fault::{LedgerNo, log_no};
use qc_codec::write_top;
use qc_disk::Disk;
use qc_event::Name;
use qc_journal::{Fault, Journal};
use std::alloc::Global;

/// A ledger that logs tops. A top may be in hand: one whose record stands, where it is up, until it is let go of; one
/// whose record may stand, where it is down.
#[derive(Drop)]
pub struct Shelf<D: Disk> {
    pub(crate) alloc: Global,
    pub(crate) journal: Journal<D>,
    pub(crate) hand: Option<Name>,
    ghost holds: { IsDown journal → IsSome (in_hand journal) },
}

impl<D: Disk> Shelf<D> {
    ghost use Rattle.qc_ledger.specs.Shelf.{journal_in, top_in, top_body, LogLeaves, IsDeviceNo, IsRefusedFor, IsUnsure};

    /// Whether it is up.
    pub fn is_up(&self) -> bool
        ensures { IsTrue result ↔ IsUp (journal_in self.now) }
    {
        self.journal.is_up()
    }

    /// The top in hand.
    pub fn hand(&self) -> Option<Name>
        ensures { result ≡ top_in self.now }
    {
        self.hand
    }

    /// Lets go of the top in hand. Where it is down, its record goes on to be one that may stand.
    pub fn let_go(&mut self)
        ensures none { top_in self.new ≡ None }
        ensures journal { journal_in self.new ≡ journal_in self.old }
    {
        self.hand = None;
    }

    /// Syncs, and tells whether the record in hand stands; then it is up. A top whose record does not stand is let go
    /// of. On refusal it is down, with in hand what was in hand before.
    pub fn revive(&mut self) -> Result<bool, LedgerNo>
        requires down { IsDown (journal_in self.old) }

        ensures up { OnOk result (IsUp (journal_in self.new)) }
        ensures hand { IfOk result (λ stands. top_in self.new ≡
            (if stands then top_in self.old else None)) }
        ensures place { IfOk result (λ stands. place_of (journal_in self.new) ≡
            (if stands then behind_hand (place_of (journal_in self.old))
            (in_hand (journal_in self.old)) else place_of (journal_in self.old))) }

        // Where the disk tells its bytes, each image has the record exactly where the answer says so.
        ensures tells { IfOk result (λ stands. (bodies : List (List ℕ))
            → Keeps (journal_in self.old) bodies
            → Keeps (journal_in self.new) (if stands then with_hand bodies (in_hand (journal_in self.old)) else bodies)) }
        ensures refused { IfErr result IsDeviceNo }
        ensures down { OnErr result (IsDown (journal_in self.new)) }
        ensures hand_err { OnErr result (top_in self.new ≡ top_in self.old) }
        ensures in_journal { OnErr result (in_hand (journal_in self.new) ≡ in_hand
            (journal_in self.old)) }
        ensures place_err { OnErr result (place_of (journal_in self.new) ≡ place_of
            (journal_in self.old)) }
        ensures kept { OnErr result ((bodies : List (List ℕ)) → Keeps (journal_in self.old) bodies
            → Keeps (journal_in self.new) bodies) }
        ensures limit { limit_of (journal_in self.new) ≡ limit_of (journal_in self.old) }
        ensures content { (D.view (disk_of (journal_in self.new))).content
            ≡ (D.view (disk_of (journal_in self.old))).content }

        ensures any_moment { Leaves (journal_in self.old) (journal_in self.new)
            (D.view (disk_of (journal_in self.old))).may_leave }
        ensures falls { Falls (journal_in self.old) (journal_in self.new) }
        ensures cause { Costs (journal_in self.old) (journal_in self.new) (IsErrOf result Disk) }
        ensures counts_once { CostsOnce (journal_in self.old) (journal_in self.new)
            (IsErrOf result Disk) }
    {
        match self.journal.reopen() {
            Ok(true) => Ok(true),
            Ok(false) => {
                self.hand = None;
                Ok(false)
            }
            Err(fault) => Err(log_no(fault)),
        }
    }

    // Writes a record. Its top is in hand then, unless nothing was done.
    fn write(&mut self, top: &Name, bytes: &[u8]) -> Result<(), LedgerNo>
        requires up { IsUp (journal_in self.old) }
        requires none { top_in self.old ≡ None }
        ensures up { OnOk result (IsUp (journal_in self.new)) }
        ensures hand { OnOk result (top_in self.new ≡ Some top.now) }
        ensures place { OnOk result (place_of (journal_in self.new) ≡ place_of (journal_in self.old)
            + 5 + length bytes.now) }
        ensures logged { OnOk result ((bodies : List (List ℕ)) → Keeps (journal_in self.old) bodies
            → Keeps (journal_in self.new) (bodies ++ bytes.now ∷ [])) }
        ensures left { IfErr result (LogLeaves self.old self.new top.now bytes.now) }
        ensures full { (result ≡ Err (Full (place_of (journal_in self.old)))) ↔ IsTooLong
            (place_of (journal_in self.old)) (limit_of (journal_in self.old)) bytes.now }
        ensures kept { OnErr result ((bodies : List (List ℕ)) → Keeps (journal_in self.old) bodies
            → Keeps (journal_in self.new) bodies) }
        ensures limit { limit_of (journal_in self.new) ≡ limit_of (journal_in self.old) }
        ensures any_moment { (bodies : List (List ℕ)) → Keeps (journal_in self.old) bodies
            → Leaves (journal_in self.old) (journal_in self.new) (HasOrMore bodies bytes.now) }
        ensures grows { (bodies : List (List ℕ)) → Keeps (journal_in self.old) bodies
            → LosesNone (journal_in self.old) (journal_in self.new) }
        ensures cause { Costs (journal_in self.old) (journal_in self.new) (IsErrOf result Disk) }
        ensures counts_once { CostsOnce (journal_in self.old) (journal_in self.new)
            (IsErrOf result Disk) }
    {
        match self.journal.append(bytes) {
            Ok(()) => {
                self.hand = Some(*top);
                Ok(())
            }
            Err(fault) => {
                if !self.journal.is_up() {
                    self.hand = Some(*top);
                }
                Err(log_no(fault))
            }
        }
    }

    // After a fault: the record stands, or it is written once more.
    fn write_again(&mut self, top: &Name, bytes: &[u8]) -> Result<(), LedgerNo>
        requires unsure { IsUnsure self.old (place_of (journal_in self.old)) top.now bytes.now }
        requires short { IsTooLong (place_of (journal_in self.old)) (limit_of (journal_in self.old))
            bytes.now → ⊥ }
        ensures up { OnOk result (IsUp (journal_in self.new)) }
        ensures hand { OnOk result (top_in self.new ≡ Some top.now) }
        ensures place { OnOk result (place_of (journal_in self.new) ≡ place_of (journal_in self.old)
            + 5 + length bytes.now) }
        ensures logged { OnOk result ((bodies : List (List ℕ)) → Keeps (journal_in self.old) bodies
            → Keeps (journal_in self.new) (bodies ++ bytes.now ∷ [])) }
        ensures left { IfErr result (LogLeaves self.old self.new top.now bytes.now) }
        ensures full { (place : ℕ) → result ≡ Err (Full place) → ⊥ }
        ensures kept { OnErr result ((bodies : List (List ℕ)) → Keeps (journal_in self.old) bodies
            → Keeps (journal_in self.new) bodies) }
        ensures limit { limit_of (journal_in self.new) ≡ limit_of (journal_in self.old) }
        ensures any_moment { (bodies : List (List ℕ)) → Keeps (journal_in self.old) bodies
            → Leaves (journal_in self.old) (journal_in self.new) (HasOrMore bodies bytes.now) }
        ensures grows { (bodies : List (List ℕ)) → Keeps (journal_in self.old) bodies
            → LosesNone (journal_in self.old) (journal_in self.new) }
        ensures cause { Costs (journal_in self.old) (journal_in self.new) (IsErrOf result Disk) }
        ensures counts_once { CostsOnce (journal_in self.old) (journal_in self.new)
            (IsErrOf result Disk) }
    {
        if self.revive()? {
            return Ok(());
        }
        self.write(top, bytes)
    }

    // Writes a record, with one revival and one second try after a fault of the disk.
    fn write_twice(&mut self, top: &Name, bytes: &[u8]) -> Result<(), LedgerNo>
        requires up { IsUp (journal_in self.old) }
        requires none { top_in self.old ≡ None }
        ensures up { OnOk result (IsUp (journal_in self.new)) }
        ensures hand { OnOk result (top_in self.new ≡ Some top.now) }
        ensures place { OnOk result (place_of (journal_in self.new) ≡ place_of (journal_in self.old)
            + 5 + length bytes.now) }
        ensures logged { OnOk result ((bodies : List (List ℕ)) → Keeps (journal_in self.old) bodies
            → Keeps (journal_in self.new) (bodies ++ bytes.now ∷ [])) }
        ensures left { IfErr result (LogLeaves self.old self.new top.now bytes.now) }
        ensures full { (result ≡ Err (Full (place_of (journal_in self.old)))) ↔ IsTooLong
            (place_of (journal_in self.old)) (limit_of (journal_in self.old)) bytes.now }
        ensures kept { OnErr result ((bodies : List (List ℕ)) → Keeps (journal_in self.old) bodies
            → Keeps (journal_in self.new) bodies) }
        ensures limit { limit_of (journal_in self.new) ≡ limit_of (journal_in self.old) }
        ensures any_moment { (bodies : List (List ℕ)) → Keeps (journal_in self.old) bodies
            → Leaves (journal_in self.old) (journal_in self.new) (HasOrMore bodies bytes.now) }
        ensures grows { (bodies : List (List ℕ)) → Keeps (journal_in self.old) bodies
            → LosesNone (journal_in self.old) (journal_in self.new) }
        ensures cause { Costs (journal_in self.old) (journal_in self.new) (IsErrOf result Disk) }
        ensures counts_twice { CostsTwice (journal_in self.old) (journal_in self.new)
            (IsErrOf result Disk) }
        ensures twice { IsErrOf result Disk → CostsTwo (journal_in self.old) (journal_in self.new) }
    {
        match self.write(top, bytes) {
            Err(LedgerNo::Disk) => self.write_again(top, bytes),
            first => first,
        }
    }

    /// Logs a top with the names that were aborted below it. From `Ok` on its record is in each image, and the top is in
    /// hand until it is let go of. After a fault of the disk there is one revival, and one second try where the record does
    /// not stand.
    pub fn log(&mut self, top: &Name, aborted: &[Name]) -> Result<(), LedgerNo>
        requires up { IsUp (journal_in self.old) }
        requires none { top_in self.old ≡ None }
        requires proper { body.ledger.fits (Top top.now aborted.now) }

        ensures up { OnOk result (IsUp (journal_in self.new)) }
        ensures hand { OnOk result (top_in self.new ≡ Some top.now) }
        ensures place { OnOk result (place_of (journal_in self.new) ≡ place_of (journal_in self.old)
            + 5 + length (top_body top.now aborted.now)) }

        // Where the disk tells its bytes, each image has the record after `Ok`, and may have it after an error.
        ensures logged { OnOk result ((bodies : List (List ℕ)) → Keeps (journal_in self.old) bodies
            → Keeps (journal_in self.new) (bodies ++ top_body top.now aborted.now ∷ [])) }
        ensures kept { OnErr result ((bodies : List (List ℕ)) → Keeps (journal_in self.old) bodies
            → Keeps (journal_in self.new) bodies) }

        // After a fault of the disk it is down with the top in hand. Full changes nothing, and comes where the record would
        // pass the limit, or else memory was wanting.
        ensures left { IfErr result (LogLeaves self.old self.new top.now
            (top_body top.now aborted.now)) }
        ensures full { (place : ℕ) → result ≡ Err (Full place)
            → IsTooLong (place_of (journal_in self.old)) (limit_of (journal_in self.old))
            (top_body top.now aborted.now) }
        ensures too_long { IsTooLong (place_of (journal_in self.old))
            (limit_of (journal_in self.old)) (top_body top.now aborted.now)
            → IsRefusedFor (Full (place_of (journal_in self.old))) result }
        ensures limit { limit_of (journal_in self.new) ≡ limit_of (journal_in self.old) }

        // A crash at any moment of the call leaves the records from before it, with the new one or without.
        ensures any_moment { (bodies : List (List ℕ)) → Keeps (journal_in self.old) bodies
            → Leaves (journal_in self.old) (journal_in self.new)
            (HasOrMore bodies (top_body top.now aborted.now)) }
        ensures grows { (bodies : List (List ℕ)) → Keeps (journal_in self.old) bodies
            → LosesNone (journal_in self.old) (journal_in self.new) }

        // A fault of the disk is told only after two.
        ensures cause { Costs (journal_in self.old) (journal_in self.new) (IsErrOf result Disk) }
        ensures counts_twice { CostsTwice (journal_in self.old) (journal_in self.new)
            (IsErrOf result Disk) }
        ensures twice { IsErrOf result Disk → CostsTwo (journal_in self.old) (journal_in self.new) }
    {
        let record = write_top(self.alloc, top, aborted)?;
        self.write_twice(top, &record)
    }

    /// The disk.
    pub fn into_disk(self) -> D
        ensures { result ≡ disk_of (journal_in self) }
    {
        self.journal.into_disk()
    }
}
