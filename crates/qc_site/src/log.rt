//! The journal of what a copy grants.
ghost use Rattle.std.specs.Prelude.{◌≡◌, ◌≤◌, ◌↔◌, ℕ, List, IfOk, IfErr, IfSome, IsErrOf, IsTrue, OnOk, OnErr, Option, None, Some, Ok, Err, true, if◌then◌else◌};
ghost use Rattle.qc_codec.specs.Bodies as body;
ghost use Rattle.qc_codec.specs.Fields.{current};
ghost use Rattle.qc_event.specs.declared.event.Grant.{Grant};
ghost use Rattle.qc_journal.specs.Journal.{disk_of, limit_of, place_of, IsDown, IsTooLong, IsUp, Keeps};
ghost use Rattle.qc_journal.specs.declared.fault.Fault.TheVariants.{Full};
ghost use Rattle.qc_ledger.specs.Runs.{Costs, CostsOnce, Falls, HasOrMore, Leaves, LosesNone};
ghost use Rattle.qc_ledger.specs.Shelf.{EndsWithin};
ghost use Rattle.qc_site.specs.Back.{grant_body, IsAnswer, IsPlain};

use crate::back::{BackNo, read_back};
use qc_codec::write_grant;
use qc_disk::Disk;
use qc_event::Grant;
use qc_journal::{Fault, Journal};
use std::alloc::Global;

/// A copy's journal, in which so many records are from before this run; behind them stands what the copy granted.
#[derive(Drop)]
pub struct GrantLog<D: Disk> {
    pub(crate) alloc: Global,
    pub(crate) journal: Journal<D>,
    pub(crate) copies: u8,
    pub(crate) earlier: usize,
    ghost few: { copies ≤ 16 },
}

impl<D: Disk> GrantLog<D> {
    ghost use Rattle.qc_site.specs.Log.{copies_of, earlier_in, log_journal, IsOver, WriteLeaves};

    /// Whether it is up.
    pub(crate) fn is_up(&self) -> bool
        ensures { IsTrue result ↔ IsUp (log_journal self.now) }
    {
        self.journal.is_up()
    }

    /// Takes it down, as a crash of its copy does.
    pub(crate) fn close(&mut self)
        ensures down { IsDown (log_journal self.new) }
        ensures over { (before : List (List ℕ)) (given : List Grant) (hand : Option Grant)
            → IsOver before self.old given hand → IsOver before self.new given hand }
        ensures disk { disk_of (log_journal self.new) ≡ disk_of (log_journal self.old) }
        ensures limit { limit_of (log_journal self.new) ≡ limit_of (log_journal self.old) }
        ensures copies { copies_of self.new ≡ copies_of self.old }
    {
        self.journal.close();
    }

    /// Writes a grant, which is in hand then, unless nothing was done. From `Ok` on it is in each image.
    pub(crate) fn write(&mut self, grant: &Grant) -> Result<(), Fault>
        requires up { IsUp (log_journal self.old) }
        requires proper { (body.grant (current (copies_of self.old))).fits grant.now }

        // At `Ok` it is up, with the grant in hand. Full comes where the record would pass the limit, or else memory is
        // wanting, and changes nothing.
        ensures up { OnOk result (IsUp (log_journal self.new)) }
        ensures left { IfErr result (WriteLeaves self.old self.new) }
        ensures full { (place : ℕ) → result ≡ Err (Full place)
            → IsTooLong (place_of (log_journal self.old)) (limit_of (log_journal self.old))
            (grant_body (copies_of self.old) grant.now) }
        ensures fits { OnOk result (IsTooLong (place_of (log_journal self.old))
            (limit_of (log_journal self.old)) (grant_body (copies_of self.old) grant.now) → ⊥) }
        ensures within { OnOk result (EndsWithin (log_journal self.new)
            (grant_body (copies_of self.old) grant.now)) }

        // Where the disk tells its bytes, each image has the record after `Ok`, and may have it where the journal is down.
        ensures over { OnOk result ((before : List (List ℕ)) (given : List Grant)
            → IsOver before self.old given None → IsOver before self.new given (Some grant.now)) }
        ensures idle { OnErr result (IsUp (log_journal self.new)
            → (before : List (List ℕ)) (given : List Grant)
            → IsOver before self.old given None → IsOver before self.new given None) }
        ensures unsure { OnErr result (IsDown (log_journal self.new)
            → (before : List (List ℕ)) (given : List Grant)
            → IsOver before self.old given None → IsOver before self.new given (Some grant.now)) }

        ensures limit { limit_of (log_journal self.new) ≡ limit_of (log_journal self.old) }
        ensures copies { copies_of self.new ≡ copies_of self.old }
        ensures any_moment { (bodies : List (List ℕ)) → Keeps (log_journal self.old) bodies
            → Leaves (log_journal self.old) (log_journal self.new)
            (HasOrMore bodies (grant_body (copies_of self.old) grant.now)) }
        ensures grows { (bodies : List (List ℕ)) → Keeps (log_journal self.old) bodies
            → LosesNone (log_journal self.old) (log_journal self.new) }
        ensures cause { Costs (log_journal self.old) (log_journal self.new)
            (IsErrOf result Fault.Disk) }
        ensures counts_once { CostsOnce (log_journal self.old) (log_journal self.new)
            (IsErrOf result Fault.Disk) }
    {
        let bytes = write_grant(self.alloc, grant, self.copies)?;
        self.journal.append(&bytes)
    }

    /// Reads all back, and tells whether the grant in hand stands behind those given. Then it is up; after an error it is
    /// down.
    pub(crate) fn read_back(
        &mut self,
        given: &[Grant],
        hand: &Option<Grant>,
    ) -> Result<bool, BackNo>
        ensures up { OnOk result (IsUp (log_journal self.new)) }
        ensures down { OnErr result (IsDown (log_journal self.new)) }

        // Where the disk tells its bytes, what differs is told as it is there; and where they keep what was given, nothing
        // is strange.
        ensures over { IfOk result (λ stands. (before : List (List ℕ))
            → IsOver before self.old given.now hand.now
            → IsOver before self.new given.now (if stands then hand.now else None)) }
        ensures kept { OnErr result ((before : List (List ℕ))
            → IsOver before self.old given.now hand.now
            → IsOver before self.new given.now hand.now) }
        ensures plain { (before : List (List ℕ)) → IsOver before self.old given.now hand.now
            → IfErr result IsPlain }
        ensures says { IfSome (D.view (disk_of (log_journal self.old))).content
            (IsAnswer (copies_of self.old) (earlier_in self.old) given.now hand.now result) }
        ensures none { result ≡ Ok true → hand.now ≡ None → ⊥ }
        ensures content { (D.view (disk_of (log_journal self.new))).content
            ≡ (D.view (disk_of (log_journal self.old))).content }

        ensures limit { limit_of (log_journal self.new) ≡ limit_of (log_journal self.old) }
        ensures copies { copies_of self.new ≡ copies_of self.old }
        ensures any_moment { Leaves (log_journal self.old) (log_journal self.new)
            (D.view (disk_of (log_journal self.old))).may_leave }
        ensures falls { Falls (log_journal self.old) (log_journal self.new) }
        ensures cause { Costs (log_journal self.old) (log_journal self.new)
            (IsErrOf result BackNo.Disk) }
        ensures counts_once { CostsOnce (log_journal self.old) (log_journal self.new)
            (IsErrOf result BackNo.Disk) }
    {
        let copies = self.copies;
        let answer = read_back(
            self.alloc,
            &mut self.journal,
            copies,
            self.earlier,
            given,
            hand,
        );
        if answer.is_err() {
            self.journal.close();
        }
        answer
    }

    /// The disk.
    pub(crate) fn into_disk(self) -> D
        ensures { result ≡ disk_of (log_journal self) }
    {
        self.journal.into_disk()
    }
}
