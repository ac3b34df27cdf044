//! A copy over its desk and its disk: what it granted stands in each image.
ghost use Rattle.std.specs.Prelude.{◌≡◌, ◌≤◌, ◌⊎◌, ◌++◌, ◌↔◌, ℕ, List, [], true, false, IfOk, IfSome, IfErr, OnOk, OnErr, IsErrOf, Err, None, length, is_some, option_map, option_to_list};
ghost use Rattle.qc_event.specs.Base.{IsProper};
ghost use Rattle.qc_event.specs.Grants.{MayGrant};
ghost use Rattle.qc_event.specs.History.{grants, limit};
ghost use Rattle.qc_event.specs.Seats.{copy_seat};
ghost use Rattle.qc_event.specs.Tables.{setting_of};
ghost use Rattle.qc_journal.specs.Journal.{disk_of, limit_of, IsDown, IsUp};
ghost use Rattle.qc_desk.specs.Calling.{SeesMore};
ghost use Rattle.qc_ledger.specs.Runs.{Costs, CostsOnce, Falls, Leaves};
ghost use Rattle.qc_desk.specs.Known.{IsKnown};
ghost use Rattle.qc_site.specs.AtDesk.{LeavesKnown, OnlyLooks};
ghost use Rattle.qc_site.specs.Log.{copies_of, log_journal};

use crate::back::{BackNo, Strange};
use crate::compare::with_hand;
use crate::fault::SiteNo;
use crate::log::GrantLog;
use crate::replica::Replica;
use qc_desk::{Desk, Pass, Store};
use qc_disk::Disk;
use qc_event::{Grant, Short};
use std::alloc::{AllocError, Global};
use std::sync::Wait;

/// A copy of a store, of a number, over its desk and its disk. It is up, down, or strange for good.
#[derive(Drop)]
pub struct Site<D: Disk, N: Store, const C: u8> {
    pub(crate) alloc: Global,
    pub(crate) log: GrantLog<D>,
    pub(crate) replica: Replica<N, C>,
    pub(crate) strange: Option<Strange>,
    ghost journal: { replica.up ≡ true → IsDown (log_journal log) → ⊥ },
    ghost sound: { is_some strange ≡ true → replica.up ≡ false },
    ghost copies: { copies_of log ≡ length N.base },
}

impl<D: Disk, N: Store, const C: u8> Site<D, N, C> {
    ghost use Rattle.qc_site.specs.Calls.{site_state, SiteBecame, CanServe, ReviveSays, SiteWroteNone};
    ghost use Rattle.qc_site.specs.Sites.{Differs, EntersHand, IsSiteWant, IsStrangeFor, KeepsGranted};

    /// Whether it is up.
    pub fn is_up(&self) -> bool
        ensures { result ≡ self.now.replica.up }
    {
        self.replica.is_up()
    }

    /// Why it is strange, where it is.
    pub fn strange(&self) -> Option<&Strange>
        ensures { option_map (λ strange. strange.now) result ≡ self.now.strange }
    {
        self.strange.as_ref()
    }

    /// The seer is shown the history at this step, which the copy has then seen too.
    pub fn show<R: Wait>(&mut self, rt: &R, desk: &Desk<N>, seer: &mut Pass<N>)
        ensures looks { OnlyLooks C self.old.replica self.new.replica }
        ensures up { self.new.replica.up ≡ self.old.replica.up }
        ensures hand { self.new.replica.hand ≡ self.old.replica.hand }
        ensures log { self.new.log ≡ self.old.log }
        ensures strange { self.new.strange ≡ self.old.strange }
        ensures became { SiteBecame (setting_of N.table N.base) C None (site_state self.old)
            (site_state self.new) }
        ensures seer { SeesMore seer.old seer.new }
        ensures same { seer.new.seen ≡ self.new.replica.pass.seen }
        ensures bounded { length seer.new.seen ≤ limit }
        ensures known { LeavesKnown (setting_of N.table N.base) C self.new.replica.pass seer.new }
    {
        self.replica.show(rt, desk, seer);
    }

    /// A crash: it forgets its locks, and is down. The grant in hand stays. It takes no memory.
    pub fn crash(&mut self)
        ensures down { self.new.replica.up ≡ false }
        ensures hand { self.new.replica.hand ≡ self.old.replica.hand }
        ensures pass { self.new.replica.pass ≡ self.old.replica.pass }
        ensures over { (before : List (List ℕ))
            → KeepsGranted C before self.old.log self.old.replica
            → KeepsGranted C before self.new.log self.new.replica }
        ensures disk { disk_of (log_journal self.new.log) ≡ disk_of (log_journal self.old.log) }
        ensures limit { limit_of (log_journal self.new.log) ≡ limit_of (log_journal self.old.log) }
        ensures strange { self.new.strange ≡ self.old.strange }
    {
        self.replica.forget();
        self.log.close();
    }

    // Compares what the disk keeps of this run with what the history tells, and keeps or lets go of the grant in hand.
    fn compare(&mut self, given: &[Grant]) -> Result<(), SiteNo>
        requires given { given.now ≡ grants self.old.replica.pass.seen C }
        requires down { self.old.replica.up ≡ false }
        ensures up { OnOk result (IsUp (log_journal self.new.log)) }
        ensures sound { OnOk result (is_some self.new.strange ≡ is_some self.old.strange) }
        ensures refused { IfErr result (ReviveSays (site_state self.new)) }
        ensures other { IfErr result (λ no. (no ≡ SiteNo.Strange)
            ⊎ (self.new.strange ≡ self.old.strange)) }
        ensures down { self.new.replica.up ≡ false }
        ensures pass { self.new.replica.pass ≡ self.old.replica.pass }
        ensures hand { (self.new.replica.hand ≡ None)
            ⊎ (self.new.replica.hand ≡ self.old.replica.hand) }
        ensures over { (before : List (List ℕ))
            → KeepsGranted C before self.old.log self.old.replica
            → KeepsGranted C before self.new.log self.new.replica }
        ensures plain { (before : List (List ℕ))
            → KeepsGranted C before self.old.log self.old.replica
            → is_some self.new.strange ≡ is_some self.old.strange }
        ensures differs { IsStrangeFor (Differs self.old.log given.now self.old.replica.hand)
            self.old.strange self.new.strange }
        ensures limit { limit_of (log_journal self.new.log) ≡ limit_of (log_journal self.old.log) }
        ensures content { (D.view (disk_of (log_journal self.new.log))).content
            ≡ (D.view (disk_of (log_journal self.old.log))).content }
        ensures any_moment { Leaves (log_journal self.old.log) (log_journal self.new.log)
            (D.view (disk_of (log_journal self.old.log))).may_leave }
        ensures falls { Falls (log_journal self.old.log) (log_journal self.new.log) }
        ensures cause { Costs (log_journal self.old.log) (log_journal self.new.log)
            (IsErrOf result SiteNo.Disk) }
        ensures counts_once { CostsOnce (log_journal self.old.log) (log_journal self.new.log)
            (IsErrOf result SiteNo.Disk) }
    {
        match self.log.read_back(given, &self.replica.hand()) {
            Ok(true) => Ok(()),
            Ok(false) => {
                self.replica.drop_hand();
                Ok(())
            }
            Err(BackNo::Disk) => Err(SiteNo::Disk),
            Err(BackNo::Memory) => Err(SiteNo::Short(Short::Memory)),
            Err(BackNo::Strange(strange)) => {
                self.strange = Some(strange);
                Err(SiteNo::Strange)
            }
        }
    }

    /// Enters the grant in hand, where there is one.
    pub(crate) fn enter_hand<R: Wait>(&mut self, rt: &R, desk: &Desk<N>) -> Result<(), SiteNo>
        requires up { IsUp (log_journal self.old.log) }
        requires sound { is_some self.old.strange ≡ false }
        ensures none { OnOk result (self.new.replica.hand ≡ None) }
        ensures grants { OnOk result (grants self.new.replica.pass.seen C
            ≡ grants self.old.replica.pass.seen C ++ option_to_list self.old.replica.hand) }
        ensures idle { self.old.replica.hand ≡ None
            → (self.new.log ≡ self.old.log) × (self.new.replica ≡ self.old.replica) }
        ensures calm { self.old.replica.hand ≡ None → OnErr result ⊥ }
        ensures refused { IfErr result (IsSiteWant self.new.replica.pass.seen) }
        ensures enters { EntersHand C self.old.replica self.new.replica }
        ensures up { self.new.replica.up ≡ self.old.replica.up }
        ensures keeps { OnErr result (self.new.replica.hand ≡ self.old.replica.hand) }
        ensures log { self.new.log ≡ self.old.log }
        ensures strange { self.new.strange ≡ self.old.strange }
        ensures became { SiteBecame (setting_of N.table N.base) C None (site_state self.old)
            (site_state self.new) }
    {
        self.replica.enter(rt, desk)?;
        Ok(())
    }

    // Enters the grant in hand, where there is one, and has the locks again.
    fn restore<R: Wait>(&mut self, rt: &R, desk: &Desk<N>, given: Vec<Grant>) -> Result<(), SiteNo>
        requires proper { IsProper (setting_of N.table N.base) }
        requires given { given.items ≡ grants self.old.replica.pass.seen C }
        requires up { IsUp (log_journal self.old.log) }
        requires sound { is_some self.old.strange ≡ false }
        requires down { self.old.replica.up ≡ false }
        ensures ready { OnOk result (CanServe self.new.replica) }
        ensures down { OnErr result (self.new.replica.up ≡ false) }
        ensures hand { (self.new.replica.hand ≡ None)
            ⊎ (self.new.replica.hand ≡ self.old.replica.hand) }
        ensures refused { IfErr result (IsSiteWant self.new.replica.pass.seen) }
        ensures enters { EntersHand C self.old.replica self.new.replica }
        ensures log { self.new.log ≡ self.old.log }
        ensures strange { self.new.strange ≡ self.old.strange }
        ensures became { SiteBecame (setting_of N.table N.base) C None (site_state self.old)
            (site_state self.new) }
    {
        let given = with_hand(given, self.replica.hand())?;
        self.enter_hand(rt, desk)?;
        self.replica.restore(self.alloc, &given)?;
        Ok(())
    }

    /// Reads the disk back. What it keeps of this run must be what the history tells of the copy, or that and the grant
    /// in hand, which is then entered; else the copy is strange for good.
    pub fn revive<R: Wait>(&mut self, rt: &R, desk: &Desk<N>) -> Result<(), SiteNo>
        requires proper { IsProper (setting_of N.table N.base) }
        requires down { self.old.replica.up ≡ false }

        // What was entered is at most the grant in hand. Any refusal leaves it down. A fault of the disk is told exactly where
        // its count of them rose, by one. A strange copy stays so; one turns strange for what its disk has in place of what it
        // granted.
        ensures ready { OnOk result (CanServe self.new.replica) }
        ensures down { OnErr result (self.new.replica.up ≡ false) }
        ensures hand { (self.new.replica.hand ≡ None)
            ⊎ (self.new.replica.hand ≡ self.old.replica.hand) }
        ensures refused { IfErr result (ReviveSays (site_state self.new)) }
        ensures enters { EntersHand C self.old.replica self.new.replica }
        ensures became { SiteBecame (setting_of N.table N.base) C None (site_state self.old)
            (site_state self.new) }
        ensures wrote_none { SiteWroteNone (setting_of N.table N.base) C (site_state self.old)
            (site_state self.new) }
        ensures strange { (result ≡ Err SiteNo.Strange) ↔ (is_some self.new.strange ≡ true) }
        ensures for_good { is_some self.old.strange ≡ true
            → (result ≡ Err SiteNo.Strange) × (self.new.strange ≡ self.old.strange) }
        ensures differs { IsStrangeFor (Differs self.old.log
            (grants self.old.replica.pass.seen C) self.old.replica.hand)
            self.old.strange self.new.strange }
        ensures cause { Costs (log_journal self.old.log) (log_journal self.new.log)
            (IsErrOf result SiteNo.Disk) }
        ensures counts_once { CostsOnce (log_journal self.old.log) (log_journal self.new.log)
            (IsErrOf result SiteNo.Disk) }
    {
        if self.strange.is_some() {
            return Err(SiteNo::Strange);
        }
        let given = self.replica.given(rt, desk)?;
        self.compare(&given)?;
        self.restore(rt, desk, given)
    }

    /// The disk and the pass.
    pub fn into_parts(self) -> (D, Pass<N>)
        ensures disk { result.0 ≡ disk_of (log_journal self.log) }
        ensures pass { result.1 ≡ self.replica.pass }
        ensures copy { (result.1.live ≡ true) × (result.1.number ≡ copy_seat C)
            × (result.1.out ≡ []) }
        ensures kin { result.1.kin ≡ [] }
        ensures known { IsKnown (setting_of N.table N.base) result.1 }
        ensures may { IfSome self.replica.hand (MayGrant (setting_of N.table N.base)
            self.replica.pass.seen (copy_seat C) C) }
    {
        (self.log.into_disk(), self.replica.into_pass())
    }
}
