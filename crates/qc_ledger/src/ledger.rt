//! The ledger over a desk: a top's record stands on the disk before its commit is entered.
ghost use Rattle.std.specs.Prelude.{◌≡◌, ◌≤◌, ◌⊎◌, ◌∷◌, ◌++◌, ℕ, List, [], IfErr, OnOk, OnErr, IsErrAnd, IsErrOf, IsTrue, None, Some, Err, true, length, is_some};
ghost use Rattle.std.specs.Bool.{OnFalse, OnTrue};
ghost use Rattle.qc_codec.specs.Bodies as body;
ghost use Rattle.qc_codec.specs.declared.record.LedgerRecord.TheVariants.{Top};
ghost use Rattle.qc_event.specs.declared.short.Short.TheVariants.{Room};
ghost use Rattle.qc_event.specs.History.{end, is_ready, limit};
ghost use Rattle.qc_event.specs.Requests.{is_ledger_fault};
ghost use Rattle.qc_event.specs.Seats.{ledger_seat};
ghost use Rattle.qc_event.specs.Tables.{setting_of};
ghost use Rattle.qc_desk.specs.Entries.{entries_of, IsOlder};
ghost use Rattle.qc_desk.specs.Known.{IsKnown};
ghost use Rattle.qc_journal.specs.Journal.{disk_of, limit_of, place_of, IsDown, IsTooLong, IsUp, Keeps};
ghost use Rattle.qc_desk.specs.Calling.{SeesMore};
ghost use Rattle.qc_ledger.specs.Entered.{MayFinish};
ghost use Rattle.qc_ledger.specs.Refusing.{IsWantNo, MayCostTwo};
ghost use Rattle.qc_ledger.specs.Runs.{HasOrMore, Leaves, LosesNone, Falls, GoesOn, Costs, CostsOnce, CostsTwice, CostsTwo};
ghost use Rattle.qc_ledger.specs.Shelf.{journal_in, top_in, top_body, EndsWithin, LeavesInHand, LogLeaves, IsDeviceNo, IsIdle, IsRefusedFor, ReviveLeaves};
ghost use Rattle.qc_ledger.specs.Since.{IsNext};
ghost use Rattle.qc_ledger.specs.declared.fault.LedgerNo.TheVariants.{Disk, Full};

use crate::fault::LedgerNo;
use crate::shelf::Shelf;
use qc_desk::{Desk, Pass, Store};
use qc_disk::Disk;
use qc_event::{Name, Why};
use std::sync::Wait;

/// The ledger of a desk, with its pass, which is known.
#[derive(Drop)]
pub struct Ledger<D: Disk, N: Store> {
    pub shelf: Shelf<D>,
    pub pass: Pass<N>,
    ghost live: { pass.live ≡ true },
    ghost number: { pass.number ≡ ledger_seat },
    ghost out: { pass.out ≡ [] },
    ghost kin: { pass.kin ≡ [] },
    ghost known: { ∥ IsKnown (setting_of N.table N.base) pass ∥₁ },
    ghost may: { (top : List ℕ) → top_in shelf ≡ Some top → MayFinish pass top },
}

impl<D: Disk, N: Store> Ledger<D, N> {
    ghost use Rattle.qc_ledger.specs.Entered.{commits_of, tops_of, unlogged_entry, CommitsHand, EntersTop, IsLogNo, KeepsLogged, IsReviveNo, RefusalEnters, RefusesLong};
    ghost use Rattle.qc_ledger.specs.Calls.{ledger_state, HasLogged, LedgerBecame, LedgerWroteNone};

    // Commits the top in hand, whose record stands.
    fn settle<R: Wait>(&mut self, rt: &R, desk: &Desk<N>) -> Result<(), LedgerNo>
        requires up { IsUp (journal_in self.old.shelf) }
        ensures journal { journal_in self.new.shelf ≡ journal_in self.old.shelf }
        ensures none { OnOk result (top_in self.new.shelf ≡ None) }
        ensures kept { OnErr result (top_in self.new.shelf ≡ top_in self.old.shelf) }
        ensures ok { OnOk result
            (self.new.pass.mine ≡ commits_of (top_in self.old.shelf) ++ self.old.pass.mine) }
        ensures err { OnErr result (self.new.pass.mine ≡ self.old.pass.mine) }
        ensures calm { top_in self.old.shelf ≡ None → OnErr result ⊥ }
        ensures stands { OnOk result ((top : List ℕ) → top_in self.old.shelf ≡ Some top
            → IsTrue (is_some (end self.new.pass.seen top))) }
        ensures over { (told : List ℕ → List (List ℕ)) (before : List (List ℕ))
            → KeepsLogged told before self.old.shelf (tops_of self.old.pass.mine)
            → KeepsLogged told before self.new.shelf (tops_of self.new.pass.mine) }
        ensures seen { IsOlder self.old.pass.seen self.new.pass.seen }
        ensures want { IfErr result IsWantNo }
        ensures room { IsErrOf result (LedgerNo.Short Room) → length self.new.pass.seen ≡ limit }
    {
        let Some(top) = self.shelf.hand() else {
            return Ok(());
        };
        let mut seer = desk.note(&mut self.pass);
        desk.finish(rt, &mut self.pass, &mut seer, &top)?;
        self.shelf.let_go();
        Ok(())
    }

    // Brings the journal up. A top in hand whose record does not stand is let go of.
    fn rise(&mut self) -> Result<(), LedgerNo>
        ensures up { OnOk result (IsUp (journal_in self.new.shelf)) }
        ensures pass { self.new.pass ≡ self.old.pass }
        ensures hand { (top_in self.new.shelf ≡ None)
            ⊎ (top_in self.new.shelf ≡ top_in self.old.shelf) }
        ensures over { (told : List ℕ → List (List ℕ)) (before tops : List (List ℕ))
            → KeepsLogged told before self.old.shelf tops
            → KeepsLogged told before self.new.shelf tops }
        ensures refused { IfErr result IsDeviceNo }
        ensures limit { limit_of (journal_in self.new.shelf)
            ≡ limit_of (journal_in self.old.shelf) }
        ensures place { GoesOn (journal_in self.old.shelf) (journal_in self.new.shelf) }
        ensures content { (D.view (disk_of (journal_in self.new.shelf))).content
            ≡ (D.view (disk_of (journal_in self.old.shelf))).content }
        ensures any_moment { Leaves (journal_in self.old.shelf) (journal_in self.new.shelf)
            (D.view (disk_of (journal_in self.old.shelf))).may_leave }
        ensures falls { Falls (journal_in self.old.shelf) (journal_in self.new.shelf) }
        ensures cause { Costs (journal_in self.old.shelf) (journal_in self.new.shelf)
            (IsErrOf result Disk) }
        ensures counts_once { CostsOnce (journal_in self.old.shelf) (journal_in self.new.shelf)
            (IsErrOf result Disk) }
        ensures idle { IsUp (journal_in self.old.shelf)
            → (OnErr result ⊥) × (self.new.shelf ≡ self.old.shelf) }
        ensures down { OnErr result (IsDown (journal_in self.new.shelf)) }
        ensures keeps { OnErr result (top_in self.new.shelf ≡ top_in self.old.shelf) }
    {
        if self.shelf.is_up() {
            return Ok(());
        }
        self.shelf.revive()?;
        Ok(())
    }

    // Writes a top's record.
    fn write(&mut self, top: &Name, aborted: &[Name]) -> Result<(), LedgerNo>
        requires up { IsUp (journal_in self.old.shelf) }
        requires none { top_in self.old.shelf ≡ None }
        requires proper { body.ledger.fits (Top top.now aborted.now) }
        requires may { MayFinish self.old.pass top.now }
        ensures pass { self.new.pass ≡ self.old.pass }
        ensures up { OnOk result (IsUp (journal_in self.new.shelf)) }
        ensures hand { OnOk result (top_in self.new.shelf ≡ Some top.now) }
        ensures left { IfErr result
            (LogLeaves self.old.shelf self.new.shelf top.now (top_body top.now aborted.now)) }
        ensures over { (told : List ℕ → List (List ℕ)) (before tops : List (List ℕ))
            → aborted.now ≡ told top.now → KeepsLogged told before self.old.shelf tops
            → KeepsLogged told before self.new.shelf tops }
        ensures limit { limit_of (journal_in self.new.shelf)
            ≡ limit_of (journal_in self.old.shelf) }
        ensures place { GoesOn (journal_in self.old.shelf) (journal_in self.new.shelf) }
        ensures full { (place : ℕ) → result ≡ Err (Full place)
            → IsTooLong (place_of (journal_in self.old.shelf)) (limit_of (journal_in self.old.shelf))
            (top_body top.now aborted.now) }
        ensures too_long { IsTooLong (place_of (journal_in self.old.shelf))
            (limit_of (journal_in self.old.shelf)) (top_body top.now aborted.now)
            → IsRefusedFor (Full (place_of (journal_in self.old.shelf))) result }
        ensures within { OnOk result
            (EndsWithin (journal_in self.new.shelf) (top_body top.now aborted.now)) }
        ensures any_moment { (bodies : List (List ℕ)) → Keeps (journal_in self.old.shelf) bodies
            → Leaves (journal_in self.old.shelf) (journal_in self.new.shelf)
            (HasOrMore bodies (top_body top.now aborted.now)) }
        ensures grows { (bodies : List (List ℕ)) → Keeps (journal_in self.old.shelf) bodies
            → LosesNone (journal_in self.old.shelf) (journal_in self.new.shelf) }
        ensures cause { Costs (journal_in self.old.shelf) (journal_in self.new.shelf)
            (IsErrOf result Disk) }
        ensures counts_twice { CostsTwice (journal_in self.old.shelf) (journal_in self.new.shelf)
            (IsErrOf result Disk) }
        ensures twice { IsErrOf result Disk
            → CostsTwo (journal_in self.old.shelf) (journal_in self.new.shelf) }
    {
        self.shelf.log(top, aborted)
    }

    // Enters that a top was not logged.
    fn unable<R: Wait>(
        &mut self,
        rt: &R,
        desk: &Desk<N>,
        seer: &mut Pass<N>,
        top: &Name,
        why: Why,
    ) -> Result<(), LedgerNo>
        requires is_top { length top.now ≡ 1 }
        requires ready { IsTrue (is_ready seer.old.seen top.now) }
        requires fault { IsTrue (is_ledger_fault why) }
        ensures journal { journal_in self.new.shelf ≡ journal_in self.old.shelf }
        ensures hand { top_in self.new.shelf ≡ top_in self.old.shelf }
        ensures ok { OnOk result
            (self.new.pass.mine ≡ unlogged_entry top.now why ∷ self.old.pass.mine) }
        ensures err { OnErr result (self.new.pass.mine ≡ self.old.pass.mine) }
        ensures over { (told : List ℕ → List (List ℕ)) (before : List (List ℕ))
            → KeepsLogged told before self.old.shelf (tops_of self.old.pass.mine)
            → KeepsLogged told before self.new.shelf (tops_of self.new.pass.mine) }
        ensures seen { IsOlder self.old.pass.seen self.new.pass.seen }
        ensures seer { SeesMore seer.old seer.new }
        ensures want { IfErr result IsWantNo }
        ensures room { IsErrOf result (LedgerNo.Short Room) → length self.new.pass.seen ≡ limit }
    {
        desk.unable(rt, &mut self.pass, seer, top, why)?;
        Ok(())
    }

    /// The seer is shown the history at this step, which the pass has then seen too.
    pub fn show<R: Wait>(&mut self, rt: &R, desk: &Desk<N>, seer: &mut Pass<N>)
        ensures shelf { self.new.shelf ≡ self.old.shelf }
        ensures mine { self.new.pass.mine ≡ self.old.pass.mine }
        ensures seen { IsOlder self.old.pass.seen self.new.pass.seen }
        ensures seer { SeesMore seer.old seer.new }
        ensures same { seer.new.seen ≡ self.new.pass.seen }
        ensures bounded { length seer.new.seen ≤ limit }
        ensures known { IsKnown (setting_of N.table N.base) seer.new }
    {
        desk.show(rt, seer, &mut self.pass);
    }

    // Whether a top that the seer saw to be ready has ended; the pass has then seen it too.
    fn has_ended<R: Wait>(&mut self, rt: &R, desk: &Desk<N>, seer: &mut Pass<N>, top: &Name) -> bool
        requires is_top { length top.now ≡ 1 }
        requires ready { IsTrue (is_ready seer.old.seen top.now) }
        ensures shelf { (journal_in self.new.shelf ≡ journal_in self.old.shelf)
            × (top_in self.new.shelf ≡ top_in self.old.shelf) }
        ensures mine { self.new.pass.mine ≡ self.old.pass.mine }
        ensures stands { OnTrue result (IsTrue (is_some (end self.new.pass.seen top.now))) }
        ensures may { OnFalse result (MayFinish self.new.pass top.now) }
        ensures next { OnFalse result (IsNext self.new.pass.seen top.now) }
        ensures own { self.new.pass.mine ≡ entries_of ledger_seat self.new.pass.seen }
        ensures seen { IsOlder self.old.pass.seen self.new.pass.seen }
        ensures seer { SeesMore seer.old seer.new }
    {
        desk.show(rt, seer, &mut self.pass);
        let how = desk.ended(rt, &mut self.pass, top);
        how.is_some()
    }

    // Logs a top, and enters nothing where it fails but the commit of the top in hand.
    fn try_log<R: Wait>(
        &mut self,
        rt: &R,
        desk: &Desk<N>,
        seer: &mut Pass<N>,
        top: &Name,
        aborted: &[Name],
    ) -> Result<(), LedgerNo>
        requires is_top { length top.now ≡ 1 }
        requires ready { IsTrue (is_ready seer.old.seen top.now) }
        requires proper { body.ledger.fits (Top top.now aborted.now) }
        ensures stands { OnOk result (IsTrue (is_some (end self.new.pass.seen top.now))) }
        ensures idle { OnOk result (IsUp (journal_in self.new.shelf)
            × (top_in self.new.shelf ≡ None)) }
        ensures enters { OnOk result (EntersTop (top_in self.old.shelf) top.now
            self.old.pass.mine self.new.pass.mine) }
        ensures none { OnErr result (CommitsHand (top_in self.old.shelf)
            self.old.pass.mine self.new.pass.mine) }
        ensures refused { IfErr result IsLogNo }
        ensures room { IsErrOf result (LedgerNo.Short Room) → length self.new.pass.seen ≡ limit }
        ensures full { (place : ℕ) → result ≡ Err (Full place) → IsIdle self.new.shelf place
            × IsTooLong place (limit_of (journal_in self.old.shelf))
            (top_body top.now aborted.now) }
        ensures too_long { IsUp (journal_in self.old.shelf) → top_in self.old.shelf ≡ None
            → IsTooLong (place_of (journal_in self.old.shelf)) (limit_of (journal_in self.old.shelf))
            (top_body top.now aborted.now) → RefusesLong (place_of (journal_in self.old.shelf))
            self.old.pass.mine self.new.pass.mine result }
        ensures within { OnOk result ((CommitsHand (top_in self.old.shelf)
            self.old.pass.mine self.new.pass.mine)
            ⊎ (EndsWithin (journal_in self.new.shelf) (top_body top.now aborted.now))) }
        ensures down { IsErrOf result Disk → IsDown (journal_in self.new.shelf) }
        ensures hand { IfErr result (λ refusal. LeavesInHand refusal
            (top_in self.old.shelf) top.now (top_in self.new.shelf)) }
        ensures became { LedgerBecame (Some (record { top = top.now; aborted = aborted.now }))
            (ledger_state self.old) (ledger_state self.new) }
        ensures seer { SeesMore seer.old seer.new }
        ensures cause { Costs (journal_in self.old.shelf) (journal_in self.new.shelf)
            (IsErrOf result Disk) }
        ensures counts_twice { CostsTwice (journal_in self.old.shelf) (journal_in self.new.shelf)
            (IsErrOf result Disk) }
        ensures twice { IsUp (journal_in self.old.shelf) → IsErrOf result Disk
            → CostsTwo (journal_in self.old.shelf) (journal_in self.new.shelf) }
    {
        self.rise()?;
        self.settle(rt, desk)?;
        if self.has_ended(rt, desk, seer, top) {
            return Ok(());
        }
        self.write(top, aborted)?;
        self.settle(rt, desk)
    }

    /// Logs a ready top with the names that were aborted below it: its record stands on the disk before its commit is
    /// entered. A top in hand comes first: its commit is entered where its record stands, and it is let go of where not.
    /// After a fault of the disk there is one revival, and one second try. That the ledger is down, or full, is entered
    /// before it is answered.
    pub fn log<R: Wait>(
        &mut self,
        rt: &R,
        desk: &Desk<N>,
        seer: &mut Pass<N>,
        top: &Name,
        aborted: &[Name],
    ) -> Result<(), LedgerNo>
        requires is_top { length top.now ≡ 1 }
        requires ready { IsTrue (is_ready seer.old.seen top.now) }
        requires proper { body.ledger.fits (Top top.now aborted.now) }

        // At an error what was entered is at most the commit of the top in hand, and then that this top was not logged. Full
        // comes only where the record would pass the limit at its place; the ledger is up then, with nothing in hand. One that
        // was so before answers nothing else, but for want, of such a top that has not ended. Where a top's commit was entered
        // its record did not pass the limit. After a fault of the disk it is down, with the top in hand that it had before the
        // call, or this one.
        ensures logged { OnOk result
            (HasLogged top.now (ledger_state self.old) (ledger_state self.new)) }
        ensures refused { IfErr result (λ refusal. RefusalEnters refusal
            (top_in self.old.shelf) top.now self.old.pass.mine self.new.pass.mine) }
        ensures room { IsErrOf result (LedgerNo.Short Room) → length self.new.pass.seen ≡ limit }
        ensures full { (place : ℕ) → result ≡ Err (Full place) → IsIdle self.new.shelf place
            × IsTooLong place (limit_of (journal_in self.old.shelf))
            (top_body top.now aborted.now) }
        ensures too_long { IsUp (journal_in self.old.shelf) → top_in self.old.shelf ≡ None
            → IsTooLong (place_of (journal_in self.old.shelf)) (limit_of (journal_in self.old.shelf))
            (top_body top.now aborted.now) → RefusesLong (place_of (journal_in self.old.shelf))
            self.old.pass.mine self.new.pass.mine result }
        ensures within { OnOk result ((CommitsHand (top_in self.old.shelf)
            self.old.pass.mine self.new.pass.mine)
            ⊎ (EndsWithin (journal_in self.new.shelf) (top_body top.now aborted.now))) }
        ensures down { IsErrOf result Disk → IsDown (journal_in self.new.shelf) }
        ensures hand { IfErr result (λ refusal. LeavesInHand refusal
            (top_in self.old.shelf) top.now (top_in self.new.shelf)) }
        ensures became { LedgerBecame (Some (record { top = top.now; aborted = aborted.now }))
            (ledger_state self.old) (ledger_state self.new) }
        ensures seer { SeesMore seer.old seer.new }

        // A fault of the disk is told only where its count of faults rose, by two where the ledger was up. There are at most
        // two, and at most one where the top was logged or the ledger is full.
        ensures cause { Costs (journal_in self.old.shelf) (journal_in self.new.shelf)
            (IsErrOf result Disk) }
        ensures counts_twice { CostsTwice (journal_in self.old.shelf) (journal_in self.new.shelf)
            (IsErrAnd result MayCostTwo) }
        ensures twice { IsUp (journal_in self.old.shelf) → IsErrOf result Disk
            → CostsTwo (journal_in self.old.shelf) (journal_in self.new.shelf) }
    {
        match self.try_log(rt, desk, seer, top, aborted) {
            Err(LedgerNo::Disk) => {
                self.unable(rt, desk, seer, top, Why::Down)?;
                Err(LedgerNo::Disk)
            }
            Err(LedgerNo::Full { place }) => {
                self.unable(rt, desk, seer, top, Why::Full)?;
                Err(LedgerNo::Full { place })
            }
            answer => answer,
        }
    }

    /// Brings the ledger up where it is down. The commit of the top in hand is entered where its record stands; one whose
    /// record does not is let go of. A refusal keeps the top in hand: after a fault of the disk the ledger is down, and for
    /// want of room it is up.
    pub fn revive<R: Wait>(&mut self, rt: &R, desk: &Desk<N>) -> Result<(), LedgerNo>
        ensures up { OnOk result (IsUp (journal_in self.new.shelf)) }
        ensures none { OnOk result (top_in self.new.shelf ≡ None) }
        ensures refused { IfErr result IsReviveNo }
        ensures left { IfErr result (ReviveLeaves self.old.shelf self.new.shelf) }
        ensures room { IsErrOf result (LedgerNo.Short Room) → length self.new.pass.seen ≡ limit }
        ensures enters { CommitsHand (top_in self.old.shelf)
            self.old.pass.mine self.new.pass.mine }
        ensures became { LedgerBecame None (ledger_state self.old) (ledger_state self.new) }
        ensures wrote_none { LedgerWroteNone (ledger_state self.old) (ledger_state self.new) }
        ensures cause { Costs (journal_in self.old.shelf) (journal_in self.new.shelf)
            (IsErrOf result Disk) }
        ensures counts_once { CostsOnce (journal_in self.old.shelf) (journal_in self.new.shelf)
            (IsErrOf result Disk) }
    {
        self.rise()?;
        self.settle(rt, desk)
    }

    /// The disk and the pass.
    pub fn into_parts(self) -> (D, Pass<N>)
        ensures disk { result.0 ≡ disk_of (journal_in self.shelf) }
        ensures pass { result.1 ≡ self.pass }
        ensures ledger { (result.1.live ≡ true) × (result.1.number ≡ ledger_seat)
            × (result.1.out ≡ []) }
        ensures kin { result.1.kin ≡ [] }
        ensures known { IsKnown (setting_of N.table N.base) result.1 }
        ensures may { (top : List ℕ) → top_in self.shelf ≡ Some top → MayFinish result.1 top }
    {
        (self.shelf.into_disk(), self.pass)
    }
}
