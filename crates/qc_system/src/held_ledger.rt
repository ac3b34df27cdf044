//! The ledger in its lock.
ghost use Rattle.std.specs.Prelude.{◌≡◌, ◌≢◌, ◌+◌, ℕ, List, [], true, false, IfErr, IsTrue, OnOk, length, is_some};
ghost use Rattle.qc_codec.specs.Bodies as body;
ghost use Rattle.qc_codec.specs.declared.record.LedgerRecord.TheVariants.{Top};
ghost use Rattle.qc_event.specs.History.{end, is_ready};
ghost use Rattle.qc_event.specs.Legal.{Legal};
ghost use Rattle.qc_event.specs.Listed.{listed};
ghost use Rattle.qc_event.specs.Seats.{ledger_seat};
ghost use Rattle.qc_event.specs.Standing.{HasEnded};
ghost use Rattle.qc_event.specs.declared.event.Entry.{Entry};
ghost use Rattle.qc_event.specs.Tables.{setting_of};
ghost use Rattle.qc_journal.specs.Journal.{disk_of, limit_of};
ghost use Rattle.qc_desk.specs.Calling.{SeesMore};
ghost use Rattle.qc_ledger.specs.Entered.{tops_of, GrowsBy, KeepsLogged};
ghost use Rattle.qc_ledger.specs.Mounted.{journal_of, records_of};
ghost use Rattle.qc_ledger.specs.Runs.{Leaves};
ghost use Rattle.qc_ledger.specs.Shelf.{journal_in, top_body};
ghost use Rattle.qc_ledger.specs.Since.{TopsGrow};
ghost use Rattle.qc_desk.specs.Entries.{entries_of, IsOlder};
ghost use Rattle.qc_desk.specs.Known.{IsKnown};
ghost use Rattle.qc_pair.specs.Fold.{other_in, own_disk, spare_disk, swapped_in};
ghost use Rattle.qc_system.specs.Closing.{LedgerKeeps};
ghost use Rattle.qc_system.specs.Folds.{EndedSince, IsFolded, IsFree, IsLeftBy};
ghost use Rattle.qc_system.specs.Kept.{HadNoRoom, HasRefused, NoRoomForTops, Pays, TopsSince, downs};
ghost use Rattle.qc_system.specs.Parts.{IsFound, IsOther};

use crate::boxed::Boxed;
use crate::folding::{Folding, Outcome};
use crate::mounting::Mounting;
use qc_desk::{Desk, Pass};
use qc_disk::Disk;
use qc_event::{Name, Short};
use qc_ledger::{Book, Ledger, LedgerNo};
use qc_pair::Fold;
use std::sync::Wait;

/// The ledger in its lock. Its active disk keeps what was found there at the mounting, and the tops that were committed
/// since, each with the names that are listed of it; so it did at each moment since the mounting. It pays for each top
/// that was not logged for a failure, and one that was not for want of room would not have fitted behind its journal then.
#[derive(Drop)]
pub(crate) struct HeldLedger<D: Disk + Drop, N: Mounting>
where
    Boxed<D>: Disk,
{
    pub(crate) ledger: Ledger<Boxed<D>, N>,
    ghost keeps: { ∥ TopsSince (N.found.active 0) ledger.shelf ledger.pass ∥₁ },
    ghost pays: { Pays (N.found.active 0).first.faults (downs ledger.pass.mine)
        (D.view (disk_of (journal_in ledger.shelf)).disk.value).faults },
    ghost limit: { limit_of (journal_in ledger.shelf) ≡ N.found.limit },
    ghost full: { ∥ NoRoomForTops (N.found.active 0) N.found.limit ledger.pass ∥₁ },
}

// Logs a ready top, with the names that are listed of it, and shows the seer what was entered.
fn log_listed<D: Disk + Drop, N: Mounting, R: Wait>(
    ledger: &mut Ledger<D, N>,
    rt: &R,
    desk: &Desk<N>,
    seer: &mut Pass<N>,
    top: &Name,
    aborted: &[Name],
) -> Result<(), LedgerNo>
    requires is_top { length top.now ≡ 1 }
    requires ready { IsTrue (is_ready seer.old.seen top.now) }
    requires proper { body.ledger.fits (Top top.now aborted.now) }
    requires listed { aborted.now ≡ listed seer.old.seen top.now }
    ensures keeps { (before : List (List ℕ))
        → KeepsLogged (listed ledger.old.pass.seen) before ledger.old.shelf
        (tops_of ledger.old.pass.mine)
        → KeepsLogged (listed ledger.new.pass.seen) before ledger.new.shelf
        (tops_of ledger.new.pass.mine) }
    ensures grown { (before : List (List ℕ)) (since : ℕ)
        → KeepsLogged (listed ledger.old.pass.seen) before ledger.old.shelf
        (tops_of ledger.old.pass.mine)
        → TopsGrow (listed ledger.old.pass.seen) before since ledger.old.shelf ledger.old.pass.seen
        → TopsGrow (listed ledger.new.pass.seen) before since ledger.new.shelf
        ledger.new.pass.seen }
    ensures any_moment { (before : List (List ℕ))
        → KeepsLogged (listed ledger.old.pass.seen) before ledger.old.shelf
        (tops_of ledger.old.pass.mine)
        → Leaves (journal_in ledger.old.shelf) (journal_in ledger.new.shelf)
        (GrowsBy (top_body top.now aborted.now)
        (D.view (disk_of (journal_in ledger.old.shelf))).may_leave) }
    ensures pays { (first : ℕ) → Pays first (downs ledger.old.pass.mine)
        (D.view (disk_of (journal_in ledger.old.shelf))).faults
        → Pays first (downs ledger.new.pass.mine)
        (D.view (disk_of (journal_in ledger.new.shelf))).faults }
    ensures limit { limit_of (journal_in ledger.new.shelf)
        ≡ limit_of (journal_in ledger.old.shelf) }
    ensures full { (before : List (List ℕ))
        → KeepsLogged (listed ledger.old.pass.seen) before ledger.old.shelf
        (tops_of ledger.old.pass.mine)
        → HadNoRoom (listed ledger.old.pass.seen) before (limit_of (journal_in ledger.old.shelf))
        ledger.old.pass.mine
        → HadNoRoom (listed ledger.new.pass.seen) before (limit_of (journal_in ledger.new.shelf))
        ledger.new.pass.mine }
    ensures ended { OnOk result (IsTrue (is_some (end seer.new.seen top.now))) }
    ensures refused { IfErr result (HasRefused seer.new.seen top.now) }
    ensures seer { SeesMore seer.old seer.new }
    ensures known { IsKnown (setting_of N.table N.base) seer.new }
{
    let answer = ledger.log(rt, desk, seer, top, aborted);
    ledger.show(rt, desk, seer);
    answer
}

// What becomes of a pair where its fold is answered so.
fn unfolded(no: LedgerNo) -> Outcome
    ensures not_folded { result ≢ Outcome.Folded }
    ensures refused { result ≡ Outcome.Refused → no ≢ LedgerNo.Short Short.Memory }
{
    match no {
        LedgerNo::Short(Short::Memory) => Outcome::Wanting,
        _ => Outcome::Refused,
    }
}

impl<D: Disk + Drop, N: Mounting> HeldLedger<D, N> {
    /// A ledger that was mounted, which a pass with the ledger's number enters that has entered nothing.
    pub(crate) fn new(book: Book<Boxed<D>>, pass: Pass<N>) -> Self
        requires ledger { (pass.live ≡ true) × (pass.number ≡ ledger_seat) × (pass.out ≡ []) }
        requires fresh { (pass.mine ≡ []) × (pass.kin ≡ []) }
        requires found { IsFound (N.found.active 0) (records_of book) (journal_of book) }
        requires limit { limit_of (journal_of book) ≡ N.found.limit }
    {
        HeldLedger {
            ledger: book.enter(pass),
        }
    }

    /// Logs a ready top, with the names that are listed of it. The seer has then seen what the answer rests on.
    pub(crate) fn log<R: Wait>(
        &mut self,
        rt: &R,
        desk: &Desk<N>,
        seer: &mut Pass<N>,
        top: &Name,
        aborted: &[Name],
    ) -> Result<(), LedgerNo>
        requires is_top { length top.now ≡ 1 }
        requires ready { IsTrue (is_ready seer.old.seen top.now) }
        requires proper { body.ledger.fits (Top top.now aborted.now) }
        requires listed { aborted.now ≡ listed seer.old.seen top.now }
        ensures ended { OnOk result (IsTrue (is_some (end seer.new.seen top.now))) }
        ensures refused { IfErr result (HasRefused seer.new.seen top.now) }
        ensures seer { SeesMore seer.old seer.new }
        ensures known { IsKnown (setting_of N.table N.base) seer.new }
    {
        log_listed(&mut self.ledger, rt, desk, seer, top, aborted)
    }

    /// Whether the pairs of the store may be folded, by all that the first pass has then seen: what the ledger has seen is
    /// among it.
    pub(crate) fn begin<R: Wait>(
        &mut self,
        rt: &R,
        desk: &Desk<N>,
        first: &mut Pass<N>,
    ) -> Folding<N>
        ensures first { SeesMore first.old first.new }
        ensures known { IsKnown (setting_of N.table N.base) first.new }
        ensures since { result.since.seen ≡ first.new.seen }
        ensures older { IsOlder self.new.ledger.pass.seen first.new.seen }
        ensures free { result.wanting ≡ false → HasEnded first.new.seen → result.whole ≡ true }
    {
        let mut known = desk.note(&mut self.ledger.pass);
        desk.show(rt, first, &mut known);
        let ended = desk.settled(rt, first);
        let since = desk.note(first);
        Folding::new(since, ended, self.ledger.is_up())
    }

    /// Folds the ledger's pair, once each top has its end, by all that the seer has then seen.
    pub(crate) fn fold<R: Wait>(
        &self,
        rt: &R,
        desk: &Desk<N>,
        seer: &mut Pass<N>,
        fold: &mut Fold<Boxed<D>>,
    ) -> Outcome
        requires other { IsOther (length N.base) N.found 0 fold.old }
        ensures seer { SeesMore seer.old seer.new }
        ensures swapped { swapped_in fold.new ≡ N.found.swapped 0 }
        ensures left { (past : List Entry) → IsOlder seer.new.seen past
            → IsLeftBy (setting_of N.table N.base) N.found seer.old.seen 0
            (D.view (disk_of (other_in fold.new)).disk.value) past }
        ensures folded { result ≡ Outcome.Folded
            → IsFolded (setting_of N.table N.base) N.found 0 []
            (D.view (disk_of (other_in fold.new)).disk.value) }
        ensures barred { result ≡ Outcome.Refused → EndedSince seer.old.seen seer.new.seen
            → IsFree (setting_of N.table N.base) N.found 0 []
            (D.view (disk_of (journal_in self.now.ledger.shelf)).disk.value)
            (D.view (disk_of (other_in fold.new)).disk.value) → ⊥ }
    {
        if !desk.settled(rt, seer) {
            return Outcome::Refused;
        }
        if !self.ledger.is_up() {
            return Outcome::Wanting;
        }
        match self.ledger.checkpoint(fold) {
            Ok(()) => Outcome::Folded,
            Err(no) => unfolded(no),
        }
    }

    /// The disk, its spare, and the pass. The other one of both disks is handed in.
    pub(crate) fn leave(self, fold: Fold<Boxed<D>>) -> (D, D, Pass<N>)
        ensures own { result.0
            ≡ (own_disk fold (disk_of (journal_in self.ledger.shelf))).disk.value }
        ensures spare { result.1
            ≡ (spare_disk fold (disk_of (journal_in self.ledger.shelf))).disk.value }
        ensures same { result.2 ≡ self.ledger.pass }
        ensures pass { (result.2.live ≡ true) × (result.2.number ≡ ledger_seat)
            × (result.2.out ≡ []) }
        ensures kin { result.2.kin ≡ [] }
        ensures legal { Legal (setting_of N.table N.base) result.2.seen }
        ensures mine { result.2.mine ≡ entries_of ledger_seat result.2.seen }
        ensures kept { LedgerKeeps (setting_of N.table N.base) N.found
            (D.view (disk_of (journal_in self.ledger.shelf)).disk.value) result.2.seen }
    {
        let (active, pass) = self.ledger.into_parts();
        let (disk, spare) = fold.into_disks(active);
        (disk.into_disk(), spare.into_disk(), pass)
    }
}
