//! A copy's site in its lock.
ghost use Rattle.std.specs.Prelude.{◌≡◌, ◌≢◌, ◌<◌, ◌+◌, [], true, false, IfOk, IsErrOf, is_some, length};
ghost use Rattle.qc_event.specs.Base.{IsProper};
ghost use Rattle.qc_event.specs.declared.short.Short.TheVariants.{Room};
ghost use Rattle.qc_event.specs.History.{limit};
ghost use Rattle.qc_event.specs.Legal.{Legal};
ghost use Rattle.qc_event.specs.Seats.{copy_seat};
ghost use Rattle.qc_event.specs.Tables.{setting_of};
ghost use Rattle.qc_journal.specs.Journal.{disk_of, limit_of};
ghost use Rattle.qc_desk.specs.Calling.{SeesMore};
ghost use Rattle.qc_desk.specs.Consulting.{HasAsked};
ghost use Rattle.qc_desk.specs.Entries.{entries_of, IsOlder};
ghost use Rattle.qc_desk.specs.Known.{IsKnown};
ghost use Rattle.qc_pair.specs.Fold.{other_in, own_disk, spare_disk, swapped_in};
ghost use Rattle.qc_desk.specs.Answers.{HasAnswered};
ghost use Rattle.qc_site.specs.Calls.{CanServe};
ghost use Rattle.qc_site.specs.Log.{log_journal};
ghost use Rattle.qc_site.specs.Sites.{LeavesUp};
ghost use Rattle.qc_system.specs.Closing.{CopyKeeps};
ghost use Rattle.qc_system.specs.Folds.{held_in, EndedSince, IsFolded, IsFree, IsLeftBy, WasFolded};
ghost use Rattle.qc_system.specs.Kept.{KeepsSince, NoRoomSince, NoneStrange, Pays, downs};
ghost use Rattle.qc_system.specs.Parts.{IsCopy, IsOther};

use crate::boxed::Boxed;
use crate::folding::Outcome;
use crate::mounting::Mounting;
use qc_desk::{Desk, Pass};
use qc_disk::Disk;
use qc_event::{Answered, Ask, Short};
use qc_pair::Fold;
use qc_site::{Mounted, Site, SiteNo};
use std::sync::Wait;

/// A copy's site in its lock. Its active disk keeps what was found there at the mounting, and what the copy granted since;
/// so it did at each moment since the mounting. It pays for each request that the copy was down for. Where it tells its
/// bytes, the record of each request that had no room would have passed the limit, and the copy is not strange.
#[derive(Drop)]
pub(crate) struct Held<D: Disk + Drop, N: Mounting, const C: u8>
where
    Boxed<D>: Disk,
{
    pub(crate) site: Site<Boxed<D>, N, C>,
    ghost keeps: { ∥ KeepsSince (setting_of N.table N.base) C (N.found.active (C + 1))
        site.log site.replica ∥₁ },
    ghost pays: { Pays (N.found.active (C + 1)).first.faults (downs site.replica.pass.mine)
        (D.view (disk_of (log_journal site.log)).disk.value).faults },
    ghost limit: { limit_of (log_journal site.log) ≡ N.found.limit },
    ghost full: { ∥ NoRoomSince (setting_of N.table N.base) C (N.found.active (C + 1))
        N.found.limit site.replica ∥₁ },
    ghost plain: { ∥ ((N.found.active (C + 1)).told ≡ true
        → (is_some site.strange ≡ false) × NoneStrange site.replica.pass.mine) ∥₁ },
}

// What becomes of a pair where its fold is answered so.
fn unfolded(no: SiteNo) -> Outcome
    ensures not_folded { result ≢ Outcome.Folded }
    ensures refused { result ≡ Outcome.Refused → no ≢ SiteNo.Short Short.Memory }
{
    match no {
        SiteNo::Short(Short::Memory) => Outcome::Wanting,
        _ => Outcome::Refused,
    }
}

impl<D: Disk + Drop, N: Mounting, const C: u8> Held<D, N, C> {
    /// The site of a copy that was mounted, which a pass with the copy's number enters that has entered nothing.
    pub(crate) fn new(copy: Mounted<Boxed<D>>, pass: Pass<N>) -> Self
        requires small { C < 16 }
        requires pass { (pass.live ≡ true) × (pass.number ≡ copy_seat C) }
        requires fresh { (pass.mine ≡ []) × (pass.out ≡ []) }
        requires none_joined { pass.kin ≡ [] }
        requires mounted { IsCopy N.base N.found C copy }
    {
        Held {
            site: copy.enter(pass),
        }
    }

    /// A crash: the site is down.
    pub(crate) fn crash(&mut self)
        ensures down { self.new.site.replica.up ≡ false }
    {
        self.site.crash();
    }

    /// Serves a request that the seer saw, which has then seen what the answer rests on. A copy that answers by its locks is
    /// up.
    pub(crate) fn serve<R: Wait>(
        &mut self,
        rt: &R,
        desk: &Desk<N>,
        seer: &mut Pass<N>,
        ask: &Ask,
    ) -> Result<Answered, Short>
        requires proper { IsProper (setting_of N.table N.base) }
        requires copy { ask.now.copy ≡ C }
        requires asked { HasAsked seer.old.seen ask.now }
        ensures answered { IfOk result (HasAnswered C seer.new.seen ask.now) }
        ensures serves { IfOk result (λ said. LeavesUp said → CanServe self.new.site.replica) }
        ensures room { IsErrOf result Room → length seer.new.seen ≡ limit }
        ensures seer { SeesMore seer.old seer.new }
        ensures known { IsKnown (setting_of N.table N.base) seer.new }
    {
        match self.site.serve(rt, desk, seer, ask) {
            Ok(answered) => Ok(answered),
            Err(short) => {
                self.site.show(rt, desk, seer);
                Err(short)
            }
        }
    }

    /// Folds what the copy holds into the other journal of its pair, once each top has its end, by all that the seer has
    /// then seen.
    pub(crate) fn fold<R: Wait>(
        &mut self,
        rt: &R,
        desk: &Desk<N>,
        seer: &mut Pass<N>,
        fold: &mut Fold<Boxed<D>>,
    ) -> Outcome
        requires proper { IsProper (setting_of N.table N.base) }
        requires inside { C < length N.base }
        requires other { IsOther (length N.base) N.found (C + 1) fold.old }
        ensures seer { SeesMore seer.old seer.new }
        ensures swapped { swapped_in fold.new ≡ N.found.swapped (C + 1) }
        ensures left { IsLeftBy (setting_of N.table N.base) N.found seer.old.seen (C + 1)
            (D.view (disk_of (other_in fold.new)).disk.value) self.new.site.replica.pass.seen }
        ensures folded { result ≡ Outcome.Folded
            → WasFolded (setting_of N.table N.base) N.found seer.old.seen (C + 1)
            (D.view (disk_of (other_in fold.new)).disk.value) self.new.site.replica.pass.seen
            × IsFolded (setting_of N.table N.base) N.found (C + 1)
            (held_in (setting_of N.table N.base) N.found (C + 1) self.new.site.replica.pass.seen)
            (D.view (disk_of (other_in fold.new)).disk.value) }
        ensures barred { result ≡ Outcome.Refused → EndedSince seer.old.seen seer.new.seen
            → length self.new.site.replica.pass.seen < limit
            → (IsOlder seer.old.seen self.new.site.replica.pass.seen
            → IsFree (setting_of N.table N.base) N.found (C + 1)
            (held_in (setting_of N.table N.base) N.found (C + 1) self.new.site.replica.pass.seen)
            (D.view (disk_of (log_journal self.new.site.log)).disk.value)
            (D.view (disk_of (other_in fold.new)).disk.value)) → ⊥ }
    {
        if !desk.settled(rt, seer) {
            return Outcome::Refused;
        }
        match self.site.checkpoint(rt, desk, seer, fold) {
            Ok(()) => Outcome::Folded,
            Err(no) => unfolded(no),
        }
    }

    /// The disk, its spare, and the pass. The other one of both disks is handed in.
    pub(crate) fn leave(self, fold: Fold<Boxed<D>>) -> (D, D, Pass<N>)
        ensures own { result.0
            ≡ (own_disk fold (disk_of (log_journal self.site.log))).disk.value }
        ensures spare { result.1
            ≡ (spare_disk fold (disk_of (log_journal self.site.log))).disk.value }
        ensures same { result.2 ≡ self.site.replica.pass }
        ensures pass { (result.2.live ≡ true) × (result.2.number ≡ copy_seat C)
            × (result.2.out ≡ []) }
        ensures kin { result.2.kin ≡ [] }
        ensures legal { Legal (setting_of N.table N.base) result.2.seen }
        ensures mine { result.2.mine ≡ entries_of (copy_seat C) result.2.seen }
        ensures kept { CopyKeeps (setting_of N.table N.base) N.found C
            (D.view (disk_of (log_journal self.site.log)).disk.value) result.2.seen }
    {
        let (active, pass) = self.site.into_parts();
        let (disk, spare) = fold.into_disks(active);
        (disk.into_disk(), spare.into_disk(), pass)
    }
}
