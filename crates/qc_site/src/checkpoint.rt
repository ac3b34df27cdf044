//! How a copy's journal is folded into the other one of its pair.
ghost use Rattle.std.specs.Prelude.{◌≡◌, ◌↔◌, ◌≤◌, ◌⊎◌, ◌^◌, ℕ, List, [], true, All, IfOk, IfErr, OnOk, IsErrOf, Err, None, is_some, length, slice_index_or};
ghost use Rattle.qc_codec.specs.Fields as field;
ghost use Rattle.qc_codec.specs.Fields.{current};
ghost use Rattle.qc_disk.specs.Disk.{LeavesOnly};
ghost use Rattle.qc_event.specs.Base.{IsProper};
ghost use Rattle.qc_event.specs.History.{grants};
ghost use Rattle.qc_event.specs.Standing.{HasEnded};
ghost use Rattle.qc_event.specs.Tables.{setting_of};
ghost use Rattle.qc_desk.specs.Entries.{IsOlder};
ghost use Rattle.qc_journal.specs.Journal.{disk_of, IsUp, Keeps};
ghost use Rattle.qc_desk.specs.Calling.{SeesMore};
ghost use Rattle.qc_ledger.specs.Runs.{Costs, CostsOnce};
ghost use Rattle.qc_pair.specs.Fold.{active_number, copies_in, folded_base, folded_bodies, made_in, other_in, IsFullFor, IsSameFold};
ghost use Rattle.qc_pair.specs.Folding.{IsFolding};
ghost use Rattle.qc_site.specs.Checkpoint.{fold_no, held_by, CheckpointSays, CostsEither, IsFoldRefusal, IsSpared};
ghost use Rattle.qc_site.specs.Log.{log_journal};

use crate::fault::SiteNo;
use crate::site::Site;
use qc_codec::{BadImage, ImageFault};
use qc_config::Tuple;
use qc_desk::{Desk, Pass, Store};
use qc_disk::Disk;
use qc_event::Short;
use qc_journal::Fault;
use qc_pair::Fold;
use std::sync::Wait;

// What a fault of a fold is to a checkpoint, which folds into the disk of this number. No fold finds a record broken.
fn fold_no(disk: u8, fault: Fault) -> SiteNo
    ensures { result ≡ fold_no disk fault }
{
    match fault {
        Fault::Disk | Fault::Broken { .. } => SiteNo::Disk,
        Fault::Full { place } => SiteNo::Image(BadImage {
            disk,
            fault: ImageFault::Full { place },
        }),
        Fault::Memory => SiteNo::Short(Short::Memory),
    }
}

impl<D: Disk, N: Store, const C: u8> Site<D, N, C> {
    ghost use Rattle.qc_site.specs.Calls.{site_state, SiteBecame, CanServe, ReviveSays, SiteWroteNone};
    ghost use Rattle.qc_site.specs.Sites.{Differs, EntersHand, IsStrangeFor};

    // Is up, with nothing in hand, has seen what the seer has, and tells what it holds of each record then.
    fn hold<R: Wait>(
        &mut self,
        rt: &R,
        desk: &Desk<N>,
        seer: &mut Pass<N>,
    ) -> Result<Vec<Tuple>, SiteNo>
        requires proper { IsProper (setting_of N.table N.base) }
        ensures held { IfOk result (λ held. held.items
            ≡ held_by (slice_index_or N.base C []) C self.new.replica) }
        ensures seer { SeesMore seer.old seer.new }
        ensures older { IsOlder seer.new.seen self.new.replica.pass.seen }
        ensures ready { OnOk result (CanServe self.new.replica) }
        ensures enters { EntersHand C self.old.replica self.new.replica }
        ensures became { SiteBecame (setting_of N.table N.base) C None (site_state self.old)
            (site_state self.new) }
        ensures wrote_none { SiteWroteNone (setting_of N.table N.base) C (site_state self.old)
            (site_state self.new) }
        ensures for_good { is_some self.old.strange ≡ true → self.new.strange ≡ self.old.strange }
        ensures differs { IsStrangeFor (Differs self.old.log
            (grants self.old.replica.pass.seen C) self.old.replica.hand)
            self.old.strange self.new.strange }
        ensures strange { IsErrOf result SiteNo.Strange ↔ (is_some self.new.strange ≡ true) }
        ensures refused { IfErr result (ReviveSays (site_state self.new)) }
        ensures cause { Costs (log_journal self.old.log) (log_journal self.new.log)
            (IsErrOf result SiteNo.Disk) }
        ensures counts_once { CostsOnce (log_journal self.old.log) (log_journal self.new.log)
            (IsErrOf result SiteNo.Disk) }
    {
        self.show(rt, desk, seer);
        self.rise(rt, desk)?;
        let held = self.replica.held(rt, desk, self.alloc)?;
        Ok(held)
    }

    // Folds what the copy holds, by what it has seen.
    fn fold_in(&self, fold: &mut Fold<D>, held: Vec<Tuple>) -> Result<(), SiteNo>
        requires proper { IsProper (setting_of N.table N.base) }
        requires up { IsUp (other_in fold.old) }
        requires copies { copies_in fold.old ≡ length N.base }
        requires held { held.items ≡ held_by (slice_index_or N.base C []) C self.now.replica }
        ensures same { IsSameFold fold.old fold.new }
        ensures up { OnOk result (IsUp (other_in fold.new)) }
        ensures keeps { OnOk result ((bodies : List (List ℕ)) → Keeps (other_in fold.old) bodies
            → Keeps (other_in fold.new) (folded_bodies fold.old held.items)) }
        ensures any_moment { (bodies : List (List ℕ)) → Keeps (other_in fold.old) bodies
            → LeavesOnly D.view (disk_of (other_in fold.old)) (disk_of (other_in fold.new))
            (IsFolding bodies (made_in fold.old) (folded_base fold.old held.items)) }
        ensures refused { IfErr result (IsFoldRefusal C fold.old held.items) }
        ensures room { OnOk result ((place : ℕ) → IsFullFor fold.old held.items place → ⊥) }
        ensures fits { All (field.tuple (current (length N.base))).fits held.items }
        ensures last { 2 ^ 63 ≤ active_number fold.old
            → other_in fold.new ≡ other_in fold.old }
        ensures cause { Costs (other_in fold.old) (other_in fold.new)
            (IsErrOf result SiteNo.Disk) }
        ensures counts_once { CostsOnce (other_in fold.old) (other_in fold.new)
            (IsErrOf result SiteNo.Disk) }
    {
        self.replica.held_fits(&held);
        match fold.fold(self.alloc, held) {
            Ok(()) => Ok(()),
            Err(fault) => Err(fold_no(fold.disk(C + 1), fault)),
        }
    }

    /// Folds what the copy holds of each record, by all that the seer and then the copy has seen, into the other journal
    /// of its pair. A grant in hand is entered first, and a copy that is down revives. Each top that the seer saw has its
    /// end: what is held of an open one would be kept for good. A refusal leaves the copy's own journal the one that is
    /// read. The cost grows with the copy's grants of this run and the depth of their names, and with the number of
    /// records.
    pub fn checkpoint<R: Wait>(
        &mut self,
        rt: &R,
        desk: &Desk<N>,
        seer: &mut Pass<N>,
        fold: &mut Fold<D>,
    ) -> Result<(), SiteNo>
        requires proper { IsProper (setting_of N.table N.base) }
        requires ended { HasEnded seer.old.seen }
        requires up { IsUp (other_in fold.old) }
        requires copies { copies_in fold.old ≡ length N.base }

        // The copy has seen what the seer has, and can serve after `Ok`. What was entered is at most the grant in hand, and
        // its own journal is written nothing.
        ensures seer { SeesMore seer.old seer.new }
        ensures older { IsOlder seer.new.seen self.new.replica.pass.seen }
        ensures ready { OnOk result (CanServe self.new.replica) }
        ensures enters { EntersHand C self.old.replica self.new.replica }
        ensures became { SiteBecame (setting_of N.table N.base) C None (site_state self.old)
            (site_state self.new) }
        ensures wrote_none { SiteWroteNone (setting_of N.table N.base) C (site_state self.old)
            (site_state self.new) }
        ensures for_good { is_some self.old.strange ≡ true → self.new.strange ≡ self.old.strange }
        ensures differs { IsStrangeFor (Differs self.old.log
            (grants self.old.replica.pass.seen C) self.old.replica.hand)
            self.old.strange self.new.strange }

        // After `Ok` the other journal has how it was made and what the copy holds, and no more; at any moment of the call
        // what it had, none, the first of the two, or both.
        ensures same { IsSameFold fold.old fold.new }
        ensures up { OnOk result (IsUp (other_in fold.new)) }
        ensures keeps { OnOk result ((bodies : List (List ℕ)) → Keeps (other_in fold.old) bodies
            → Keeps (other_in fold.new) (folded_bodies fold.old
            (held_by (slice_index_or N.base C []) C self.new.replica))) }
        ensures any_moment { (bodies : List (List ℕ)) → Keeps (other_in fold.old) bodies
            → LeavesOnly D.view (disk_of (other_in fold.old)) (disk_of (other_in fold.new))
            (IsFolding bodies (made_in fold.old) (folded_base fold.old
            (held_by (slice_index_or N.base C []) C self.new.replica))) }

        // What is folded fits the form of a base, or nothing was begun.
        ensures fits { (other_in fold.new ≡ other_in fold.old)
            ⊎ All (field.tuple (current (length N.base))).fits
            (held_by (slice_index_or N.base C []) C self.new.replica) }
        ensures fit { OnOk result (All (field.tuple (current (length N.base))).fits
            (held_by (slice_index_or N.base C []) C self.new.replica)) }

        // It is strange exactly where it says so. Full comes where a body would pass the limit or the last number was used
        // up, and nowhere else.
        ensures strange { (result ≡ Err SiteNo.Strange) ↔ (is_some self.new.strange ≡ true) }
        ensures refused { IfErr result (CheckpointSays C fold.old
            (held_by (slice_index_or N.base C []) C self.new.replica) (site_state self.new)) }
        ensures room { OnOk result ((place : ℕ) → IsFullFor fold.old
            (held_by (slice_index_or N.base C []) C self.new.replica) place → ⊥) }

        // The other journal is as it was where the copy is strange, the history takes no more entries, the count of faults
        // of the copy's own disk rose, or the last number was used up.
        ensures spared { IsSpared fold.old (log_journal self.old.log)
            (log_journal self.new.log) result → other_in fold.new ≡ other_in fold.old }

        // A fault of a disk is told exactly where the count of one of both rose.
        ensures cause { CostsEither (log_journal self.old.log) (log_journal self.new.log)
            (other_in fold.old) (other_in fold.new) (IsErrOf result SiteNo.Disk) }
    {
        let held = self.hold(rt, desk, seer)?;
        self.fold_in(fold, held)
    }
}
