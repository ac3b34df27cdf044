//! How the ledger's journal is folded into the other one of its pair.
ghost use Rattle.std.specs.Prelude.{◌≡◌, ◌↔◌, ◌≤◌, ◌^◌, ℕ, List, [], IfErr, OnOk, IsErrOf, IsTrue, Err};
ghost use Rattle.qc_disk.specs.Disk.{CountsOnce, HasCause, LeavesOnly};
ghost use Rattle.qc_journal.specs.Journal.{disk_of, IsUp, Keeps};
ghost use Rattle.qc_ledger.specs.Refusing.{IsCheckpointNo};
ghost use Rattle.qc_ledger.specs.Shelf.{journal_in};
ghost use Rattle.qc_ledger.specs.declared.fault.LedgerNo.TheVariants.{Full};
ghost use Rattle.qc_pair.specs.Fold.{active_number, folded_base, folded_bodies, made_in, other_in, IsFullFor, IsSameFold};
ghost use Rattle.qc_pair.specs.Folding.{IsFolding};

use crate::fault::{LedgerNo, log_no};
use crate::ledger::Ledger;
use qc_desk::Store;
use qc_disk::Disk;
use qc_pair::Fold;

impl<D: Disk, N: Store> Ledger<D, N> {
    /// Whether it is up.
    pub fn is_up(&self) -> bool
        ensures { IsTrue result ↔ IsUp (journal_in self.now.shelf) }
    {
        self.shelf.is_up()
    }

    /// Folds what its journal has into the other one of its pair: nothing but the epoch is kept. Each copy was folded
    /// before: what a copy's records restore rests on the tops that are logged. After a refusal its own journal is the
    /// one that is read.
    pub fn checkpoint(&self, fold: &mut Fold<D>) -> Result<(), LedgerNo>
        requires up { IsUp (journal_in self.now.shelf) }
        requires other { IsUp (other_in fold.old) }
        ensures same { IsSameFold fold.old fold.new }
        ensures up { OnOk result (IsUp (other_in fold.new)) }

        // After `Ok` the other journal has how it was made and the base, and no more; at any moment of the call what it had,
        // none, the first of the two, or both.
        ensures keeps { OnOk result ((bodies : List (List ℕ)) → Keeps (other_in fold.old) bodies
            → Keeps (other_in fold.new) (folded_bodies fold.old [])) }
        ensures any_moment { (bodies : List (List ℕ)) → Keeps (other_in fold.old) bodies
            → LeavesOnly D.view (disk_of (other_in fold.old)) (disk_of (other_in fold.new))
            (IsFolding bodies (made_in fold.old) (folded_base fold.old [])) }

        // Full comes where a body would pass the limit or the last number was used up, and nowhere else. Where the latter
        // is so, the other journal is as it was. A fault of the disk is told exactly where its count rose, by one.
        ensures refused { IfErr result IsCheckpointNo }
        ensures full { (place : ℕ) → result ≡ Err (Full place) → IsFullFor fold.old [] place }
        ensures room { OnOk result ((place : ℕ) → IsFullFor fold.old [] place → ⊥) }
        ensures last { 2 ^ 63 ≤ active_number fold.old
            → (result ≡ Err (Full 0)) × (other_in fold.new ≡ other_in fold.old) }
        ensures cause { HasCause (D.view (disk_of (other_in fold.old))).faults
            (D.view (disk_of (other_in fold.new))).faults (IsErrOf result LedgerNo.Disk) }
        ensures counts_once { CountsOnce (D.view (disk_of (other_in fold.old))).faults
            (D.view (disk_of (other_in fold.new))).faults (IsErrOf result LedgerNo.Disk) }
    {
        let alloc = self.shelf.alloc;
        match fold.fold(alloc, Vec::new(alloc)) {
            Ok(()) => Ok(()),
            Err(fault) => Err(log_no(fault)),
        }
    }
}
