//! A fold: what a journal had gives way to how it was made and a base.
ghost use Rattle.std.specs.Prelude.{ℕ, ◌≡◌, ◌∷◌, List, [], IfErr, OnOk, IsErrOf, Err};
ghost use Rattle.qc_disk.specs.Disk.{HasCause, CountsOnce, LeavesOnly};
ghost use Rattle.qc_journal.specs.Journal.{disk_of, limit_of, place_of, IsUp, Keeps};
ghost use Rattle.qc_journal.specs.declared.fault.Fault.TheVariants.{Full};
ghost use Rattle.qc_pair.specs.Folding.{behind_both, IsFolding, IsFoldNo, IsFullFold};

use qc_disk::Disk;
use qc_journal::{Fault, Journal};

/// Drops what a journal has, and writes these two bodies. It is the spare of a pair: the active journal is not touched.
pub(crate) fn fold<D: Disk>(journal: &mut Journal<D>, made: &[u8], base: &[u8]) -> Result<(), Fault>
    requires up { IsUp journal.old }
    ensures up { OnOk result (IsUp journal.new) }
    ensures place { OnOk result (place_of journal.new ≡ behind_both made.now base.now) }
    ensures limit { limit_of journal.new ≡ limit_of journal.old }

    // Full comes where one of them would pass the limit, and nowhere else.
    ensures full { (place : ℕ) → result ≡ Err (Full place)
        → IsFullFold (limit_of journal.old) made.now base.now place }
    ensures room { OnOk result ((place : ℕ)
        → IsFullFold (limit_of journal.old) made.now base.now place → ⊥) }
    ensures fault { IfErr result IsFoldNo }

    // Where the disk tells its bytes, each image has both after `Ok`; and at any moment of the call what it had, none,
    // the first, or both.
    ensures keeps { OnOk result ((bodies : List (List ℕ)) → Keeps journal.old bodies
        → Keeps journal.new (made.now ∷ base.now ∷ [])) }
    ensures any_moment { (bodies : List (List ℕ)) → Keeps journal.old bodies
        → LeavesOnly D.view (disk_of journal.old) (disk_of journal.new)
        (IsFolding bodies made.now base.now) }
    ensures cause { HasCause (D.view (disk_of journal.old)).faults
        (D.view (disk_of journal.new)).faults (IsErrOf result Fault.Disk) }
    ensures counts_once { CountsOnce (D.view (disk_of journal.old)).faults
        (D.view (disk_of journal.new)).faults (IsErrOf result Fault.Disk) }
{
    journal.reset()?;
    journal.append(made)?;
    journal.append(base)
}
