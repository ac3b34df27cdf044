//! A journal of an older format is folded into the other one of its pair, in the current format.
ghost use Rattle.std.specs.Prelude.{ℕ, ◌≡◌, ◌+◌, ◌<◌, ◌≤◌, ◌^◌, List, IfOk, IfErr, IsErrAnd};
ghost use Rattle.qc_codec.specs.Base.{current_copy_base};
ghost use Rattle.qc_codec.specs.Bodies as body;
ghost use Rattle.qc_codec.specs.Fields.{current_format};
ghost use Rattle.qc_disk.specs.Disk.{CountsOnce, HasCause, LeavesOnly};
ghost use Rattle.qc_journal.specs.Journal.{disk_of, Keeps};
ghost use Rattle.qc_pair.specs.Fold.{active_number, other_in, own_disk, spare_disk};
ghost use Rattle.qc_pair.specs.Folding.{IsFolding};
ghost use Rattle.qc_pair.specs.declared.fault.PairNo.TheVariants as no;
ghost use Rattle.qc_site.specs.Image.{made_body};
ghost use Rattle.qc_site.specs.Mounted.{copy_of, journal_of, records_of};
ghost use Rattle.qc_site.specs.Renewal.{renewed_base, renewed_body};
ghost use Rattle.qc_site.specs.Renewing.{active_after, folded_after, other_number, IsNotRenewed, MayRenew, Renews};
ghost use Rattle.qc_site.specs.Start as start;

use crate::bytes::are_bytes;
use crate::mounted::Mounted;
use crate::mounting::made_of;
use qc_codec::Past;
use qc_config::Tuple;
use qc_disk::Disk;
use qc_event::Table;
use qc_pair::{Fold, PairNo, mount_no};
use std::alloc::AllocError;

// Both disks, where there was no memory.
fn no_memory<D: Disk>(mounted: Mounted<D>, fold: Fold<D>) -> (D, D, PairNo)
    ensures own { result.0 ≡ own_disk fold (disk_of (journal_of mounted)) }
    ensures spare { result.1 ≡ spare_disk fold (disk_of (journal_of mounted)) }
    ensures memory { result.2 ≡ no.Memory }
{
    let (disk, spare) = fold.into_disks(mounted.into_disk());
    (disk, spare, PairNo::Memory)
}

// The last epoch of a past. Its range is known once it is read.
fn last_epoch(past: &Past) -> u32
    ensures { result ≡ past.now.epoch }
{
    past.epoch
}

// The tuples with which it starts.
fn start_of<D: Disk>(mounted: &Mounted<D>) -> Result<Vec<Tuple>, AllocError>
    ensures { IfOk result (λ tuples. tuples.items ≡ start.start_of mounted.now) }
{
    mounted.start().to_vec(mounted.alloc)
}

/// Folds a copy that was just mounted into the other journal of its pair, with what it starts with and the ledger's last
/// epoch before its mounting: that journal is the active one from then on. It takes as many steps as there are records,
/// and bytes of what stood before. A refusal hands both disks back: it names the one that was folded into, where that
/// failed or has no room.
pub(crate) fn renew<D: Disk>(
    mounted: Mounted<D>,
    fold: Fold<D>,
    table: &Table,
    past: &Past,
) -> Result<(Mounted<D>, Fold<D>), (D, D, PairNo)>
    requires copy { copy_of mounted < table.now.copies }
    requires proper { (body.table current_format).fits table.now }
    requires may { MayRenew table.now past.now mounted fold }
    ensures renews { IfOk result (λ renewed. Renews table.now past.now mounted fold renewed.0
        renewed.1) }
    ensures refused { IfErr result (λ refused. IsNotRenewed table.now past.now mounted fold
        refused.2) }

    // The disk that was active is as it was, and so is the other one where the last number was used up. What it leaves of
    // that one at each moment, and what it costs.
    ensures active { active_after fold result ≡ disk_of (journal_of mounted) }
    ensures last { 2 ^ 63 ≤ active_number fold
        → folded_after fold result ≡ disk_of (other_in fold) }
    ensures fits { active_number fold < 2 ^ 63 → (current_copy_base table.now).fits
        (renewed_base table.now past.now (records_of mounted)) }
    ensures any_moment { (bodies : List (List ℕ)) → Keeps (other_in fold) bodies
        → LeavesOnly D.view (disk_of (other_in fold)) (folded_after fold result)
        (IsFolding bodies (made_body (other_number table.now past.now mounted fold) table.now)
        (renewed_body table.now past.now (records_of mounted))) }
    ensures cause { HasCause (D.view (disk_of (other_in fold))).faults
        (D.view (folded_after fold result)).faults
        (IsErrAnd result (λ refused. refused.2
        ≡ no.Disk (other_number table.now past.now mounted fold))) }
    ensures counts_once { CountsOnce (D.view (disk_of (other_in fold))).faults
        (D.view (folded_after fold result)).faults
        (IsErrAnd result (λ refused. refused.2
        ≡ no.Disk (other_number table.now past.now mounted fold))) }
{
    let (alloc, who) = (mounted.alloc, mounted.copy + 1);
    let _epoch = last_epoch(past);
    are_bytes(mounted.records());
    let Ok(made) = made_of(alloc, fold.active_disk(who), table) else {
        return Err(no_memory(mounted, fold));
    };
    let Ok(tuples) = start_of(&mounted) else {
        return Err(no_memory(mounted, fold));
    };
    let other = fold.disk(who);
    let Mounted {
        copy,
        copies,
        journal,
        start,
        ..
    } = mounted;
    match fold.renew(alloc, journal, made, past.epoch, tuples) {
        Ok((journal, bodies, fold)) => {
            let mounted = Mounted {
                alloc,
                copy,
                copies,
                journal,
                bodies,
                start,
            };
            Ok((mounted, fold))
        }
        Err((journal, fold, fault)) => {
            let (disk, spare) = fold.into_disks(journal.into_disk());
            Err((disk, spare, mount_no(other, fault)))
        }
    }
}
