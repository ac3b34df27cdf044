//! Mounting a copy's pair.
ghost use Rattle.std.specs.Prelude.{◌≡◌, ◌<◌, ◌≤◌, ◌+◌, not, false, true, IfOk, IfErr, OnOk, IsErrOf, IsErrAnd};
ghost use Rattle.qc_codec.specs.Base.{format_in};
ghost use Rattle.qc_codec.specs.Bodies as body;
ghost use Rattle.qc_codec.specs.Fields.{current_format};
ghost use Rattle.qc_codec.specs.declared.record.Made.{Made};
ghost use Rattle.qc_journal.specs.Image.{bodies_of};
ghost use Rattle.qc_journal.specs.Journal.{limit_of, IsUp};
ghost use Rattle.qc_ledger.specs.Mounted.{HasSome};
ghost use Rattle.qc_ledger.specs.Pairs.{MountsHalf};
ghost use Rattle.qc_ledger.specs.Runs.{Costs, CostsOnce, HasMore, KeepsAll, Leaves, LosesNone};
ghost use Rattle.qc_pair.specs.Fold.{swapped_in, IsFoldFor};
ghost use Rattle.qc_pair.specs.Opening.{IsMountNo};
ghost use Rattle.qc_pair.specs.Pair.{number_at};
ghost use Rattle.qc_pair.specs.declared.kind.Kind.TheVariants as kind;
ghost use Rattle.qc_site.specs.Image.{made_body, to_write, AreGranted, AreMountableAsCopy, IsCopyFault};
ghost use Rattle.qc_site.specs.Mounted.{copies_of, copy_of, journal_of, records_of};
ghost use Rattle.qc_site.specs.Pairs.{own_after, own_found, spare_after, spare_found, FindsCopyPair, IsCopyPairNo, MountsCopyPair};
ghost use Rattle.qc_site.specs.Refusing.{IsOfCopyImage};
ghost use Rattle.qc_site.specs.Renewal.{restored_in, MountsCopyHalf};
ghost use Rattle.qc_site.specs.Start.{start_of};

use crate::beginning::Beginning;
use crate::bytes::are_bytes;
use crate::fault::{SiteNo, mount_no, pair_no};
use crate::mounted::Mounted;
use crate::reading::grants_of;
use crate::renewing::renew;
use crate::start::restored_beginning;
use qc_codec::{FORMAT, Made, Past, copy_table, write_made};
use qc_disk::Disk;
use qc_event::Table;
use qc_journal::{Body, Journal};
use qc_ledger::{hand_back, make};
use qc_pair::{Fold, Kind, PairNo, open};
use std::alloc::{AllocError, Global};

/// The body that says that the disk of a number was made for a table.
pub(crate) fn made_of(alloc: Global, who: u8, table: &Table) -> Result<Body, AllocError>
    requires proper { (body.table current_format).fits table.now }
    ensures { IfOk result (λ made. made.items ≡ made_body who table.now) }
{
    let made = Made {
        format: FORMAT,
        who,
        table: copy_table(alloc, table)?,
    };
    write_made(alloc, &made)
}

/// Reads what the bodies tell, and writes how the disk of this number was made, where there are none. It tells what the
/// copy starts with, and the format of the bodies.
pub(crate) fn begin<D: Disk>(
    alloc: Global,
    who: u8,
    journal: &mut Journal<D>,
    bodies: &mut Vec<Body>,
    table: &Table,
    past: &Past,
) -> Result<(Beginning, u8), SiteNo>
    requires up { IsUp journal.old }
    requires few { table.now.copies ≤ 16 }
    requires proper { (body.table current_format).fits table.now }
    ensures up { OnOk result (IsUp journal.new) }
    ensures start { IfOk result (λ begun. begun.0 ≡ restored_in past.now.tops table.now
        (bodies_of bodies.old.items)) }
    ensures format { IfOk result (λ begun. begun.1 ≡ format_in (bodies_of bodies.old.items)) }
    ensures granted { OnOk result (AreGranted who table.now past.now
        (bodies_of bodies.old.items)) }
    ensures fine { OnOk result (KeepsAll journal.old bodies.old
        → AreMountableAsCopy who table.now past.now (limit_of journal.old)
        (bodies_of bodies.old.items)) }
    ensures bodies { OnOk result (HasMore bodies.old bodies.new
        (to_write who table.now (bodies_of bodies.old.items))) }
    ensures limit { limit_of journal.new ≡ limit_of journal.old }
    ensures keeps { OnOk result (KeepsAll journal.old bodies.old
        → KeepsAll journal.new bodies.new) }
    ensures refused { IfErr result (IsOfCopyImage who (λ fault. KeepsAll journal.old bodies.old
        → IsCopyFault who table.now past.now (limit_of journal.old) (bodies_of bodies.old.items)
        fault)) }
    ensures any_moment { KeepsAll journal.old bodies.old
        → Leaves journal.old journal.new (HasSome (bodies_of bodies.old.items)
        (to_write who table.now (bodies_of bodies.old.items))) }
    ensures grows { KeepsAll journal.old bodies.old → LosesNone journal.old journal.new }
    ensures cause { Costs journal.old journal.new (IsErrOf result SiteNo.Disk) }
    ensures counts_once { CostsOnce journal.old journal.new (IsErrOf result SiteNo.Disk) }
{
    let made = made_of(alloc, who, table)?;
    let told = grants_of(alloc, who, table, past, &made, bodies)?;
    let start = restored_beginning(alloc, table, past.tops.as_slice(), &told.base, &told.grants)?;
    match make(journal, bodies, made) {
        Ok(()) => Ok((start, told.format)),
        Err(fault) => Err(mount_no(who, fault)),
    }
}

// Mounts the active one of a copy's disk and its spare, in the format that it has, and tells that.
fn find_pair<D: Disk>(
    alloc: Global,
    copy: u8,
    disk: D,
    spare: D,
    table: &Table,
    past: &Past,
    epoch: u32,
    limit: u64,
) -> Result<(Mounted<D>, Fold<D>, u8), (D, D, PairNo)>
    requires copy { copy < table.now.copies }
    requires proper { (body.table current_format).fits table.now }
    ensures finds { IfOk result (λ found. FindsCopyPair copy table.now past.now limit found.2
        (D.view disk).content (D.view spare).content found.0 found.1) }
    ensures copy { IfOk result (λ found. (copy_of found.0 ≡ copy)
        × (copies_of found.0 ≡ table.now.copies)) }
    ensures limit { IfOk result (λ found. limit_of (journal_of found.0) ≡ limit) }
    ensures up { IfOk result (λ found. IsUp (journal_of found.0)) }
    ensures fold { IfOk result (λ found. IsFoldFor found.1 limit
        (made_body (number_at (not (swapped_in found.1)) (copy + 1)) table.now) epoch
        table.now.copies) }
    ensures start { IfOk result (λ found. start_of found.0
        ≡ restored_in past.now.tops table.now (records_of found.0)) }
    ensures refused { IfErr result (λ refused. IsMountNo kind.Copy (copy + 1)
        (D.view disk).content (D.view spare).content
        (λ disk bodies fault. IsCopyFault disk table.now past.now limit bodies fault) refused.2) }
    ensures own { MountsHalf kind.Copy (copy + 1) (D.view disk).content (D.view spare).content
        (λ number. to_write number table.now) false D.view
        (IsErrAnd result (λ refused. refused.2 ≡ PairNo.Disk (copy + 1))) disk
        (own_found result) }
    ensures spare { MountsHalf kind.Copy (copy + 1) (D.view disk).content (D.view spare).content
        (λ number. to_write number table.now) true D.view
        (IsErrAnd result (λ refused. refused.2 ≡ PairNo.Disk (copy + 1 + 17))) spare
        (spare_found result) }
{
    let who = copy + 1;
    let (mut pair, mut bodies) = open(alloc, disk, spare, who, Kind::Copy, limit)?;
    let active = pair.active_disk(who);
    let made = match made_of(alloc, pair.other_disk(who), table) {
        Ok(made) => made,
        Err(_) => return Err(hand_back(pair, PairNo::Memory)),
    };
    match begin(alloc, active, &mut pair.active, &mut bodies, table, past) {
        Ok((start, format)) => {
            let (journal, fold) = pair.into_fold(made, epoch, table.copies);
            let mounted = Mounted {
                alloc,
                copy,
                copies: table.copies,
                journal,
                bodies,
                start,
            };
            Ok((mounted, fold, format))
        }
        Err(no) => Err(hand_back(pair, pair_no(active, no))),
    }
}

/// Reads what stands on the active one of a copy's disk and its spare, and writes there how it was made, where nothing
/// stands. Where it is of an older format, it is folded into the other one, before anything else is written, with what it
/// restores and the ledger's last epoch. The past is what the ledger told before this mounting, and the epoch is the
/// next, which a later fold will have. It takes as many steps as there are bytes on both, for each active grant a search
/// among the names of those before it and one among the numbers of logged tops, and a look at the names that were aborted
/// below the one found. A refusal hands both disks back.
pub fn mount_pair<D: Disk>(
    alloc: Global,
    copy: u8,
    disk: D,
    spare: D,
    table: &Table,
    past: &Past,
    epoch: u32,
    limit: u64,
) -> Result<(Mounted<D>, Fold<D>), (D, D, PairNo)>
    requires copy { copy < table.now.copies }
    requires proper { (body.table current_format).fits table.now }

    // Records were found on the active disk, which are this copy's for this table, in order behind this past; or what they
    // became in the current format. Where it tells its bytes, each image has them from now on. The other keeps what it had.
    ensures mounts { IfOk result (λ mounted. MountsCopyPair copy table.now past.now limit
        (D.view disk).content (D.view spare).content mounted.0 mounted.1) }
    ensures copy { IfOk result (λ mounted. (copy_of mounted.0 ≡ copy)
        × (copies_of mounted.0 ≡ table.now.copies)) }
    ensures limit { IfOk result (λ mounted. limit_of (journal_of mounted.0) ≡ limit) }
    ensures up { IfOk result (λ mounted. IsUp (journal_of mounted.0)) }
    ensures fold { IfOk result (λ mounted. IsFoldFor mounted.1 limit
        (made_body (number_at (not (swapped_in mounted.1)) (copy + 1)) table.now) epoch
        table.now.copies) }

    // It starts with what its records restore, by the tops that were logged, from the tuples of its base.
    ensures start { IfOk result (λ mounted. start_of mounted.0
        ≡ restored_in past.now.tops table.now (records_of mounted.0)) }

    // It is refused for the pair's first fault, where the disks tell their bytes.
    ensures refused { IfErr result (λ refused. IsCopyPairNo copy table.now past.now limit
        (D.view disk).content (D.view spare).content refused.2) }

    // What it leaves of the disk, and of the spare.
    ensures own { MountsCopyHalf copy table.now (D.view disk).content (D.view spare).content
        (λ p. p ≡ past.now) false D.view
        (IsErrAnd result (λ refused. refused.2 ≡ PairNo.Disk (copy + 1))) disk (own_after result) }
    ensures spare { MountsCopyHalf copy table.now (D.view disk).content (D.view spare).content
        (λ p. p ≡ past.now) true D.view
        (IsErrAnd result (λ refused. refused.2 ≡ PairNo.Disk (copy + 1 + 17))) spare
        (spare_after result) }
{
    let (mounted, fold, format) = find_pair(alloc, copy, disk, spare, table, past, epoch, limit)?;
    if format == FORMAT {
        return Ok((mounted, fold));
    }
    are_bytes(mounted.records());
    renew(mounted, fold, table, past)
}
