//! Mounting the ledger's pair.
ghost use Rattle.std.specs.Prelude.{ℕ, ◌≡◌, ◌<◌, ◌+◌, [], ◌∷◌, ◌++◌, not, false, true, IfOk, IfErr, OnOk, IsErrOf, IsErrAnd, Err};
ghost use Rattle.qc_codec.specs.Bodies as body;
ghost use Rattle.qc_codec.specs.Fields.{current_format};
ghost use Rattle.qc_codec.specs.Ledger.{made_for, past_in};
ghost use Rattle.qc_codec.specs.declared.record.Made.{Made};
ghost use Rattle.qc_journal.specs.Image.{bodies_of};
ghost use Rattle.qc_journal.specs.Journal.{disk_of, limit_of, IsUp};
ghost use Rattle.qc_journal.specs.declared.fault.Fault.TheVariants.{Full};
ghost use Rattle.qc_ledger.specs.Image.{made_body, epoch_body, made_where_none, to_write, AreMountableAsLedger, IsLedgerFault, AreLedgers, LAST_EPOCH};
ghost use Rattle.qc_ledger.specs.Refusing.{IsOfLedgerImage, IsOfBytes, IsOfWriting};
ghost use Rattle.qc_ledger.specs.Mounted.{journal_of, HasSome};
ghost use Rattle.qc_ledger.specs.Pairs.{own_after, spare_after, IsLedgerPairNo, MountsHalf, MountsLedgerPair};
ghost use Rattle.qc_ledger.specs.Runs.{Costs, CostsOnce, HasMore, HaveRoomBehind, IsFullBehind, KeepsAll, Leaves, LosesNone};
ghost use Rattle.qc_pair.specs.Fold.{swapped_in, IsFoldFor};
ghost use Rattle.qc_pair.specs.Pair.{number_at, own_of, spare_of, swapped};
ghost use Rattle.qc_pair.specs.declared.kind.Kind.TheVariants as kind;

use crate::book::Book;
use crate::fault::{LedgerNo, mount_no, pair_no};
use crate::reading::past_of;
use qc_codec::{FORMAT, LedgerRecord, Made, Past, copy_table, write_ledger, write_made};
use qc_disk::Disk;
use qc_event::{Short, Table};
use qc_journal::{Body, Fault, Journal};
use qc_names::lists::append_moved;
use qc_pair::{Fold, Kind, Pair, PairNo, open};
use std::alloc::{AllocError, Global};

// Writes a record, and keeps its body.
fn write<D: Disk>(journal: &mut Journal<D>, bodies: &mut Vec<Body>, next: Body) -> Result<(), Fault>
    requires up { IsUp journal.old }
    ensures up { OnOk result (IsUp journal.new) }
    ensures bodies { OnOk result (HasMore bodies.old bodies.new (next.items ∷ [])) }
    ensures limit { limit_of journal.new ≡ limit_of journal.old }
    ensures keeps { OnOk result (KeepsAll journal.old bodies.old
        → KeepsAll journal.new bodies.new) }
    ensures room { OnOk result (KeepsAll journal.old bodies.old
        → HaveRoomBehind journal.old bodies.old (next.items ∷ [])) }
    ensures full { (place : ℕ) → result ≡ Err (Full place) → KeepsAll journal.old bodies.old
        → IsFullBehind journal.old bodies.old (next.items ∷ []) place }
    ensures fault { IfErr result IsOfWriting }
    ensures any_moment { KeepsAll journal.old bodies.old
        → Leaves journal.old journal.new (HasSome (bodies_of bodies.old.items) (next.items ∷ [])) }
    ensures grows { KeepsAll journal.old bodies.old → LosesNone journal.old journal.new }
    ensures cause { Costs journal.old journal.new (IsErrOf result Fault.Disk) }
    ensures counts_once { CostsOnce journal.old journal.new (IsErrOf result Fault.Disk) }
{
    journal.append(&next)?;
    append_moved(bodies, next)?;
    Ok(())
}

/// Writes how a disk was made behind its records, where there are none, and keeps its body.
pub fn make<D: Disk>(
    journal: &mut Journal<D>,
    bodies: &mut Vec<Body>,
    made: Body,
) -> Result<(), Fault>
    requires up { IsUp journal.old }
    ensures up { OnOk result (IsUp journal.new) }
    ensures bodies { OnOk result (HasMore bodies.old bodies.new
        (made_where_none made.items (bodies_of bodies.old.items))) }
    ensures limit { limit_of journal.new ≡ limit_of journal.old }
    ensures keeps { OnOk result (KeepsAll journal.old bodies.old
        → KeepsAll journal.new bodies.new) }
    ensures room { OnOk result (KeepsAll journal.old bodies.old
        → HaveRoomBehind journal.old bodies.old (made_where_none made.items (bodies_of bodies.old.items))) }
    ensures full { (place : ℕ) → result ≡ Err (Full place) → KeepsAll journal.old bodies.old
        → IsFullBehind journal.old bodies.old (made_where_none made.items (bodies_of bodies.old.items))
        place }
    ensures fault { IfErr result IsOfWriting }
    ensures any_moment { KeepsAll journal.old bodies.old
        → Leaves journal.old journal.new (HasSome (bodies_of bodies.old.items)
        (made_where_none made.items (bodies_of bodies.old.items))) }
    ensures grows { KeepsAll journal.old bodies.old → LosesNone journal.old journal.new }
    ensures cause { Costs journal.old journal.new (IsErrOf result Fault.Disk) }
    ensures counts_once { CostsOnce journal.old journal.new (IsErrOf result Fault.Disk) }
{
    if bodies.is_empty() {
        return write(journal, bodies, made);
    }
    Ok(())
}

// Writes how the ledger was made, where there are no records, and an epoch.
fn write_both<D: Disk>(
    journal: &mut Journal<D>,
    bodies: &mut Vec<Body>,
    made: Body,
    epoch: Body,
) -> Result<(), Fault>
    requires up { IsUp journal.old }
    ensures up { OnOk result (IsUp journal.new) }
    ensures bodies { OnOk result (HasMore bodies.old bodies.new
        (made_where_none made.items (bodies_of bodies.old.items) ++ epoch.items ∷ [])) }
    ensures limit { limit_of journal.new ≡ limit_of journal.old }
    ensures keeps { OnOk result (KeepsAll journal.old bodies.old
        → KeepsAll journal.new bodies.new) }
    ensures room { OnOk result (KeepsAll journal.old bodies.old
        → HaveRoomBehind journal.old bodies.old (made_where_none made.items (bodies_of bodies.old.items) ++
        epoch.items ∷ [])) }
    ensures full { (place : ℕ) → result ≡ Err (Full place) → KeepsAll journal.old bodies.old
        → IsFullBehind journal.old bodies.old (made_where_none made.items (bodies_of bodies.old.items)
        ++ epoch.items ∷ []) place }
    ensures fault { IfErr result IsOfWriting }
    ensures any_moment { KeepsAll journal.old bodies.old
        → Leaves journal.old journal.new (HasSome (bodies_of bodies.old.items)
        (made_where_none made.items (bodies_of bodies.old.items) ++ epoch.items ∷ [])) }
    ensures grows { KeepsAll journal.old bodies.old → LosesNone journal.old journal.new }
    ensures cause { Costs journal.old journal.new (IsErrOf result Fault.Disk) }
    ensures counts_once { CostsOnce journal.old journal.new (IsErrOf result Fault.Disk) }
{
    make(journal, bodies, made)?;
    write(journal, bodies, epoch)
}

/// How the ledger's disk of this number is made for a table, and the body that says so.
pub(crate) fn made_of(alloc: Global, who: u8, table: &Table) -> Result<(Made, Body), LedgerNo>
    requires proper { (body.table current_format).fits table.now }
    ensures made { IfOk result (λ made. made.0 ≡ made_for who table.now) }
    ensures body { IfOk result (λ made. made.1.items ≡ made_body who table.now) }
    ensures memory { IfErr result (λ no. no ≡ LedgerNo.Short Short.Memory) }
{
    let made = Made {
        format: FORMAT,
        who,
        table: copy_table(alloc, table)?,
    };
    let spelled = write_made(alloc, &made)?;
    Ok((made, spelled))
}

// What bodies tell, how the ledger was made, and the next epoch.
#[derive(Drop)]
struct Plan {
    past: Past,
    made: Body,
    epoch: Body,
}

// What bodies tell, and what a mounting writes behind them.
fn plan_of(alloc: Global, who: u8, bodies: &[Body], table: &Table) -> Result<Plan, LedgerNo>
    requires proper { (body.table current_format).fits table.now }
    ensures past { IfOk result (λ plan. plan.past ≡ past_in (bodies_of bodies.now)) }
    ensures last { IfOk result (λ plan. plan.past.epoch < LAST_EPOCH) }
    ensures ledgers { OnOk result (AreLedgers who table.now (bodies_of bodies.now)) }
    ensures made { IfOk result (λ plan. plan.made.items ≡ made_body who table.now) }
    ensures epoch { IfOk result (λ plan. plan.epoch.items ≡ epoch_body (plan.past.epoch + 1)) }
    ensures fault { (limit : ℕ)
        → IfErr result (IsOfBytes who (IsLedgerFault who table.now limit (bodies_of bodies.now))) }
{
    let (made, spelled) = made_of(alloc, who, table)?;
    let past = past_of(alloc, bodies, made, &spelled)?;
    let epoch = write_ledger(alloc, &LedgerRecord::Epoch(past.epoch + 1))?;
    Ok(Plan {
        past,
        made: spelled,
        epoch,
    })
}

/// Reads what the bodies tell, and writes what a mounting of the disk of this number writes.
pub(crate) fn begin<D: Disk>(
    alloc: Global,
    who: u8,
    journal: &mut Journal<D>,
    bodies: &mut Vec<Body>,
    table: &Table,
) -> Result<Past, LedgerNo>
    requires up { IsUp journal.old }
    requires proper { (body.table current_format).fits table.now }
    ensures up { OnOk result (IsUp journal.new) }
    ensures past { IfOk result (λ past. past ≡ past_in (bodies_of bodies.old.items)) }
    ensures epoch { IfOk result (λ past. past.epoch < LAST_EPOCH) }
    ensures ledgers { OnOk result (AreLedgers who table.now (bodies_of bodies.old.items)) }
    ensures fine { OnOk result (KeepsAll journal.old bodies.old
        → AreMountableAsLedger who table.now (limit_of journal.old) (bodies_of bodies.old.items)) }
    ensures bodies { OnOk result (HasMore bodies.old bodies.new
        (to_write who table.now (bodies_of bodies.old.items))) }
    ensures limit { limit_of journal.new ≡ limit_of journal.old }
    ensures keeps { OnOk result (KeepsAll journal.old bodies.old
        → KeepsAll journal.new bodies.new) }
    ensures refused { IfErr result (IsOfLedgerImage who (λ fault. KeepsAll journal.old bodies.old
        → IsLedgerFault who table.now (limit_of journal.old) (bodies_of bodies.old.items) fault)) }
    ensures any_moment { KeepsAll journal.old bodies.old
        → Leaves journal.old journal.new (HasSome (bodies_of bodies.old.items)
        (to_write who table.now (bodies_of bodies.old.items))) }
    ensures grows { KeepsAll journal.old bodies.old → LosesNone journal.old journal.new }
    ensures cause { Costs journal.old journal.new (IsErrOf result LedgerNo.Disk) }
    ensures counts_once { CostsOnce journal.old journal.new (IsErrOf result LedgerNo.Disk) }
{
    let Plan { past, made, epoch } = plan_of(alloc, who, bodies, table)?;
    match write_both(journal, bodies, made, epoch) {
        Ok(()) => Ok(past),
        Err(fault) => Err(mount_no(who, fault)),
    }
}

// The body that says how the disk is made that is not active.
fn made_other<D: Disk>(alloc: Global, pair: &Pair<D>, table: &Table) -> Result<Body, PairNo>
    requires proper { (body.table current_format).fits table.now }
    ensures body { IfOk result (λ made. made.items ≡ made_body
        (number_at (not (swapped pair.now)) 0) table.now) }
    ensures memory { IfErr result (λ no. no ≡ PairNo.Memory) }
{
    match made_of(alloc, pair.other_disk(0), table) {
        Ok((_, made)) => Ok(made),
        Err(_) => Err(PairNo::Memory),
    }
}

/// A refusal, with both disks of a pair.
pub fn hand_back<D: Disk>(pair: Pair<D>, no: PairNo) -> (D, D, PairNo)
    ensures own { result.0 ≡ disk_of (own_of pair) }
    ensures spare { result.1 ≡ disk_of (spare_of pair) }
    ensures no { result.2 ≡ no }
{
    let (disk, spare) = pair.into_disks();
    (disk, spare, no)
}

/// Reads what stands on the active one of the ledger's disk and its spare, and writes there how it was made, where
/// nothing stands, and this mounting's epoch. It gives with the book what it may be folded into, what was told before,
/// and the epoch. A refusal hands both disks back.
pub fn mount_pair<D: Disk>(
    alloc: Global,
    disk: D,
    spare: D,
    table: &Table,
    limit: u64,
) -> Result<(Book<D>, Fold<D>, Past, u32), (D, D, PairNo)>
    requires proper { (body.table current_format).fits table.now }

    // The past is what the records tell that were found on the active disk, and the epoch, which stands behind them, is
    // the next. Where that disk tells its bytes, each image has them from now on. The other keeps what it had.
    ensures mounts { IfOk result (λ mounted. MountsLedgerPair table.now limit (D.view disk).content
        (D.view spare).content mounted.0 mounted.1 mounted.2 mounted.3) }
    ensures limit { IfOk result (λ mounted. limit_of (journal_of mounted.0) ≡ limit) }
    ensures fold { IfOk result (λ mounted. IsFoldFor mounted.1 limit
        (made_body (number_at (not (swapped_in mounted.1)) 0) table.now) mounted.3
        table.now.copies) }

    // It is refused for the pair's first fault, where the disks tell their bytes.
    ensures refused { IfErr result (λ refused. IsLedgerPairNo table.now limit (D.view disk).content
        (D.view spare).content refused.2) }

    // What it leaves of the disk, and of the spare.
    ensures own { MountsHalf kind.Ledger 0 (D.view disk).content (D.view spare).content
        (λ number. to_write number table.now) false D.view
        (IsErrAnd result (λ refused. refused.2 ≡ PairNo.Disk 0)) disk (own_after result) }
    ensures spare { MountsHalf kind.Ledger 0 (D.view disk).content (D.view spare).content
        (λ number. to_write number table.now) true D.view
        (IsErrAnd result (λ refused. refused.2 ≡ PairNo.Disk 17)) spare (spare_after result) }
{
    let (mut pair, mut bodies) = open(alloc, disk, spare, 0, Kind::Ledger, limit)?;
    let active = pair.active_disk(0);
    let made = match made_other(alloc, &pair, table) {
        Ok(made) => made,
        Err(no) => return Err(hand_back(pair, no)),
    };
    match begin(alloc, active, &mut pair.active, &mut bodies, table) {
        Ok(past) => {
            let epoch = past.epoch + 1;
            let (journal, fold) = pair.into_fold(made, epoch, table.copies);
            let book = Book {
                alloc,
                journal,
                bodies,
            };
            Ok((book, fold, past, epoch))
        }
        Err(no) => Err(hand_back(pair, pair_no(active, no))),
    }
}
