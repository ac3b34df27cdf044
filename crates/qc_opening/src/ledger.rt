//! Mounting the ledger of a store.
ghost use Rattle.std.specs.Prelude.{ℕ, ◌≡◌, ◌<◌, ◌≤◌, length, IfOk, IfErr};
ghost use Rattle.qc_codec.specs.Bodies as body;
ghost use Rattle.qc_codec.specs.Fields.{current_format};
ghost use Rattle.qc_ledger.specs.Pairs.{IsLedgerPairNo};
ghost use Rattle.qc_opening.specs.Disks.{FirstTells, IsPairLeft};
ghost use Rattle.qc_opening.specs.Mounted.{IsLedger};
ghost use Rattle.qc_opening.specs.Refusing.{FailedAt, IsBehind};
ghost use Rattle.qc_opening.specs.Waiting.{waiting_in, GoesBack, HasRoom, IsTaken};

use crate::waiting::Waiting;
use qc_codec::Past;
use qc_disk::Disk;
use qc_event::Table;
use qc_ledger::mount_pair;
use qc_pair::PairNo;
use qc_system::LedgerPair;
use std::alloc::Global;

/// Mounts the next pair of disks as the ledger's. One that is refused waits again.
pub(crate) fn mount_ledger<D: Disk>(
    alloc: Global,
    waiting: &mut Waiting<D>,
    table: &Table,
    limit: u64,
) -> Result<(LedgerPair<D>, Past, u32), PairNo>
    requires proper { (body.table current_format).fits table.now }
    requires some { 0 < length (waiting_in waiting.old) }
    requires room { HasRoom (length (waiting_in waiting.old)) waiting.old }
    ensures mounted { IfOk result (λ mounted. IsTaken
        (λ disks. IsLedger table.now limit disks mounted.0 mounted.1 mounted.2)
        (waiting_in waiting.old) (waiting_in waiting.new)) }
    ensures refused { IfErr result (λ no. GoesBack (λ before after.
        IsPairLeft D.view table.now (FirstTells D.view (waiting_in waiting.old)) (FailedAt no)
        (IsBehind no) 0 before after
        × IsLedgerPairNo table.now limit (D.view before.0).content (D.view before.1).content no)
        (waiting_in waiting.old) (waiting_in waiting.new)) }
    ensures room { (pairs : ℕ) → HasRoom pairs waiting.old → HasRoom pairs waiting.new }
{
    let (disk, spare) = waiting.take();
    match mount_pair(alloc, disk, spare, table, limit) {
        Ok((book, fold, past, epoch)) => Ok((LedgerPair { book, fold }, past, epoch)),
        Err((disk, spare, no)) => {
            waiting.put_back(disk, spare);
            Err(no)
        }
    }
}
