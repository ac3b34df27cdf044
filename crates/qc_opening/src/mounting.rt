//! Mounting a store.
ghost use Rattle.std.specs.Prelude.{ℕ, ◌≡◌, ◌+◌, ◌≤◌, List, [], length, IfOk, IfErr, OnOk};
ghost use Rattle.qc_codec.specs.Bodies as body;
ghost use Rattle.qc_codec.specs.Fields.{current_format};
ghost use Rattle.qc_opening.specs.Disks.{all_places, FirstTells};
ghost use Rattle.qc_opening.specs.Images.{IsFirstFault, IsFirstInPairs};
ghost use Rattle.qc_opening.specs.Mounted.{IsStoreOf};
ghost use Rattle.qc_opening.specs.Refusing.{disks_in, reason_in, AreLeft, ArePairsLeft, IsReasonAmong, TellImages, TellInPairs};
ghost use Rattle.qc_opening.specs.Waiting.{waiting_in, HasRoom};
ghost use Rattle.qc_system.specs.Pairs.{own_then_spares};

use crate::copies::mount_copies;
use crate::ledger::mount_ledger;
use crate::mount_no::MountNo;
use crate::parts::Parts;
use crate::waiting::Waiting;
use qc_disk::Disk;
use qc_event::Table;
use qc_pair::PairNo;
use std::alloc::Global;

// Mounts the pairs that wait. Where one is refused, all wait again.
fn mount_all<D: Disk>(
    alloc: Global,
    waiting: &mut Waiting<D>,
    table: &Table,
    limit: u64,
) -> Result<Parts<D>, PairNo>
    requires proper { (body.table current_format).fits table.now }
    requires few { table.now.copies ≤ 16 }
    requires all { length (waiting_in waiting.old) ≡ table.now.copies + 1 }
    requires room { HasRoom (length (waiting_in waiting.old)) waiting.old }
    ensures none { OnOk result (waiting_in waiting.new ≡ []) }
    ensures store { IfOk result (IsStoreOf table.now limit (waiting_in waiting.old)) }
    ensures left { IfErr result (λ no. ArePairsLeft D.view table.now
        (FirstTells D.view (waiting_in waiting.old)) no 0 (waiting_in waiting.old)
        (waiting_in waiting.new)) }
    ensures reason { IfErr result (IsReasonAmong 0 table.now.copies
        (λ bad. (images : List (List ℕ × List ℕ))
        → TellInPairs D.view (waiting_in waiting.old) images
        → IsFirstInPairs table.now limit bad images)) }
    ensures room { (pairs : ℕ) → HasRoom pairs waiting.old → HasRoom pairs waiting.new }
{
    let (ledger, past, epoch) = mount_ledger(alloc, waiting, table, limit)?;
    match mount_copies(alloc, waiting, table, &past, epoch, limit) {
        Ok(copies) => Ok(Parts {
            ledger,
            past,
            epoch,
            copies,
        }),
        Err(no) => {
            let (disk, spare) = ledger.into_disks();
            waiting.put_back(disk, spare);
            Err(no)
        }
    }
}

/// Mounts the disks of a store, of which the first is the ledger's and each next one a copy's; behind them stand their
/// spares in the same order. A refusal hands them back in their order, each as its mounting left it.
pub fn mount_disks<D: Disk>(
    alloc: Global,
    disks: Vec<D>,
    table: &Table,
    limit: u64,
) -> Result<Parts<D>, MountNo<D>>
    requires proper { (body.table current_format).fits table.now }
    requires all { length disks.items ≡ all_places table.now.copies }
    ensures store { IfOk result (λ parts. (pairs : List (D × D))
        × (own_then_spares pairs ≡ disks.items) × IsStoreOf table.now limit pairs parts) }
    ensures left { IfErr result (λ refused. AreLeft D.view table.now (reason_in refused)
        disks.items (disks_in refused)) }
    ensures reason { IfErr result (λ refused. IsReasonAmong 0 table.now.copies
        (λ bad. (images : List (List ℕ)) → TellImages D.view disks.items images
        → IsFirstFault table.now limit bad images) (reason_in refused)) }
{
    let Ok(spares) = Vec::with_capacity(alloc, usize::from(table.copies) + 1) else {
        return Err(MountNo::Memory { disks });
    };
    let mut waiting = Waiting::new(disks, spares);
    match mount_all(alloc, &mut waiting, table, limit) {
        Ok(parts) => {
            waiting.finish();
            Ok(parts)
        }
        Err(no) => Err(MountNo::new(no, waiting.into_disks())),
    }
}
