//! Mounting the copies of a store.
ghost use Rattle.std.specs.Prelude.{ℕ, ◌≡◌, ◌<◌, ◌≤◌, ◌+◌, ◌++◌, List, [], length, map, IfOk, IfErr};
ghost use Rattle.qc_codec.specs.Bodies as body;
ghost use Rattle.qc_codec.specs.Fields.{current_format};
ghost use Rattle.qc_site.specs.Pairs.{IsCopyPairNo};
ghost use Rattle.qc_opening.specs.Disks.{IsPairLeft};
ghost use Rattle.qc_opening.specs.Images.{IsCopiesFault};
ghost use Rattle.qc_opening.specs.Mounted.{copy_disks, AreCopies, IsCopy};
ghost use Rattle.qc_opening.specs.Refusing.{ArePairsLeft, FailedAt, IsBehind, IsReasonAmong, TellInPairs};
ghost use Rattle.qc_opening.specs.Waiting.{waiting_in, GoesBack, HasRoom, IsTaken};

use crate::waiting::Waiting;
use qc_codec::Past;
use qc_disk::Disk;
use qc_event::Table;
use qc_pair::PairNo;
use qc_site::mount_pair;
use qc_system::CopyPair;
use std::alloc::Global;

// Mounts the next pair of disks as a copy's. One that is refused waits again.
fn mount_copy<D: Disk>(
    alloc: Global,
    waiting: &mut Waiting<D>,
    copy: u8,
    table: &Table,
    past: &Past,
    epoch: u32,
    limit: u64,
) -> Result<CopyPair<D>, PairNo>
    requires copy { copy < table.now.copies }
    requires few { table.now.copies ≤ 16 }
    requires proper { (body.table current_format).fits table.now }
    requires some { 0 < length (waiting_in waiting.old) }
    requires room { HasRoom (length (waiting_in waiting.old)) waiting.old }
    ensures mounted { IfOk result (λ mounted. IsTaken
        (λ disks. IsCopy table.now past.now epoch limit copy disks mounted)
        (waiting_in waiting.old) (waiting_in waiting.new)) }
    ensures refused { IfErr result (λ no. GoesBack (λ before after.
        IsPairLeft D.view table.now (λ p. p ≡ past.now) (FailedAt no) (IsBehind no) (copy + 1)
        before after
        × IsCopyPairNo copy table.now past.now limit (D.view before.0).content
        (D.view before.1).content no)
        (waiting_in waiting.old) (waiting_in waiting.new)) }
    ensures room { (pairs : ℕ) → HasRoom pairs waiting.old → HasRoom pairs waiting.new }
{
    let (disk, spare) = waiting.take();
    match mount_pair(alloc, copy, disk, spare, table, past, epoch, limit) {
        Ok((copy, fold)) => Ok(CopyPair { copy, fold }),
        Err((disk, spare, no)) => {
            waiting.put_back(disk, spare);
            Err(no)
        }
    }
}

// Puts the disks of copies back before those that wait.
fn put_back_all<D: Disk>(waiting: &mut Waiting<D>, mut copies: Vec<CopyPair<D>>)
    requires room { HasRoom (length copies.items + length (waiting_in waiting.old)) waiting.old }
    ensures pairs { waiting_in waiting.new
        ≡ map copy_disks copies.items ++ waiting_in waiting.old }
    ensures room { (pairs : ℕ) → HasRoom pairs waiting.old → HasRoom pairs waiting.new }
{
    while let Some(copy) = copies.pop() {
        let (disk, spare) = copy.into_disks();
        waiting.put_back(disk, spare);
    }
    copies.destroy_empty();
}

/// Mounts the pairs that wait as those of the copies, in rising number. Where one is refused, all wait again.
pub(crate) fn mount_copies<D: Disk>(
    alloc: Global,
    waiting: &mut Waiting<D>,
    table: &Table,
    past: &Past,
    epoch: u32,
    limit: u64,
) -> Result<Vec<CopyPair<D>>, PairNo>
    requires proper { (body.table current_format).fits table.now }
    requires few { table.now.copies ≤ 16 }
    requires all { length (waiting_in waiting.old) ≡ table.now.copies }
    requires room { HasRoom (length (waiting_in waiting.old)) waiting.old }
    ensures none { IfOk result (λ copies. waiting_in waiting.new ≡ []) }
    ensures copies { IfOk result (λ copies. AreCopies table.now past.now epoch limit
        (waiting_in waiting.old) copies.items) }
    ensures left { IfErr result (λ no. ArePairsLeft D.view table.now (λ p. p ≡ past.now) no 1
        (waiting_in waiting.old) (waiting_in waiting.new)) }
    ensures reason { IfErr result (IsReasonAmong 1 table.now.copies
        (λ bad. (images : List (List ℕ × List ℕ))
        → TellInPairs D.view (waiting_in waiting.old) images
        → IsCopiesFault table.now limit past.now bad 0 images)) }
    ensures room { (pairs : ℕ) → HasRoom pairs waiting.old → HasRoom pairs waiting.new }
{
    let Ok(mut copies) = Vec::with_capacity(alloc, usize::from(table.copies)) else {
        return Err(PairNo::Memory);
    };
    for copy in 0..table.copies {
        match mount_copy(alloc, waiting, copy, table, past, epoch, limit) {
            Ok(mounted) => copies.push_reserved(mounted),
            Err(no) => {
                put_back_all(waiting, copies);
                return Err(no);
            }
        }
    }
    Ok(copies)
}
