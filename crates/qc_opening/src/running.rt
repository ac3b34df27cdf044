//! A session over a store whose disks were obtained.
ghost use Rattle.std.specs.Prelude.{ℕ, ◌≡◌, ◌<◌, ◌≤◌, ◌+◌, ◌^◌, ◌↔◌, List, [], length, vec_capacity, map, reverse, IfOk, IfErr, OnOk, IsOk, IsErrOf};
ghost use Rattle.qc_codec.specs.Bodies as body;
ghost use Rattle.qc_codec.specs.Fields.{current_format};
ghost use Rattle.qc_disk.specs.Disk.{IsImage};
ghost use Rattle.qc_event.specs.declared.short.Short.TheVariants.{Room};
ghost use Rattle.qc_event.specs.Base.{IsProper as IsProperSetting};
ghost use Rattle.qc_event.specs.History.{limit as most};
ghost use Rattle.qc_event.specs.Legal.{Legal};
ghost use Rattle.qc_event.specs.Tables.{setting_of};
ghost use Rattle.qc_interp.specs.FollowsScript.{FollowsScript, BeginsScript};
ghost use Rattle.qc_journal.specs.Journal.{limit_of};
ghost use Rattle.qc_ledger.specs.Mounted as book;
ghost use Rattle.qc_opening.specs.Disks.{all_places, told_by};
ghost use Rattle.qc_opening.specs.Images.{AreSound, IsFirstFault};
ghost use Rattle.qc_opening.specs.Refusing.{disks_in, reason_in, AreLeft, IsReasonAmong, TellImages};
ghost use Rattle.qc_opening.specs.Boxes.{unboxed};
ghost use Rattle.qc_opening.specs.Parts.{counted_by, disks_held, IsStoreOver};
ghost use Rattle.qc_opening.specs.SinceFolds.{SinceFolds};
ghost use Rattle.qc_opening.specs.Stored.{HasRun};
ghost use Rattle.qc_script.specs.Reading.{IsProper};
ghost use Rattle.qc_script.specs.Steps.{plan_of_script};
ghost use Rattle.qc_system.specs.Closing.{AllKeep};
ghost use Rattle.qc_system.specs.Pairs.{pairs_in};
ghost use Rattle.qc_system.specs.Parts.{AreMounted, IsLedger};

use crate::boxing::box_all;
use crate::mount_no::MountNo;
use crate::mounting::mount_disks;
use crate::refusing::{take_apart, unbox_refusal};
use crate::rooms::Rooms;
use crate::starting::{blank_over, copies_are_of_bytes};
use crate::stored::Stored;
use qc_disk::Disk;
use qc_gate::Gate;
use qc_interp::Mode;
use qc_script::Script;
use qc_session::{Ended, run_sessions};
use qc_site::are_bytes;
use qc_system::{Boxed, Mounting, Parts, System};
use std::alloc::Global;
use std::marker::Brand;
use std::sync::Wait;
use std::thread::Threads;

// Opens a system with a name, and runs the sessions of a script over it.
fn run_named<
    R: Threads + Wait + Sync,
    D: Disk + Drop + Send,
    N: Mounting + Send + Sync,
    G: Gate + Sync,
>(rt: &R, alloc: Global, parts: Parts<D>, script: &Script, gate: &G, mode: Mode) -> Ended<D>
    requires desk { parts.blank.room.shared.table_id ≡ N.desk }
    requires base { parts.blank.base ≡ N.base }
    requires table { script.now.table ≡ N.table }
    requires setting { IsProperSetting (setting_of N.table N.base) }
    requires proper { IsProper (plan_of_script script.now) }
    requires whole { length N.base ≡ script.now.table.copies }
    requires none { (pairs_in parts.returns ≡ []) × (parts.folds.items ≡ []) }
    requires room { length N.base + 1 ≤ vec_capacity parts.folds }
    requires ledger { IsLedger (length N.base) N.found parts.ledger }
    requires many { length parts.copies.items ≡ length N.base }
    requires copies { AreMounted N.base N.found 0 parts.copies.items }
    ensures start { result.start ≡ N.base }
    ensures legal { Legal (setting_of N.table N.base) (reverse result.trail) }
    ensures bounded { length result.trail ≤ most }
    ensures follows { OnOk result.ran (FollowsScript parts.blank.epoch script.now.patience
        (plan_of_script script.now).sessions (reverse result.trail)) }
    ensures begins { BeginsScript parts.blank.epoch script.now.patience
        (plan_of_script script.now).sessions (reverse result.trail) }
    ensures room { IsErrOf result.ran Room → length result.trail ≡ most }
    ensures disks { AllKeep (setting_of N.table N.base) N.found D.view (IsOk result.ran)
        result.disks.items (reverse result.trail) }
{
    let (system, others, first) = System::<D, N>::open(rt, parts);
    run_sessions(rt, alloc, system, others, first, script, gate, mode)
}

/// It makes the law of disks known for those of a shop: at this moment a disk is what a crash may leave.
pub(crate) fn known_now<D: Disk>()
    ensures { (disk : D) (c : List ℕ) → (D.view disk).left_at (D.view disk).moment c
        ↔ (D.view disk).may_leave c }
{}

// It makes the law known that what a disk tells is an image of it.
fn known_told<D: Disk>()
    ensures { (disk : D) → IsImage (D.view disk).content (D.view disk).may_leave }
{}

// It makes the range of an epoch known.
fn known_range(epoch: u32)
    ensures { epoch < 2 ^ 32 }
{
    let _ = epoch;
}

// Runs the sessions of a script over a store that was mounted. An error is want of memory, with the disks.
fn run_mounted<R: Threads + Wait + Sync, D: Disk + Drop + Send, G: Gate + Sync>(
    rt: &R,
    alloc: Global,
    parts: crate::Parts<Boxed<D>>,
    rooms: Rooms<D>,
    script: &Script,
    gate: &G,
    mode: Mode,
) -> Result<Stored<D>, Vec<D>>
    ghost given: { List D }
    requires proper { IsProper (plan_of_script script.now) }
    requires spelled { (body.table current_format).fits script.now.table }
    requires store { IsStoreOver script.now.table (map (λ disk. (D.view disk).content) given)
        (map (λ disk. (D.view disk).faults) given) parts }
    requires all { length parts.copies.items ≡ script.now.table.copies }
    ensures ran { IfOk result (λ stored. SinceFolds script.now.table
        (told_by (map (λ disk. (D.view disk).content) given))
        (λ now. HasRun D.view (plan_of_script script.now)
        (limit_of (book.journal_of parts.ledger.book)) now
        (counted_by (map (λ disk. (D.view disk).faults) given)) stored)) }
    ensures back { IfErr result (λ disks. disks.items ≡ unboxed (disks_held parts)) }
{
    known_told::<D>();
    are_bytes(parts.ledger.book.records());
    copies_are_of_bytes(parts.copies.as_slice());
    let epoch = parts.epoch;
    known_range(epoch);
    match blank_over(alloc, parts.copies.as_slice(), epoch) {
        Ok(blank) => {
            let crate::Parts { ledger, copies, .. } = parts;
            let Rooms { folds, returns, .. } = rooms;
            let parts = Parts {
                blank,
                ledger,
                copies,
                folds,
                returns,
            };
            let ended = run_named::<R, D, Brand, G>(rt, alloc, parts, script, gate, mode);
            Ok(Stored { epoch, ended })
        }
        Err(_) => Err(take_apart(parts, rooms.returns)),
    }
}

/// Mounts the disks of a store, behind which stand their spares, and runs the sessions of a script over them. A refusal
/// hands them back in their order, each as its mounting left it.
pub(crate) fn run_disks<R: Threads + Wait + Sync, D: Disk + Drop + Send, G: Gate + Sync>(
    rt: &R,
    alloc: Global,
    disks: Vec<D>,
    rooms: Rooms<D>,
    script: &Script,
    limit: u64,
    gate: &G,
    mode: Mode,
) -> Result<Stored<D>, MountNo<D>>
    ghost given: { List D }
    requires proper { IsProper (plan_of_script script.now) }
    requires spelled { (body.table current_format).fits script.now.table }
    requires all { length disks.items ≡ all_places script.now.table.copies }
    requires given { disks.items ≡ given }
    ensures ran { IfOk result (λ stored. SinceFolds script.now.table
        (told_by (map (λ disk. (D.view disk).content) given))
        (λ now. HasRun D.view (plan_of_script script.now) limit now
        (counted_by (map (λ disk. (D.view disk).faults) given)) stored)) }
    ensures sound { (images : List (List ℕ)) → TellImages D.view disks.items images
        → OnOk result (AreSound script.now.table limit images) }
    ensures left { IfErr result (λ refused. AreLeft D.view script.now.table (reason_in refused)
        disks.items (disks_in refused)) }
    ensures reason { IfErr result (λ refused. IsReasonAmong 0 script.now.table.copies
        (λ bad. (images : List (List ℕ)) → TellImages D.view disks.items images
        → IsFirstFault script.now.table limit bad images) (reason_in refused)) }
{
    known_now::<D>();
    let boxed = match box_all(alloc, disks) {
        Ok(boxed) => boxed,
        Err(disks) => return Err(MountNo::Memory { disks }),
    };
    match mount_disks(alloc, boxed, &script.table, limit) {
        Ok(parts) => match run_mounted(rt, alloc, parts, rooms, script, gate, mode) {
            Ok(stored) => Ok(stored),
            Err(disks) => Err(MountNo::Memory { disks }),
        },
        Err(refused) => Err(unbox_refusal(refused, rooms.returns)),
    }
}
