//! From a shop to what the sessions left.
ghost use Rattle.std.specs.Prelude.{◌++◌, ℕ, ◌≡◌, ◌≢◌, ◌<◌, ◌≤◌, ◌^◌, ◌⊎◌, All, List, length, IfOk, IfErr, OnOk, IsOk, IsErrOf};
ghost use Rattle.qc_codec.specs.Bodies as body;
ghost use Rattle.qc_codec.specs.Fields.{current_format};
ghost use Rattle.qc_disk.specs.Shop.{TellsAlike, disks_of_place};
ghost use Rattle.qc_event.specs.declared.short.Short.TheVariants.{Room};
ghost use Rattle.qc_event.specs.History.{limit as most_entries};
ghost use Rattle.qc_event.specs.Legal.{Legal};
ghost use Rattle.qc_event.specs.Standing.{HasEnded};
ghost use Rattle.qc_event.specs.Tables.{base_of, setting_of};
ghost use Rattle.qc_interp.specs.FollowsScript.{FollowsScript, BeginsScript};
ghost use Rattle.qc_opening.specs.Disks.{by_place, first_numbers};
ghost use Rattle.qc_opening.specs.Images.{AreSound, Offers};
ghost use Rattle.qc_opening.specs.Obtained.{IsNotGiven};
ghost use Rattle.qc_opening.specs.Refusing.{ComeBack, IsFaultOf, IsNotMounted};
ghost use Rattle.qc_opening.specs.SinceFolds.{SinceFolds};
ghost use Rattle.qc_opening.specs.Stored.{disks_of, past_of, returned, AllTell, AreImages, HasKept, HaveGrown, HavePaid, UnablesHadCause, WereFolded};
ghost use Rattle.qc_refine.specs.Pairs.{RestoreInPairs, StandInPairsWithin};
ghost use Rattle.qc_script.specs.Reading.{IsProper};
ghost use Rattle.qc_script.specs.Steps.{plan_of_script};
ghost use Rattle.qc_opening.specs.Pairs.{HaveNoGrantsInPairs};

use crate::mount_no::MountNo;
use crate::obtaining::obtain_all;
use crate::rooms::Rooms;
use crate::running::{known_now, run_disks};
use crate::stored::Stored;
use qc_disk::{Disk, Shop};
use qc_gate::Gate;
use qc_interp::Mode;
use qc_script::Script;
use std::alloc::Global;
use std::sync::Wait;
use std::thread::Threads;

/// Mounts the disks of a place in pairs, and runs the sessions of a script over them, in threads or in order, each once it
/// has passed the gate. The epoch is the mounting's. Where the store is not mounted, or memory is wanting before the sessions
/// begin, the disks that were obtained come back.
pub fn run_stored<R: Threads + Wait + Sync, H: Shop, G: Gate + Sync>(
    rt: &R,
    alloc: Global,
    shop: &mut H,
    place: &str,
    script: &Script,
    limit: u64,
    gate: &G,
    mode: Mode,
) -> Result<Stored<H::D>, MountNo<H::D>>
where
    H::D: Drop + Send,
    requires proper { IsProper (plan_of_script script.now) }
    requires spelled { (body.table current_format).fits script.now.table }

    // What is left is a legal history of this epoch. What ran to its end follows the script, and what was cut off is a
    // beginning of it.
    ensures legal { IfOk result (λ stored.
        Legal (setting_of script.now.table stored.ended.start) (past_of stored)) }
    ensures bounded { IfOk result (λ stored. length stored.ended.trail ≤ most_entries) }
    ensures epoch { IfOk result (λ stored. (1 ≤ stored.epoch) × (stored.epoch < 2 ^ 32)) }
    ensures follows { IfOk result (λ stored. OnOk stored.ended.ran (FollowsScript stored.epoch
        script.now.patience (plan_of_script script.now).sessions (past_of stored))) }
    ensures begins { IfOk result (λ stored. BeginsScript stored.epoch script.now.patience
        (plan_of_script script.now).sessions (past_of stored)) }
    ensures room { IfOk result (λ stored. IsErrOf stored.ended.ran Room
        → length stored.ended.trail ≡ most_entries) }

    // Where the shop tells the bytes of the disks, it starts from what these restore: from the table's own tuples, where no
    // grant stands on them.
    ensures restores { (images : List (List ℕ))
        → Offers script.now.table ((H.view shop.old).offers place.now) images
        → IfOk result (λ stored. RestoreInPairs script.now.table images stored.ended.start) }
    ensures first { HaveNoGrantsInPairs script.now.table
        (by_place script.now.table.copies ((H.view shop.old).offers place.now))
        → IfOk result (λ stored. stored.ended.start ≡ base_of script.now.table) }

    // A copy's pair of an older format was folded first, and what follows goes by what the disks tell since then. Of each
    // pair the active disk keeps what was found on it, and then what the history tells, where the shop told its
    // bytes; the other one keeps what was found on it, or was folded into. Where it told those of all, whatever a crash
    // leaves of them stands beside the history. At each moment since an active disk was mounted a crash left the records of
    // then, and behind them those of the run up to some time; and no record was lost again. Before, it left what it left of
    // the disk as it was then. For each failure of a disk that the history tells, the active disk of the pair has counted a
    // fault since the shop gave it. Where such a disk told its bytes, each top that the ledger had no room for, and each
    // grant that a copy had none for, would with its record have passed the limit behind what the disk had then; and such a
    // copy is never strange.
    ensures kept { IfOk result (λ stored. SinceFolds script.now.table
        (by_place script.now.table.copies ((H.view shop.old).offers place.now))
        (λ now. HasKept H.D.view script.now.table limit now stored)) }
    ensures stands { AllTell script.now.table.copies
        (by_place script.now.table.copies ((H.view shop.old).offers place.now))
        → IfOk result (λ stored. (images : List (List ℕ))
        → AreImages H.D.view (disks_of stored) images
        → ∥ StandInPairsWithin 1 script.now.table stored.ended.start stored.epoch
        (past_of stored) images ∥₁) }
    ensures grown { IfOk result (λ stored. SinceFolds script.now.table
        (by_place script.now.table.copies ((H.view shop.old).offers place.now))
        (λ now. HaveGrown H.D.view script.now.table now stored.epoch stored.ended.start
        (disks_of stored) (past_of stored))) }
    ensures paid { IfOk result (λ stored. SinceFolds script.now.table
        (by_place script.now.table.copies ((H.view shop.old).offers place.now))
        (λ now. HavePaid H.D.view script.now.table now
        (by_place script.now.table.copies ((H.view shop.old).counts place.now)) stored.epoch
        stored.ended.start (disks_of stored) (past_of stored))) }
    ensures unable { IfOk result (λ stored. SinceFolds script.now.table
        (by_place script.now.table.copies ((H.view shop.old).offers place.now))
        (λ now. UnablesHadCause script.now.table limit now stored.epoch stored.ended.start
        (past_of stored))) }

    // Where the sessions came to their end and each top has its own, each pair was folded that nothing barred from that.
    ensures folded { IfOk result (λ stored. IsOk stored.ended.ran → HasEnded (past_of stored)
        → SinceFolds script.now.table
        (by_place script.now.table.copies ((H.view shop.old).offers place.now))
        (λ now. WereFolded H.D.view script.now.table limit now
        (by_place script.now.table.copies ((H.view shop.old).counts place.now)) stored.epoch
        stored.ended.start (disks_of stored) (past_of stored))) }

    // Where the shop tells the bytes of all disks, none of them has a fault, or the answer is the first.
    ensures sound { (images : List (List ℕ))
        → Offers script.now.table ((H.view shop.old).offers place.now) images
        → OnOk result (AreSound script.now.table limit images) }
    ensures image { (images : List (List ℕ))
        → Offers script.now.table ((H.view shop.old).offers place.now) images
        → IfErr result (IsFaultOf script.now.table limit images) }

    // The shop failed at the next disk, or one of all was refused. The disks come back.
    ensures refused { IfErr result (λ refused. IsNotGiven script.now.table.copies
        (H.view shop.old).faults (H.view shop.new).faults refused
        ⊎ IsNotMounted script.now.table.copies refused) }
    ensures disks { IfErr result (ComeBack H.D.view ((H.view shop.old).offers place.now)
        ((H.view shop.old).counts place.now) script.now.table) }

    // Those that come back are all that the shop gave, and the shop's count of faults never falls.
    ensures others { (p : List ℕ) (n : ℕ)
        → All (λ which. n ≢ which) (first_numbers script.now.table.copies (returned result))
        → TellsAlike (H.view shop.old) (H.view shop.new) p n }
    ensures gave { (H.view shop.new).gave ≡ (H.view shop.old).gave
        ++ disks_of_place place.now (first_numbers script.now.table.copies (returned result)) }
    ensures faults { (H.view shop.old).faults ≤ (H.view shop.new).faults }
{
    known_now::<H::D>();
    let Ok(rooms) = Rooms::new(alloc) else {
        let disks = Vec::new(alloc);
        return Err(MountNo::Memory { disks });
    };
    let disks = obtain_all(alloc, shop, place, script.table.copies)?;
    run_disks(rt, alloc, disks, rooms, script, limit, gate, mode)
}
