//! The records on a disk.
ghost use Rattle.std.specs.Prelude.{◌≡◌, ◌≤◌, ◌<◌, ◌+◌, ◌⊎◌, ℕ, List, IfOk, IfErr, IfSome, IsSome, OnOk, IsErrOf, Err, option_map};
ghost use Rattle.qc_disk.specs.Disk.{HasCause, CountsOnce, Within, Only, Steps, LeavesOnly, FallsAway, Grows};
ghost use Rattle.qc_journal.specs.Image.{EndsAt, HasRecords, HasAt, IsBroken};
ghost use Rattle.qc_journal.specs.Device.{IsAlike, LeftOrAlike, made_ready};
ghost use Rattle.qc_journal.specs.Fault.{IsOfReading};
ghost use Rattle.qc_journal.specs.Found.{Finds, found_bodies};
ghost use Rattle.qc_journal.specs.declared.fault.Fault.TheVariants.{Broken};

use crate::device::{read_front, synced_len, write_synced};
use crate::fault::Fault;
use crate::image::{Found, scan};
use qc_disk::Disk;
use std::alloc::Global;

/// Syncs, and reads the records. At most one byte has none.
pub(crate) fn read_records<D: Disk>(alloc: Global, disk: &mut D) -> Result<Found, Fault>
    ensures found { IfOk result (Finds (D.view disk.old).content (D.view disk.new).size) }
    ensures durable { OnOk result (Only (D.view disk.new).content (D.view disk.new).may_leave) }
    ensures broken { (place : ℕ) → result ≡ Err (Broken place)
        → IfSome (D.view disk.old).content (IsBroken place) }
    ensures fault { IfErr result IsOfReading }
    ensures content { (D.view disk.new).content ≡ (D.view disk.old).content }
    ensures crash { Within (D.view disk.old).may_leave (D.view disk.new).may_leave }
    ensures any_moment { LeavesOnly D.view disk.old disk.new (D.view disk.old).may_leave }
    ensures falls { FallsAway D.view disk.old disk.new }
    ensures cause { HasCause (D.view disk.old).faults (D.view disk.new).faults
        (IsErrOf result Fault.Disk) }
    ensures counts_once { CountsOnce (D.view disk.old).faults (D.view disk.new).faults
        (IsErrOf result Fault.Disk) }
{
    let size = synced_len(disk)?;
    if size <= 1 {
        let bodies = Vec::new(alloc);
        return Ok(Found {
            size,
            place: 0,
            bodies,
        });
    }
    let bytes = read_front(alloc, disk, size)?;
    scan(alloc, &bytes)
}

/// Reads the records, and writes a closed gate where there is at most one byte.
pub(crate) fn prepare<D: Disk>(alloc: Global, disk: &mut D) -> Result<Found, Fault>
    ensures records { IfOk result (λ found. IfSome (D.view disk.old).content
        (HasRecords (found_bodies found))) }
    ensures ready { IfOk result (λ found. IfSome (D.view disk.new).content
        (EndsAt found.place (found_bodies found))) }
    ensures within { IfOk result (λ found. found.place + 1 ≤ (D.view disk.new).size) }
    ensures durable { OnOk result (Only (D.view disk.new).content (D.view disk.new).may_leave) }
    ensures broken { (place : ℕ) → result ≡ Err (Broken place)
        → IfSome (D.view disk.old).content (IsBroken place) }
    ensures fault { IfErr result IsOfReading }
    ensures made { OnOk result ((D.view disk.new).content ≡ option_map made_ready
        (D.view disk.old).content) }
    ensures content { Steps IsAlike (D.view disk.old).content (D.view disk.new).content }
    ensures any_moment { LeavesOnly D.view disk.old disk.new
        (LeftOrAlike (D.view disk.old).may_leave (D.view disk.old).content) }
    ensures grows { IsSome (D.view disk.old).content → (index : ℕ) (body : List ℕ)
        → Grows D.view disk.old disk.new (HasAt index body) }
    ensures cause { HasCause (D.view disk.old).faults (D.view disk.new).faults
        (IsErrOf result Fault.Disk) }
    ensures counts_once { CountsOnce (D.view disk.old).faults (D.view disk.new).faults
        (IsErrOf result Fault.Disk) }
{
    let found = read_records(alloc, disk)?;
    if found.size <= 1 {
        write_synced(disk, 0, &[0])?;
    }
    Ok(found)
}
