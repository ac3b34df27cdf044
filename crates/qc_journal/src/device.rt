//! Runs of calls of a disk.
ghost use Rattle.std.specs.Prelude.{◌≡◌, ◌≤◌, ◌<◌, ◌+◌, ℕ, List, max, length, take, option_map, IfOk, IfSome, OnOk, OnErr, IsErrOf, IsTrue, ◌↔◌, slice_index};
ghost use Rattle.qc_disk.specs.Disk.{HasCause, CountsOnce, written, Torn, Cut, ImagesFollow, Within, Only, Steps, Holds, LeavesOnly, FallsAway, ChangesOnce};
ghost use Rattle.qc_journal.specs.Device.{Touched};

use qc_disk::{Disk, DiskNo};
use std::alloc::Global;
use std::iter;

/// Writes, and syncs.
pub(crate) fn write_synced<D: Disk>(disk: &mut D, at: u64, bytes: &[u8]) -> Result<(), DiskNo>
    requires { at ≤ (D.view disk.old).size }
    ensures written { OnOk result ((D.view disk.new).content ≡ option_map (written at bytes.now)
        (D.view disk.old).content) }
    ensures durable { OnOk result (Only (D.view disk.new).content (D.view disk.new).may_leave) }
    ensures size { OnOk result ((D.view disk.new).size ≡ max (D.view disk.old).size
        (at + length bytes.now)) }
    ensures torn { Steps (Torn at (length bytes.now)) (D.view disk.old).content
        (D.view disk.new).content }
    ensures crash { ImagesFollow (Torn at (length bytes.now)) (D.view disk.old).may_leave
        (D.view disk.new).may_leave }
    ensures any_moment { LeavesOnly D.view disk.old disk.new
        (Touched (Torn at (length bytes.now)) (D.view disk.old).may_leave) }
    ensures once { ChangesOnce D.view disk.old disk.new }
    ensures cause { HasCause (D.view disk.old).faults (D.view disk.new).faults
        (IsErrOf result DiskNo.Failed) }
    ensures counts_once { CountsOnce (D.view disk.old).faults (D.view disk.new).faults
        (IsErrOf result DiskNo.Failed) }
{
    disk.write_at(at, bytes)?;
    disk.sync()
}

/// Cuts to a length, and syncs.
pub(crate) fn cut_synced<D: Disk>(disk: &mut D, to: u64) -> Result<(), DiskNo>
    requires { to ≤ (D.view disk.old).size }
    ensures cut { OnOk result ((D.view disk.new).content ≡ option_map (take to)
        (D.view disk.old).content) }
    ensures durable { OnOk result (Only (D.view disk.new).content (D.view disk.new).may_leave) }
    ensures size { OnOk result ((D.view disk.new).size ≡ to) }
    ensures shorter { Steps (Cut to) (D.view disk.old).content (D.view disk.new).content }
    ensures crash { ImagesFollow (Cut to) (D.view disk.old).may_leave (D.view disk.new).may_leave }
    ensures any_moment { LeavesOnly D.view disk.old disk.new
        (Touched (Cut to) (D.view disk.old).may_leave) }
    ensures cause { HasCause (D.view disk.old).faults (D.view disk.new).faults
        (IsErrOf result DiskNo.Failed) }
    ensures counts_once { CountsOnce (D.view disk.old).faults (D.view disk.new).faults
        (IsErrOf result DiskNo.Failed) }
{
    disk.cut(to)?;
    disk.sync()
}

/// Syncs, and says how many bytes there are.
pub(crate) fn synced_len<D: Disk>(disk: &mut D) -> Result<u64, DiskNo>
    ensures size { IfOk result (λ n. n ≡ (D.view disk.new).size) }
    ensures durable { OnOk result (Only (D.view disk.new).content (D.view disk.new).may_leave) }
    ensures content { (D.view disk.new).content ≡ (D.view disk.old).content }
    ensures crash { Within (D.view disk.old).may_leave (D.view disk.new).may_leave }
    ensures any_moment { LeavesOnly D.view disk.old disk.new (D.view disk.old).may_leave }
    ensures falls { FallsAway D.view disk.old disk.new }
    ensures cause { HasCause (D.view disk.old).faults (D.view disk.new).faults
        (IsErrOf result DiskNo.Failed) }
    ensures counts_once { CountsOnce (D.view disk.old).faults (D.view disk.new).faults
        (IsErrOf result DiskNo.Failed) }
{
    disk.sync()?;
    disk.len()
}

/// Reads this number of bytes, the first ones.
pub(crate) fn read_front<D: Disk>(alloc: Global, disk: &mut D, size: u64) -> Result<Vec<u8>, DiskNo>
    requires { size ≤ (D.view disk.old).size }
    ensures size { IfOk result (λ bytes. length bytes.items ≡ size) }
    ensures bytes { IfOk result (λ bytes. Holds (D.view disk.old).content 0 bytes.items) }
    ensures content { (D.view disk.new).content ≡ (D.view disk.old).content }
    ensures same_size { (D.view disk.new).size ≡ (D.view disk.old).size }
    ensures crash { Within (D.view disk.old).may_leave (D.view disk.new).may_leave }
    ensures any_moment { LeavesOnly D.view disk.old disk.new (D.view disk.old).may_leave }
    ensures falls { FallsAway D.view disk.old disk.new }
    ensures cause { HasCause (D.view disk.old).faults (D.view disk.new).faults
        (IsErrOf result DiskNo.Failed) }
    ensures counts_once { CountsOnce (D.view disk.old).faults (D.view disk.new).faults
        (IsErrOf result DiskNo.Failed) }
{
    let mut bytes: Vec<u8> = iter::repeat_n(0, size as usize).collect(alloc)?;
    disk.read(0, &mut bytes)?;
    Ok(bytes)
}

/// Whether the byte at a place is an open gate. A gate that cannot be within the size is none.
pub(crate) fn gate_is_open<D: Disk>(disk: &mut D, place: u64, size: u64) -> Result<bool, DiskNo>
    requires { size ≡ (D.view disk.old).size }
    ensures tells { IfOk result (λ is_open. IfSome (D.view disk.old).content
        (λ bytes. IsTrue is_open ↔ (slice_index bytes place ≡ 1))) }
    ensures within { IfOk result (λ is_open. IsTrue is_open → place < size) }
    ensures content { (D.view disk.new).content ≡ (D.view disk.old).content }
    ensures size { (D.view disk.new).size ≡ (D.view disk.old).size }
    ensures crash { Within (D.view disk.old).may_leave (D.view disk.new).may_leave }
    ensures any_moment { LeavesOnly D.view disk.old disk.new (D.view disk.old).may_leave }
    ensures falls { FallsAway D.view disk.old disk.new }
    ensures cause { HasCause (D.view disk.old).faults (D.view disk.new).faults
        (IsErrOf result DiskNo.Failed) }
    ensures counts_once { CountsOnce (D.view disk.old).faults (D.view disk.new).faults
        (IsErrOf result DiskNo.Failed) }
{
    if place >= size {
        return Ok(false);
    }
    let mut gate = [0];
    disk.read(place, &mut gate)?;
    Ok(gate[0] == 1)
}
