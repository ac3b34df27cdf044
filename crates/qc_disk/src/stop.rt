//! A disk in memory that stops, with the others of its shop, at a call of any of them.
ghost use Rattle.std.specs.Prelude.{◌≡◌, [], length, refl};

use crate::disk::{Disk, DiskNo};
use crate::tape::{Deed, Tape};
use std::alloc::{AllocError, Global};
use std::sync::Arc;
use std::sync::atomic::{AtomicU64, Ordering};

/// The count of all calls of the disks of a shop, and the call at which they stop.
#[derive(Drop)]
pub(crate) struct Calls {
    made: AtomicU64,
    stop: u64,
}

impl Calls {
    /// None so far, of disks that stop at a call, counted from 1.
    pub(crate) fn new(stop: u64) -> Self {
        Calls {
            made: AtomicU64::new(0),
            stop,
        }
    }

    // Counts a call, and says whether the disks have stopped by then.
    fn stop_at_next(&self) -> bool {
        let before = self.made.fetch_add(1, Ordering::SeqCst);
        before.saturating_add(1) >= self.stop
    }
}

/// A disk in memory of a shop whose disks stop together: the call of that number and each after it does nothing and
/// fails, whichever disk it is of.
#[derive(Drop)]
pub struct StopDisk {
    tape: Tape,
    calls: Arc<Calls, Global>,
    refused: u64,
}

impl StopDisk {
    ghost use Rattle.std.specs.Prelude.{IfOk, IsErrOf};
    ghost use Rattle.qc_disk.specs.Disk.{HasCause, Elapses};
    ghost use Rattle.qc_disk.specs.Replay.{act_of, image_after};
    ghost use Rattle.qc_disk.specs.StopDisk.{stop_first, stop_acts, stop_bytes, stop_refused, stop_images, stop_view, StopTurned};

    /// A disk of these bytes, all of them synced, with the count that it shares.
    pub(crate) fn new(bytes: Vec<u8>, calls: Arc<Calls, Global>) -> Self
        ensures first { stop_first result ≡ bytes.items }
        ensures bytes { stop_bytes result ≡ bytes.items }
        ensures acts { stop_acts result ≡ [] }
        ensures refused { stop_refused result ≡ 0 }
    {
        StopDisk {
            tape: Tape::new(bytes),
            calls,
            refused: 0,
        }
    }

    /// What a crash may leave now: what was synced last, or, if they are done, that with the writes and cuts since then.
    /// Its time grows with the bytes that are there and with the calls since then.
    pub fn left(&self, alloc: Global, done: bool) -> Result<Vec<u8>, AllocError>
        ensures image { IfOk result (λ bytes. bytes.items
            ≡ image_after (stop_first self.now) (stop_acts self.now) done) }
        ensures left { IfOk result (λ bytes. stop_images self.now bytes.items) }
    {
        self.tape.image_at(alloc, self.tape.count(), done)
    }

    // Makes a call that is to do a deed, with the bytes that it writes. Once it has refused one it refuses all.
    fn turn(&mut self, deed: Deed, new: &[u8]) -> Result<(), DiskNo>
        ensures time { Elapses (stop_view self.old) (stop_view self.new) }
        ensures cause { HasCause (stop_refused self.old) (stop_refused self.new)
            (IsErrOf result DiskNo.Failed) }
        ensures turned { StopTurned self.old self.new (act_of deed new.now) result }
    {
        if self.refused > 0 || self.calls.stop_at_next() {
            self.refused = self.refused.saturating_add(1);
            return Err(DiskNo::Failed);
        }
        self.tape.apply(deed, new)?;
        Ok(())
    }
}

impl Disk for StopDisk {
    ghost use Rattle.std.specs.Prelude.{◌≤◌, ◌+◌, max, take, option_map, Some, IfOk, OnOk, OnErr, IsErrOf};
    ghost use Rattle.qc_disk.specs.Disk.{HasCause, CountsOnce, Rose, written, Torn, Cut, ImagesFollow, Within, Only, Steps, Holds, Elapses, Advances, Stays};
    ghost use Rattle.qc_disk.specs.Replay.{nothing, wrote, cut_to, synced};
    ghost use Rattle.qc_disk.specs.Laws.{image_now, at_end};
    ghost use Rattle.qc_disk.specs.StopDisk.{stop_first, stop_acts, stop_bytes, stop_refused, stop_moment, stop_syncs, stop_images, stop_replays, stop_now, stop_view, StopTurned};

    ghost view = { stop_view };

    ghost reads_as_image = { λ disk. image_now (stop_first disk) (stop_acts disk) (stop_bytes disk) (stop_replays disk) };

    ghost has_size = { λ disk. refl };

    ghost leaves_now = { λ disk c. stop_now disk c };

    fn len(&mut self) -> Result<u64, DiskNo>
        ensures answer { IfOk result (λ n. n ≡ length (stop_bytes self.new)) }
        ensures content { Some (stop_bytes self.new) ≡ Some (stop_bytes self.old) }
        ensures size { OnErr result (length (stop_bytes self.new) ≡ length (stop_bytes self.old)) }
        ensures crash { Within (stop_images self.old) (stop_images self.new) }
        ensures time { Elapses (stop_view self.old) (stop_view self.new) }
        ensures advances { Advances (stop_moment self.old) (stop_moment self.new)
            (IsErrOf result DiskNo.Memory) }
        ensures cause { HasCause (stop_refused self.old) (stop_refused self.new)
            (IsErrOf result DiskNo.Failed) }
        ensures counts_once { CountsOnce (stop_refused self.old) (stop_refused self.new)
            (IsErrOf result DiskNo.Failed) }
        ensures memory { IsErrOf result DiskNo.Memory
            → Stays (stop_view self.old) (stop_view self.new) }
        ensures turned { StopTurned self.old self.new nothing result }
    {
        self.turn(Deed::Nothing, &[])?;
        Ok(self.tape.bytes().len() as u64)
    }

    fn read(&mut self, at: u64, into: &mut [u8]) -> Result<(), DiskNo>
        requires { at + length into.old ≤ length (stop_bytes self.old) }
        ensures bytes { OnOk result (Holds (Some (stop_bytes self.old)) at into.new) }
        ensures content { Some (stop_bytes self.new) ≡ Some (stop_bytes self.old) }
        ensures size { length (stop_bytes self.new) ≡ length (stop_bytes self.old) }
        ensures crash { Within (stop_images self.old) (stop_images self.new) }
        ensures time { Elapses (stop_view self.old) (stop_view self.new) }
        ensures advances { Advances (stop_moment self.old) (stop_moment self.new)
            (IsErrOf result DiskNo.Memory) }
        ensures cause { HasCause (stop_refused self.old) (stop_refused self.new)
            (IsErrOf result DiskNo.Failed) }
        ensures counts_once { CountsOnce (stop_refused self.old) (stop_refused self.new)
            (IsErrOf result DiskNo.Failed) }
        ensures memory { IsErrOf result DiskNo.Memory
            → Stays (stop_view self.old) (stop_view self.new) }
        ensures turned { StopTurned self.old self.new nothing result }
    {
        self.turn(Deed::Nothing, &[])?;
        let at = at as usize;
        into.copy_from_slice(&self.tape.bytes()[at..at + into.len()]);
        Ok(())
    }

    fn write_at(&mut self, at: u64, bytes: &[u8]) -> Result<(), DiskNo>
        requires { at ≤ length (stop_bytes self.old) }
        ensures written { OnOk result (Some (stop_bytes self.new)
            ≡ option_map (written at bytes.now) (Some (stop_bytes self.old))) }
        ensures size { OnOk result (length (stop_bytes self.new)
            ≡ max (length (stop_bytes self.old)) (at + length bytes.now)) }
        ensures failed { IsErrOf result DiskNo.Failed
            → Steps (Torn at (length bytes.now)) (Some (stop_bytes self.old))
            (Some (stop_bytes self.new)) }
        ensures crash { ImagesFollow (Torn at (length bytes.now)) (stop_images self.old)
            (stop_images self.new) }
        ensures time { Elapses (stop_view self.old) (stop_view self.new) }
        ensures advances { Advances (stop_moment self.old) (stop_moment self.new)
            (IsErrOf result DiskNo.Memory) }
        ensures cause { HasCause (stop_refused self.old) (stop_refused self.new)
            (IsErrOf result DiskNo.Failed) }
        ensures counts_once { CountsOnce (stop_refused self.old) (stop_refused self.new)
            (IsErrOf result DiskNo.Failed) }
        ensures memory { IsErrOf result DiskNo.Memory
            → Stays (stop_view self.old) (stop_view self.new) }
        ensures turned { StopTurned self.old self.new (wrote at bytes.now) result }
    {
        self.turn(Deed::Write(at as usize), bytes)
    }

    fn cut(&mut self, to: u64) -> Result<(), DiskNo>
        requires { to ≤ length (stop_bytes self.old) }
        ensures cut { OnOk result (Some (stop_bytes self.new) ≡ option_map (take to)
            (Some (stop_bytes self.old))) }
        ensures size { OnOk result (length (stop_bytes self.new) ≡ to) }
        ensures failed { IsErrOf result DiskNo.Failed
            → Steps (Cut to) (Some (stop_bytes self.old)) (Some (stop_bytes self.new)) }
        ensures crash { ImagesFollow (Cut to) (stop_images self.old) (stop_images self.new) }
        ensures time { Elapses (stop_view self.old) (stop_view self.new) }
        ensures advances { Advances (stop_moment self.old) (stop_moment self.new)
            (IsErrOf result DiskNo.Memory) }
        ensures cause { HasCause (stop_refused self.old) (stop_refused self.new)
            (IsErrOf result DiskNo.Failed) }
        ensures counts_once { CountsOnce (stop_refused self.old) (stop_refused self.new)
            (IsErrOf result DiskNo.Failed) }
        ensures memory { IsErrOf result DiskNo.Memory
            → Stays (stop_view self.old) (stop_view self.new) }
        ensures turned { StopTurned self.old self.new (cut_to to) result }
    {
        self.turn(Deed::Cut(to as usize), &[])
    }

    fn sync(&mut self) -> Result<(), DiskNo>
        ensures durable { OnOk result (Only (Some (stop_bytes self.old)) (stop_images self.new)) }
        ensures counted { OnOk result (Rose (stop_syncs self.old) (stop_syncs self.new)) }
        ensures content { Some (stop_bytes self.new) ≡ Some (stop_bytes self.old) }
        ensures size { length (stop_bytes self.new) ≡ length (stop_bytes self.old) }
        ensures crash { Within (stop_images self.old) (stop_images self.new) }
        ensures time { Elapses (stop_view self.old) (stop_view self.new) }
        ensures advances { Advances (stop_moment self.old) (stop_moment self.new)
            (IsErrOf result DiskNo.Memory) }
        ensures cause { HasCause (stop_refused self.old) (stop_refused self.new)
            (IsErrOf result DiskNo.Failed) }
        ensures counts_once { CountsOnce (stop_refused self.old) (stop_refused self.new)
            (IsErrOf result DiskNo.Failed) }
        ensures memory { IsErrOf result DiskNo.Memory
            → Stays (stop_view self.old) (stop_view self.new) }
        ensures turned { StopTurned self.old self.new synced result }
    {
        self.turn(Deed::Sync, &[])
    }
}
