//! A disk in memory, which tells its bytes and fails at the calls that it is told to.
ghost use Rattle.std.specs.Prelude.{◌≡◌, [], length, refl};

use crate::disk::{Disk, DiskNo};
use crate::faults::{FailAt, fault_of};
use crate::tape::{Deed, Tape};
use std::alloc::{AllocError, Global};

/// A disk in memory, with a record of its calls. A write or a cut at a place of `2^32` or more, or one that writes
/// over, adds or cuts off as many bytes, is refused as want of memory.
#[derive(Drop)]
pub struct MemDisk {
    tape: Tape,
    fails: Vec<FailAt>,
    faults: u64,
}

impl MemDisk {
    ghost use Rattle.std.specs.Prelude.{◌≤◌, ◌+◌, ◌-◌, take, Some, IfOk, IsErrOf};
    ghost use Rattle.qc_disk.specs.Disk.{HasCause, CountsOnce, Elapses, Advances, Stays};
    ghost use Rattle.qc_disk.specs.Replay.{act_of, image_after};
    ghost use Rattle.qc_disk.specs.MemDisk.{mem_first, mem_acts, mem_bytes, mem_fails, mem_faults, mem_at, mem_view, next_fault, Turned};

    /// A disk of these bytes, all of them synced, which fails at the listed calls.
    pub fn new(bytes: Vec<u8>, fails: Vec<FailAt>) -> Self
        ensures first { mem_first result ≡ bytes.items }
        ensures bytes { mem_bytes result ≡ bytes.items }
        ensures acts { mem_acts result ≡ [] }
        ensures fails { mem_fails result ≡ fails.items }
        ensures faults { mem_faults result ≡ 0 }
    {
        MemDisk {
            tape: Tape::new(bytes),
            fails,
            faults: 0,
        }
    }

    /// What is there now, synced or not.
    pub fn bytes(&self) -> &[u8]
        ensures { result.now ≡ mem_bytes self.now }
    {
        self.tape.bytes()
    }

    /// How many calls were made. One that got no memory is not counted.
    pub fn calls(&self) -> u64
        ensures { result ≡ length (mem_acts self.now) }
    {
        self.tape.count() as u64
    }

    /// What a crash just before a call may leave, the calls counted from 1: what was there then, or what was
    /// synced last. Its time grows with the bytes that are there and with the calls since then.
    pub fn image_at(&self, alloc: Global, call: u64, done: bool) -> Result<Vec<u8>, AllocError>
        requires { call ≤ length (mem_acts self.now) + 1 }
        ensures image { IfOk result (λ bytes. bytes.items ≡ image_after (mem_first self.now)
            (take (call - 1) (mem_acts self.now)) done) }
        ensures left { IfOk result (λ bytes. mem_at self.now (call - 1) bytes.items) }
    {
        self.tape
            .image_at(alloc, call.saturating_sub(1) as usize, done)
    }

    // Whether the next call is to fail, and whether it does its work then.
    fn next_fault(&self) -> Option<bool>
        ensures { result ≡ next_fault self.now }
    {
        fault_of(&self.fails, self.tape.count() as u64 + 1)
    }

    // Makes a call that is to do a deed, with the bytes that it writes.
    fn turn(&mut self, deed: Deed, new: &[u8]) -> Result<(), DiskNo>
        ensures time { Elapses (mem_view self.old) (mem_view self.new) }
        ensures advances { Advances (length (mem_acts self.old)) (length (mem_acts self.new))
            (IsErrOf result DiskNo.Memory) }
        ensures cause { HasCause (mem_faults self.old) (mem_faults self.new)
            (IsErrOf result DiskNo.Failed) }
        ensures counts_once { CountsOnce (mem_faults self.old) (mem_faults self.new)
            (IsErrOf result DiskNo.Failed) }
        ensures memory { IsErrOf result DiskNo.Memory
            → Stays (mem_view self.old) (mem_view self.new) }
        ensures turned { Turned self.old self.new (act_of deed new.now) result }
    {
        let fault = self.next_fault();
        let deed = if fault == Some(false) {
            Deed::Nothing
        } else {
            deed
        };
        self.tape.apply(deed, new)?;
        if fault.is_some() {
            self.faults = self.faults.saturating_add(1);
            return Err(DiskNo::Failed);
        }
        Ok(())
    }
}

impl Disk for MemDisk {
    ghost use Rattle.std.specs.Prelude.{◌≤◌, ◌+◌, max, take, option_map, Some, IfOk, OnOk, OnErr, IsErrOf};
    ghost use Rattle.qc_disk.specs.Disk.{HasCause, CountsOnce, Rose, written, Torn, Cut, ImagesFollow, Within, Only, Steps, Holds, Elapses, Advances, Stays};
    ghost use Rattle.qc_disk.specs.Replay.{nothing, wrote, cut_to, synced};
    ghost use Rattle.qc_disk.specs.Laws.{image_now, at_end};
    ghost use Rattle.qc_disk.specs.MemDisk.{mem_first, mem_acts, mem_bytes, mem_faults, mem_syncs, mem_images, mem_replays, mem_view, Turned};

    ghost view = { mem_view };

    ghost reads_as_image = { λ disk. image_now (mem_first disk) (mem_acts disk) (mem_bytes disk) (mem_replays disk) };

    ghost has_size = { λ disk. refl };

    ghost leaves_now = { λ disk c. at_end (mem_first disk) (mem_acts disk) c };

    fn len(&mut self) -> Result<u64, DiskNo>
        ensures answer { IfOk result (λ n. n ≡ length (mem_bytes self.new)) }
        ensures content { Some (mem_bytes self.new) ≡ Some (mem_bytes self.old) }
        ensures size { OnErr result (length (mem_bytes self.new) ≡ length (mem_bytes self.old)) }
        ensures crash { Within (mem_images self.old) (mem_images self.new) }
        ensures time { Elapses (mem_view self.old) (mem_view self.new) }
        ensures advances { Advances (length (mem_acts self.old)) (length (mem_acts self.new))
            (IsErrOf result DiskNo.Memory) }
        ensures cause { HasCause (mem_faults self.old) (mem_faults self.new)
            (IsErrOf result DiskNo.Failed) }
        ensures counts_once { CountsOnce (mem_faults self.old) (mem_faults self.new)
            (IsErrOf result DiskNo.Failed) }
        ensures memory { IsErrOf result DiskNo.Memory
            → Stays (mem_view self.old) (mem_view self.new) }
        ensures turned { Turned self.old self.new nothing result }
    {
        self.turn(Deed::Nothing, &[])?;
        Ok(self.tape.bytes().len() as u64)
    }

    fn read(&mut self, at: u64, into: &mut [u8]) -> Result<(), DiskNo>
        requires { at + length into.old ≤ length (mem_bytes self.old) }
        ensures bytes { OnOk result (Holds (Some (mem_bytes self.old)) at into.new) }
        ensures content { Some (mem_bytes self.new) ≡ Some (mem_bytes self.old) }
        ensures size { length (mem_bytes self.new) ≡ length (mem_bytes self.old) }
        ensures crash { Within (mem_images self.old) (mem_images self.new) }
        ensures time { Elapses (mem_view self.old) (mem_view self.new) }
        ensures advances { Advances (length (mem_acts self.old)) (length (mem_acts self.new))
            (IsErrOf result DiskNo.Memory) }
        ensures cause { HasCause (mem_faults self.old) (mem_faults self.new)
            (IsErrOf result DiskNo.Failed) }
        ensures counts_once { CountsOnce (mem_faults self.old) (mem_faults self.new)
            (IsErrOf result DiskNo.Failed) }
        ensures memory { IsErrOf result DiskNo.Memory
            → Stays (mem_view self.old) (mem_view self.new) }
        ensures turned { Turned self.old self.new nothing result }
    {
        self.turn(Deed::Nothing, &[])?;
        let at = at as usize;
        into.copy_from_slice(&self.tape.bytes()[at..at + into.len()]);
        Ok(())
    }

    fn write_at(&mut self, at: u64, bytes: &[u8]) -> Result<(), DiskNo>
        requires { at ≤ length (mem_bytes self.old) }
        ensures written { OnOk result (Some (mem_bytes self.new) ≡ option_map (written at bytes.now)
            (Some (mem_bytes self.old))) }
        ensures size { OnOk result (length (mem_bytes self.new) ≡ max (length (mem_bytes self.old))
            (at + length bytes.now)) }
        ensures failed { IsErrOf result DiskNo.Failed
            → Steps (Torn at (length bytes.now)) (Some (mem_bytes self.old))
            (Some (mem_bytes self.new)) }
        ensures crash { ImagesFollow (Torn at (length bytes.now)) (mem_images self.old)
            (mem_images self.new) }
        ensures time { Elapses (mem_view self.old) (mem_view self.new) }
        ensures advances { Advances (length (mem_acts self.old)) (length (mem_acts self.new))
            (IsErrOf result DiskNo.Memory) }
        ensures cause { HasCause (mem_faults self.old) (mem_faults self.new)
            (IsErrOf result DiskNo.Failed) }
        ensures counts_once { CountsOnce (mem_faults self.old) (mem_faults self.new)
            (IsErrOf result DiskNo.Failed) }
        ensures memory { IsErrOf result DiskNo.Memory
            → Stays (mem_view self.old) (mem_view self.new) }
        ensures turned { Turned self.old self.new (wrote at bytes.now) result }
    {
        self.turn(Deed::Write(at as usize), bytes)
    }

    fn cut(&mut self, to: u64) -> Result<(), DiskNo>
        requires { to ≤ length (mem_bytes self.old) }
        ensures cut { OnOk result (Some (mem_bytes self.new) ≡ option_map (take to)
            (Some (mem_bytes self.old))) }
        ensures size { OnOk result (length (mem_bytes self.new) ≡ to) }
        ensures failed { IsErrOf result DiskNo.Failed
            → Steps (Cut to) (Some (mem_bytes self.old)) (Some (mem_bytes self.new)) }
        ensures crash { ImagesFollow (Cut to) (mem_images self.old) (mem_images self.new) }
        ensures time { Elapses (mem_view self.old) (mem_view self.new) }
        ensures advances { Advances (length (mem_acts self.old)) (length (mem_acts self.new))
            (IsErrOf result DiskNo.Memory) }
        ensures cause { HasCause (mem_faults self.old) (mem_faults self.new)
            (IsErrOf result DiskNo.Failed) }
        ensures counts_once { CountsOnce (mem_faults self.old) (mem_faults self.new)
            (IsErrOf result DiskNo.Failed) }
        ensures memory { IsErrOf result DiskNo.Memory
            → Stays (mem_view self.old) (mem_view self.new) }
        ensures turned { Turned self.old self.new (cut_to to) result }
    {
        self.turn(Deed::Cut(to as usize), &[])
    }

    fn sync(&mut self) -> Result<(), DiskNo>
        ensures durable { OnOk result (Only (Some (mem_bytes self.old)) (mem_images self.new)) }
        ensures counted { OnOk result (Rose (mem_syncs self.old) (mem_syncs self.new)) }
        ensures content { Some (mem_bytes self.new) ≡ Some (mem_bytes self.old) }
        ensures size { length (mem_bytes self.new) ≡ length (mem_bytes self.old) }
        ensures crash { Within (mem_images self.old) (mem_images self.new) }
        ensures time { Elapses (mem_view self.old) (mem_view self.new) }
        ensures advances { Advances (length (mem_acts self.old)) (length (mem_acts self.new))
            (IsErrOf result DiskNo.Memory) }
        ensures cause { HasCause (mem_faults self.old) (mem_faults self.new)
            (IsErrOf result DiskNo.Failed) }
        ensures counts_once { CountsOnce (mem_faults self.old) (mem_faults self.new)
            (IsErrOf result DiskNo.Failed) }
        ensures memory { IsErrOf result DiskNo.Memory
            → Stays (mem_view self.old) (mem_view self.new) }
        ensures turned { Turned self.old self.new synced result }
    {
        self.turn(Deed::Sync, &[])
    }
}
