//! A disk as its users see it: what a read returns, and what a crash may leave.
ghost use Rattle.std.specs.Prelude.{◌≡◌, ◌≤◌, ◌↔◌, ◌+◌, ℕ, max, List, length, take, option_map, IfOk, OnOk, OnErr, IsErrOf};
ghost use Rattle.qc_disk.specs.declared.disk.DiskNo.TheVariants.{Memory};
ghost use Rattle.qc_disk.specs.Disk.{DiskView, HasCause, CountsOnce, Rose, written, Torn, Cut, ImagesFollow, Within, Only, IsImage, HasLength, Steps, Holds, Elapses, Advances, Stays};

use std::alloc::{AllocError, AllocFailed};
use thiserror::Error;

/// Why a disk did not do what it was asked.
#[derive(Clone, Copy, PartialEq, Eq, Debug, Error)]
pub enum DiskNo {
    /// The disk failed. Its count of faults says that it was the disk.
    #[error("the disk failed")]
    Failed,
    /// There was no memory. The disk is as it was.
    #[error("no memory")]
    Memory,
}

impl From<AllocError> for DiskNo {
    ghost from_gives = { λ _ e. e ≡ Memory };

    fn from(_: AllocError) -> Self {
        DiskNo::Memory
    }
}

impl<T: Drop> From<AllocFailed<T>> for DiskNo {
    ghost from_gives = { λ _ e. e ≡ Memory };

    fn from(_: AllocFailed<T>) -> Self {
        DiskNo::Memory
    }
}

/// Bytes that outlive a crash, in part.
pub trait Disk {
    /// What a read returns, what a crash may leave, now and at each moment before, and the counts.
    ghost view: { Self → DiskView };

    /// How many bytes there are.
    fn len(&mut self) -> Result<u64, DiskNo>
        ensures answer { IfOk result (λ n. n ≡ (view self.new).size) }
        ensures content { (view self.new).content ≡ (view self.old).content }
        ensures size { OnErr result ((view self.new).size ≡ (view self.old).size) }
        ensures crash { Within (view self.old).may_leave (view self.new).may_leave }
        ensures time { Elapses (view self.old) (view self.new) }
        ensures advances { Advances (view self.old).moment (view self.new).moment
            (IsErrOf result DiskNo.Memory) }
        ensures cause { HasCause (view self.old).faults (view self.new).faults
            (IsErrOf result DiskNo.Failed) }
        ensures counts_once { CountsOnce (view self.old).faults (view self.new).faults
            (IsErrOf result DiskNo.Failed) }
        ensures memory { IsErrOf result DiskNo.Memory → Stays (view self.old) (view self.new) };

    /// Reads the bytes from a place on, as many as the buffer takes.
    fn read(&mut self, at: u64, into: &mut [u8]) -> Result<(), DiskNo>
        requires { at + length into.old ≤ (view self.old).size }
        ensures bytes { OnOk result (Holds (view self.old).content at into.new) }
        ensures content { (view self.new).content ≡ (view self.old).content }
        ensures size { (view self.new).size ≡ (view self.old).size }
        ensures crash { Within (view self.old).may_leave (view self.new).may_leave }
        ensures time { Elapses (view self.old) (view self.new) }
        ensures advances { Advances (view self.old).moment (view self.new).moment
            (IsErrOf result DiskNo.Memory) }
        ensures cause { HasCause (view self.old).faults (view self.new).faults
            (IsErrOf result DiskNo.Failed) }
        ensures counts_once { CountsOnce (view self.old).faults (view self.new).faults
            (IsErrOf result DiskNo.Failed) }
        ensures memory { IsErrOf result DiskNo.Memory → Stays (view self.old) (view self.new) };

    /// Writes over what is there, and past the end. Until a sync, a crash may leave any bytes in the range.
    fn write_at(&mut self, at: u64, bytes: &[u8]) -> Result<(), DiskNo>
        requires { at ≤ (view self.old).size }
        ensures written { OnOk result ((view self.new).content ≡ option_map (written at bytes.now)
            (view self.old).content) }
        ensures size { OnOk result ((view self.new).size ≡ max (view self.old).size
            (at + length bytes.now)) }
        ensures failed { IsErrOf result DiskNo.Failed
            → Steps (Torn at (length bytes.now)) (view self.old).content (view self.new).content }
        ensures crash { ImagesFollow (Torn at (length bytes.now)) (view self.old).may_leave
            (view self.new).may_leave }
        ensures time { Elapses (view self.old) (view self.new) }
        ensures advances { Advances (view self.old).moment (view self.new).moment
            (IsErrOf result DiskNo.Memory) }
        ensures cause { HasCause (view self.old).faults (view self.new).faults
            (IsErrOf result DiskNo.Failed) }
        ensures counts_once { CountsOnce (view self.old).faults (view self.new).faults
            (IsErrOf result DiskNo.Failed) }
        ensures memory { IsErrOf result DiskNo.Memory → Stays (view self.old) (view self.new) };

    /// Drops the bytes behind a length. Until a sync, a crash may leave any bytes behind it, or none.
    fn cut(&mut self, to: u64) -> Result<(), DiskNo>
        requires { to ≤ (view self.old).size }
        ensures cut { OnOk result ((view self.new).content ≡ option_map (take to)
            (view self.old).content) }
        ensures size { OnOk result ((view self.new).size ≡ to) }
        ensures failed { IsErrOf result DiskNo.Failed
            → Steps (Cut to) (view self.old).content (view self.new).content }
        ensures crash { ImagesFollow (Cut to) (view self.old).may_leave (view self.new).may_leave }
        ensures time { Elapses (view self.old) (view self.new) }
        ensures advances { Advances (view self.old).moment (view self.new).moment
            (IsErrOf result DiskNo.Memory) }
        ensures cause { HasCause (view self.old).faults (view self.new).faults
            (IsErrOf result DiskNo.Failed) }
        ensures counts_once { CountsOnce (view self.old).faults (view self.new).faults
            (IsErrOf result DiskNo.Failed) }
        ensures memory { IsErrOf result DiskNo.Memory → Stays (view self.old) (view self.new) };

    /// After it, a crash leaves what a read returns.
    fn sync(&mut self) -> Result<(), DiskNo>
        ensures durable { OnOk result (Only (view self.old).content (view self.new).may_leave) }
        ensures counted { OnOk result (Rose (view self.old).syncs (view self.new).syncs) }
        ensures content { (view self.new).content ≡ (view self.old).content }
        ensures size { (view self.new).size ≡ (view self.old).size }
        ensures crash { Within (view self.old).may_leave (view self.new).may_leave }
        ensures time { Elapses (view self.old) (view self.new) }
        ensures advances { Advances (view self.old).moment (view self.new).moment
            (IsErrOf result DiskNo.Memory) }
        ensures cause { HasCause (view self.old).faults (view self.new).faults
            (IsErrOf result DiskNo.Failed) }
        ensures counts_once { CountsOnce (view self.old).faults (view self.new).faults
            (IsErrOf result DiskNo.Failed) }
        ensures memory { IsErrOf result DiskNo.Memory → Stays (view self.old) (view self.new) };

    /// A disk as it reads is one of its images.
    ghost reads_as_image: { (disk : Self) → IsImage (view disk).content (view disk).may_leave };

    /// The number of bytes is that of the content.
    ghost has_size: { (disk : Self) → HasLength (view disk).content (view disk).size };

    /// At this moment it is what a crash may leave.
    ghost leaves_now: { (disk : Self) (c : List ℕ)
        → (view disk).left_at (view disk).moment c ↔ (view disk).may_leave c };
}
