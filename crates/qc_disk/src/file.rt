//! A disk in a file. It tells no bytes: that a file is such a disk is trusted.
ghost use Rattle.std.specs.Prelude.{◌≡◌, ◌≤◌, IfOk, None};
ghost use Rattle.qc_disk.specs.Disk.{HasCause, CountsOnce, next};

use crate::disk::{Disk, DiskNo};
use crate::syncs::Syncs;
use std::fs::{File, OpenOptions};
use std::io::ErrorKind;
use std::os::unix::fs::{FileExt, MetadataExt};
use std::{fs, io};

/// The first byte of a journal is a gate, closed or open. What begins otherwise is none.
const OPEN_GATE: u8 = 1;

/// A disk in a file of the operating system. Each error of the system is a fault.
#[derive(Drop)]
pub struct FileDisk {
    file: File,
    /// As it was last known.
    size: u64,
    /// Those that failed too, up to `2^64 - 1`.
    calls: u64,
    faults: u64,
    syncs: Syncs,
}

// Whether a path still leads to the file that was opened by it: it may have been removed before it was locked.
fn leads_to(rt: &HostRuntime, path: &str, file: &File) -> io::Result<bool> {
    let (opened, found) = (file.metadata()?, fs::metadata(rt, path)?);
    Ok(opened.dev() == found.dev() && opened.ino() == found.ino())
}

// Whether a file is plain, and is empty or begins with a gate.
fn may_be_a_journal(file: &File) -> io::Result<bool> {
    let about = file.metadata()?;
    if !about.is_file() || about.len() == 0 {
        return Ok(about.is_file());
    }
    let mut gate = [0];
    file.read_exact_at(&mut gate, 0)?;
    Ok(gate[0] <= OPEN_GATE)
}

/// Removes a file that is empty, where no one holds its lock.
pub(crate) fn remove_empty(rt: &HostRuntime, path: &str) -> io::Result<()> {
    let file = File::open(rt, path)?;
    file.try_lock()?;
    if file.metadata()?.len() == 0 && leads_to(rt, path, &file)? {
        fs::remove_file(rt, path)?;
    }
    Ok(())
}

impl FileDisk {
    /// Opens a file, or makes it, empty. The folder is synced too, so that a new file outlives a crash. The
    /// file is locked until the disk is dropped: where another open of it holds the lock, that is an error.
    pub fn open(rt: &HostRuntime, folder: &str, path: &str) -> io::Result<FileDisk>
        ensures calls { IfOk result (λ disk. disk.calls ≡ 0) }
        ensures faults { IfOk result (λ disk. disk.faults ≡ 0) }
        ensures syncs { IfOk result (λ disk. disk.syncs.count ≡ 1) }
    {
        let mut options = OpenOptions::new();
        options.read(true).write(true).create(true);
        FileDisk::locked(rt, folder, path, &options)
    }

    /// Opens a file that is there, as `open` does, and makes none. Where it is not plain, or has bytes and begins with
    /// no gate, that is an error, and it is left as it is.
    pub(crate) fn find(rt: &HostRuntime, folder: &str, path: &str) -> io::Result<FileDisk>
        ensures calls { IfOk result (λ disk. disk.calls ≡ 0) }
        ensures faults { IfOk result (λ disk. disk.faults ≡ 0) }
        ensures syncs { IfOk result (λ disk. disk.syncs.count ≡ 1) }
    {
        // Before it is opened, since to open a device may do something.
        if !fs::metadata(rt, path)?.is_file() {
            return Err(ErrorKind::InvalidInput.into());
        }
        let mut options = OpenOptions::new();
        options.read(true).write(true);
        let disk = FileDisk::locked(rt, folder, path, &options)?;
        if !may_be_a_journal(&disk.file)? {
            return Err(ErrorKind::InvalidData.into());
        }
        Ok(disk)
    }

    /// Makes a file, empty, and opens it as `open` does. Where something of that name is there, that is an error.
    pub(crate) fn make(rt: &HostRuntime, folder: &str, path: &str) -> io::Result<FileDisk>
        ensures calls { IfOk result (λ disk. disk.calls ≡ 0) }
        ensures faults { IfOk result (λ disk. disk.faults ≡ 0) }
        ensures syncs { IfOk result (λ disk. disk.syncs.count ≡ 1) }
    {
        let mut options = OpenOptions::new();
        options.read(true).write(true).create_new(true);
        FileDisk::locked(rt, folder, path, &options)
    }

    // Opens a file and locks it.
    fn locked(
        rt: &HostRuntime,
        folder: &str,
        path: &str,
        options: &OpenOptions,
    ) -> io::Result<FileDisk>
        ensures calls { IfOk result (λ disk. disk.calls ≡ 0) }
        ensures faults { IfOk result (λ disk. disk.faults ≡ 0) }
        ensures syncs { IfOk result (λ disk. disk.syncs.count ≡ 1) }
    {
        let file = options.open(rt, path)?;
        file.try_lock()?;
        if !leads_to(rt, path, &file)? {
            return Err(ErrorKind::NotFound.into());
        }
        let syncs = Syncs::begin(rt, folder, &file)?;
        let size = file.metadata()?.len();
        Ok(FileDisk {
            file,
            size,
            calls: 0,
            faults: 0,
            syncs,
        })
    }

    // Counts a call.
    fn count(&mut self)
        ensures size { self.new.size ≡ self.old.size }
        ensures calls { self.new.calls ≡ next self.old.calls }
        ensures later { self.old.calls ≤ self.new.calls }
        ensures faults { self.new.faults ≡ self.old.faults }
        ensures syncs { self.new.syncs ≡ self.old.syncs }
    {
        self.calls = self.calls.saturating_add(1);
    }

    // Counts a fault.
    fn fail(&mut self) -> DiskNo
        ensures answer { result ≡ DiskNo.Failed }
        ensures size { self.new.size ≡ self.old.size }
        ensures calls { self.new.calls ≡ self.old.calls }
        ensures faults { self.new.faults ≡ next self.old.faults }
        ensures syncs { self.new.syncs ≡ self.old.syncs }
        ensures cause { HasCause self.old.faults self.new.faults (Unit {0}) }
        ensures counts_once { CountsOnce self.old.faults self.new.faults (Unit {0}) }
    {
        self.faults = self.faults.saturating_add(1);
        DiskNo::Failed
    }
}

impl Disk for FileDisk {
    ghost view = { λ disk. record {
      content = None;
      size = disk.size;
      may_leave = λ _. Unit {0};
      moment = disk.calls;
      left_at = λ _ _. Unit {0};
      faults = disk.faults;
      syncs = disk.syncs.count;
    } };

    ghost reads_as_image = { λ _. tt };

    ghost has_size = { λ _. tt };

    ghost leaves_now = { λ _ _. (λ left. left, λ left. left) };

    fn len(&mut self) -> Result<u64, DiskNo> {
        self.count();
        let Ok(metadata) = self.file.metadata() else {
            return Err(self.fail());
        };
        self.size = metadata.len();
        Ok(self.size)
    }

    fn read(&mut self, at: u64, into: &mut [u8]) -> Result<(), DiskNo> {
        self.count();
        if self.file.read_exact_at(into, at).is_err() {
            return Err(self.fail());
        }
        Ok(())
    }

    fn write_at(&mut self, at: u64, bytes: &[u8]) -> Result<(), DiskNo> {
        self.count();
        // A range that ends past any file is refused as the system would.
        let Some(end) = at.checked_add(bytes.len() as u64) else {
            return Err(self.fail());
        };
        if self.file.write_all_at(bytes, at).is_err() {
            return Err(self.fail());
        }
        self.size = self.size.max(end);
        Ok(())
    }

    fn cut(&mut self, to: u64) -> Result<(), DiskNo> {
        self.count();
        if self.file.set_len(to).is_err() {
            return Err(self.fail());
        }
        self.size = to;
        Ok(())
    }

    fn sync(&mut self) -> Result<(), DiskNo> {
        self.count();
        if self.syncs.sync(&self.file).is_err() {
            return Err(self.fail());
        }
        Ok(())
    }
}
