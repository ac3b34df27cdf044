//! The files of a folder that are one store's disks, and which of them may be made.
ghost use Rattle.std.specs.Prelude.{◌≡◌, IfOk};
ghost use Rattle.qc_disk.specs.Home.{file_calls, file_faults, file_syncs};

use crate::disk::DiskNo;
use crate::file::{FileDisk, remove_empty};
use std::alloc::Global;
use std::fs;
use std::io::ErrorKind;
use std::os::unix::fs::MetadataExt;

/// How many disks a set has: a ledger's and those of sixteen copies. So `0` to `16` are one set, and their spares, the
/// next seventeen numbers, another.
const DISKS: u8 = 17;

/// The number of the last spare.
const LAST_SPARE: u8 = 33;

/// A file of this name says that a folder's spares had bytes once.
const USED: &str = "spares";

/// A set of files in a folder, as it was when it was first looked at. A file that is missing is a disk that was lost,
/// and not made, where others of the set had bytes then, or spares: also spares that were lost since.
pub(crate) struct FileSet {
    rt: HostRuntime,
    place: String,
    first: u8,
    /// Whether its files may be made.
    is_new: bool,
    /// The paths of those that were made since.
    made: Vec<String>,
}

// The first number of the set of a disk.
fn first_of(which: u8) -> u8 {
    which - which % DISKS
}

// Whether there is a file with bytes, at the end of links too.
fn has_bytes(rt: &HostRuntime, path: &str) -> Result<bool, DiskNo> {
    match fs::metadata(rt, path) {
        Ok(found) => Ok(found.is_file() && found.len() > 0),
        Err(error) if error.kind() == ErrorKind::NotFound => Ok(false),
        Err(_) => Err(DiskNo::Failed),
    }
}

// Whether neither a file of the set has bytes, nor a spare of it.
fn is_blank(rt: &HostRuntime, alloc: Global, place: &str, first: u8) -> Result<bool, DiskNo> {
    for number in first..=first.saturating_add(DISKS - 1).max(LAST_SPARE) {
        let path = format!(in alloc; "{place}/{number}")?;
        if has_bytes(rt, path.as_str())? {
            return Ok(false);
        }
    }
    Ok(true)
}

// Whether spares may be made: none has bytes, and the folder has no mark that one had. A folder is marked when spares are
// first found with bytes: only from then on may the next run rest on what stands on them alone.
fn are_new_spares(
    rt: &HostRuntime,
    alloc: Global,
    place: &str,
    are_blank: bool,
) -> Result<bool, DiskNo> {
    let path = format!(in alloc; "{place}/{USED}")?;
    match fs::symlink_metadata(rt, path.as_str()) {
        Ok(_) => Ok(false),
        Err(error) if error.kind() == ErrorKind::NotFound => {
            if !are_blank {
                FileDisk::make(rt, place, path.as_str()).map_err(|_| DiskNo::Failed)?;
            }
            Ok(are_blank)
        }
        Err(_) => Err(DiskNo::Failed),
    }
}

// Whether a path leads to the mark of a folder, which is no disk: a link that led nowhere may, once there is a mark.
fn is_mark(rt: &HostRuntime, alloc: Global, place: &str, path: &str) -> Result<bool, DiskNo> {
    let mark = format!(in alloc; "{place}/{USED}")?;
    match (fs::metadata(rt, mark.as_str()), fs::metadata(rt, path)) {
        (Ok(mark), Ok(found)) => Ok(found.dev() == mark.dev() && found.ino() == mark.ino()),
        _ => Ok(false),
    }
}

impl FileSet {
    /// Looks at the set of a disk.
    pub(crate) fn look(
        rt: HostRuntime,
        alloc: Global,
        place: &str,
        which: u8,
    ) -> Result<FileSet, DiskNo> {
        let first = first_of(which);
        let is_blank = is_blank(&rt, alloc, place, first)?;
        let is_new = if first == DISKS {
            are_new_spares(&rt, alloc, place, is_blank)?
        } else {
            is_blank
        };
        Ok(FileSet {
            rt,
            place: place.to_string(alloc)?,
            first,
            is_new,
            made: Vec::new(alloc),
        })
    }

    /// Whether a disk is of this set.
    pub(crate) fn has(&self, place: &str, which: u8) -> bool {
        self.first == first_of(which) && self.place.as_str() == place
    }

    /// Opens the file of a disk, which is made where it is missing and may be.
    pub(crate) fn open(&mut self, alloc: Global, which: u8) -> Result<FileDisk, DiskNo>
        ensures calls { IfOk result (λ disk. file_calls disk ≡ 0) }
        ensures faults { IfOk result (λ disk. file_faults disk ≡ 0) }
        ensures syncs { IfOk result (λ disk. file_syncs disk ≡ 1) }
    {
        let place = self.place.as_str();
        let path = format!(in alloc; "{place}/{which}")?;
        let opened = match fs::symlink_metadata(&self.rt, path.as_str()) {
            Ok(_) if is_mark(&self.rt, alloc, place, path.as_str())? => {
                Err(ErrorKind::InvalidInput.into())
            }
            Ok(_) => FileDisk::find(&self.rt, place, path.as_str()),
            Err(error) if error.kind() == ErrorKind::NotFound && self.is_new => {
                self.made.reserve(1)?;
                let made = FileDisk::make(&self.rt, place, path.as_str());
                self.made.push_reserved(path);
                made
            }
            Err(error) => Err(error),
        };
        opened.map_err(|_| DiskNo::Failed)
    }

    // Removes the files that were made, where the set has no bytes yet: so a run that was refused leaves none. Where
    // memory is wanting, or a file cannot be looked at, they are left.
    fn take_back(&self) {
        let alloc = *self.made.allocator();
        if let Ok(true) = is_blank(&self.rt, alloc, self.place.as_str(), self.first) {
            for path in &self.made {
                // Whoever opened it meanwhile has its lock, and keeps it.
                let _ = remove_empty(&self.rt, path.as_str());
            }
        }
    }
}

impl Drop for FileSet {
    fn drop(self) {
        self.take_back();
        let FileSet {
            rt: _,
            place: _,
            first: _,
            is_new: _,
            made: _,
        } = self;
    }
}
