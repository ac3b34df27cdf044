//! The real shop: disks in memory, or in the files of a folder.
ghost use Rattle.std.specs.Prelude.{◌≡◌, IfOk};

use crate::disk::{Disk, DiskNo};
use crate::file::FileDisk;
use crate::file_set::FileSet;
use crate::memory::MemDisk;
use crate::shop::{Given, Shop};
use std::alloc::Global;

/// A disk in memory, which tells its bytes, or in a file, which does not.
#[derive(Drop)]
pub enum HomeDisk {
    Memory(MemDisk),
    File(FileDisk),
}

impl Disk for HomeDisk {
    ghost use Rattle.qc_disk.specs.Home.{home_content, home_size, home_images, home_moment, home_at, home_faults, home_syncs, home_image, home_length, home_now};

    ghost view = { λ disk. record {
      content = home_content disk;
      size = home_size disk;
      may_leave = home_images disk;
      moment = home_moment disk;
      left_at = home_at disk;
      faults = home_faults disk;
      syncs = home_syncs disk;
    } };

    ghost reads_as_image = { home_image };

    ghost has_size = { home_length };

    ghost leaves_now = { home_now };

    fn len(&mut self) -> Result<u64, DiskNo> {
        match self {
            HomeDisk::Memory(disk) => disk.len(),
            HomeDisk::File(disk) => disk.len(),
        }
    }

    fn read(&mut self, at: u64, into: &mut [u8]) -> Result<(), DiskNo> {
        match self {
            HomeDisk::Memory(disk) => disk.read(at, into),
            HomeDisk::File(disk) => disk.read(at, into),
        }
    }

    fn write_at(&mut self, at: u64, bytes: &[u8]) -> Result<(), DiskNo> {
        match self {
            HomeDisk::Memory(disk) => disk.write_at(at, bytes),
            HomeDisk::File(disk) => disk.write_at(at, bytes),
        }
    }

    fn cut(&mut self, to: u64) -> Result<(), DiskNo> {
        match self {
            HomeDisk::Memory(disk) => disk.cut(to),
            HomeDisk::File(disk) => disk.cut(to),
        }
    }

    fn sync(&mut self) -> Result<(), DiskNo> {
        match self {
            HomeDisk::Memory(disk) => disk.sync(),
            HomeDisk::File(disk) => disk.sync(),
        }
    }
}

/// Gives empty disks in memory for an empty place, and for another the files `0`, `1` and so on in the folder
/// of that name. A missing file is made where the folder had no store when the shop first looked at it, and else it
/// is a disk that was lost: then the shop fails. So it does at a file that is no disk, and leaves that as it is. Once
/// the shop is dropped, a folder that still has no store is as it was.
#[derive(Drop)]
pub struct HomeShop {
    rt: HostRuntime,
    faults: u64,
    /// The files that it was asked for so far.
    sets: Vec<FileSet>,
    given: Given,
}

impl HomeShop {
    ghost use Rattle.qc_disk.specs.Given.{given_list};
    ghost use Rattle.qc_disk.specs.Home.{file_calls, file_faults, file_syncs};

    /// A shop that has not failed.
    pub fn new(rt: HostRuntime) -> Self
        ensures { result.faults ≡ 0 }
    {
        let alloc = rt.alloc();
        HomeShop {
            rt,
            faults: 0,
            sets: Vec::new(alloc),
            given: Given::new(alloc),
        }
    }

    // Opens a file of a folder, as the set that it is of has it.
    fn file(&mut self, alloc: Global, place: &str, which: u8) -> Result<FileDisk, DiskNo>
        ensures calls { IfOk result (λ disk. file_calls disk ≡ 0) }
        ensures disk_faults { IfOk result (λ disk. file_faults disk ≡ 0) }
        ensures syncs { IfOk result (λ disk. file_syncs disk ≡ 1) }
        ensures faults { self.new.faults ≡ self.old.faults }
        ensures given { given_list self.new.given ≡ given_list self.old.given }
    {
        let at = match self.sets.iter().position(|set| set.has(place, which)) {
            Some(at) => at,
            None => {
                let set = FileSet::look(self.rt, alloc, place, which)?;
                self.sets.push(set)?;
                self.sets.len() - 1
            }
        };
        self.sets[at].open(alloc, which)
    }
}

impl Shop for HomeShop {
    type D = HomeDisk;

    ghost use Rattle.std.specs.Prelude.{◌≢◌, ◌++◌, ℕ, List, OnErr, IsErrOf, if◌then◌else◌};
    ghost use Rattle.qc_disk.specs.Disk.{HasCause, CountsOnce, next};
    ghost use Rattle.qc_disk.specs.Shop.{Tells, TellsAlike, if_given};
    ghost use Rattle.qc_disk.specs.Given.{given_list};
    ghost use Rattle.qc_disk.specs.Home.{home_content, home_faults, home_offers, home_view, HomeGives};

    ghost view = { home_view };

    fn obtain(&mut self, alloc: Global, place: &str, which: u8) -> Result<HomeDisk, DiskNo>
        ensures given { IfOk result (λ disk. Tells (home_offers place.now) (home_content disk)) }
        ensures counted { IfOk result (λ disk. home_faults disk ≡ 0) }
        ensures others { (p : List ℕ) (n : ℕ) → n ≢ which
            → TellsAlike (home_view self.old) (home_view self.new) p n }
        ensures kept { OnErr result ((p : List ℕ) (n : ℕ)
            → TellsAlike (home_view self.old) (home_view self.new) p n) }
        ensures cause { HasCause self.old.faults self.new.faults (IsErrOf result DiskNo.Failed) }
        ensures counts_once { CountsOnce self.old.faults self.new.faults
            (IsErrOf result DiskNo.Failed) }
        ensures gives { IfOk result (HomeGives place.now) }
        ensures gave { given_list self.new.given ≡ given_list self.old.given
            ++ if_given result place.now which }
    {
        if place.is_empty() {
            self.given.add(alloc, place, which)?;
            let disk = MemDisk::new(Vec::new(alloc), Vec::new(alloc));
            return Ok(HomeDisk::Memory(disk));
        }
        match self.file(alloc, place, which) {
            Ok(disk) => {
                self.given.add(alloc, place, which)?;
                Ok(HomeDisk::File(disk))
            }
            Err(DiskNo::Memory) => Err(DiskNo::Memory),
            Err(DiskNo::Failed) => {
                self.faults = self.faults.saturating_add(1);
                Err(DiskNo::Failed)
            }
        }
    }
}
