//! The count of a file's syncs. Nothing outside this file makes it or raises it.
ghost use Rattle.std.specs.Prelude.{◌≡◌, IfOk, OnOk};
ghost use Rattle.qc_disk.specs.Disk.{next};

use std::fs::File;
use std::io;

/// How often a file was synced, its folder's sync first, up to `2^64 - 1`.
#[derive(Drop)]
pub(crate) struct Syncs {
    count: u64,
}

impl Syncs {
    /// Syncs the folder of a file that is there by now, so that its name outlives a crash.
    pub(crate) fn begin(rt: &HostRuntime, folder: &str, _file: &File) -> io::Result<Syncs>
        ensures { IfOk result (λ syncs. syncs.count ≡ 1) }
    {
        File::open(rt, folder)?.sync_all()?;
        Ok(Syncs { count: 1 })
    }

    /// Syncs the file.
    pub(crate) fn sync(&mut self, file: &File) -> io::Result<()>
        ensures { OnOk result (self.new.count ≡ next self.old.count) }
    {
        file.sync_all()?;
        self.count = self.count.saturating_add(1);
        Ok(())
    }
}
