//! A disk in a place of its own in memory.

ghost use Rattle.std.specs.Prelude.{◌≡◌};

use qc_disk::{Disk, DiskNo};

/// A disk in a place of its own in memory: what holds it has a size that does not hang on the disk's.
#[derive(Drop)]
pub struct Boxed<D> {
    pub disk: Box<D>,
}

impl<D> Boxed<D> {
    /// The disk itself.
    pub fn into_disk(self) -> D
        ensures { result ≡ self.disk.value }
    {
        Box::into_inner(self.disk)
    }
}

impl<D: Disk> Disk for Boxed<D> {
    ghost view = { λ boxed. D.view boxed.disk.value };

    ghost reads_as_image = { λ boxed. D.reads_as_image boxed.disk.value };

    ghost has_size = { λ boxed. D.has_size boxed.disk.value };

    ghost leaves_now = { λ boxed. D.leaves_now boxed.disk.value };

    fn len(&mut self) -> Result<u64, DiskNo> {
        self.disk.len()
    }

    fn read(&mut self, at: u64, into: &mut [u8]) -> Result<(), DiskNo> {
        self.disk.read(at, into)
    }

    fn write_at(&mut self, at: u64, bytes: &[u8]) -> Result<(), DiskNo> {
        self.disk.write_at(at, bytes)
    }

    fn cut(&mut self, to: u64) -> Result<(), DiskNo> {
        self.disk.cut(to)
    }

    fn sync(&mut self) -> Result<(), DiskNo> {
        self.disk.sync()
    }
}
