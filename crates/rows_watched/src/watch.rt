//! Who is told of calls.

/// Told of the calls of disks, by their numbers, as each begins.
pub trait Watch {
    /// A write to a disk begins.
    fn write(&self, which: u8);

    /// A sync of a disk begins.
    fn sync(&self, which: u8);
}
