//! Why the image of a disk was refused.
use qc_event::Table;
use thiserror::Error;

/// What is wrong with the image of a journal.
#[derive(Drop, Debug, Error)]
pub enum ImageFault {
    /// The record whose gate is open at this place does not stand there whole.
    #[error("broken at {place}")]
    Broken { place: u64 },
    /// The record of this index, counted from 0, is none that may stand there.
    #[error("record {index} grammar")]
    Grammar { index: u64 },
    /// A record that the mounting writes would pass the limit of the journal, which ends at this place.
    #[error("full at {place}")]
    Full { place: u64 },
    /// The journal was made over another table than is asked for.
    #[error("table")]
    Table { kept: Table, asked: Table },
    /// The last epoch is `2^32 - 1`, and none comes after it.
    #[error("epoch {0}")]
    Epoch(u32),
}

/// A disk whose image was refused, and why.
#[derive(Drop, Debug, Error)]
#[error("disk {disk} {fault}")]
pub struct BadImage {
    pub disk: u8,
    pub fault: ImageFault,
}
