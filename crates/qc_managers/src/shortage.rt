//! Why a phase failed.
use qc_event::{Lack, Name};
use thiserror::Error;

/// Why a phase failed.
#[derive(Clone, Copy, Debug, Error)]
pub enum Shortage {
    /// A copy was blocked: the first so of those asked, with the holder in the way there (Moss).
    #[error("copy {copy} is blocked by {holder}")]
    Conflict { copy: u8, holder: Name },
    /// No copy was blocked: who replied, and why others did not.
    #[error("{0}")]
    NoQuorum(Lack),
}
