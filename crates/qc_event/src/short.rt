//! How long a history may be, and why it takes no further entry.

use thiserror::Error;

/// The most entries that a history takes.
pub const LIMIT: usize = 4_294_967_295;

/// Why a history did not take an entry, or why a step was not done that needs one.
#[derive(Clone, Copy, PartialEq, Eq, Debug, Error)]
pub enum Short {
    /// There was no memory.
    #[error("no memory")]
    Memory,
    /// The history has `2^32 - 1` entries, and takes no more.
    #[error("no room for another entry")]
    Room,
}
