//! What a session left of a store.

use qc_session::Ended;

/// What a session left of a store that was mounted, with the epoch of the mounting.
#[derive(Drop)]
pub struct Stored<D> {
    pub epoch: u32,
    pub ended: Ended<D>,
}
