//! What a run answers.

use crate::status::Status;
use qc_event::Base;
use qc_trail::Trail;

/// What a run answers: how it ended, the tuples from which it started, its history, the oldest entry
/// first, and the disks that it obtained, in the order of their places: the ledger's, each copy's, and then
/// their spares.
#[derive(Drop)]
pub struct Ran<D> {
    pub status: Status,
    pub start: Base,
    pub trail: Trail,
    pub disks: Vec<D>,
}
