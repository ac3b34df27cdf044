//! Where one stands who comes to the gate.

/// Where a session or a branch stands.
#[derive(Debug, Clone, Copy, PartialEq, Eq)]
pub(crate) enum Place {
    /// It is to come, or to come back.
    Coming,
    /// It waits to be chosen.
    Waiting,
    /// It was chosen: it goes, or its branches do in its place.
    Out,
}
