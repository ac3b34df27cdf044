//! What a manager does next.

/// What a manager does next in a phase.
#[derive(Clone, Copy, PartialEq, Eq, Debug)]
pub enum Next {
    /// The copies that replied hold the quorum.
    Enough,
    /// This copy is asked.
    Copy(u8),
    /// No quorum, and no copy is left to ask.
    Short,
}
