//! Why a transaction comes no further through its steps.

use qc_event::Name;

/// Why a transaction comes no further through its steps, which are counted from 0.
#[derive(Clone, Copy)]
pub(crate) enum Halt {
    /// Each step went on.
    Through,
    /// This step asks for something, and was not begun.
    NotBegun { step: usize },
    /// Some of the branches that a step runs at once were begun, and the next was not.
    NotAllBegun,
    /// The session had marked itself before the step.
    Marked,
    /// This step asks that the ancestor this number of levels up be aborted.
    Asks { step: usize, levels: u8 },
    /// This manager was aborted.
    Refused(Name),
    /// What was read is a text where a number is needed, or less than what is needed.
    Short,
    /// This try of a child that must commit is its last, and was aborted.
    Lost(Name),
    /// This try of a child was not followed by another, though one was due.
    Untried(Name),
    /// What was read was not written.
    Unwritten,
}
