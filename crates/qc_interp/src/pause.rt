//! How a session waits before a body is tried again, so that sessions that stood in each other's way come apart.
use qc_event::Name;
use std::thread::yield_now;

// The longest pause.
const LONGEST: u16 = 1_024;

/// How often a session yields its processor before the next try.
#[derive(Clone, Copy)]
pub(crate) struct Pause {
    turns: u16,
}

impl Pause {
    /// None before the first try.
    pub(crate) fn none() -> Self {
        Pause { turns: 0 }
    }

    /// Yields the processor.
    pub(crate) fn take(&self) {
        for _ in 0..self.turns {
            yield_now();
        }
    }

    /// A try at or below this top failed: the first pause goes by its number, and each further one is twice as long.
    pub(crate) fn grow(&mut self, name: &Name) {
        self.turns = match (self.turns, name.number(0)) {
            (0, Some(number)) => (number % 16) as u16 + 1,
            (0, None) => 1,
            (turns, _) => turns.saturating_mul(2).min(LONGEST),
        };
    }
}
