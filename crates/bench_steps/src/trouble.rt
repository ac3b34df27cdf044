//! Why there are no times.

use qc_script::BadScript;
use std::alloc::AllocError;
use std::io;

/// Why there are no times.
#[derive(Clone, Copy)]
pub(crate) enum Trouble {
    /// There was no script, or it did not run to its end.
    Script,
    /// The report that was made alone is not the one that the run wrote.
    Differs,
    /// There was no memory.
    Memory,
    /// The clock could not be read.
    Clock,
}

impl From<BadScript> for Trouble {
    fn from(bad: BadScript) -> Self {
        match bad {
            BadScript::Memory => Trouble::Memory,
            _ => Trouble::Script,
        }
    }
}

impl From<AllocError> for Trouble {
    fn from(_: AllocError) -> Self {
        Trouble::Memory
    }
}

impl From<io::Error> for Trouble {
    fn from(_: io::Error) -> Self {
        Trouble::Clock
    }
}
