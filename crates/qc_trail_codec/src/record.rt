//! Saved trails, and lists of entries.
ghost use Rattle.std.specs.Prelude.{◌≡◌};

use qc_event::{Base, Entry};
use std::marker::Model;

/// Entries in order.
#[derive(Debug, Drop)]
pub struct Entries {
    entries: Vec<Entry>,
}

impl Model for Entries {
    ghost use Rattle.std.specs.Prelude.{List};
    ghost use Rattle.qc_event.specs.declared.event.Entry.{Entry};

    ghost Value = { List Entry };

    ghost view = { λ e. e.entries.items };
}

impl Entries {
    /// The entries of a vector. It takes no memory.
    pub fn new(entries: Vec<Entry>) -> Self
        ensures { result ≡ entries.items }
    {
        Entries { entries }
    }

    /// The entries in order.
    pub fn as_slice(&self) -> &[Entry]
        ensures { result.now ≡ self.now }
    {
        self.entries.as_slice()
    }
}

/// What a run started from, and its entries.
#[derive(Debug, Drop)]
pub struct SavedTrail {
    pub base: Base,
    pub entries: Entries,
}
