//! A history as a list that grows.
ghost use Rattle.std.specs.Prelude.{◌≡◌, ◌≤◌, ◌↔◌, [], ◌∷◌, IsTrue, IsErrOf, OnOk, OnErr, reverse, length};
ghost use Rattle.qc_event.specs.History.{limit};

use qc_event::{Entry, LIMIT, Short};
use qc_names::lists::append;
use std::alloc::{AllocError, Global};
use std::marker::Model;

/// A history that grows. Contracts see it with its latest entry first.
#[derive(Debug, Drop)]
pub struct Log {
    entries: Vec<Entry>,
}

impl Model for Log {
    ghost use Rattle.std.specs.Prelude.{List, ◌≤◌, length, reverse};
    ghost use Rattle.qc_event.specs.declared.event.Entry.{Entry};
    ghost use Rattle.qc_event.specs.History.{limit};

    ghost Value = { List Entry };

    ghost view = { λ l. reverse l.entries.items };

    ghost invariant = { λ l. length l.entries.items ≤ limit };
}

impl Log {
    /// An empty history. It takes no memory.
    pub fn new(alloc: Global) -> Self
        ensures { result ≡ [] }
    {
        Log {
            entries: Vec::new(alloc),
        }
    }

    fn is_full(&self) -> bool
        ensures full { IsTrue result ↔ (length self.now ≡ limit) }
        ensures bounded { length self.now ≤ limit }
    {
        self.entries.len() >= LIMIT
    }

    /// Appends an entry; `Room` comes exactly where the history takes no more. An error leaves the history as it was.
    pub fn push(&mut self, entry: Entry) -> Result<(), Short>
        ensures ok { OnOk result (self.new ≡ entry ∷ self.old) }
        ensures err { OnErr result (self.new ≡ self.old) }
        ensures room { IsErrOf result Short.Room → length self.old ≡ limit }
        ensures full { length self.old ≡ limit → IsErrOf result Short.Room }
    {
        if self.is_full() {
            return Err(Short::Room);
        }
        match append(&mut self.entries, entry) {
            Ok(()) => Ok(()),
            Err(AllocError) => Err(Short::Memory),
        }
    }

    /// The entries, the oldest first.
    pub fn as_slice(&self) -> &[Entry]
        ensures { reverse result.now ≡ self.now }
    {
        self.entries.as_slice()
    }
}
