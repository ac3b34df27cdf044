//! Bytes that are written one text after another.
ghost use Rattle.std.specs.Prelude.{◌≡◌, [], ◌++◌, OnOk};
ghost use Rattle.std.specs.Fmt.{AppendsText};

use std::alloc::{AllocError, Global};
use std::fmt::Display;
use std::marker::Model;

/// Bytes that are written one text after another.
#[derive(Debug, Drop)]
pub struct Page {
    bytes: Vec<u8>,
}

impl Model for Page {
    ghost use Rattle.std.specs.Prelude.{List, ℕ};

    ghost Value = { List ℕ };

    ghost view = { λ p. p.bytes.items };
}

impl Page {
    /// An empty page. It takes no memory.
    pub fn new(alloc: Global) -> Self
        ensures { result ≡ [] }
    {
        Page {
            bytes: Vec::new(alloc),
        }
    }

    /// Appends bytes.
    pub fn push(&mut self, bytes: &[u8]) -> Result<(), AllocError>
        ensures { OnOk result (self.new ≡ self.old ++ bytes.now) }
    {
        self.bytes.extend_from_slice(bytes)
    }

    /// Appends another page.
    pub(crate) fn append(&mut self, page: &Self) -> Result<(), AllocError>
        ensures { OnOk result (self.new ≡ self.old ++ page.now) }
    {
        self.push(page.bytes.as_slice())
    }

    /// Appends what a value prints, so that `write!` writes to a page.
    pub fn write_fmt<D: Display + Drop>(&mut self, value: D) -> Result<(), AllocError>
        ensures { OnOk result (AppendsText self.old self.new (D.output value)) }
    {
        let alloc = *self.bytes.allocator();
        let text = value.to_string(alloc)?;
        self.push(text.as_bytes())
    }

    /// The bytes. It takes no memory.
    pub fn into_bytes(self) -> Vec<u8>
        ensures { result.items ≡ self }
    {
        self.bytes
    }
}
