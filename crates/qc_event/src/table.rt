//! Tables: the records of a store, with their names.
ghost use Rattle.std.specs.Prelude.{◌≡◌, List, length, IfOk};

use qc_config::{Config, Val};
use std::alloc::{AllocError, Global};
use std::marker::Model;
use std::{fmt, str};

/// The name of a record, as its bytes.
#[derive(Debug, Drop)]
pub struct Label {
    bytes: Vec<u8>,
}

impl Model for Label {
    ghost use Rattle.std.specs.Prelude.{List, ℕ};

    ghost Value = { List ℕ };

    ghost view = { λ l. l.bytes.items };
}

// In quotes, on one line; bytes that are no text by their numbers.
impl fmt::Display for Label {
    fn fmt<W: fmt::Write>(&self, f: &mut fmt::Formatter<W>) -> fmt::Result {
        let bytes = self.as_bytes();
        match str::from_utf8(bytes) {
            Ok(text) => write!(f, "{text:?}"),
            Err(_) => write!(f, "{bytes:?}"),
        }
    }
}

impl Label {
    /// A label of these bytes.
    pub fn new(alloc: Global, bytes: &[u8]) -> Result<Self, AllocError>
        ensures { IfOk result (λ l. l ≡ bytes.now) }
    {
        Ok(Label {
            bytes: bytes.to_vec(alloc)?,
        })
    }

    /// The bytes.
    pub fn as_bytes(&self) -> &[u8]
        ensures { result.now ≡ self.now }
    {
        self.bytes.as_slice()
    }
}

/// A record of a table: its name, the value with which it starts, and its first configuration.
#[derive(Debug, Drop)]
pub struct Row {
    pub name: Label,
    pub start: Val,
    pub config: Config,
}

/// The records of a table, in order. A record's number is its place.
#[derive(Debug, Drop)]
pub struct Rows {
    rows: Vec<Row>,
}

impl Model for Rows {
    ghost use Rattle.std.specs.Prelude.{List};
    ghost use Rattle.qc_event.specs.declared.table.Row.{Row};

    ghost Value = { List Row };

    ghost view = { λ r. r.rows.items };
}

impl Rows {
    /// The rows of a vector. It takes no memory.
    pub fn new(rows: Vec<Row>) -> Self
        ensures { result ≡ rows.items }
    {
        Rows { rows }
    }

    /// The rows in order.
    pub fn as_slice(&self) -> &[Row]
        ensures { result.now ≡ self.now }
    {
        self.rows.as_slice()
    }
}

/// The records of a store, and at how many copies each is kept.
#[derive(Debug, Drop)]
pub struct Table {
    pub copies: u8,
    pub records: Rows,
}
