//! Records of journals that are no grants.
ghost use Rattle.std.specs.Prelude.{◌≡◌};

use qc_config::Tuple;
use qc_event::{Name, Table};
use std::marker::Model;

/// The first record of a journal: its format, the number of its disk, and the table of its store.
#[derive(Debug, Drop)]
pub struct Made {
    pub format: u8,
    pub who: u8,
    pub table: Table,
}

/// Names in order.
#[derive(Debug, Drop)]
pub struct Names {
    names: Vec<Name>,
}

impl Model for Names {
    ghost use Rattle.std.specs.Prelude.{List, ℕ};

    ghost Value = { List (List ℕ) };

    ghost view = { λ n. n.names.items };
}

impl Names {
    /// The names of a vector. It takes no memory.
    pub fn new(names: Vec<Name>) -> Self
        ensures { result ≡ names.items }
    {
        Names { names }
    }

    /// The names in order.
    pub fn as_slice(&self) -> &[Name]
        ensures { result.now ≡ self.now }
    {
        self.names.as_slice()
    }
}

/// A record of the ledger: how it was made, the epoch of a mounting, or a top that committed, with its aborted
/// descendants whose parents are not aborted.
#[derive(Debug, Drop)]
pub enum LedgerRecord {
    Made(Made),
    Epoch(u32),
    Top { top: Name, aborted: Names },
}

/// Tuples in order.
#[derive(Debug, Drop)]
pub struct Tuples {
    tuples: Vec<Tuple>,
}

impl Model for Tuples {
    ghost use Rattle.std.specs.Prelude.{List};
    ghost use Rattle.qc_config.specs.declared.tuple.Tuple.{Tuple};

    ghost Value = { List Tuple };

    ghost view = { λ t. t.tuples.items };
}

impl Tuples {
    /// The tuples of a vector. It takes no memory.
    pub fn new(tuples: Vec<Tuple>) -> Self
        ensures { result ≡ tuples.items }
    {
        Tuples { tuples }
    }

    /// The tuples in order.
    pub fn as_slice(&self) -> &[Tuple]
        ensures { result.now ≡ self.now }
    {
        self.tuples.as_slice()
    }
}

/// What stands behind the made record of a journal that another was folded into: the number of the fold, the epoch of
/// the run that folded, and what the copy then held of each record. A ledger's has no tuples.
#[derive(Debug, Drop)]
pub struct BaseRecord {
    pub number: u64,
    pub epoch: u32,
    pub tuples: Tuples,
}
