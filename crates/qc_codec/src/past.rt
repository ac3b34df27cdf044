//! What a ledger told before a mounting.
ghost use Rattle.std.specs.Prelude.{◌≡◌};

use crate::record::Names;
use qc_event::Name;
use std::marker::Model;

/// A top that the ledger logged, with its aborted descendants whose parents are not aborted.
#[derive(Debug, Drop)]
pub struct Logged {
    pub top: Name,
    pub aborted: Names,
}

/// Logged tops, in the order of their records.
#[derive(Debug, Drop)]
pub struct Tops {
    tops: Vec<Logged>,
}

impl Model for Tops {
    ghost use Rattle.std.specs.Prelude.{List};
    ghost use Rattle.qc_codec.specs.declared.past.Logged.{Logged};

    ghost Value = { List Logged };

    ghost view = { λ t. t.tops.items };
}

impl Tops {
    /// The tops of a vector. It takes no memory.
    pub fn new(tops: Vec<Logged>) -> Self
        ensures { result ≡ tops.items }
    {
        Tops { tops }
    }

    /// The tops in order.
    pub fn as_slice(&self) -> &[Logged]
        ensures { result.now ≡ self.now }
    {
        self.tops.as_slice()
    }
}

/// What the image of a ledger told before a mounting: its last epoch, which is that of its base where none follows it,
/// and 0 where there is neither; the epoch of its base, where there is one; and the tops that it logged since.
#[derive(Debug, Drop)]
pub struct Past {
    pub epoch: u32,
    pub base: Option<u32>,
    pub tops: Tops,
}
