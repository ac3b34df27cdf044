//! The tuples with which copies start.
ghost use Rattle.std.specs.Prelude.{◌≡◌, [], length, map, slice_index_or};
ghost use Rattle.qc_event.specs.Base as words;

use qc_config::{Config, Tuple, Val};
use std::marker::Model;

/// The tuples with which a run starts, for each copy and record.
#[derive(Debug, Drop)]
pub struct Base {
    copies: Vec<Vec<Tuple>>,
}

impl Model for Base {
    ghost use Rattle.std.specs.Prelude.{List, map};
    ghost use Rattle.qc_config.specs.declared.tuple.Tuple.{Tuple};

    ghost Value = { List (List Tuple) };

    ghost view = { λ b. map (λ c. c.items) b.copies.items };
}

impl Base {
    /// A base of these tuples, copy by copy. It takes no memory.
    pub fn new(copies: Vec<Vec<Tuple>>) -> Self
        ensures { result ≡ map (λ c. c.items) copies.items }
    {
        Base { copies }
    }

    /// How many copies there are.
    pub fn copies(&self) -> usize
        ensures { result ≡ length self.now }
    {
        self.copies.len()
    }

    /// The tuples of a copy, record by record; none where there is no such copy.
    pub fn row(&self, copy: u8) -> &[Tuple]
        ensures { result.now ≡ slice_index_or self.now copy [] }
    {
        match self.copies.get(copy as usize) {
            Some(row) => row.as_slice(),
            None => &[],
        }
    }

    /// The tuple of a copy and a record; one of version 0 without votes where there is none.
    pub fn tuple(&self, copy: u8, rec: u8) -> Tuple
        ensures { result ≡ words.start_tuple self.now copy rec }
    {
        match self.row(copy).get(rec as usize) {
            Some(tuple) => *tuple,
            None => Tuple {
                version: 0,
                value: Val::number(0),
                generation: 0,
                config: Config::none(),
            },
        }
    }

    /// The tuple of a copy and a record.
    pub fn at(&self, copy: u8, rec: u8) -> Tuple
        requires within { words.IsWithin self.now copy rec }
        ensures { result ≡ words.start_tuple self.now copy rec }
    {
        self.copies[copy as usize][rec as usize]
    }
}
