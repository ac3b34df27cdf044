//! How many triples of runs ended in which way.

use crate::ends::End;
use std::fmt;

/// How many there were, of those that keep the rules by whether the top of the first was committed and what the last
/// read, and how many broke one.
#[derive(Clone, Copy)]
pub(crate) struct Tally {
    triples: u64,
    committed: u64,
    done: u64,
    undone: u64,
    broken: u64,
}

impl Tally {
    pub(crate) fn new() -> Self {
        Tally {
            triples: 0,
            committed: 0,
            done: 0,
            undone: 0,
            broken: 0,
        }
    }

    /// Adds the triples of as many stops as came to the same, by the status of the last run and what it read.
    pub(crate) fn add(&mut self, first: &End, second: &End, code: u8, last: &[u64]) {
        let triples = first.stops.saturating_mul(second.stops);
        let agrees = second.read.is_empty() || second.read.as_slice() == last;
        let count = match (code, last) {
            (0, [5]) if agrees && first.committed => &mut self.committed,
            (0, [5]) if agrees => &mut self.done,
            (0, [0]) if agrees && !first.committed => &mut self.undone,
            _ => &mut self.broken,
        };
        *count = count.saturating_add(triples);
        self.triples = self.triples.saturating_add(triples);
    }
}

impl fmt::Display for Tally {
    fn fmt<W: fmt::Write>(&self, f: &mut fmt::Formatter<W>) -> fmt::Result {
        write!(
            f,
            "{} triples, committed 5: {}, ",
            self.triples, self.committed
        )?;
        write!(f, "not committed 5: {}, 0: {}, ", self.done, self.undone)?;
        write!(f, "broken: {}", self.broken)
    }
}
