//! The tries of a body among the children of a transaction.

use crate::deeds::{Deed, Told, number_below};
use qc_event::Name;
use qc_script::Body;

fn is_try(of: &Name, body: u32, deed: &Deed) -> bool {
    match deed.body() {
        Some((_, number)) => number == body && number_below(of, &deed.name).is_some(),
        None => false,
    }
}

impl Told {
    /// The first try of a body below this transaction.
    pub(crate) fn first_try(&self, of: &Name, body: u32) -> Option<&Deed> {
        self.deeds.iter().find(|deed| is_try(of, body, deed))
    }

    /// The last try of a body that started before a place.
    pub(crate) fn try_before(&self, of: &Name, body: u32, at: usize) -> Option<&Deed> {
        let mut last = None;
        for deed in self.deeds.iter() {
            if is_try(of, body, deed) && deed.start < at {
                last = Some(deed);
            }
        }
        last
    }

    /// The last try of a body.
    pub(crate) fn last_try(&self, of: &Name, body: u32) -> Option<&Deed> {
        self.try_before(of, body, usize::MAX)
    }

    /// How many tries of a body started before a place.
    pub(crate) fn tries_before(&self, of: &Name, body: u32, at: usize) -> usize {
        self.deeds
            .iter()
            .filter(|deed| is_try(of, body, deed) && deed.start < at)
            .count()
    }

    /// Whether a body has tries left.
    pub(crate) fn has_tries_left(&self, of: &Name, body: &Body) -> bool {
        self.tries_before(of, body.number, usize::MAX) < body.tries as usize
    }

    /// Where the last of a transaction's children ended, of those below this number.
    pub(crate) fn last_end(&self, of: &Name, next: u64) -> usize {
        let mut last: usize = 0;
        for deed in self.deeds.iter() {
            match (number_below(of, &deed.name), &deed.end) {
                (Some(number), Some(end)) if number < next => last = last.max(end.at),
                _ => {}
            }
        }
        last
    }
}
