//! Trails that are spoilt in one way.

use crate::renamed::{about, renamed};
use qc_event::{Entry, Name};
use qc_names::lists::append;
use std::alloc::{AllocError, Global};

/// A trail that is spoilt.
#[derive(Drop)]
pub(crate) struct Spoiled {
    pub(crate) entries: Vec<Entry>,
}

impl Spoiled {
    fn new(alloc: Global) -> Self {
        Spoiled {
            entries: Vec::new(alloc),
        }
    }

    fn append_all(&mut self, entries: &[Entry]) -> Result<(), AllocError> {
        for entry in entries {
            append(&mut self.entries, *entry)?;
        }
        Ok(())
    }

    /// Without the entry at a place.
    pub(crate) fn without(alloc: Global, trail: &[Entry], at: usize) -> Result<Self, AllocError> {
        let mut spoiled = Spoiled::new(alloc);
        for (place, entry) in trail.iter().enumerate() {
            if place != at {
                append(&mut spoiled.entries, *entry)?;
            }
        }
        Ok(spoiled)
    }

    /// Without what is about those at or below a name.
    pub(crate) fn without_all(
        alloc: Global,
        trail: &[Entry],
        name: &Name,
    ) -> Result<Self, AllocError> {
        let mut spoiled = Spoiled::new(alloc);
        for entry in trail {
            if !name.is_ancestor(&about(entry)) {
                append(&mut spoiled.entries, *entry)?;
            }
        }
        Ok(spoiled)
    }

    /// With another entry at a place.
    pub(crate) fn with(
        alloc: Global,
        trail: &[Entry],
        at: usize,
        other: Entry,
    ) -> Result<Self, AllocError> {
        let mut spoiled = Spoiled::new(alloc);
        for (place, entry) in trail.iter().enumerate() {
            let kept = if place == at { other } else { *entry };
            append(&mut spoiled.entries, kept)?;
        }
        Ok(spoiled)
    }

    /// With another seat in place of one.
    pub(crate) fn with_seat(
        alloc: Global,
        trail: &[Entry],
        from: u32,
        to: u32,
    ) -> Result<Self, AllocError> {
        let mut spoiled = Spoiled::new(alloc);
        for entry in trail {
            let seat = if entry.seat == from { to } else { entry.seat };
            let event = entry.event;
            append(&mut spoiled.entries, Entry { seat, event })?;
        }
        Ok(spoiled)
    }

    /// With one more entry behind a place.
    pub(crate) fn with_more(
        alloc: Global,
        trail: &[Entry],
        at: usize,
        more: Entry,
    ) -> Result<Self, AllocError> {
        let mut spoiled = Spoiled::new(alloc);
        let (front, back) = trail.split_at(at.saturating_add(1).min(trail.len()));
        spoiled.append_all(front)?;
        append(&mut spoiled.entries, more)?;
        spoiled.append_all(back)?;
        Ok(spoiled)
    }

    /// With the entries at two places exchanged.
    pub(crate) fn exchanged(
        alloc: Global,
        trail: &[Entry],
        one: usize,
        other: usize,
    ) -> Result<Option<Self>, AllocError> {
        let (Some(first), Some(second)) = (trail.get(one), trail.get(other)) else {
            return Ok(None);
        };
        let half = Spoiled::with(alloc, trail, one, *second)?;
        let whole = Spoiled::with(alloc, half.entries.as_slice(), other, *first)?;
        Ok(Some(whole))
    }

    /// With another name in place of one, and of all below it.
    pub(crate) fn with_name(
        alloc: Global,
        trail: &[Entry],
        from: &Name,
        to: &Name,
    ) -> Result<Self, AllocError> {
        let mut spoiled = Spoiled::new(alloc);
        for entry in trail {
            append(&mut spoiled.entries, renamed(entry, from, to))?;
        }
        Ok(spoiled)
    }

    /// With what is about those at or below a name once more behind a place, under another name.
    pub(crate) fn with_again(
        alloc: Global,
        trail: &[Entry],
        at: usize,
        from: &Name,
        to: &Name,
    ) -> Result<Self, AllocError> {
        let mut spoiled = Spoiled::new(alloc);
        for (place, entry) in trail.iter().enumerate() {
            append(&mut spoiled.entries, *entry)?;
            if place == at {
                spoiled.add_again(trail, from, to)?;
            }
        }
        Ok(spoiled)
    }

    fn add_again(&mut self, trail: &[Entry], from: &Name, to: &Name) -> Result<(), AllocError> {
        for entry in trail {
            if from.is_ancestor(&about(entry)) {
                append(&mut self.entries, renamed(entry, from, to))?;
            }
        }
        Ok(())
    }
}
