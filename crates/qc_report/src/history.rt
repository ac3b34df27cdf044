//! The history that a report is of.
ghost use Rattle.std.specs.Prelude.{◌≡◌, reverse, IfOk};
ghost use Rattle.qc_event.specs.Base.{Setting};
ghost use Rattle.qc_event.specs.Dead as dead_words;
ghost use Rattle.qc_event.specs.History.{kind_of};
ghost use Rattle.qc_event.specs.Legal.{Legal};
ghost use Rattle.qc_history.specs.Index.{IsOf};
ghost use Rattle.qc_history.specs.Looking.{is_of_access};
ghost use Rattle.qc_report.specs.Indexed.{IsLegal};

use crate::scan::{is_access, kind, outcome};
use qc_event::{Kind, LIMIT, Name, Outcome};
use qc_history::Index;
use qc_trail::Trail;
use std::alloc::{AllocError, Global};
use std::marker::Model;

/// The entries of a history, the oldest first. A legal one may have an index beside it: then a name is found in a
/// step for each of its numbers. Without one, each look-up goes over all entries.
#[derive(Debug, Drop)]
pub struct History<'a> {
    trail: &'a Trail,
    index: Option<&'a Index>,
}

impl<'a> Model for History<'a> {
    ghost use Rattle.std.specs.Prelude.{List};
    ghost use Rattle.std.specs.Option.{option_map};
    ghost use Rattle.qc_event.specs.declared.event.Entry.{Entry};
    ghost use Rattle.qc_report.specs.Indexed.{IsIndexed};

    ghost Value = { List Entry };

    ghost view = { λ h. h.trail.now };

    ghost invariant = { λ h. IsIndexed h.trail.now (option_map (λ i. i.now) h.index) };
}

impl<'a> History<'a> {
    /// Any entries, without an index.
    pub fn plain(trail: &'a Trail) -> Self
        ensures { result ≡ trail.now }
    {
        History { trail, index: None }
    }

    /// The entries of a legal history, and its index.
    pub fn indexed(trail: &'a Trail, index: &'a Index) -> Self
        requires legal { IsLegal trail.now }
        requires index { IsOf index.now (reverse trail.now) }
        ensures { result ≡ trail.now }
    {
        History {
            trail,
            index: Some(index),
        }
    }

    /// The entries, the oldest first.
    pub(crate) fn trail(&self) -> &Trail
        ensures { result.now ≡ self.now }
    {
        self.trail
    }

    /// What a name was started for.
    pub(crate) fn kind(&self, name: &Name) -> Option<Kind>
        ensures { result ≡ kind_of (reverse self.now) name.now }
    {
        match self.index {
            Some(index) => index.kind(self.trail, name),
            None => kind(self.trail, name),
        }
    }

    /// Whether a name was started as an access.
    pub(crate) fn is_access(&self, name: &Name) -> bool
        ensures { result ≡ is_of_access (kind_of (reverse self.now) name.now) }
    {
        match self.index {
            Some(index) => index.is_access(self.trail, name),
            None => is_access(self.trail, name),
        }
    }

    /// How a name stands.
    pub(crate) fn outcome(&self, name: &Name) -> Outcome
        ensures { result ≡ dead_words.outcome (reverse self.now) name.now }
    {
        match self.index {
            Some(index) => index.outcome(name),
            None => outcome(self.trail, name),
        }
    }
}

/// The index of a legal history, its oldest entry first: for each entry a step for each number of its name. More
/// entries than a history takes are answered as want of memory.
pub fn index_of(alloc: Global, trail: &Trail) -> Result<Index, AllocError>
    ensures { IfOk result (λ index. (setting : Setting) → Legal setting (reverse trail.now)
        → IsOf index (reverse trail.now)) }
{
    if trail.len() > LIMIT {
        return Err(AllocError);
    }
    let mut index = Index::new(alloc);
    for at in 0..trail.len() {
        index.take_in(&trail.outline(at))?;
    }
    Ok(index)
}
