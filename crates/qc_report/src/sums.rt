//! What one pass over the entries of a history sums up.
ghost use Rattle.std.specs.Prelude.{◌≡◌, ◌<◌, ◌++◌, ◌∷◌, [], List, Some, IfOk, OnOk, length, slice_get};
ghost use Rattle.qc_event.specs.declared.event.Entry.{Entry};
ghost use Rattle.qc_report.specs.Counts.{TallyHasRoom, counts};
ghost use Rattle.qc_report.specs.Report as spec;

use crate::history::History;
use crate::lines::{push_doubt, push_entry};
use crate::page::Page;
use crate::tally::{Tally, in_doubt};
use qc_event::Table;
use qc_trail::Outline;
use std::alloc::{AllocError, Global};

/// The lines of the ends among entries, those of the tops in doubt, and how many tops there were.
#[derive(Drop)]
pub(crate) struct Sums {
    pub(crate) ends: Page,
    pub(crate) doubts: Page,
    pub(crate) tally: Tally,
}

impl Sums {
    fn new(alloc: Global) -> Self
        ensures ends { result.ends ≡ [] }
        ensures doubts { result.doubts ≡ [] }
        ensures tally { (trail : List Entry) → result.tally ≡ counts trail [] }
    {
        Sums {
            ends: Page::new(alloc),
            doubts: Page::new(alloc),
            tally: Tally::none(),
        }
    }

    // Takes in the entry at a place of the history.
    fn take_in(&mut self, table: &Table, history: &History<'_>, at: usize) -> Result<(), AllocError>
        requires within { at < length history.now }
        requires room { TallyHasRoom self.old.tally }
        ensures ends { OnOk result ((entry : Entry) → slice_get history.now at ≡ Some entry
            → self.new.ends
            ≡ self.old.ends ++ spec.event_line table.now history.now entry.event) }
        ensures doubts { OnOk result ((entry : Entry) → slice_get history.now at ≡ Some entry
            → self.new.doubts ≡ self.old.doubts ++ spec.doubt_line history.now entry.event) }
        ensures tally { OnOk result ((before : List Entry) (entry : Entry)
            → slice_get history.now at ≡ Some entry → self.old.tally ≡ counts history.now before
            → self.new.tally ≡ counts history.now (before ++ entry ∷ [])) }
    {
        let outline = history.trail().outline(at);
        let is_doubt = in_doubt(history, &outline);
        self.tally.count(&outline, is_doubt);
        push_entry(&mut self.ends, table, history, at, &outline)?;
        match &outline {
            Outline::Ready { top } if is_doubt => push_doubt(&mut self.doubts, top),
            _ => Ok(()),
        }
    }

    /// Sums up a history.
    pub(crate) fn of(
        alloc: Global,
        table: &Table,
        history: &History<'_>,
    ) -> Result<Self, AllocError>
        ensures ends { IfOk result
            (λ sums. sums.ends ≡ spec.event_lines table.now history.now history.now) }
        ensures doubts { IfOk result
            (λ sums. sums.doubts ≡ spec.doubt_lines history.now history.now) }
        ensures tally { IfOk result (λ sums. sums.tally ≡ counts history.now history.now) }
    {
        let mut sums = Sums::new(alloc);
        let trail = history.trail();
        for at in 0..trail.len() {
            sums.take_in(table, history, at)?;
        }
        Ok(sums)
    }
}
