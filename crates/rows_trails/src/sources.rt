//! What tells of a history: its entries, or one transaction that is settled.
use qc_event::{Entry, Name, Outcome, dead, outcome};
use qc_moss::Source;

/// A transaction and how it ended; the others are live. It stands for no history.
#[derive(Clone, Copy)]
pub struct Settlement {
    pub name: Name,
    pub outcome: Outcome,
}

impl Source for Settlement {
    ghost tells = { λ _ _. ⊥ };

    fn outcome(&self, name: &Name) -> Outcome {
        if self.name == *name {
            self.outcome
        } else {
            Outcome::Live
        }
    }

    fn dead(&self, name: &Name) -> Option<Name> {
        if self.outcome.is_aborted() && self.name.is_ancestor(name) {
            Some(self.name)
        } else {
            None
        }
    }
}

/// The entries of a history, the oldest first, which need not be legal.
#[derive(Clone, Copy)]
pub struct Scanned<'a> {
    pub entries: &'a [Entry],
}

impl Source for Scanned<'_> {
    ghost tells = { λ _ _. ⊥ };

    fn outcome(&self, name: &Name) -> Outcome {
        outcome(self.entries, name)
    }

    fn dead(&self, name: &Name) -> Option<Name> {
        dead(self.entries, name)
    }
}
