//! How many tops have no end.
ghost use Rattle.std.specs.Prelude.{◌≡◌, [], ◌∷◌, is_some, is_none};
ghost use Rattle.qc_event.specs.History.{child_in};
ghost use Rattle.qc_event.specs.Standing.{open_child};
ghost use Rattle.qc_history.specs.Standing.{OfEach, Grows};
ghost use Rattle.qc_history.specs.Growing.{CanFollow};
ghost use Rattle.qc_history.specs.Opens.{AreOpen, open_tops, ends_top};

use qc_event::{Entry, Event};

// Whether the entry starts a top.
fn starts_top(entry: &Entry) -> bool
    ensures { result ≡ is_some (child_in [] entry.now.event) }
{
    match &entry.event {
        Event::Start { name, .. } => name.len() == 1,
        _ => false,
    }
}

// Whether the entry ends a top.
fn ends_top(entry: &Entry) -> bool
    ensures { result ≡ ends_top entry.now.event }
{
    match &entry.event {
        Event::End { name, .. } => name.len() == 1,
        _ => false,
    }
}

// How many tops have no end, with an entry more.
fn count_after(count: u32, entry: &Entry) -> u32
    requires { CanFollow (λ past. count ≡ open_tops past) entry.now }
    ensures { Grows (λ past. count ≡ open_tops past) (λ past. result ≡ open_tops past) entry.now }
{
    if starts_top(entry) {
        return count + 1;
    }
    if ends_top(entry) {
        return count - 1;
    }
    count
}

/// How many tops of a history have no end.
#[derive(Debug, Drop)]
pub struct Opens {
    count: u32,
}

impl Opens {
    /// None, of no entries.
    pub(crate) fn new() -> Self
        ensures { AreOpen result [] }
    {
        Opens { count: 0 }
    }

    /// Takes in an entry that may come next.
    pub(crate) fn push(&mut self, entry: &Entry)
        requires { CanFollow (AreOpen self.old) entry.now }
        ensures { Grows (AreOpen self.old) (AreOpen self.new) entry.now }
    {
        self.count = count_after(self.count, entry);
    }

    /// Whether each top has its end.
    pub(crate) fn is_none(&self) -> bool
        ensures { OfEach (AreOpen self.now) (λ past. result ≡ is_none (open_child past [])) }
    {
        self.count == 0
    }
}
