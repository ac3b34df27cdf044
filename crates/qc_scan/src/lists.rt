//! What a history lists of a name: its children, and what its accesses asked. None of these calls takes memory.
ghost use Rattle.std.specs.Prelude.{◌≡◌, length, reverse, slice_get};
ghost use Rattle.qc_event.specs.History as words;
ghost use Rattle.qc_event.specs.Standing as standing;

use crate::scan::end;
use crate::standing::is_child;
use qc_event::{Ask, Entry, Event, Name};

fn child_in(e: &Entry, n: &Name) -> Option<Name>
    ensures { result ≡ words.child_in n.now e.now.event }
{
    match &e.event {
        Event::Start { name, kind: _ } if is_child(n, name) => Some(*name),
        _ => None,
    }
}

/// How many children of a name have started.
pub fn children(h: &[Entry], n: &Name) -> usize
    ensures { result ≡ length (words.children (reverse h.now) n.now) }
{
    h.iter().filter_map(|e| child_in(e, n)).count()
}

/// The first started child that has no end.
pub fn open_child(h: &[Entry], n: &Name) -> Option<Name>
    ensures { result ≡ standing.open_child (reverse h.now) n.now }
{
    h.iter()
        .filter_map(|e| child_in(e, n))
        .find(|c| end(h, c).is_none())
}

// The request of a manager's access, where an entry is one.
fn ask_below(e: &Entry, m: &Name) -> Option<Ask>
    ensures { result ≡ words.ask_below m.now e.now.event }
{
    match &e.event {
        Event::Ask(ask) if is_child(m, &ask.access) => Some(*ask),
        _ => None,
    }
}

/// How many requests of a manager's accesses the entries have.
pub fn count_asks(h: &[Entry], m: &Name) -> usize
    ensures { result ≡ length (words.asks (reverse h.now) m.now) }
{
    h.iter().filter_map(|e| ask_below(e, m)).count()
}

/// A request of a manager's accesses, by its place among them, counted from 0.
pub fn nth_ask(h: &[Entry], m: &Name, k: usize) -> Option<Ask>
    ensures { result ≡ slice_get (words.asks (reverse h.now) m.now) k }
{
    h.iter().filter_map(|e| ask_below(e, m)).nth(k)
}
