//! What some entry of a history tells. None of these calls takes memory.
ghost use Rattle.std.specs.Prelude.{◌≡◌, ◌==◌, ◌↔◌, ◌&&◌, false, nat_le, IsTrue, Some, reverse};
ghost use Rattle.std.specs.Option.{option_map_or};
ghost use Rattle.qc_event.specs.declared.event.How.TheVariants.{Abort};
ghost use Rattle.qc_event.specs.History as history;
ghost use Rattle.qc_event.specs.Requests as requests;
ghost use Rattle.qc_event.specs.Standing as standing;
ghost use Rattle.qc_event.specs.Users as words;
ghost use Rattle.qc_scan.specs.Children as children;

use crate::same::same_cause;
use crate::scan::{end, start};
use crate::standing::{is_child, is_manager};
use qc_event::{Cause, Entry, Event, How, Name, Why};

// Whether a name was started as a manager.
fn is_started_manager(h: &[Entry], n: &Name) -> bool
    ensures { IsTrue result
        ↔ standing.Started (reverse h.now) n.now (λ b. standing.IsManager b.kind) }
{
    match start(h, n) {
        Some(b) => is_manager(&b.kind()),
        None => false,
    }
}

// Whether a name ended by an abort with a cause.
fn is_aborted_for(h: &[Entry], n: &Name, cause: &Cause) -> bool
    ensures { IsTrue result ↔ (history.end (reverse h.now) n.now ≡ Some (Abort cause.now)) }
{
    match end(h, n) {
        Some(How::Abort(c)) => same_cause(&c, cause),
        _ => false,
    }
}

fn aborts_child(h: &[Entry], n: &Name, cause: &Cause, e: &Entry) -> bool
    ensures { IsTrue result ↔ children.AbortsChild (reverse h.now) n.now cause.now e.now.event }
{
    match &e.event {
        Event::End { name, how: _ } => {
            is_child(n, name) && is_started_manager(h, name) && is_aborted_for(h, name, cause)
        }
        _ => false,
    }
}

/// Whether a manager child of a transaction was aborted with a cause.
pub fn is_child_aborted(h: &[Entry], n: &Name, cause: &Cause) -> bool
    ensures { IsTrue result ↔ words.ChildAborted (reverse h.now) n.now cause.now }
{
    h.iter().any(|e| aborts_child(h, n, cause, e))
}

/// The number of a name's top, and 0 of the root.
pub fn top_number(n: &Name) -> u64
    ensures { result ≡ words.top_number n.now }
{
    n.number(0).unwrap_or(0)
}

fn is_mark(e: &Entry, session: u8, number: u64) -> bool
    ensures { result ≡ option_map_or
        (λ m. (m.1 == session) && nat_le number (words.top_number m.0))
        (words.mark_of e.now.event) false }
{
    match &e.event {
        Event::Mark {
            by,
            session: marked,
        } => *marked == session && number <= top_number(by),
        _ => false,
    }
}

/// Whether a mark of a session stands, by a transaction whose top has at least a number.
pub fn is_marked(h: &[Entry], session: u8, number: u64) -> bool
    ensures { result ≡ words.is_marked (reverse h.now) session number }
{
    h.iter().any(|e| is_mark(e, session, number))
}

fn is_why(a: Why, b: Why) -> bool
    ensures { result ≡ requests.is_why a b }
{
    a == b
}

fn tells_unable(e: &Entry, n: &Name, why: Why) -> bool
    ensures { result ≡ option_map_or (requests.is_why why)
        (requests.unable_in n.now e.now.event) false }
{
    match &e.event {
        Event::Unable { name, why: told } if name == n => is_why(why, *told),
        _ => false,
    }
}

/// Whether an entry tells that a name could not be served, for this reason.
pub fn was_unable(h: &[Entry], n: &Name, why: Why) -> bool
    ensures { result ≡ requests.was_unable (reverse h.now) n.now why }
{
    h.iter().any(|e| tells_unable(e, n, why))
}
