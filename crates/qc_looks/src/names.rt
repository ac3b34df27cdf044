//! How names stand in a history, by its index.
ghost use Rattle.std.specs.Prelude.{◌≡◌, ◌↔◌, ◌<◌, IsTrue, Some, is_none, length};
ghost use Rattle.qc_event.specs.declared.event.How.TheVariants.{Abort};
ghost use Rattle.qc_event.specs.Base.{Setting};
ghost use Rattle.qc_event.specs.History as words;
ghost use Rattle.qc_event.specs.Legal.{Legal};
ghost use Rattle.qc_event.specs.Standing as standing;
ghost use Rattle.qc_event.specs.Users as users;
ghost use Rattle.qc_history.specs.Looking.{WhereLegal};
ghost use Rattle.qc_looks.specs.Names.{IsAbortedManager};

use qc_event::{Cause, How, Name};
use qc_history::History;
use qc_scan::{Begun, is_manager, same_cause, start_in};

/// How many numbers the longest name has that has children.
const DEEPEST: usize = 17;

/// The start of a name.
pub(crate) fn begun(history: &History, n: &Name) -> Option<Begun>
    ensures { WhereLegal history.now (result ≡ words.start history.now n.now) }
{
    let Some(at) = history.names().start(n) else {
        return None;
    };
    match history.entries().get(at as usize) {
        Some(entry) => start_in(&entry, n),
        None => None,
    }
}

/// How many children of a name have started.
pub(crate) fn children(history: &History, n: &Name) -> usize
    ensures { WhereLegal history.now (result ≡ length (words.children history.now n.now)) }
{
    if n.is_empty() {
        history.tops()
    } else {
        history.children(n)
    }
}

/// Whether each started child of a name has its end.
pub(crate) fn children_ended(history: &History, n: &Name) -> bool
    ensures { WhereLegal history.now
        (result ≡ is_none (standing.open_child history.now n.now)) }
{
    if n.is_empty() {
        return history.settled();
    }
    if n.len() > DEEPEST {
        return true;
    }
    match history.open_child(n) {
        Some(_) => false,
        None => true,
    }
}

fn manages(history: &History, c: &Name) -> bool
    ensures { WhereLegal history.now (IsTrue result
        ↔ standing.Started history.now c.now (λ b. standing.IsManager b.kind)) }
{
    match begun(history, c) {
        Some(b) => is_manager(&b.kind()),
        None => false,
    }
}

fn was_aborted_for(history: &History, c: &Name, cause: &Cause) -> bool
    ensures { WhereLegal history.now
        (IsTrue result ↔ (words.end history.now c.now ≡ Some (Abort cause.now))) }
{
    match history.end(c) {
        Some(how) => is_abort_for(&how, cause),
        None => false,
    }
}

fn is_abort_for(how: &How, cause: &Cause) -> bool
    ensures { IsTrue result ↔ (how.now ≡ Abort cause.now) }
{
    match how {
        How::Abort(own) => same_cause(own, cause),
        How::Commit(_) => false,
    }
}

fn is_aborted_manager(history: &History, c: &Name, cause: &Cause) -> bool
    ensures { WhereLegal history.now
        (IsTrue result ↔ IsAbortedManager history.now c.now cause.now) }
{
    if !manages(history, c) {
        return false;
    }
    was_aborted_for(history, c, cause)
}

/// Whether a manager child of a transaction was aborted with a cause.
pub(crate) fn is_child_aborted(history: &History, n: &Name, cause: &Cause) -> bool
    requires legal { (setting : Setting) × Legal setting history.now }
    ensures { IsTrue result ↔ users.ChildAborted history.now n.now cause.now }
{
    if n.is_empty() {
        return false;
    }
    if n.len() > DEEPEST {
        return false;
    }
    let _most = history.len();
    for k in 0..history.children(n) {
        if is_aborted_manager(history, &n.child(k as u32 + 1), cause) {
            return true;
        }
    }
    false
}
