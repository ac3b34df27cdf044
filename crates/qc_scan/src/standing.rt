//! How names stand in a history: who may act, and what is open. None of these calls takes memory.
ghost use Rattle.std.specs.Prelude.{◌≡◌, ◌↔◌, IsTrue, MatchOption};
ghost use Rattle.qc_event.specs.History as words;
ghost use Rattle.qc_event.specs.Standing as standing;
ghost use Rattle.qc_names.specs.Name as name;

use crate::looks::Looks;
use qc_event::{How, Kind, Name};

/// Whether a kind is a user transaction.
pub fn is_user(kind: &Kind) -> bool
    ensures { IsTrue result ↔ standing.IsUser kind.now }
{
    matches!(kind, Kind::User { .. })
}

/// Whether a kind is a manager.
pub fn is_manager(kind: &Kind) -> bool
    ensures { IsTrue result ↔ standing.IsManager kind.now }
{
    matches!(
        kind,
        Kind::Read { .. } | Kind::Write { .. } | Kind::Reconf { .. }
    )
}

/// Whether a name is open: it started, and has not ended.
pub fn is_open<H: Looks>(h: &H, n: &Name) -> bool
    ensures { IsTrue result ↔ words.IsOpen (H.past h.now) n.now }
{
    h.start(n).is_some() && h.end(n).is_none()
}

/// Whether a name may go on: it is open and not dead.
pub fn is_going<H: Looks>(h: &H, n: &Name) -> bool
    ensures { IsTrue result ↔ standing.IsGoing (H.past h.now) n.now }
{
    is_open(h, n) && h.dead(n).is_none()
}

/// Whether a name is one number longer than another and begins with it.
pub fn is_child(parent: &Name, n: &Name) -> bool
    ensures { result ≡ words.is_child parent.now n.now }
{
    n.len() == parent.len() + 1 && parent.is_ancestor(n)
}

/// Whether an end is an abort.
pub fn is_abort(how: &How) -> bool
    ensures { IsTrue result ↔ standing.IsAbort how.now }
{
    matches!(how, How::Abort(_))
}

/// Whether a name has ended by an abort.
pub fn was_aborted<H: Looks>(h: &H, n: &Name) -> bool
    ensures { IsTrue result ↔ MatchOption (words.end (H.past h.now) n.now) ⊥ standing.IsAbort }
{
    match h.end(n) {
        Some(how) => is_abort(&how),
        None => false,
    }
}

/// Whether an ancestor other than the name itself is aborted.
pub fn is_orphan_of<H: Looks>(h: &H, n: &Name, a: &Name) -> bool
    ensures { IsTrue result ↔ standing.IsOrphanOf (H.past h.now) n.now a.now }
{
    a.is_ancestor(n) && a != n && was_aborted(h, a)
}

/// A name without its last number; the root's is the root.
pub fn front(n: &Name) -> Name
    ensures { result ≡ name.front n.now }
{
    n.ancestor(n.len().saturating_sub(1))
}

/// Whether a name was started as a user transaction.
pub fn is_started_user<H: Looks>(h: &H, n: &Name) -> bool
    ensures { IsTrue result ↔ standing.Started (H.past h.now) n.now (λ b. standing.IsUser b.kind) }
{
    match h.start(n) {
        Some(b) => is_user(&b.kind()),
        None => false,
    }
}

/// Whether a name was started under a seat.
pub fn is_started_under<H: Looks>(h: &H, seat: u32, n: &Name) -> bool
    ensures { IsTrue result ↔ standing.Started (H.past h.now) n.now (λ b. b.seat ≡ seat) }
{
    match h.start(n) {
        Some(begun) => begun.seat() == seat,
        None => false,
    }
}

/// Whether an access asked under a seat.
pub fn is_asked_under<H: Looks>(h: &H, seat: u32, access: &Name) -> bool
    ensures { IsTrue result
        ↔ MatchOption (words.asked (H.past h.now) access.now) ⊥ (λ a. a.seat ≡ seat) }
{
    match h.asked(access) {
        Some(asked) => asked.seat() == seat,
        None => false,
    }
}
