//! Which names may start: a new top, or the next child of a name that is going on. None of these calls
//! takes memory.
ghost use Rattle.std.specs.Prelude.{◌≡◌, ◌↔◌, ◌++◌, ◌+◌, ◌∷◌, [], IsTrue, length};
ghost use Rattle.qc_event.specs.History.{children};
ghost use Rattle.qc_event.specs.Starts as words;
ghost use Rattle.qc_event.specs.Users as users;
ghost use Rattle.qc_names.specs.Name as name;

use crate::users::{may_start_top, stands_under};
use qc_event::{Kind, Name, is_client};
use qc_scan::{Begun, Looks, Setting, front, is_going, is_manager};

/// Where a child of a kind may stand, started under a seat: an access stands under a manager, and under
/// the seat of the manager's start.
fn stands(setting: &Setting, seat: u32, parent: &Begun, depth: usize, kind: &Kind) -> bool
    ensures { IsTrue result ↔ words.Stands setting.now seat parent.now depth kind.now }
{
    match kind {
        Kind::Access => is_manager(&parent.kind()) && seat == parent.seat(),
        _ => stands_under(setting, parent, depth, kind),
    }
}

fn is_next_child<H: Looks>(h: &H, n: &Name) -> bool
    ensures { IsTrue result ↔ (n.now
        ≡ name.front n.now ++ (length (children (H.past h.now) (name.front n.now)) + 1) ∷ []) }
{
    let parent = front(n);
    match n.number(parent.len()) {
        Some(number) => number > 0 && number - 1 == h.children(&parent) as u64,
        None => false,
    }
}

/// Whether a name may start as the next child of a parent that is going on.
fn may_start_next<H: Looks>(setting: &Setting, h: &H, seat: u32, n: &Name, kind: &Kind) -> bool
    ensures { IsTrue result ↔ users.MayStartNext
        (λ p. words.Stands setting.now seat p (length n.now) kind.now) (H.past h.now) seat n.now }
{
    let parent = front(n);
    is_client(seat)
        && is_going(h, &parent)
        && !h.is_ready(&parent)
        && is_next_child(h, n)
        && match h.start(&parent) {
            Some(begun) => stands(setting, seat, &begun, n.len(), kind),
            None => false,
        }
}

/// Whether a name may start.
pub fn may_start<H: Looks>(setting: &Setting, h: &H, seat: u32, n: &Name, kind: &Kind) -> bool
    ensures { IsTrue result ↔ words.Starts setting.now (H.past h.now) seat n.now kind.now }
{
    match (n.len(), n.number(0)) {
        (1, Some(number)) => may_start_top(h, seat, number, kind),
        (_, None) => false,
        _ => may_start_next(setting, h, seat, n, kind),
    }
}
