//! Branches that are spoilt.

use crate::renamed::{about, next_to};
use crate::spoiled::Spoiled;
use crate::spots::{body_of, has_next, is_user, kind_of, seat_of, start_of};
use qc_event::{Cause, Entry, Event, How, Name};
use std::alloc::{AllocError, Global};

type Slip = Result<Option<Spoiled>, AllocError>;

// Whether a name is of a branch: a user transaction below another, under another seat.
fn is_branch(trail: &[Entry], of: &Name) -> bool {
    match of.parent() {
        Some(parent) => {
            !parent.is_empty()
                && is_user(trail, of)
                && seat_of(trail, of) != seat_of(trail, &parent)
        }
        None => false,
    }
}

// Whether one is a branch, and the next to it another.
fn begins_two(trail: &[Entry], of: &Name) -> bool {
    let next = next_to(of);
    is_branch(trail, of) && is_branch(trail, &next) && seat_of(trail, of) != seat_of(trail, &next)
}

// The first two branches that stand next to each other.
fn two_branches(trail: &[Entry]) -> Option<(Name, Name)> {
    for entry in trail {
        let name = about(entry);
        if begins_two(trail, &name) {
            return Some((name, next_to(&name)));
        }
    }
    None
}

// With the start of a name under another seat.
fn under(alloc: Global, trail: &[Entry], of: &Name, seat: u32) -> Slip {
    let Some(at) = start_of(trail, of) else {
        return Ok(None);
    };
    let Some(entry) = trail.get(at) else {
        return Ok(None);
    };
    let other = Entry {
        seat,
        event: entry.event,
    };
    Ok(Some(Spoiled::with(alloc, trail, at, other)?))
}

// With the start of a name as of the kind of another.
fn like(alloc: Global, trail: &[Entry], spoiled: &[Entry], of: &Name, model: &Name) -> Slip {
    match (start_of(trail, of), kind_of(trail, model)) {
        (Some(at), Some(kind)) => {
            let other = Entry {
                seat: seat_of(trail, of),
                event: Event::Start { name: *of, kind },
            };
            Ok(Some(Spoiled::with(alloc, spoiled, at, other)?))
        }
        _ => Ok(None),
    }
}

// Two start in each other's place.
fn other_order(alloc: Global, trail: &[Entry], first: &Name, second: &Name) -> Slip {
    match like(alloc, trail, trail, first, second)? {
        Some(half) => like(alloc, trail, half.entries.as_slice(), second, first),
        None => Ok(None),
    }
}

// The second of two starts only behind what the first does first.
fn ahead(alloc: Global, trail: &[Entry], first: &Name, second: &Name) -> Slip {
    let Some(start) = start_of(trail, second) else {
        return Ok(None);
    };
    let next = start.saturating_add(1);
    match trail.get(next) {
        Some(entry) if first.is_ancestor(&about(entry)) => {
            Spoiled::exchanged(alloc, trail, start, next)
        }
        _ => Ok(None),
    }
}

// A manager of the first stands under the seat of the second.
fn crossed(alloc: Global, trail: &[Entry], first: &Name, second: &Name) -> Slip {
    for entry in trail {
        let name = about(entry);
        if name.parent() == Some(*first) && !is_user(trail, &name) {
            return under(alloc, trail, &name, seat_of(trail, second));
        }
    }
    Ok(None)
}

// Two branches that stand next to each other: how the first starts, how the second does, or what
// the first does first.
fn two(alloc: Global, kind: &str, trail: &[Entry]) -> Slip {
    let Some((first, second)) = two_branches(trail) else {
        return Ok(None);
    };
    match kind {
        "branch_seat" => match first.parent() {
            Some(parent) => under(alloc, trail, &first, seat_of(trail, &parent)),
            None => Ok(None),
        },
        "branch_shared" => {
            let (from, to) = (seat_of(trail, &second), seat_of(trail, &first));
            Ok(Some(Spoiled::with_seat(alloc, trail, from, to)?))
        }
        "branch_order" => other_order(alloc, trail, &first, &second),
        "branch_ahead" => ahead(alloc, trail, &first, &second),
        "branch_crossed" => crossed(alloc, trail, &first, &second),
        _ if has_next(trail, &second) => Ok(None),
        _ => Ok(Some(Spoiled::without_all(alloc, trail, &second)?)),
    }
}

// Whether one is a further try of a branch, and its parent's last child.
fn is_last_try(trail: &[Entry], of: &Name) -> bool {
    is_branch(trail, of)
        && !has_next(trail, of)
        && trail.iter().any(|entry| {
            let name = about(entry);
            name != *of
                && name.parent() == of.parent()
                && body_of(trail, &name) == body_of(trail, of)
        })
}

// A further try of a branch is dropped.
fn untried(alloc: Global, trail: &[Entry]) -> Slip {
    for entry in trail {
        let name = about(entry);
        if is_last_try(trail, &name) {
            return Ok(Some(Spoiled::without_all(alloc, trail, &name)?));
        }
    }
    Ok(None)
}

// The end of a branch, and the start of what its parent does behind it, are exchanged.
fn left(alloc: Global, trail: &[Entry]) -> Slip {
    for (at, entry) in trail.iter().enumerate() {
        let name = about(entry);
        let next = next_to(&name);
        if matches!(entry.event, Event::End { .. })
            && is_branch(trail, &name)
            && !is_branch(trail, &next)
        {
            if let Some(start) = start_of(trail, &next) {
                return Spoiled::exchanged(alloc, trail, at, start);
            }
        }
    }
    Ok(None)
}

// Another branch, where a transaction was aborted for one.
fn other_failed(trail: &[Entry], entry: &Entry) -> Option<Event> {
    let Event::End {
        name,
        how: How::Abort(Cause::Child(child)),
    } = &entry.event
    else {
        return None;
    };
    let next = next_to(child);
    if !is_branch(trail, child) || !is_branch(trail, &next) {
        return None;
    }
    Some(Event::End {
        name: *name,
        how: How::Abort(Cause::Child(next)),
    })
}

// A transaction is aborted for another branch.
fn failed(alloc: Global, trail: &[Entry]) -> Slip {
    for (at, entry) in trail.iter().enumerate() {
        if let Some(event) = other_failed(trail, entry) {
            let other = Entry {
                seat: entry.seat,
                event,
            };
            return Ok(Some(Spoiled::with(alloc, trail, at, other)?));
        }
    }
    Ok(None)
}

/// A trail with a branch that is spoilt in a way; nothing where it cannot be.
pub(crate) fn branch_as(alloc: Global, kind: &str, trail: &[Entry]) -> Slip {
    match kind {
        "branch_untried" => untried(alloc, trail),
        "branch_left" => left(alloc, trail),
        "branch_failed" => failed(alloc, trail),
        _ => two(alloc, kind, trail),
    }
}
