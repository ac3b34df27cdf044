//! That a session does one thing after another, but for branches, which do theirs at once.

use crate::deeds::{Deed, Told, top_number};
use crate::fault::Fault;
use qc_event::{Cause, Entry, Event, How, Kind, Name, is_client};

// Who acts: who asked for an abort, and else who starts, marks, is ready or ends.
fn actor(event: &Event) -> Option<Name> {
    match event {
        Event::Start {
            kind: Kind::Access,
            ..
        } => None,
        Event::Start { name, .. } => Some(*name),
        Event::Mark { by, .. } => Some(*by),
        Event::Ready { top } => Some(*top),
        Event::End {
            how: How::Abort(Cause::Asked { by }),
            ..
        } => Some(*by),
        Event::End { name, .. } => Some(*name),
        _ => None,
    }
}

// The session of a name, which its top tells.
fn session_of(told: &Told, name: &Name) -> Option<u8> {
    let (session, _) = told.of(&Name::top(top_number(name)))?.body()?;
    Some(session)
}

// The child of a name at or above another that stands below it.
fn child_above<'t>(told: &'t Told, upper: &Name, lower: &Name) -> Option<&'t Deed> {
    let number = lower.number(upper.len())?;
    told.child(upper, number)
}

// Whether two are in different branches: where their names part, two children of one parent stand
// under seats that differ from each other, and from the parent's.
fn are_apart(told: &Told, one: &Name, other: &Name) -> bool {
    let parent = one.meet(other);
    match (
        told.of(&parent),
        child_above(told, &parent, one),
        child_above(told, &parent, other),
    ) {
        (Some(parent), Some(first), Some(second)) => {
            first.seat != second.seat && first.seat != parent.seat && second.seat != parent.seat
        }
        _ => false,
    }
}

// Whether one that is open may be while another acts.
fn may_be_open(told: &Told, open: &Deed, actor: &Name) -> bool {
    open.name.is_ancestor(actor)
        || session_of(told, &open.name) != session_of(told, actor)
        || are_apart(told, &open.name, actor)
}

fn check_turn(told: &Told, at: usize, actor: &Name) -> Result<(), Fault> {
    for deed in told.deeds.iter() {
        let is_open = deed.start < at && !deed.is_done_by(at);
        if is_open && !may_be_open(told, deed, actor) {
            return Err(Fault::Turn(*actor));
        }
    }
    Ok(())
}

/// That whoever acts does so while each of its session that is not done is an ancestor of it, or in
/// another branch.
pub(crate) fn check_turns(told: &Told, trail: &[Entry]) -> Result<(), Fault> {
    for (at, entry) in trail.iter().enumerate() {
        if is_client(entry.seat) {
            if let Some(actor) = actor(&entry.event) {
                check_turn(told, at, &actor)?;
            }
        }
    }
    Ok(())
}
