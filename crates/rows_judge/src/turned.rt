//! Branches that were begun where another could not be.

use crate::bodies::{Bodies, has_body};
use crate::deeds::{Came, Deed, Told, is_below, number_below};
use crate::fault::Fault;
use qc_event::{Cause, Name};

/// Whether another of the bodies that run at once with that of a transaction was not begun.
pub(crate) fn is_turned_back(told: &Told, bodies: &Bodies<'_>, of: &Deed) -> bool {
    match (bodies.row_of(of), of.name.parent()) {
        (Some(row), Some(parent)) => {
            row.iter()
                .any(|body| told.first_try(&parent, body.number).is_none())
        }
        _ => false,
    }
}

// Where one ended as an orphan, and of whom.
fn orphaned(deed: &Deed) -> Option<(usize, Name)> {
    match &deed.end {
        Some(end) => match end.came {
            Came::Aborted(Cause::Orphan(ancestor)) => Some((end.at, ancestor)),
            _ => None,
        },
        None => None,
    }
}

// Whether one has started a child, or made a mark before its end.
fn has_acted(told: &Told, of: &Deed) -> bool {
    told.child(&of.name, 1).is_some()
        || told
            .marks
            .iter()
            .any(|mark| mark.by == of.name && !of.has_ended_by(mark.at))
}

// The branch that was begun before one.
fn branch_before<'t>(told: &'t Told, bodies: &Bodies<'_>, of: &Deed) -> Option<&'t Deed> {
    let row = bodies.row_of(of)?;
    let parent = of.name.parent()?;
    let number = number_below(&parent, &of.name)?;
    let before = told.child(&parent, number.checked_sub(1)?)?;
    let (_, body) = before.body()?;
    if has_body(row, body) {
        Some(before)
    } else {
        None
    }
}

// Whether one is an orphan as the branch before it is, and ended after it.
fn follows(told: &Told, bodies: &Bodies<'_>, of: &Deed, at: usize, ancestor: &Name) -> bool {
    match branch_before(told, bodies, of) {
        Some(before) => match orphaned(before) {
            Some((earlier, another)) => earlier < at && another == *ancestor,
            None => false,
        },
        None => true,
    }
}

/// That a branch which was begun where another could not be did nothing, and ended as an orphan of
/// an aborted ancestor, as all of them do, in order.
pub(crate) fn check_turned_back(told: &Told, bodies: &Bodies<'_>, of: &Deed) -> Result<(), Fault> {
    let Some((at, ancestor)) = orphaned(of) else {
        return Err(Fault::Turned(of.name));
    };
    let is_orphan = is_below(&of.name, &ancestor) && told.is_aborted_by(&ancestor, at);
    if is_orphan && !has_acted(told, of) && follows(told, bodies, of, at, &ancestor) {
        Ok(())
    } else {
        Err(Fault::Turned(of.name))
    }
}
