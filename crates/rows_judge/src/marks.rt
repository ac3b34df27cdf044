//! Marks, and whom they are for.

use crate::deeds::{Deed, Marked, Told, top_number};
use crate::fault::Fault;
use qc_event::Name;

// Whether a mark is for a transaction: of its session, by one whose top has at least the number of its own.
fn is_for(mark: &Marked, of: &Deed) -> bool {
    match of.body() {
        Some((session, _)) => {
            mark.session == session && top_number(&mark.by) >= top_number(&of.name)
        }
        None => false,
    }
}

/// Whether a mark for a transaction stands before a place.
pub(crate) fn is_marked_by(told: &Told, of: &Deed, at: usize) -> bool {
    told.marks
        .iter()
        .any(|mark| mark.at < at && is_for(mark, of))
}

// Whether one stands at or below a transaction under this seat.
fn is_under(told: &Told, name: &Name, seat: u32) -> bool {
    told.deeds
        .iter()
        .any(|deed| deed.seat == seat && deed.name.is_ancestor(name))
}

/// Whether the session itself made a mark for its transaction, up to a place: under its seat, or in
/// a branch that it has waited for. What another branch marks meanwhile it need not know.
pub(crate) fn is_marked_by_itself(told: &Told, of: &Deed, at: usize) -> bool {
    told.marks.iter().any(|mark| mark.at <= at
        && is_for(mark, of)
        && is_under(told, &mark.by, of.seat))
}

/// That user transactions that have started make the marks, each under its seat.
pub(crate) fn check_marks(told: &Told) -> Result<(), Fault> {
    for mark in told.marks.iter() {
        match told.of(&mark.by) {
            Some(by) if by.body().is_some() && by.start < mark.at => {
                if by.seat != mark.seat {
                    return Err(Fault::Seat(mark.by));
                }
            }
            _ => return Err(Fault::Mark(mark.by)),
        }
    }
    Ok(())
}
