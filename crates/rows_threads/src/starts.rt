//! Starts that are spoilt.

use crate::renamed::about;
use crate::spoiled::Spoiled;
use qc_event::{Entry, Event, Kind, Val};
use std::alloc::{AllocError, Global};

// Another kind in place of one, where it is the one that is spoilt.
fn other_kind(slip: &str, kind: &Kind) -> Option<Kind> {
    match (slip, kind) {
        ("value", Kind::Write { rec, value }) => Some(Kind::Write {
            rec: *rec,
            value: Val::number(value.as_number().map_or(0, |n| n.wrapping_add(1))),
        }),
        ("record", Kind::Read { rec }) => Some(Kind::Read { rec: *rec ^ 1 }),
        ("body", Kind::User { session, body }) => Some(Kind::User {
            session: *session,
            body: body.wrapping_add(1),
        }),
        ("session", Kind::User { session, body }) => Some(Kind::User {
            session: *session ^ 1,
            body: *body,
        }),
        _ => None,
    }
}

/// With another kind of the first below a top that can have one: another value, record, body or session.
pub(crate) fn start_as(
    alloc: Global,
    slip: &str,
    trail: &[Entry],
) -> Result<Option<Spoiled>, AllocError> {
    for (at, entry) in trail.iter().enumerate() {
        if let Event::Start { name, kind } = &entry.event {
            if let Some(kind) = other_kind(slip, kind) {
                if name.len() > 1 {
                    let other = Entry {
                        seat: entry.seat,
                        event: Event::Start { name: *name, kind },
                    };
                    return Ok(Some(Spoiled::with(alloc, trail, at, other)?));
                }
            }
        }
    }
    Ok(None)
}

/// With another seat of the first start below a top.
pub(crate) fn with_seat(alloc: Global, trail: &[Entry]) -> Result<Option<Spoiled>, AllocError> {
    for (at, entry) in trail.iter().enumerate() {
        if matches!(entry.event, Event::Start { .. }) && about(entry).len() > 1 {
            let other = Entry {
                seat: entry.seat.wrapping_add(1),
                event: entry.event,
            };
            return Ok(Some(Spoiled::with(alloc, trail, at, other)?));
        }
    }
    Ok(None)
}
