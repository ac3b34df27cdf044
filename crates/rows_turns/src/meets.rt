//! What sessions came upon in a history.

use qc_event::{Cause, Entry, Event, How, Kind, Name, Refusal};

/// Whether a copy refused one what another holds.
pub(crate) fn meets_lock(entries: &[Entry]) -> bool {
    entries.iter().any(|entry| {
        matches!(
            entry.event,
            Event::Refused {
                refusal: Refusal::Blocked(_),
                ..
            }
        )
    })
}

// The session of a top.
fn session_of_top(entries: &[Entry], top: &Name) -> Option<u8> {
    entries.iter().find_map(|entry| match entry.event {
        Event::Start {
            name,
            kind: Kind::User { session, .. },
        } if name == *top => Some(session),
        _ => None,
    })
}

// The session of a transaction.
fn session_of(entries: &[Entry], name: &Name) -> Option<u8> {
    let number = name.number(0)?;
    session_of_top(entries, &Name::top(number))
}

// Whether another session marked this one.
fn is_marked_by_another(entries: &[Entry], session: u8) -> bool {
    entries.iter().any(|entry| match entry.event {
        Event::Mark {
            by,
            session: marked,
        } if marked == session => { session_of(entries, &by) != Some(session) }
        _ => false,
    })
}

/// Whether a transaction was killed in a session that another has marked.
pub(crate) fn meets_mark(entries: &[Entry]) -> bool {
    entries.iter().any(|entry| match entry.event {
        Event::End {
            name,
            how: How::Abort(Cause::Killed),
        } => match session_of(entries, &name) {
            Some(session) => is_marked_by_another(entries, session),
            None => false,
        },
        _ => false,
    })
}

// Whether a top has ended within the first entries.
fn has_ended(entries: &[Entry], count: usize, top: &Name) -> bool {
    entries.iter().take(count).any(
        |entry| matches!(entry.event, Event::End { name, .. } if name == *top),
    )
}

// The record that a manager reads or writes.
fn record_of(kind: &Kind) -> Option<u8> {
    match kind {
        Kind::Read { rec } | Kind::Write { rec, .. } => Some(*rec),
        Kind::Reconf { .. } | Kind::User { .. } | Kind::Access => None,
    }
}

// Whether a top reads or writes a record.
fn uses(entries: &[Entry], top: &Name, rec: u8) -> bool {
    entries.iter().any(|entry| match &entry.event {
        Event::Start { name, kind } => top.is_ancestor(name) && record_of(kind) == Some(rec),
        _ => false,
    })
}

// Whether a top of another session than this is open behind the first entries, and reads or writes a record.
fn is_amid(entries: &[Entry], count: usize, session: Option<u8>, rec: u8) -> bool {
    entries.iter().take(count).any(|entry| match &entry.event {
        Event::Start {
            name,
            kind: Kind::User { session: other, .. },
        } if name.len() == 1 => {
            Some(*other) != session && !has_ended(entries, count, name) && uses(entries, name, rec)
        }
        _ => false,
    })
}

/// Whether the quorums of a record were changed while a top of another session was open that reads or writes it.
pub(crate) fn meets_change(entries: &[Entry]) -> bool {
    entries.iter().enumerate().any(|(at, entry)| match &entry.event {
        Event::Start {
            name,
            kind: Kind::Reconf { rec, .. },
        } => is_amid(entries, at, session_of(entries, name), *rec),
        _ => false,
    })
}
