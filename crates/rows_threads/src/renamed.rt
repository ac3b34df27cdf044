//! Entries under other names.

use qc_event::{Ask, Entry, Event, Grant, Name};

/// Whom an entry is about; a mark is about who made it.
pub(crate) fn about(entry: &Entry) -> Name {
    match &entry.event {
        Event::Start { name, .. } | Event::End { name, .. } | Event::Unable { name, .. } => *name,
        Event::Ask(ask) => ask.access,
        Event::Gone { access, .. } | Event::Refused { access, .. } => *access,
        Event::Granted { grant, .. } => grant.access,
        Event::Mark { by, .. } => *by,
        Event::Ready { top } => *top,
    }
}

// A number that a child may have.
fn narrowed(number: u64) -> u32 {
    u32::try_from(number).unwrap_or(u32::MAX)
}

/// The sibling with the next number.
pub(crate) fn next_to(name: &Name) -> Name {
    match (name.number(0), name.rest()) {
        (None, _) => *name,
        (Some(top), []) => Name::top(top.wrapping_add(1)),
        (Some(_), [.., last]) => match name.parent() {
            Some(parent) if !parent.is_empty() && parent.len() < 17 => {
                parent.child(last.wrapping_add(1))
            }
            _ => *name,
        },
    }
}

// A name, which if it stands at or below the first stands at the same place below the second.
fn moved(name: &Name, from: &Name, to: &Name) -> Name {
    if !from.is_ancestor(name) {
        return *name;
    }
    let mut made = *to;
    for at in from.len()..name.len() {
        if made.is_empty() || made.len() > 17 {
            return made;
        }
        made = made.child(narrowed(name.number(at).unwrap_or(0)));
    }
    made
}

/// An entry with all names at or below the first at the same places below the second, but for causes and refusals.
pub(crate) fn renamed(entry: &Entry, from: &Name, to: &Name) -> Entry {
    let name = moved(&about(entry), from, to);
    let event = match entry.event {
        Event::Start { kind, .. } => Event::Start { name, kind },
        Event::Ask(ask) => Event::Ask(Ask {
            access: name,
            ..ask
        }),
        Event::Gone { why, .. } => Event::Gone { access: name, why },
        Event::Granted { copy, grant } => Event::Granted {
            copy,
            grant: Grant {
                access: name,
                ..grant
            },
        },
        Event::Refused { copy, refusal, .. } => Event::Refused {
            access: name,
            copy,
            refusal,
        },
        Event::Unable { why, .. } => Event::Unable { name, why },
        Event::Mark { session, .. } => Event::Mark { by: name, session },
        Event::Ready { .. } => Event::Ready { top: name },
        Event::End { how, .. } => Event::End { name, how },
    };
    Entry {
        seat: entry.seat,
        event,
    }
}
