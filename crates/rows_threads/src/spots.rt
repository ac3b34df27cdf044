//! Places of a trail, and what stands there.

use crate::renamed::{about, next_to};
use qc_event::{Answer, Cause, Entry, Event, How, Kind, Name};

/// The kind with which a name starts.
pub(crate) fn kind_of(trail: &[Entry], of: &Name) -> Option<Kind> {
    for entry in trail {
        if let Event::Start { name, kind } = &entry.event {
            if name == of {
                return Some(*kind);
            }
        }
    }
    None
}

/// Whether a name is a user transaction's.
pub(crate) fn is_user(trail: &[Entry], of: &Name) -> bool {
    matches!(kind_of(trail, of), Some(Kind::User { .. }))
}

/// The session and the body of a user transaction.
pub(crate) fn body_of(trail: &[Entry], of: &Name) -> Option<(u8, u32)> {
    match kind_of(trail, of) {
        Some(Kind::User { session, body }) => Some((session, body)),
        _ => None,
    }
}

/// Whether a name has committed.
pub(crate) fn has_committed(trail: &[Entry], of: &Name) -> bool {
    trail.iter().any(|entry| {
        about(entry) == *of
            && matches!(
                entry.event,
                Event::End {
                    how: How::Commit(_),
                    ..
                }
            )
    })
}

/// Whether the sibling with the next number has started.
pub(crate) fn has_next(trail: &[Entry], of: &Name) -> bool {
    kind_of(trail, &next_to(of)).is_some()
}

/// Whether the parent of a name has committed.
pub(crate) fn is_below_committed(trail: &[Entry], of: &Name) -> bool {
    match of.parent() {
        Some(parent) => has_committed(trail, &parent),
        None => false,
    }
}

/// The last top to start.
pub(crate) fn last_top(trail: &[Entry]) -> Option<Name> {
    let mut last = None;
    for entry in trail {
        if let Event::Start { name, .. } = &entry.event {
            if name.len() == 1 {
                last = Some(*name);
            }
        }
    }
    last
}

/// The top before, where it is of the same session.
pub(crate) fn top_before(trail: &[Entry], of: &Name) -> Option<Name> {
    let (session, _) = body_of(trail, of)?;
    for entry in trail {
        let name = about(entry);
        if name.len() == 1 && next_to(&name) == *of {
            let (before, _) = body_of(trail, &name)?;
            return if before == session { Some(name) } else { None };
        }
    }
    None
}

/// Where a name starts.
pub(crate) fn start_of(trail: &[Entry], of: &Name) -> Option<usize> {
    trail.iter().position(|entry| matches!(&entry.event, Event::Start { name, .. } if name == of))
}

/// The seat under which a name starts.
pub(crate) fn seat_of(trail: &[Entry], of: &Name) -> u32 {
    for entry in trail {
        if let Event::Start { name, .. } = &entry.event {
            if name == of {
                return entry.seat;
            }
        }
    }
    0
}

/// Whether an entry is the abort of one as it asked for itself.
pub(crate) fn is_own_abort(entry: &Entry) -> bool {
    matches!(
        &entry.event,
        Event::End { name, how: How::Abort(Cause::Asked { by }) } if by == name
    )
}

/// Whether an entry is an abort of one that was killed.
pub(crate) fn is_killed(entry: &Entry) -> bool {
    matches!(
        entry.event,
        Event::End {
            how: How::Abort(Cause::Killed),
            ..
        }
    )
}

/// Whether an entry is a commit.
pub(crate) fn is_commit(entry: &Entry) -> bool {
    matches!(
        entry.event,
        Event::End {
            how: How::Commit(_),
            ..
        }
    )
}

/// Whether an entry is the commit of a user transaction with nothing behind it below a parent that committed.
pub(crate) fn is_last_child(trail: &[Entry], entry: &Entry) -> bool {
    let name = about(entry);
    is_commit(entry)
        && name.len() > 1
        && is_user(trail, &name)
        && !has_next(trail, &name)
        && is_below_committed(trail, &name)
}

/// Whether an entry is the commit of a read with nothing behind it below a parent that committed.
pub(crate) fn is_last_read(trail: &[Entry], entry: &Entry) -> bool {
    let name = about(entry);
    let reads = matches!(
        entry.event,
        Event::End {
            how: How::Commit(Answer::Value(_)),
            ..
        }
    );
    reads && !has_next(trail, &name) && is_below_committed(trail, &name)
}

/// Whether a mark of its own session was made by a name.
pub(crate) fn marked_itself(trail: &[Entry], of: &Name) -> bool {
    let Some((own, _)) = body_of(trail, of) else {
        return false;
    };
    trail.iter().any(
        |entry| matches!(&entry.event, Event::Mark { by, session } if by == of && *session == own),
    )
}

/// Whether a session is marked.
pub(crate) fn is_marked(trail: &[Entry], of: u8) -> bool {
    trail.iter().any(|entry| matches!(&entry.event, Event::Mark { session, .. } if *session == of))
}
