//! Ends and marks that are spoilt.

use crate::renamed::about;
use crate::spoiled::Spoiled;
use crate::spots::{
    body_of, is_commit, is_killed, is_last_child, is_marked, is_own_abort, marked_itself, seat_of,
};
use qc_event::{Answer, Cause, Entry, Event, How, LEDGER_SEAT, Name};
use std::alloc::{AllocError, Global};

// Whether an end can be spoilt so.
fn fits(slip: &str, trail: &[Entry], entry: &Entry) -> bool {
    let name = about(entry);
    let is_top = name.len() == 1;
    match slip {
        "top_aborted" => is_commit(entry) && is_top,
        "child_aborted" => is_last_child(trail, entry),
        "committed" | "orphan" => is_own_abort(entry) && !is_top,
        "cause" | "asked" => is_own_abort(entry),
        "unmarked" => match body_of(trail, &name) {
            Some((session, _)) => is_own_abort(entry) && !is_marked(trail, session),
            None => false,
        },
        "spared" => is_killed(entry) && marked_itself(trail, &name),
        _ => false,
    }
}

// How it ends then.
fn other_end(slip: &str, name: &Name) -> How {
    match slip {
        "top_aborted" | "child_aborted" => How::Abort(Cause::Asked { by: *name }),
        "committed" | "spared" => How::Commit(Answer::Nothing),
        "orphan" => How::Abort(Cause::Orphan(name.parent().unwrap_or(*name))),
        "asked" => How::Abort(Cause::Asked {
            by: name.parent().unwrap_or(*name),
        }),
        "unmarked" => How::Abort(Cause::Killed),
        _ => How::Abort(Cause::Last),
    }
}

// With a mark of another session in place of the first; or without the first.
fn mark_as(alloc: Global, slip: &str, trail: &[Entry]) -> Result<Option<Spoiled>, AllocError> {
    for (at, entry) in trail.iter().enumerate() {
        if let Event::Mark { by, session } = &entry.event {
            let other = Entry {
                seat: entry.seat,
                event: Event::Mark {
                    by: *by,
                    session: *session ^ 1,
                },
            };
            return Ok(Some(match slip {
                "mark_dropped" => Spoiled::without(alloc, trail, at)?,
                _ => Spoiled::with(alloc, trail, at, other)?,
            }));
        }
    }
    Ok(None)
}

/// With another end of the first that can have one; or with the first mark spoilt.
pub(crate) fn end_as(
    alloc: Global,
    slip: &str,
    trail: &[Entry],
) -> Result<Option<Spoiled>, AllocError> {
    if slip == "mark_dropped" || slip == "mark_other" {
        return mark_as(alloc, slip, trail);
    }
    for (at, entry) in trail.iter().enumerate() {
        if fits(slip, trail, entry) {
            let name = about(entry);
            let how = other_end(slip, &name);
            let seat = match how {
                How::Commit(_) if name.len() == 1 => LEDGER_SEAT,
                _ => seat_of(trail, &name),
            };
            let other = Entry {
                seat,
                event: Event::End { name, how },
            };
            return Ok(Some(Spoiled::with(alloc, trail, at, other)?));
        }
    }
    Ok(None)
}

/// With a mark of another session that the first top makes at its start.
pub(crate) fn mark_more(alloc: Global, trail: &[Entry]) -> Result<Option<Spoiled>, AllocError> {
    let Some(first) = trail.first() else {
        return Ok(None);
    };
    let by = about(first);
    let Some((session, _)) = body_of(trail, &by) else {
        return Ok(None);
    };
    let more = Entry {
        seat: first.seat,
        event: Event::Mark {
            by,
            session: session ^ 1,
        },
    };
    Ok(Some(Spoiled::with_more(alloc, trail, 0, more)?))
}
