//! Under which seats a session's transactions act.

use crate::bodies::Bodies;
use crate::deeds::{Came, Deed, Ended, Told};
use crate::fault::Fault;
use crate::turned::is_turned_back;
use qc_event::{Cause, Entry, Event, Kind, LEDGER_SEAT, Name, is_client};

// Tops of one session share a seat, and those of two do not.
fn check_top(told: &Told, top: &Deed) -> Result<(), Fault> {
    if !is_client(top.seat) {
        return Err(Fault::Seat(top.name));
    }
    let Some((session, _)) = top.body() else {
        return Err(Fault::Other(top.name));
    };
    for other in told.deeds.iter() {
        if let Some((another, _)) = other.body() {
            if other.is_top() && (session == another) != (top.seat == other.seat) {
                return Err(Fault::Seat(top.name));
            }
        }
    }
    Ok(())
}

// What is started below another is under its seat.
fn check_below(told: &Told, name: &Name, seat: u32) -> Result<(), Fault> {
    let Some(parent) = name.parent() else {
        return Err(Fault::Other(*name));
    };
    match told.of(&parent) {
        Some(parent) if parent.seat == seat => Ok(()),
        Some(_) => Err(Fault::Seat(*name)),
        None => Err(Fault::Other(*name)),
    }
}

// Whether a start is the first entry under a client's seat.
fn opens_seat(trail: &[Entry], deed: &Deed) -> bool {
    is_client(deed.seat)
        && trail.iter().position(|entry| entry.seat == deed.seat) == Some(deed.start)
}

// The first try of a branch opens a seat, under which its further tries stand.
fn check_branch(told: &Told, trail: &[Entry], parent: &Name, deed: &Deed) -> Result<(), Fault> {
    let Some((_, body)) = deed.body() else {
        return Err(Fault::Other(deed.name));
    };
    let fits = match told.first_try(parent, body) {
        Some(first) if first.name != deed.name => first.seat == deed.seat,
        _ => opens_seat(trail, deed),
    };
    if fits {
        Ok(())
    } else {
        Err(Fault::Seat(deed.name))
    }
}

// The seat of a name, and this where it has not started.
fn seat_or(told: &Told, name: &Name, seat: u32) -> u32 {
    match told.of(name) {
        Some(deed) => deed.seat,
        None => seat,
    }
}

// Whether one may end so under the seat where it did. A top is committed by the ledger; who asked
// for an abort makes it; a branch beside which another could not be begun may be ended by its
// parent; all else ends under its own seat.
fn may_end(told: &Told, bodies: &Bodies<'_>, deed: &Deed, end: &Ended) -> bool {
    match (&end.came, deed.name.parent()) {
        (Came::Committed(_), _) if deed.is_top() => end.seat == LEDGER_SEAT,
        (Came::Aborted(Cause::Asked { by }), _) => end.seat == seat_or(told, by, deed.seat),
        (_, Some(parent)) if is_turned_back(told, bodies, deed) => {
            end.seat == deed.seat || end.seat == seat_or(told, &parent, deed.seat)
        }
        _ => end.seat == deed.seat,
    }
}

fn check_start(
    told: &Told,
    bodies: &Bodies<'_>,
    trail: &[Entry],
    deed: &Deed,
) -> Result<(), Fault> {
    if deed.is_top() {
        return check_top(told, deed);
    }
    match (bodies.row_of(deed), deed.name.parent()) {
        (Some(_), Some(parent)) if told.of(&parent).is_some() => {
            check_branch(told, trail, &parent, deed)
        }
        _ => check_below(told, &deed.name, deed.seat),
    }
}

fn check_deed(told: &Told, bodies: &Bodies<'_>, trail: &[Entry], deed: &Deed) -> Result<(), Fault> {
    check_start(told, bodies, trail, deed)?;
    match &deed.end {
        Some(end) if !may_end(told, bodies, deed, end) => Err(Fault::Seat(deed.name)),
        _ => Ok(()),
    }
}

fn check_entry(told: &Told, entry: &Entry) -> Result<(), Fault> {
    match &entry.event {
        Event::Start {
            name,
            kind: Kind::Access,
        } => check_below(told, name, entry.seat),
        Event::Ask(ask) => match ask.access.parent() {
            Some(manager) => match told.of(&manager) {
                Some(deed) if deed.seat != entry.seat => Err(Fault::Seat(ask.access)),
                _ => Ok(()),
            },
            None => Ok(()),
        },
        Event::Ready { top } => match told.of(top) {
            Some(deed) if deed.seat != entry.seat => Err(Fault::Seat(*top)),
            _ => Ok(()),
        },
        _ => Ok(()),
    }
}

/// That each acts under its seat: a session has one of its own, and each branch another, and all
/// that is started below acts under it.
pub(crate) fn check_seats(told: &Told, bodies: &Bodies<'_>, trail: &[Entry]) -> Result<(), Fault> {
    for deed in told.deeds.iter() {
        check_deed(told, bodies, trail, deed)?;
    }
    for entry in trail {
        check_entry(told, entry)?;
    }
    Ok(())
}
