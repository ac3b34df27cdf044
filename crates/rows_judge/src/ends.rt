//! How a transaction may end.

use crate::bodies::Bodies;
use crate::causes::is_handed_on;
use crate::deeds::{Came, Deed, Ended, Told, is_below};
use crate::fault::Fault;
use crate::halt::Halt;
use crate::marks::is_marked_by;
use crate::turned::{check_turned_back, is_turned_back};
use crate::walk::walk_through;
use qc_event::{Cause, Name};
use qc_script::{Body, Step};

// The fault of an end that this halt does not give.
fn misfit(of: &Deed, halt: &Halt) -> Fault {
    let commits = of.is_through();
    match halt {
        Halt::Through => Fault::Aborted(of.name),
        Halt::NotBegun { .. } | Halt::NotAllBegun => Fault::Early(of.name),
        Halt::Marked => Fault::Spared(of.name),
        Halt::Untried(last) => Fault::Untried(*last),
        Halt::Unwritten => Fault::Unwritten(of.name),
        _ if commits => Fault::Committed(of.name),
        _ => Fault::Cause(of.name),
    }
}

// Whether an ancestor of one was aborted before a place.
fn is_dead_by(told: &Told, of: &Name, at: usize) -> bool {
    told.deeds.iter().any(|deed| is_below(of, &deed.name) && told.is_aborted_by(&deed.name, at))
}

// Whether the steps from a place on ask that the ancestor so many levels up be aborted, before they ask for anything
// that has an answer.
fn asks_next(steps: &[Step], place: usize, above: usize) -> bool {
    for step in steps.iter().skip(place) {
        match step {
            Step::Crash { .. } | Step::Kill { .. } => {}
            Step::Abort { levels } => return *levels as usize == above,
            _ => return false,
        }
    }
    false
}

// Whether one comes to ask, by a step, that its ancestor so many levels up be aborted at a place. It ends as an orphan of it
// later, or was itself aborted before as one below it asked, and has gone on.
fn asks(by: &Deed, steps: &[Step], halt: &Halt, above: usize, at: usize) -> bool {
    match halt {
        Halt::Asks { step, .. } | Halt::NotBegun { step } if by.has_ended_by(at) => {
            by.is_aborted_from_below() && asks_next(steps, *step, above)
        }
        Halt::Asks { levels, .. } => by.is_orphan() && *levels as usize == above,
        _ => false,
    }
}

// Whether one that stands so many levels below comes to ask that its ancestor be aborted at a place.
fn comes_to_ask(
    told: &Told,
    bodies: &Bodies<'_>,
    by: &Deed,
    above: usize,
    at: usize,
) -> Result<bool, Fault> {
    match bodies.of_deed(by) {
        Some(body) if !is_turned_back(told, bodies, by) => {
            let halt = walk_through(told, by, body)?;
            Ok(asks(by, body.steps.as_slice(), &halt, above, at))
        }
        _ => Ok(false),
    }
}

fn check_asked(
    told: &Told,
    bodies: &Bodies<'_>,
    of: &Deed,
    by: &Name,
    at: usize,
) -> Result<(), Fault> {
    let asked = match told.of(by) {
        Some(deed) if is_below(by, &of.name) => {
            let above = by.len().saturating_sub(of.name.len());
            comes_to_ask(told, bodies, deed, above, at)?
        }
        _ => false,
    };
    if asked {
        Ok(())
    } else {
        Err(Fault::Asked(of.name))
    }
}

// An orphan is one of an aborted ancestor; one that asked that an ancestor be aborted is an orphan of that.
fn check_orphan(
    told: &Told,
    of: &Deed,
    halt: &Halt,
    ancestor: &Name,
    at: usize,
) -> Result<(), Fault> {
    let fits = match halt {
        Halt::Asks { levels, .. } if *levels > 0 => {
            ancestor.len().saturating_add(*levels as usize) == of.name.len()
        }
        _ => true,
    };
    if fits && is_below(&of.name, ancestor) && told.is_aborted_by(ancestor, at) {
        Ok(())
    } else {
        Err(Fault::Orphan(of.name))
    }
}

// A transaction is killed at a look, for a mark.
fn check_killed(told: &Told, of: &Deed, halt: &Halt, at: usize) -> Result<(), Fault> {
    match halt {
        Halt::Through | Halt::NotBegun { .. } | Halt::Marked | Halt::Asks { .. } => {
            if is_marked_by(told, of, at) {
                Ok(())
            } else {
                Err(Fault::Unmarked(of.name))
            }
        }
        _ => Err(Fault::Killed(of.name)),
    }
}

// Whether a manager was aborted for this cause, and hands it on.
fn hands_on(told: &Told, manager: &Name, cause: &Cause) -> bool {
    match told.of(manager) {
        Some(deed) => is_handed_on(cause) && deed.is_aborted_for(cause),
        None => false,
    }
}

// Whether a step gives this cause. A parent that was dead when its last child ended is not aborted
// for a child.
fn gives(told: &Told, of: &Deed, halt: &Halt, cause: &Cause) -> bool {
    match halt {
        Halt::Asks { levels: 0, .. } | Halt::Short => {
            matches!(cause, Cause::Asked { by } if *by == of.name)
        }
        Halt::Refused(manager) => hands_on(told, manager, cause),
        Halt::Lost(last) => {
            let ended = told.last_end(&of.name, u64::MAX);
            matches!(cause, Cause::Child(child) if child == last)
                && !is_dead_by(told, &of.name, ended)
        }
        _ => false,
    }
}

fn check_abort(
    told: &Told,
    bodies: &Bodies<'_>,
    of: &Deed,
    halt: &Halt,
    cause: &Cause,
    at: usize,
) -> Result<(), Fault> {
    if of.ready.is_some() {
        return Err(Fault::Aborted(of.name));
    }
    match cause {
        Cause::Asked { by } if *by != of.name => check_asked(told, bodies, of, by, at),
        Cause::Orphan(ancestor) => check_orphan(told, of, halt, ancestor, at),
        Cause::Killed => check_killed(told, of, halt, at),
        _ => {
            if gives(told, of, halt, cause) {
                Ok(())
            } else {
                Err(misfit(of, halt))
            }
        }
    }
}

// One that commits, or is ready, came through its steps.
fn check_through(of: &Deed, halt: &Halt) -> Result<(), Fault> {
    match halt {
        Halt::Through => Ok(()),
        _ => Err(misfit(of, halt)),
    }
}

// A ready top ends unless the ledger was unable to log it.
fn check_end(told: &Told, bodies: &Bodies<'_>, of: &Deed, halt: &Halt) -> Result<(), Fault> {
    match of.end {
        Some(
            Ended {
                at,
                came: Came::Aborted(cause),
                ..
            },
        ) => check_abort(told, bodies, of, halt, &cause, at),
        Some(_) => check_through(of, halt),
        None if of.ready.is_some() && of.doubt.is_some() => check_through(of, halt),
        None => Err(Fault::Open(of.name)),
    }
}

/// That a transaction of a body does what its steps ask for, and ends as they have it.
pub(crate) fn check_body(
    told: &Told,
    bodies: &Bodies<'_>,
    of: &Deed,
    body: &Body,
) -> Result<(), Fault> {
    if is_turned_back(told, bodies, of) {
        return check_turned_back(told, bodies, of);
    }
    let halt = walk_through(told, of, body)?;
    check_end(told, bodies, of, &halt)
}
