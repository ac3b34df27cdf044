//! Bodies that a step runs at once.

use crate::children::Children;
use crate::deeds::{Deed, Told, number_below};
use crate::fault::Fault;
use crate::halt::Halt;
use qc_event::Name;
use qc_script::Body;

// The first tries of bodies, in order: how many were begun.
fn take_firsts(children: &mut Children<'_>, row: &[Body]) -> Result<usize, Fault> {
    let mut begun: usize = 0;
    for body in row {
        if !children.take_first(body.number)? {
            break;
        }
        begun = begun.wrapping_add(1);
    }
    Ok(begun)
}

// Whether one has started a child, marked or ended before a place.
fn has_acted_by(told: &Told, deed: &Deed, at: usize) -> bool {
    deed.has_ended_by(at)
        || told
            .marks
            .iter()
            .any(|mark| mark.by == deed.name && mark.at < at)
        || told.deeds.iter().any(|other| number_below(&deed.name, &other.name).is_some()
            && other.start < at)
}

// Where the last of the first tries started.
fn last_start(told: &Told, of: &Name, row: &[Body]) -> usize {
    let mut last: usize = 0;
    for body in row {
        if let Some(first) = told.first_try(of, body.number) {
            last = last.max(first.start);
        }
    }
    last
}

// That no branch did anything before each that was begun had started.
fn check_none_ahead(told: &Told, of: &Name, row: &[Body]) -> Result<(), Fault> {
    let last = last_start(told, of, row);
    for body in row {
        match told.first_try(of, body.number) {
            Some(first) if has_acted_by(told, first, last) => {
                return Err(Fault::Ahead(first.name));
            }
            _ => {}
        }
    }
    Ok(())
}

// The further tries of bodies, each after the end of the one before it. Those of several stand as
// they come.
fn take_furthers(children: &mut Children<'_>, row: &[Body]) -> Result<(), Fault> {
    for _ in 0..children.told().deeds.len() {
        let Some(number) = children.next_body() else {
            break;
        };
        match row.iter().find(|body| body.number == number) {
            Some(body) => children.take_further(body)?,
            None => break,
        }
    }
    Ok(())
}

// The first body whose last try is to be tried again.
fn first_untried(told: &Told, of: &Name, row: &[Body]) -> Option<Halt> {
    for body in row {
        if let Some(last) = told.last_try(of, body.number) {
            if last.is_tried_again() && told.has_tries_left(of, body) {
                return Some(Halt::Untried(last.name));
            }
        }
    }
    None
}

// The first body that must commit, and whose last try did not.
fn first_lost(told: &Told, of: &Name, row: &[Body]) -> Option<Halt> {
    for body in row {
        if let Some(last) = told.last_try(of, body.number) {
            if body.must && last.is_aborted() {
                return Some(Halt::Lost(last.name));
            }
        }
    }
    None
}

/// A step that runs bodies at once: all begin, in order, and then each is tried as often as it is
/// to be.
pub(crate) fn par(children: &mut Children<'_>, row: &[Body]) -> Result<Option<Halt>, Fault> {
    let told = children.told();
    let of = children.of().name;
    let begun = take_firsts(children, row)?;
    if begun == 0 {
        return Ok(Some(children.not_begun()));
    }
    check_none_ahead(told, &of, row)?;
    if begun < row.len() {
        return Ok(Some(Halt::NotAllBegun));
    }
    take_furthers(children, row)?;
    children.wait();
    Ok(first_untried(told, &of, row).or(first_lost(told, &of, row)))
}
