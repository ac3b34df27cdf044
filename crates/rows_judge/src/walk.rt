//! How far a transaction comes through the steps of its body.

use crate::children::{Children, check_numbers};
use crate::deeds::{Deed, Told};
use crate::fault::Fault;
use crate::halt::Halt;
use crate::row::par;
use qc_event::{Kind, Val};
use qc_script::{Body, Step};

fn simple(children: &mut Children<'_>, kind: &Kind) -> Result<Option<Halt>, Fault> {
    let missing = children.not_begun();
    Ok(children.take_manager(kind, missing)?.err())
}

// The number that a step reads. It goes no further with a text.
fn look_up(children: &mut Children<'_>, rec: u8) -> Result<Result<u64, Halt>, Fault> {
    let missing = children.not_begun();
    Ok(match children.take_manager(&Kind::Read { rec }, missing)? {
        Ok(Some(value)) => value.as_number().ok_or(Halt::Short),
        Ok(None) => Err(missing),
        Err(halt) => Err(halt),
    })
}

// A step that reads a number, and writes it with this one added.
fn change(children: &mut Children<'_>, rec: u8, value: u64) -> Result<Option<Halt>, Fault> {
    match look_up(children, rec)? {
        Ok(old) => {
            let kind = Kind::Write {
                rec,
                value: Val::number(old.wrapping_add(value)),
            };
            Ok(children.take_manager(&kind, Halt::Unwritten)?.err())
        }
        Err(halt) => Ok(Some(halt)),
    }
}

fn need(children: &mut Children<'_>, rec: u8, least: u64) -> Result<Option<Halt>, Fault> {
    Ok(match look_up(children, rec)? {
        Ok(value) if value >= least => None,
        Ok(_) => Some(Halt::Short),
        Err(halt) => Some(halt),
    })
}

// A step that runs a child, as often as it is to be tried.
fn child(children: &mut Children<'_>, body: &Body) -> Result<Option<Halt>, Fault> {
    let Some(mut last) = children.take_try(body.number)? else {
        return Ok(Some(children.not_begun()));
    };
    for _ in 1..body.tries {
        if !last.again {
            break;
        }
        match children.take_try(body.number)? {
            Some(further) => last = further,
            None => return Ok(Some(Halt::Untried(last.name))),
        }
    }
    Ok(if body.must && !last.committed {
        Some(Halt::Lost(last.name))
    } else {
        None
    })
}

// A step that marks a session.
fn kill(children: &mut Children<'_>, session: u8) -> Result<Option<Halt>, Fault> {
    Ok(if children.take_mark(session)? {
        None
    } else {
        Some(children.not_begun())
    })
}

fn go(children: &mut Children<'_>, step: &Step) -> Result<Option<Halt>, Fault> {
    if children.is_marked() {
        return Ok(Some(Halt::Marked));
    }
    match step {
        Step::Read { rec } => simple(children, &Kind::Read { rec: *rec }),
        Step::Set { rec, value } => simple(
            children,
            &Kind::Write {
                rec: *rec,
                value: value.val(),
            },
        ),
        Step::Add { rec, value } => change(children, *rec, *value),
        Step::Sub { rec, value } => change(children, *rec, 0_u64.wrapping_sub(*value)),
        Step::Need { rec, value } => need(children, *rec, *value),
        Step::Reconf { rec, config } => simple(
            children,
            &Kind::Reconf {
                rec: *rec,
                config: *config,
            },
        ),
        Step::Child(body) => child(children, body),
        Step::Par(row) => par(children, row.as_slice()),
        Step::Abort { levels } => Ok(Some(children.asks(*levels))),
        Step::Crash { .. } => Ok(None),
        Step::Kill { session } => kill(children, *session),
    }
}

fn check_left(children: &Children<'_>, halt: &Halt) -> Result<(), Fault> {
    if matches!(halt, Halt::Marked) && children.has_next() {
        return Err(Fault::Spared(children.of().name));
    }
    children.check_none_left()
}

/// Why a transaction comes no further. Its children and marks are those that its steps ask for up to there.
pub(crate) fn walk_through(told: &Told, of: &Deed, body: &Body) -> Result<Halt, Fault> {
    check_numbers(told, &of.name)?;
    let mut children = Children::new(told, of);
    for (place, step) in body.steps.iter().enumerate() {
        children.begin(place);
        if let Some(halt) = go(&mut children, step)? {
            check_left(&children, &halt)?;
            return Ok(halt);
        }
    }
    let halt = if children.is_marked() {
        Halt::Marked
    } else {
        Halt::Through
    };
    check_left(&children, &halt)?;
    Ok(halt)
}
