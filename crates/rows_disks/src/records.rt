//! Steps on a journal.
ghost use Rattle.std.specs.Prelude.{IsSome};
ghost use Rattle.qc_journal.specs.Journal.{in_hand};

use crate::answer::Answer;
use crate::state::{Held, State};
use crate::word::bytes;
use qc_disk::HomeDisk;
use qc_journal::{Fault, Journal};
use rows_kit::Step;
use std::alloc::{AllocError, Global};

// Mounts a journal.
fn mount(alloc: Global, disk: HomeDisk, limit: u64) -> (State, Answer) {
    match Journal::mount(alloc, disk, limit) {
        Ok((journal, bodies)) => (State::Journal(journal), Answer::Records(bodies)),
        Err((disk, fault)) => (State::Disk(disk), Answer::Journal(fault)),
    }
}

// Adds a record to a journal, where it is up.
fn append(journal: Journal<HomeDisk>, body: &[u8]) -> (State, Answer) {
    let mut journal = journal;
    if !journal.is_up() {
        return (State::Journal(journal), Answer::Down);
    }
    match journal.append(body) {
        Ok(()) => (State::Journal(journal), Answer::Done),
        Err(Fault::Disk) => (State::Held(Held { journal }), Answer::Journal(Fault::Disk)),
        Err(fault) => (State::Journal(journal), Answer::Journal(fault)),
    }
}

// Reads all records.
fn reread(journal: Journal<HomeDisk>) -> (State, Answer) {
    let mut journal = journal;
    match journal.reread() {
        Ok(bodies) => (State::Journal(journal), Answer::Records(bodies)),
        Err(fault) => (State::Journal(journal), Answer::Journal(fault)),
    }
}

// The same with a body in hand, which stays there on refusal.
fn reread_held(held: Held) -> (State, Answer) {
    let Held { mut journal } = held;
    match journal.reread() {
        Ok(bodies) => (State::Journal(journal), Answer::Records(bodies)),
        Err(fault) => (State::Held(Held { journal }), Answer::Journal(fault)),
    }
}

// Finds out whether the body in hand stands.
fn reopen(held: Held) -> (State, Answer) {
    let Held { mut journal } = held;
    match journal.reopen() {
        Ok(stands) => (State::Journal(journal), Answer::Truth(stands)),
        Err(fault) => (State::Held(Held { journal }), Answer::Journal(fault)),
    }
}

// Takes a journal down.
fn close(journal: Journal<HomeDisk>) -> (State, Answer) {
    let mut journal = journal;
    journal.close();
    (State::Journal(journal), Answer::Done)
}

// The same with a body in hand, which stays there.
fn close_held(held: Held) -> (State, Answer) {
    let Held { mut journal } = held;
    journal.close();
    (State::Held(Held { journal }), Answer::Done)
}

fn on_journal(
    alloc: Global,
    journal: Journal<HomeDisk>,
    step: &Step<'_>,
) -> Result<(State, Answer), AllocError> {
    Ok(match step.name {
        "close" => close(journal),
        "append" => {
            let body = bytes(alloc, step.word(0))?;
            append(journal, &body)
        }
        "reread" => reread(journal),
        "up" => {
            let up = journal.is_up();
            (State::Journal(journal), Answer::Truth(up))
        }
        _ => (State::Journal(journal), Answer::Unknown),
    })
}

fn on_held(held: Held, step: &Step<'_>) -> (State, Answer) {
    match step.name {
        "close" => close_held(held),
        "reopen" => reopen(held),
        "reread" => reread_held(held),
        "up" => {
            let up = held.journal.is_up();
            (State::Held(held), Answer::Truth(up))
        }
        _ => (State::Held(held), Answer::Unknown),
    }
}

/// Mounts a journal, or makes a step on one.
pub(crate) fn step(
    alloc: Global,
    state: State,
    step: &Step<'_>,
) -> Result<(State, Answer), AllocError> {
    match state {
        State::Disk(disk) => Ok(mount(alloc, disk, step.number(0))),
        State::Journal(journal) => on_journal(alloc, journal, step),
        State::Held(held) => Ok(on_held(held, step)),
        State::Nothing => Ok((State::Nothing, Answer::Unknown)),
    }
}
