//! Trails that follow their scripts, spoilt in one way, before the judge.

use crate::branches::branch_as;
use crate::ends::{end_as, mark_more};
use crate::renamed::{about, next_to};
use crate::spoiled::Spoiled;
use crate::spots::{
    body_of, has_next, is_commit, is_last_child, is_last_read, is_user, last_top, start_of,
    top_before,
};
use crate::starts::{start_as, with_seat};
use qc_event::{Entry, Event};
use qc_run::NoGate;
use rows_judge::Fault;
use rows_runs::{Random, Tops, make_script, run_script};
use std::alloc::{AllocError, Global};
use std::sync::Wait;
use std::thread::Threads;

type Slip = Result<Option<Spoiled>, AllocError>;

// A child that commits last below one that commits: its end is dropped, or told twice.
fn child(alloc: Global, kind: &str, trail: &[Entry]) -> Slip {
    for (at, entry) in trail.iter().enumerate() {
        if is_last_child(trail, entry) {
            let name = about(entry);
            let spoiled = match kind {
                "end_dropped" => Spoiled::without(alloc, trail, at)?,
                "end_twice" => Spoiled::with_more(alloc, trail, at, *entry)?,
                _ => Spoiled::with_again(alloc, trail, at, &name, &next_to(&name))?,
            };
            return Ok(Some(spoiled));
        }
    }
    Ok(None)
}

// A read that commits last below one that commits: it is dropped, comes twice, or has another number.
fn read(alloc: Global, kind: &str, trail: &[Entry]) -> Slip {
    for (at, entry) in trail.iter().enumerate() {
        if is_last_read(trail, entry) {
            let name = about(entry);
            let next = next_to(&name);
            let spoiled = match kind {
                "read_dropped" => Spoiled::without_all(alloc, trail, &name)?,
                "read_twice" => Spoiled::with_again(alloc, trail, at, &name, &next)?,
                _ => Spoiled::with_name(alloc, trail, &name, &next)?,
            };
            return Ok(Some(spoiled));
        }
    }
    Ok(None)
}

// The last top: it is dropped, where it is the next body's or a further try; it comes again where it has committed; or it
// has another number.
fn top(alloc: Global, kind: &str, trail: &[Entry]) -> Slip {
    let Some(name) = last_top(trail) else {
        return Ok(None);
    };
    let next = next_to(&name);
    let end = trail
        .iter()
        .position(|entry| is_commit(entry) && about(entry) == name);
    let is_further = match top_before(trail, &name) {
        Some(before) => body_of(trail, &before) == body_of(trail, &name),
        None => false,
    };
    Ok(match (kind, end) {
        ("top_number", _) => Some(Spoiled::with_name(alloc, trail, &name, &next)?),
        ("top_again", Some(at)) => Some(Spoiled::with_again(alloc, trail, at, &name, &next)?),
        ("top_dropped", _) if !is_further => Some(Spoiled::without_all(alloc, trail, &name)?),
        ("top_untried", _) if is_further => Some(Spoiled::without_all(alloc, trail, &name)?),
        _ => None,
    })
}

// A child that is the last try of its body, and not the first, is dropped.
fn child_untried(alloc: Global, trail: &[Entry]) -> Slip {
    for entry in trail {
        let name = about(entry);
        let next = next_to(&name);
        if name.len() > 1
            && is_user(trail, &name)
            && body_of(trail, &name) == body_of(trail, &next)
            && !has_next(trail, &next)
        {
            return Ok(Some(Spoiled::without_all(alloc, trail, &next)?));
        }
    }
    Ok(None)
}

// An end, and the start of the sibling with the next number, or of the next top of the session, are exchanged.
fn exchanged(alloc: Global, kind: &str, trail: &[Entry]) -> Slip {
    for (at, entry) in trail.iter().enumerate() {
        let name = about(entry);
        let next = next_to(&name);
        let fits = if kind == "top_early" {
            name.len() == 1 && top_before(trail, &next) == Some(name)
        } else {
            name.len() > 1 && is_user(trail, &name)
        };
        if fits && matches!(entry.event, Event::End { .. }) {
            if let Some(start) = start_of(trail, &next) {
                return Spoiled::exchanged(alloc, trail, at, start);
            }
        }
    }
    Ok(None)
}

// A trail spoilt in a way; nothing where it cannot be.
fn spoil(alloc: Global, kind: &str, trail: &[Entry]) -> Slip {
    match kind {
        "end_dropped" | "end_twice" | "child_again" => child(alloc, kind, trail),
        "read_dropped" | "read_twice" | "read_number" => read(alloc, kind, trail),
        "top_number" | "top_again" | "top_dropped" | "top_untried" => top(alloc, kind, trail),
        "child_untried" => child_untried(alloc, trail),
        "child_early" | "top_early" => exchanged(alloc, kind, trail),
        "value" | "record" | "body" | "session" => start_as(alloc, kind, trail),
        "seat" => with_seat(alloc, trail),
        "mark_more" => mark_more(alloc, trail),
        _ if kind.starts_with("branch_") => branch_as(alloc, kind, trail),
        _ => end_as(alloc, kind, trail),
    }
}

// What the scripts have that are spoilt so.
fn tops_of(kind: &str) -> Tops {
    if kind.starts_with("branch_") {
        Tops::AtOnce
    } else {
        Tops::InTurn
    }
}

/// The fault of the first script of a seed whose trail follows it and can be spoilt so; nothing where the judge lets it
/// pass, or there is none among so many scripts.
pub(crate) fn fault_of_slip<R: Threads + Wait + Sync>(
    handle: &R,
    alloc: Global,
    kind: &str,
    seed: u64,
) -> Result<Option<Fault>, AllocError> {
    let mut random = Random::new(seed);
    for _ in 0..MOST {
        let text = make_script(alloc, &mut random, tops_of(kind))?;
        if let Some(judged) = run_script(handle, alloc, "--serial", text.as_str(), &NoGate)? {
            if judged.fault(alloc).is_none() {
                let trail = judged.entries.as_slice();
                if let Some(spoiled) = spoil(alloc, kind, trail)? {
                    return Ok(judged.fault_of(alloc, spoiled.entries.as_slice()));
                }
            }
        }
    }
    Ok(None)
}

/// How many scripts are tried.
const MOST: u64 = 50;
