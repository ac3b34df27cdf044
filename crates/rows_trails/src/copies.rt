//! A copy that grants what it is asked, by its locks and by the history that it is told; and questions about it.

use crate::case::Case;
use crate::sources::Scanned;
use crate::told::TrailTold;
use crate::wrong::Wrong;
use qc_event::{Answered, Ask, Entry, Event, Grant, Name, Op, Tuple};
use qc_moss::{Locks, Source, Verdict, consult_locks, replay_locks};
use rows_text::Words;
use std::alloc::{AllocError, Global};

// The grant of an operation, with the tuple after it.
fn grant_of(access: &Name, rec: u8, op: &Op, tuple: &Tuple) -> Grant {
    Grant {
        access: *access,
        rec,
        op: *op,
        tuple: *tuple,
    }
}

/// A copy of a case: its locks, and what it granted, in order.
#[derive(Drop)]
pub struct OwnCopy {
    pub locks: Locks,
    grants: Vec<Grant>,
}

impl OwnCopy {
    /// The copy that starts with these tuples and granted nothing.
    pub fn new(alloc: Global, start: Vec<Tuple>) -> Result<Self, AllocError> {
        Ok(OwnCopy {
            locks: Locks::new(alloc, start)?,
            grants: Vec::new(alloc),
        })
    }

    // The copy that starts with these tuples and granted all this.
    fn replay(alloc: Global, start: Vec<Tuple>, grants: Vec<Grant>) -> Result<Self, Wrong> {
        let records = start.len();
        if grants.iter().all(|grant| usize::from(grant.rec) < records) {
            let locks = replay_locks(alloc, start, grants.as_slice())?;
            Ok(OwnCopy { locks, grants })
        } else {
            Err(Wrong::Place)
        }
    }

    /// The tuple that an access was granted first.
    pub fn again(&self, access: &Name) -> Option<Tuple> {
        for grant in &self.grants {
            if grant.access == *access {
                return Some(grant.tuple);
            }
        }
        None
    }

    /// Grants an access its operation, though locks be in its way.
    pub fn grant(&mut self, access: &Name, rec: u8, op: &Op) -> Result<Tuple, Wrong> {
        if usize::from(rec) >= self.locks.records() {
            return Err(Wrong::Place);
        }
        self.locks.reserve()?;
        let tuple = self.locks.grant(access, rec, op);
        let grant = grant_of(access, rec, op, &tuple);
        self.grants.push(grant)?;
        Ok(tuple)
    }

    /// Settles the locks of all records by what a source tells.
    pub fn settle<S: Source>(&mut self, source: &S) {
        for rec in 0..=u8::MAX {
            if usize::from(rec) < self.locks.records() {
                self.locks.settle_by(rec, source);
            }
        }
    }

    // Answers a request by a history. A repeat gets what the first request got.
    fn serve(&mut self, ask: &Ask, h: &[Entry]) -> Result<Answered, Wrong> {
        if let Some(tuple) = self.again(&ask.access) {
            return Ok(Answered::Granted(tuple));
        }
        if usize::from(ask.rec) >= self.locks.records() {
            return Err(Wrong::Place);
        }
        match consult_locks(&mut self.locks, ask, &Scanned { entries: h }) {
            Verdict::Dead(ancestor) => Ok(Answered::Dead(ancestor)),
            Verdict::Blocked(first) => Ok(Answered::Blocked(first)),
            Verdict::Free(_) => Ok(Answered::Granted(self.grant(&ask.access, ask.rec, &ask.op)?)),
        }
    }
}

fn request(h: &[Entry], copy: u8, access: &Name) -> Option<Ask> {
    for entry in h {
        if let Event::Ask(ask) = &entry.event {
            if ask.copy == copy && ask.access == *access {
                return Some(*ask);
            }
        }
    }
    None
}

fn grants_at(alloc: Global, h: &[Entry], copy: u8) -> Result<Vec<Grant>, AllocError> {
    let mut grants = Vec::new(alloc);
    for entry in h {
        if let Event::Granted { copy: at, grant } = &entry.event {
            if *at == copy {
                grants.push(*grant)?;
            }
        }
    }
    Ok(grants)
}

fn copy_by(case: &Case, h: &[Entry], copy: u8) -> Result<OwnCopy, Wrong> {
    let grants = grants_at(case.alloc, h, copy)?;
    OwnCopy::replay(case.alloc, case.tuples_of(copy)?, grants)
}

/// What a copy that made the history's grants answers an access that asked it, twice.
pub fn serve(case: &Case, h: &[Entry], words: &mut Words<'_>) -> Result<TrailTold, Wrong> {
    let copy = words.number()?;
    let ask = request(h, copy, &words.name()?).ok_or(Wrong::Ask)?;
    let mut copy = copy_by(case, h, copy)?;
    let first = copy.serve(&ask, h)?;
    let second = copy.serve(&ask, h)?;
    Ok(TrailTold::Served(first, second, copy.grants.len()))
}

/// What a copy that made the history's grants granted an access.
pub fn again(case: &Case, h: &[Entry], words: &mut Words<'_>) -> Result<TrailTold, Wrong> {
    let copy = words.number()?;
    let copy = copy_by(case, h, copy)?;
    Ok(TrailTold::Tuple(copy.again(&words.name()?)))
}
