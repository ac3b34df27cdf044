//! Scripts that are run by seeds, each twice.

use crate::meets::{meets_change, meets_lock, meets_mark};
use qc_disk::MemDisk;
use qc_turns::Turns;
use rows_judge::Fault;
use rows_runs::{Judged, Random, Tops, make_script, run_script};
use std::alloc::{AllocError, Global};
use std::fmt;
use std::sync::Wait;
use std::thread::Threads;

/// How many runs there were, of these how many were twice the same, how many of these have a legal history, as the audit of
/// their saved trail has it, and follow their script, and how many met a lock, a mark or a change of quorums; and the last
/// fault.
#[derive(Clone, Copy)]
pub(crate) struct Count {
    runs: u64,
    same: u64,
    follow: u64,
    locks: u64,
    marks: u64,
    changes: u64,
    fault: Option<Fault>,
}

impl fmt::Display for Count {
    fn fmt<W: fmt::Write>(&self, f: &mut fmt::Formatter<W>) -> fmt::Result {
        write!(f, "{} runs, {} the same again, ", self.runs, self.same)?;
        write!(f, "{} legal and as their script says; ", self.follow)?;
        write!(f, "{} met a lock, {} a mark, ", self.locks, self.marks)?;
        write!(f, "{} a change of quorums", self.changes)?;
        if let Some(fault) = &self.fault {
            write!(f, ", but {fault}")?;
        }
        Ok(())
    }
}

impl Count {
    fn none() -> Self {
        Count {
            runs: 0,
            same: 0,
            follow: 0,
            locks: 0,
            marks: 0,
            changes: 0,
            fault: None,
        }
    }

    // Counts what a run met.
    fn add_met(&mut self, judged: &Judged) {
        let entries = judged.entries.as_slice();
        self.locks = self.locks.saturating_add(meets_lock(entries) as u64);
        self.marks = self.marks.saturating_add(meets_mark(entries) as u64);
        self.changes = self.changes.saturating_add(meets_change(entries) as u64);
    }

    // Whether a run is legal and follows its script.
    fn judge<R: Threads + Wait + Sync>(
        &mut self,
        handle: &R,
        alloc: Global,
        judged: &Judged,
    ) -> Result<bool, AllocError> {
        match judged.fault(alloc) {
            Some(fault) => {
                self.fault = Some(fault);
                Ok(false)
            }
            None => judged.passes_audit(handle, alloc),
        }
    }

    // Counts whether a run is legal and follows its script. Of one that left the same trail as another of the script that is
    // known.
    fn add_judged<R: Threads + Wait + Sync>(
        &mut self,
        handle: &R,
        alloc: Global,
        judged: &Judged,
        good: &mut Vec<Vec<u8>>,
    ) -> Result<(), AllocError> {
        if !good.iter().any(|trail| trail.as_slice() == judged.saved()) {
            if !self.judge(handle, alloc, judged)? {
                return Ok(());
            }
            good.push(judged.saved().to_vec(alloc)?)?;
        }
        self.follow = self.follow.saturating_add(1);
        Ok(())
    }
}

// Whether disks hold the same.
fn hold_the_same(these: &[MemDisk], those: &[MemDisk]) -> bool {
    these.len() == those.len()
        && these
            .iter()
            .zip(those.iter())
            .all(|(this, that)| this.bytes() == that.bytes())
}

// Runs a script by a seed.
fn run_by<R: Threads + Wait + Sync>(
    handle: &R,
    alloc: Global,
    options: &str,
    text: &str,
    seed: u64,
) -> Result<Option<Judged>, AllocError> {
    let gate = Turns::new(handle, alloc, seed)?;
    run_script(handle, alloc, options, text, &gate)
}

// Runs a script by a seed twice, and counts what came of it.
fn count_one<R: Threads + Wait + Sync>(
    handle: &R,
    alloc: Global,
    options: &str,
    text: &str,
    seed: u64,
    good: &mut Vec<Vec<u8>>,
    count: &mut Count,
) -> Result<(), AllocError> {
    count.runs = count.runs.saturating_add(1);
    let first = run_by(handle, alloc, options, text, seed)?;
    let again = run_by(handle, alloc, options, text, seed)?;
    let (Some(first), Some(again)) = (first, again) else {
        return Ok(());
    };
    if first.saved() == again.saved() && hold_the_same(first.disks(), again.disks()) {
        count.same = count.same.saturating_add(1);
        count.add_met(&first);
        count.add_judged(handle, alloc, &first, good)?;
    }
    Ok(())
}

/// Runs so many scripts that are made from a number, each by so many seeds, twice.
pub(crate) fn count_runs<R: Threads + Wait + Sync>(
    handle: &R,
    alloc: Global,
    tops: Tops,
    number: u64,
    scripts: u64,
    seeds: u64,
    options: &str,
) -> Result<Count, AllocError> {
    let mut random = Random::new(number);
    let mut count = Count::none();
    for _ in 0..scripts {
        let text = make_script(alloc, &mut random, tops)?;
        let mut good = Vec::new(alloc);
        for seed in 0..seeds {
            count_one(
                handle,
                alloc,
                options,
                text.as_str(),
                seed,
                &mut good,
                &mut count,
            )?;
        }
    }
    Ok(count)
}
