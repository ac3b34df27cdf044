//! A case: what it stands on.

use crate::answer::tuples;
use crate::back::back;
use crate::site::mounted;
use crate::state::State;
use qc_disk::MemDisk;
use qc_site::Mounted;
use rows_kit::{Case, Step, image, on_disk, records, said, with_fails};
use std::alloc::{AllocError, Global};
use std::mem;

/// A copy, its disk, or none.
#[derive(Drop)]
pub(crate) struct SiteCase {
    alloc: Global,
    state: State,
}

// Makes a step on a disk. A mounted copy above it ends.
fn on_disks(alloc: Global, state: State, step: &Step<'_>) -> Result<(State, String), AllocError> {
    let Some(disk) = state.into_disk() else {
        return State::Nothing.no_such(alloc);
    };
    match step.name {
        "mount" => mounted(alloc, disk, step),
        "back" => back(alloc, disk, step),
        _ => {
            let (disk, answer) = on_disk(alloc, disk, step)?;
            Ok((State::Disk(disk), answer))
        }
    }
}

// What a mounted copy tells.
fn told(alloc: Global, site: &Mounted<MemDisk>, name: &str) -> Result<String, AllocError> {
    if name == "start" {
        tuples(alloc, site.start())
    } else {
        records(alloc, site.records())
    }
}

impl SiteCase {
    /// A case with no disk.
    pub(crate) fn new(alloc: Global) -> Self {
        SiteCase {
            alloc,
            state: State::Nothing,
        }
    }

    // A disk in memory, of the bytes that a step says, and what the case answers.
    fn disk(&self, disk: MemDisk) -> Result<(State, String), AllocError> {
        Ok((State::Disk(disk), said(self.alloc, "ok")?))
    }

    // Makes a step on a mounted copy.
    fn on_site(&self, state: State, step: &Step<'_>) -> Result<(State, String), AllocError> {
        match state {
            State::Mounted(site) => {
                let answer = told(self.alloc, &site, step.name)?;
                Ok((State::Mounted(site), answer))
            }
            other => other.no_such(self.alloc),
        }
    }
}

impl Case for SiteCase {
    fn step(&mut self, step: &Step<'_>) -> Result<String, AllocError> {
        let alloc = self.alloc;
        let state = mem::replace(&mut self.state, State::Nothing);
        let (state, answer) = match step.name {
            "mem" => self.disk(with_fails(alloc, Vec::new(alloc), step)?)?,
            "image" => self.disk(MemDisk::new(image(alloc, &step.words)?, Vec::new(alloc)))?,
            "records" | "start" => self.on_site(state, step)?,
            _ => on_disks(alloc, state, step)?,
        };
        self.state = state;
        Ok(answer)
    }
}
