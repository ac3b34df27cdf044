//! A case: what it stands on.

use crate::answer::of_both;
use crate::desk::over_desk;
use crate::folds::Folds;
use crate::ledger::{both, mounted, on_shelf};
use crate::state::State;
use qc_disk::MemDisk;
use qc_ledger::Book;
use rows_kit::{Case, Step, image, on_disk, records, said, with_fails};
use std::alloc::{AllocError, Global};
use std::mem;
use std::sync::Wait;

/// A ledger, its disk, or none; and the spare, where there is one that is not mounted.
#[derive(Drop)]
pub(crate) struct LedgerCase<'a, R> {
    rt: &'a R,
    alloc: Global,
    state: State,
    spare: Option<MemDisk>,
}

impl<'a, R: Wait> LedgerCase<'a, R> {
    /// A case with no disk.
    pub(crate) fn new(rt: &'a R, alloc: Global) -> Self {
        LedgerCase {
            rt,
            alloc,
            state: State::Nothing,
            spare: None,
        }
    }

    // A disk in memory, and what the case answers.
    fn disk(&self, disk: MemDisk) -> Result<(State, String), AllocError> {
        Ok((State::Disk(disk), said(self.alloc, "ok")?))
    }

    // The disk below, with its spare put aside.
    fn take_disk(&mut self, state: State) -> Option<MemDisk> {
        let (disk, spare) = state.into_disks()?;
        if spare.is_some() {
            self.spare = spare;
        }
        Some(disk)
    }

    // Makes a step on the disk, and has its spare answer too, where the step changes nothing.
    fn on_disks(&mut self, disk: MemDisk, step: &Step<'_>) -> Result<(State, String), AllocError> {
        let (disk, mut answer) = on_disk(self.alloc, disk, step)?;
        if of_both(step.name) {
            if let Some(spare) = mem::replace(&mut self.spare, None) {
                let (spare, told) = on_disk(self.alloc, spare, step)?;
                answer.push_str(" / ")?;
                answer.push_str(told.as_str())?;
                self.spare = Some(spare);
            }
        }
        Ok((State::Disk(disk), answer))
    }

    // Makes a step on the disk and its spare.
    fn on_pair(&mut self, disk: MemDisk, step: &Step<'_>) -> Result<(State, String), AllocError> {
        let Some(spare) = mem::replace(&mut self.spare, None) else {
            return State::Disk(disk).no_such(self.alloc);
        };
        if step.name == "other" {
            self.spare = Some(disk);
            return Ok((State::Disk(spare), said(self.alloc, "ok")?));
        }
        let (state, spare, text) = both(self.alloc, disk, spare, step)?;
        self.spare = spare;
        Ok((state, text))
    }

    // Makes a step on what is below a ledger, which ends.
    fn below(&mut self, state: State, step: &Step<'_>) -> Result<(State, String), AllocError> {
        let Some(disk) = self.take_disk(state) else {
            return State::Nothing.no_such(self.alloc);
        };
        match step.name {
            "mount" => mounted(self.alloc, disk, step),
            "pair" | "other" => self.on_pair(disk, step),
            "spare" => {
                self.spare = Some(with_fails(self.alloc, Vec::new(self.alloc), step)?);
                Ok((State::Disk(disk), said(self.alloc, "ok")?))
            }
            _ => self.on_disks(disk, step),
        }
    }

    // Makes a step on a mounted ledger.
    fn on_book(
        &mut self,
        book: Book<MemDisk>,
        epoch: u32,
        mut folds: Folds,
        step: &Step<'_>,
    ) -> Result<(State, String), AllocError> {
        match step.name {
            "open" => Ok((State::Shelf(book.open(), folds), said(self.alloc, "ok")?)),
            "desk" => {
                let words = &step.words;
                let (disk, told) = over_desk(self.rt, self.alloc, book, epoch, &mut folds, words)?;
                let (disk, spare) = folds.into_disks(disk);
                if spare.is_some() {
                    self.spare = spare;
                }
                Ok((State::Disk(disk), told))
            }
            _ => {
                let answer = records(self.alloc, book.records())?;
                Ok((State::Book(book, epoch, folds), answer))
            }
        }
    }

    // Makes a step on a ledger.
    fn on_ledger(&mut self, state: State, step: &Step<'_>) -> Result<(State, String), AllocError> {
        match state {
            State::Book(book, epoch, folds) => self.on_book(book, epoch, folds, step),
            State::Shelf(mut shelf, folds) => {
                let answer = on_shelf(self.alloc, &mut shelf, step)?;
                Ok((State::Shelf(shelf, folds), answer))
            }
            other => other.no_such(self.alloc),
        }
    }
}

impl<R: Wait> Case for LedgerCase<'_, R> {
    fn step(&mut self, step: &Step<'_>) -> Result<String, AllocError> {
        let alloc = self.alloc;
        let state = mem::replace(&mut self.state, State::Nothing);
        let (state, answer) = match step.name {
            "mem" => self.disk(with_fails(alloc, Vec::new(alloc), step)?)?,
            "image" => self.disk(MemDisk::new(image(alloc, &step.words)?, Vec::new(alloc)))?,
            "mount" | "pair" | "spare" | "other" | "cut" | "add" | "fail" | "bytes" | "calls" => {
                self.below(state, step)?
            }
            _ => self.on_ledger(state, step)?,
        };
        self.state = state;
        Ok(answer)
    }
}
