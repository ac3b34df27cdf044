//! A case: where its disks come from, and what it stands on.

use crate::answer::Answer;
use crate::state::State;
use crate::word::bytes;
use crate::{device, records};
use qc_disk::{DiskNo, HomeDisk, HomeShop, MemDisk, MemShop, Shop};
use rows_kit::{Case, Step, on_folders};
use std::alloc::{AllocError, Global};
use std::{fs, mem};

/// What a case stands on, and where its disks come from.
#[derive(Drop)]
pub(crate) struct DiskCase {
    rt: HostRuntime,
    alloc: Global,
    shop: MemShop,
    home: HomeShop,
    state: State,
}

// Disks in memory that do not fail, of the bytes behind a number.
fn disks(alloc: Global, step: &Step<'_>) -> Result<Vec<MemDisk>, AllocError> {
    let mut disks = Vec::new(alloc);
    for word in step.words_from(1) {
        disks.push(MemDisk::new(bytes(alloc, word)?, Vec::new(alloc)))?;
    }
    Ok(disks)
}

impl DiskCase {
    /// No disk, and a shop in memory that has none.
    pub(crate) fn new(rt: HostRuntime, alloc: Global) -> Self {
        DiskCase {
            rt,
            alloc,
            shop: MemShop::new(Vec::new(alloc), Vec::new(alloc)),
            home: HomeShop::new(rt),
            state: State::Nothing,
        }
    }

    // Makes a step.
    fn answer(&mut self, step: &Step<'_>) -> Result<Answer, AllocError> {
        match step.name {
            "folder" | "remove" | "file" => Ok(self.on_files(step)),
            "mem" => self.memory(step),
            "shop" => self.stock(step),
            "obtain" => Ok(self.obtain(step)),
            "home" => Ok(self.home(step)),
            "beside" => Ok(self.beside(step)),
            "mount" | "append" | "close" | "reopen" | "reread" | "up" => self.on_journal(step),
            _ => self.on_disk(step),
        }
    }

    // Makes or removes a folder, or reads a file, in the folder that the program runs in.
    fn on_files(&self, step: &Step<'_>) -> Answer {
        match on_folders(&self.rt, step) {
            Some(true) => Answer::Done,
            Some(false) => Answer::NoFile,
            None => match fs::read(&self.rt, step.word(0)) {
                Ok(bytes) => Answer::Bytes(bytes),
                Err(_) => Answer::NoFile,
            },
        }
    }

    // Takes a disk, where there is one.
    fn take(&mut self, disk: Result<HomeDisk, DiskNo>) -> Answer {
        match disk {
            Ok(disk) => {
                self.state = State::Disk(disk);
                Answer::Done
            }
            Err(no) => Answer::Disk(no),
        }
    }

    // Makes a disk in memory.
    fn memory(&mut self, step: &Step<'_>) -> Result<Answer, AllocError> {
        let bytes = bytes(self.alloc, step.word(0))?;
        let fails = step.fails(self.alloc, 1)?;
        Ok(self.take(Ok(HomeDisk::Memory(MemDisk::new(bytes, fails)))))
    }

    // Stocks the shop in memory, which fails at one number.
    fn stock(&mut self, step: &Step<'_>) -> Result<Answer, AllocError> {
        let fails = vec![in self.alloc; step.which()]?;
        self.shop = MemShop::new(disks(self.alloc, step)?, fails);
        Ok(Answer::Done)
    }

    // Takes a disk from the shop in memory.
    fn obtain(&mut self, step: &Step<'_>) -> Answer {
        match self.shop.obtain(self.alloc, "", step.which()) {
            Ok(disk) => self.take(Ok(HomeDisk::Memory(disk))),
            Err(no) => Answer::Disk(no),
        }
    }

    // Takes a disk from the real shop. A stroke is no place. The disk before it is let go of first, since it may hold
    // the lock of the same file.
    fn home(&mut self, step: &Step<'_>) -> Answer {
        let place = step.word(1);
        let place = if place == "-" { "" } else { place };
        self.state = State::Nothing;
        let disk = self.home.obtain(self.alloc, place, step.which());
        self.take(disk)
    }

    // Asks the real shop for a disk beside the one at hand, and lets go of it.
    fn beside(&mut self, step: &Step<'_>) -> Answer {
        match self.home.obtain(self.alloc, step.word(1), step.which()) {
            Ok(_) => Answer::Done,
            Err(no) => Answer::Disk(no),
        }
    }

    // Makes a step on a journal.
    fn on_journal(&mut self, step: &Step<'_>) -> Result<Answer, AllocError> {
        let state = mem::replace(&mut self.state, State::Nothing);
        let (state, answer) = records::step(self.alloc, state, step)?;
        self.state = state;
        Ok(answer)
    }

    // Makes a step on a disk. A journal above it ends.
    fn on_disk(&mut self, step: &Step<'_>) -> Result<Answer, AllocError> {
        let Some(mut disk) = mem::replace(&mut self.state, State::Nothing).into_disk() else {
            return Ok(Answer::Unknown);
        };
        let answer = device::step(self.alloc, &mut disk, step)?;
        self.state = State::Disk(disk);
        Ok(answer)
    }
}

impl Case for DiskCase {
    fn step(&mut self, step: &Step<'_>) -> Result<String, AllocError> {
        self.answer(step)?.text(self.alloc)
    }
}
