//! The disks of a case, and at which numbers its shop fails.

use crate::images::image;
use crate::step::{Step, bytes};
use qc_disk::{FailAt, MemDisk, MemShop};
use std::alloc::{AllocError, Global};
use std::mem;

/// How many disks a store may have: a ledger's, those of sixteen copies, and a spare for each.
const DISKS: u8 = 34;

/// The number of the first spare, which is the ledger's.
const SPARES: u8 = 17;

/// What a disk is made of: its number, its bytes, and the calls at which it fails.
#[derive(Drop)]
pub struct Blank {
    pub which: u8,
    pub bytes: Vec<u8>,
    fails: Vec<FailAt>,
}

/// The disks that the next shop has, at which numbers it fails, and the disks that came back last.
#[derive(Drop)]
pub struct Shelf {
    alloc: Global,
    blanks: Vec<Blank>,
    shop_fails: Vec<u8>,
    back: Vec<Blank>,
}

// A disk of these bytes that does not fail.
fn blank_of(alloc: Global, which: u8, bytes: Vec<u8>) -> Blank {
    Blank {
        which,
        bytes,
        fails: Vec::new(alloc),
    }
}

impl Shelf {
    /// Empty disks that do not fail.
    pub fn new(alloc: Global) -> Self {
        Shelf {
            alloc,
            blanks: Vec::new(alloc),
            shop_fails: Vec::new(alloc),
            back: Vec::new(alloc),
        }
    }

    /// Makes a step, and tells whether there is such a disk; none where the step is another.
    pub fn step(&mut self, step: &Step<'_>) -> Result<Option<bool>, AllocError> {
        let there = match step.name {
            "keep" => {
                self.keep()?;
                true
            }
            "image" => {
                let bytes = image(self.alloc, step.words_from(1))?;
                self.fill(step.which(), bytes)?
            }
            "bytes" => {
                let bytes = bytes(self.alloc, step.word(1))?;
                self.fill(step.which(), bytes)?
            }
            "fail" => self.spoil(step)?,
            "shop" => {
                self.shop_fails = step.numbers(self.alloc)?;
                true
            }
            _ => return Ok(None),
        };
        Ok(Some(there))
    }

    // The disk of a number, an empty one where there was none.
    fn blank(&mut self, which: u8) -> Result<Option<&mut Blank>, AllocError> {
        if which >= DISKS {
            return Ok(None);
        }
        if !self.blanks.iter().any(|blank| blank.which == which) {
            let bytes = Vec::new(self.alloc);
            self.blanks.push(blank_of(self.alloc, which, bytes))?;
        }
        Ok(self.blanks.iter_mut().find(|blank| blank.which == which))
    }

    // Gives a disk bytes, where there is one of the number.
    fn fill(&mut self, which: u8, bytes: Vec<u8>) -> Result<bool, AllocError> {
        match self.blank(which)? {
            Some(blank) => {
                blank.bytes = bytes;
                Ok(true)
            }
            None => Ok(false),
        }
    }

    // Has a disk fail at the calls that a step says behind its number, where there is one of that.
    fn spoil(&mut self, step: &Step<'_>) -> Result<bool, AllocError> {
        let fails = step.fails(self.alloc, 1)?;
        match self.blank(step.which())? {
            Some(blank) => {
                blank.fails = fails;
                Ok(true)
            }
            None => Ok(false),
        }
    }

    /// The disks are those that came back last.
    pub fn keep(&mut self) -> Result<(), AllocError> {
        self.blanks = Vec::new(self.alloc);
        for back in mem::replace(&mut self.back, Vec::new(self.alloc)) {
            self.fill(back.which, back.bytes)?;
        }
        Ok(())
    }

    /// A shop of the disks, with empty ones of the other numbers. The shop behind it has empty ones.
    pub fn shop(&mut self) -> Result<MemShop, AllocError> {
        let mut disks = Vec::new(self.alloc);
        for _ in 0..DISKS {
            disks.push(MemDisk::new(Vec::new(self.alloc), Vec::new(self.alloc)))?;
        }
        for blank in mem::replace(&mut self.blanks, Vec::new(self.alloc)) {
            if let Some(disk) = disks.get_mut(usize::from(blank.which)) {
                *disk = MemDisk::new(blank.bytes, blank.fails);
            }
        }
        let fails = mem::replace(&mut self.shop_fails, Vec::new(self.alloc));
        Ok(MemShop::new(disks, fails))
    }

    // Adds disks that came back, which have the numbers from this one on.
    fn add_back(&mut self, first: u8, disks: &[MemDisk]) -> Result<(), AllocError> {
        for (which, disk) in (first..DISKS).zip(disks) {
            let bytes = disk.bytes().to_vec(self.alloc)?;
            self.back.push(blank_of(self.alloc, which, bytes))?;
        }
        Ok(())
    }

    /// Takes the bytes of the disks that came back, which have the numbers from 0 on.
    pub fn take_back(&mut self, disks: &[MemDisk]) -> Result<(), AllocError> {
        self.back = Vec::new(self.alloc);
        self.add_back(0, disks)
    }

    /// Takes the bytes of the disks that came back of a store of so many copies: behind those of the ledger and the copies
    /// stand their spares.
    pub fn take_back_store(&mut self, copies: u8, disks: &[MemDisk]) -> Result<(), AllocError> {
        let pairs = disks.len().min(usize::from(copies) + 1);
        let (disks, spares) = disks.split_at(pairs);
        self.take_back(disks)?;
        self.add_back(SPARES, spares)
    }

    /// The disks that came back last.
    pub fn back(&self) -> &[Blank] {
        &self.back
    }

    /// What the disks of the next shop are made of.
    pub fn blanks(&self) -> &[Blank] {
        &self.blanks
    }
}
