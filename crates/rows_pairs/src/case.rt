//! A case: the disks that it has.

use crate::opening::pair_step;
use crate::wish::Wish;
use qc_disk::Shop;
use rows_kit::{Case, Shelf, Step, put_hex, said};
use std::alloc::{AllocError, Global};

/// A disk and its spare.
#[derive(Drop)]
pub(crate) struct PairCase {
    alloc: Global,
    shelf: Shelf,
}

impl PairCase {
    /// Empty disks that do not fail.
    pub(crate) fn new(alloc: Global) -> Self {
        PairCase {
            alloc,
            shelf: Shelf::new(alloc),
        }
    }

    // Opens the pair of the disks, and takes those that come back.
    fn open(&mut self, step: &Step<'_>) -> Result<String, AllocError> {
        let who = step.which();
        if who > 16 {
            return said(self.alloc, "no such disk");
        }
        let Some(wish) = Wish::of(self.alloc, step)? else {
            return said(self.alloc, "no such fold");
        };
        let mut shop = self.shelf.shop()?;
        let disk = shop.obtain(self.alloc, "", 0);
        let spare = shop.obtain(self.alloc, "", 1);
        match (disk, spare) {
            (Ok(disk), Ok(spare)) => {
                let (text, disks) = pair_step(self.alloc, disk, spare, who, step, wish)?;
                self.shelf.take_back(&disks)?;
                self.shelf.keep()?;
                Ok(text)
            }
            _ => said(self.alloc, "no disks"),
        }
    }

    // The bytes of each disk.
    fn bytes(&self) -> Result<String, AllocError> {
        let mut text = String::new(self.alloc);
        for blank in self.shelf.blanks() {
            text.push_str(" / ")?;
            put_hex(self.alloc, &mut text, &blank.bytes)?;
        }
        Ok(text)
    }
}

impl Case for PairCase {
    fn step(&mut self, step: &Step<'_>) -> Result<String, AllocError> {
        match step.name {
            "open" | "fold" | "renew" => self.open(step),
            "disks" => self.bytes(),
            _ => {
                let answer = match self.shelf.step(step)? {
                    Some(true) => "ok",
                    Some(false) => "no such disk",
                    None => "no such step",
                };
                said(self.alloc, answer)
            }
        }
    }
}
