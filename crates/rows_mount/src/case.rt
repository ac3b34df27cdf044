//! A case: the disks that it has.

use crate::mounting::{mounted, with_lengths};
use qc_disk::HomeShop;
use rows_kit::{Case, Shelf, Step, made_of, on_folders, put_hex, said};
use std::alloc::{AllocError, Global};

/// The disks of a store.
#[derive(Drop)]
pub(crate) struct StoreCase {
    rt: HostRuntime,
    alloc: Global,
    shelf: Shelf,
}

impl StoreCase {
    /// Empty disks, and a shop that does not fail.
    pub(crate) fn new(rt: HostRuntime, alloc: Global) -> Self {
        StoreCase {
            rt,
            alloc,
            shelf: Shelf::new(alloc),
        }
    }

    // Mounts a store from a shop of the disks, and takes those that come back.
    fn mount(&mut self, step: &Step<'_>) -> Result<String, AllocError> {
        let Some(made) = made_of(self.alloc, step.word(1))? else {
            return said(self.alloc, "no such table");
        };
        let mut shop = self.shelf.shop()?;
        let (text, mut disks) = mounted(self.alloc, &mut shop, "", &made, step.number(0))?;
        self.shelf.take_back_store(made.table.copies, &disks)?;
        self.shelf.keep()?;
        with_lengths(self.alloc, text, &mut disks)
    }

    // The number and the bytes of each disk.
    fn bytes(&self) -> Result<String, AllocError> {
        let mut text = String::new(self.alloc);
        for blank in self.shelf.blanks() {
            let which = blank.which;
            text.push_str(format!(in self.alloc; " / {which} ")?.as_str())?;
            put_hex(self.alloc, &mut text, &blank.bytes)?;
        }
        Ok(text)
    }

    // Mounts a store from the real shop. A stroke is no place.
    fn home(&mut self, step: &Step<'_>) -> Result<String, AllocError> {
        let Some(made) = made_of(self.alloc, step.word(2))? else {
            return said(self.alloc, "no such table");
        };
        let first = step.word(0);
        let place = if first == "-" { "" } else { first };
        let mut shop = HomeShop::new(self.rt);
        let (text, mut disks) = mounted(self.alloc, &mut shop, place, &made, step.number(1))?;
        with_lengths(self.alloc, text, &mut disks)
    }

    // Makes a step on the disks before they are mounted, or on the folders around them.
    fn prepare(&mut self, step: &Step<'_>) -> Result<&'static str, AllocError> {
        Ok(match self.shelf.step(step)? {
            Some(true) => "ok",
            Some(false) => "no such disk",
            None => match on_folders(&self.rt, step) {
                Some(true) => "ok",
                Some(false) => "refused",
                None => "no such step",
            },
        })
    }
}

impl Case for StoreCase {
    fn step(&mut self, step: &Step<'_>) -> Result<String, AllocError> {
        match step.name {
            "mount" => self.mount(step),
            "disks" => self.bytes(),
            "home" => self.home(step),
            _ => {
                let answer = self.prepare(step)?;
                said(self.alloc, answer)
            }
        }
    }
}
