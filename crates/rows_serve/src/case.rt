//! A case: its disks.

use crate::answer::{active, records, told};
use crate::disks::{Disks, Tell};
use crate::run::over_desk;
use crate::start::{mounted, past_of};
use qc_codec::Logged;
use qc_disk::{HomeDisk, HomeShop, Shop};
use rows_kit::{Step, on_folders, said, with_fails};
use std::alloc::{AllocError, Global};
use std::mem;
use std::sync::Wait;

/// A case: its disks, how many runs there were over them, and the tops that committed in these.
#[derive(Drop)]
pub(crate) struct Case {
    home: HostRuntime,
    alloc: Global,
    disks: Option<Disks>,
    runs: u32,
    logged: Vec<Logged>,
}

impl Case {
    /// A case with no disk.
    pub(crate) fn new(home: HostRuntime, alloc: Global) -> Self {
        Case {
            home,
            alloc,
            disks: None,
            runs: 0,
            logged: Vec::new(alloc),
        }
    }

    /// Makes a step: a line for it, or for a run one for each word.
    pub(crate) fn step<R: Wait>(&mut self, rt: &R, text: &str) -> Result<Vec<String>, AllocError> {
        let step = Step::of(self.alloc, text)?;
        if step.name == "run" {
            return self.run(rt, text);
        }
        let answer = match step.name {
            "mem" => self.memory(&step)?,
            "spare" => self.spare(&step)?,
            "file" => self.file(&step)?,
            "calls" => self.told(Tell::Calls)?,
            "bytes" => self.told(Tell::Bytes)?,
            "lose" => self.lose()?,
            "records" => self.records()?,
            _ => self.on_folders(&step)?,
        };
        let mut lines = Vec::new(self.alloc);
        lines.push(told(self.alloc, text, answer.as_str())?)?;
        Ok(lines)
    }

    fn said(&self, text: &str) -> Result<String, AllocError> {
        said(self.alloc, text)
    }

    // An empty disk in memory.
    fn memory(&mut self, step: &Step<'_>) -> Result<String, AllocError> {
        let disk = with_fails(self.alloc, Vec::new(self.alloc), step)?;
        self.disks = Some(Disks {
            own: HomeDisk::Memory(disk),
            spare: None,
        });
        self.runs = 0;
        self.logged = Vec::new(self.alloc);
        self.said("ok")
    }

    // An empty spare in memory beside the disk.
    fn spare(&mut self, step: &Step<'_>) -> Result<String, AllocError> {
        let disk = with_fails(self.alloc, Vec::new(self.alloc), step)?;
        match &mut self.disks {
            Some(disks) => {
                disks.spare = Some(HomeDisk::Memory(disk));
                self.said("ok")
            }
            None => self.said("no such disk"),
        }
    }

    // The copy's disk in a folder.
    fn file(&mut self, step: &Step<'_>) -> Result<String, AllocError> {
        // The disk before it may hold the lock of the same file.
        self.disks = None;
        let mut shop = HomeShop::new(self.home);
        match shop.obtain(self.alloc, step.word(0), 1) {
            Ok(own) => {
                self.disks = Some(Disks { own, spare: None });
                self.said("ok")
            }
            Err(_) => self.said("refused"),
        }
    }

    // How many calls were made of each disk, or the bytes there.
    fn told(&self, tell: Tell) -> Result<String, AllocError> {
        match &self.disks {
            Some(disks) => disks.told(self.alloc, tell),
            None => self.said("no such disk"),
        }
    }

    // The disks lose what was not synced.
    fn lose(&mut self) -> Result<String, AllocError> {
        let lost = match &mut self.disks {
            Some(disks) => disks.lose(self.alloc)?,
            None => false,
        };
        self.said(if lost { "ok" } else { "no such disk" })
    }

    // The records on the disk that is read, which is mounted for it.
    fn records(&mut self) -> Result<String, AllocError> {
        let Some(disks) = mem::replace(&mut self.disks, None) else {
            return self.said("no such disk");
        };
        let past = past_of(self.alloc, self.runs, &self.logged)?;
        match mounted(self.alloc, disks, &past, u64::MAX)? {
            Ok((copy, folds)) => {
                let mut text = active(self.alloc, folds.active())?;
                text.push_str(records(self.alloc, copy.records())?.as_str())?;
                self.disks = Some(folds.into_disks(copy.into_disk()));
                Ok(text)
            }
            Err((disks, no)) => {
                self.disks = Some(disks);
                Ok(no)
            }
        }
    }

    // Tops committed in a run.
    fn keep(&mut self, logged: Vec<Logged>) -> Result<(), AllocError> {
        for top in logged {
            self.logged.push(top)?;
        }
        Ok(())
    }

    // Mounts the copy, whose site serves the words behind the first comma.
    fn run<R: Wait>(&mut self, rt: &R, text: &str) -> Result<Vec<String>, AllocError> {
        let (first, words) = text.split_once(',').unwrap_or((text, ""));
        let mut lines = Vec::new(self.alloc);
        let Some(disks) = mem::replace(&mut self.disks, None) else {
            lines.push(told(self.alloc, first, "no such disk")?)?;
            return Ok(lines);
        };
        let limit = Step::of(self.alloc, first)?.number(0);
        let past = past_of(self.alloc, self.runs, &self.logged)?;
        match mounted(self.alloc, disks, &past, limit)? {
            Ok((copy, folds)) => {
                self.runs = self.runs.saturating_add(1);
                let mut answer = active(self.alloc, folds.active())?;
                answer.push_str("ok")?;
                lines.push(told(self.alloc, first, answer.as_str())?)?;
                let ran = over_desk(rt, self.home, self.alloc, copy, folds, self.runs, words)?;
                self.disks = Some(ran.disks);
                self.keep(ran.logged)?;
                for line in ran.lines {
                    lines.push(line)?;
                }
            }
            Err((disks, no)) => {
                lines.push(told(self.alloc, first, no.as_str())?)?;
                self.disks = Some(disks);
            }
        }
        Ok(lines)
    }

    // Makes or removes a folder, in the folder that the program runs in.
    fn on_folders(&self, step: &Step<'_>) -> Result<String, AllocError> {
        self.said(match on_folders(&self.home, step) {
            Some(true) => "ok",
            Some(false) => "refused",
            None => "no such step",
        })
    }
}
