//! What a case has so far.

use crate::copies::OwnCopy;
use crate::setting::Setting;
use crate::sources::Settlement;
use crate::wrong::Wrong;
use qc_event::{Base, Config, Entry, Row, Tuple, Val};
use qc_serial::SerialEvent;
use rows_text::{Log, append_line};
use std::alloc::{AllocError, Global};

/// What a case has so far: its table, the tuples with which its copies start, its history, and a copy and a
/// list of serial events of their own.
#[derive(Drop)]
pub struct Case {
    pub alloc: Global,
    rows: Vec<Row>,
    tuples: Vec<Vec<Tuple>>,
    log: Log,
    pub events: Vec<SerialEvent>,
    pub copy: OwnCopy,
}

// The tuple with which a record of the table starts.
fn first_tuple(row: &Row) -> Tuple {
    Tuple {
        version: 0,
        value: row.start,
        generation: 0,
        config: row.config,
    }
}

impl Case {
    /// A case without anything.
    pub fn new(alloc: Global) -> Result<Self, AllocError> {
        Ok(Case {
            alloc,
            rows: Vec::new(alloc),
            tuples: Vec::new(alloc),
            log: Log::new(alloc),
            events: Vec::new(alloc),
            copy: OwnCopy::new(alloc, Vec::new(alloc))?,
        })
    }

    /// The entries of the history.
    pub fn history(&self) -> &[Entry] {
        self.log.as_slice()
    }

    /// The tuples with which a copy starts.
    pub fn tuples_of(&self, copy: u8) -> Result<Vec<Tuple>, Wrong> {
        match self.tuples.get(usize::from(copy)) {
            Some(tuples) => Ok(tuples.as_slice().to_vec(self.alloc)?),
            None => Err(Wrong::Place),
        }
    }

    /// What the copies start with.
    pub fn base(&self) -> Result<Base, AllocError> {
        let mut copies = Vec::new(self.alloc);
        for tuples in &self.tuples {
            copies.push(tuples.as_slice().to_vec(self.alloc)?)?;
        }
        Ok(Base::new(copies))
    }

    /// The first configuration of each record.
    pub fn firsts(&self) -> Result<Vec<Config>, AllocError> {
        self.rows.iter().map(|row| row.config).collect(self.alloc)
    }

    /// The value with which each record starts.
    pub fn starts(&self) -> Result<Vec<Val>, AllocError> {
        self.rows.iter().map(|row| row.start).collect(self.alloc)
    }

    fn set_copies(&mut self, copies: u8) -> Result<(), Wrong> {
        for _ in 0..copies {
            self.tuples.push(Vec::new(self.alloc))?;
        }
        Ok(())
    }

    fn add_record(&mut self, row: Row) -> Result<(), Wrong> {
        for tuples in self.tuples.iter_mut() {
            tuples.push(first_tuple(&row))?;
        }
        self.rows.push(row)?;
        Ok(())
    }

    fn set_tuple(&mut self, copy: usize, rec: usize, tuple: &Tuple) -> Result<(), Wrong> {
        if copy >= self.tuples.len() || rec >= self.tuples[copy].len() {
            return Err(Wrong::Place);
        }
        self.tuples[copy][rec] = *tuple;
        Ok(())
    }

    /// Appends the entry that a line is to the history.
    pub fn add(&mut self, line: &str) -> Result<(), Wrong> {
        append_line(&mut self.log, line)?;
        Ok(())
    }

    fn begin(&mut self, copy: u8) -> Result<(), Wrong> {
        let tuples = self.tuples_of(copy)?;
        self.copy = OwnCopy::new(self.alloc, tuples)?;
        Ok(())
    }

    /// Does what a line says that sets up the case.
    pub fn set(&mut self, setting: Setting) -> Result<(), Wrong> {
        match setting {
            Setting::Copies(copies) => self.set_copies(copies),
            Setting::Record(row) => self.add_record(row),
            Setting::Starts { copy, rec, tuple } => self.set_tuple(copy, rec, &tuple),
            Setting::Event(event) => Ok(self.events.push(event)?),
            Setting::Copy(copy) => self.begin(copy),
            Setting::Grant { access, rec, op } => {
                self.copy.grant(&access, rec, &op)?;
                Ok(())
            }
            Setting::Settle(name, outcome) => {
                self.copy.settle(&Settlement { name, outcome });
                Ok(())
            }
        }
    }
}
