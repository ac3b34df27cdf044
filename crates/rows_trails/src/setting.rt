//! Lines that set up a case.

use crate::wrong::Wrong;
use qc_event::{Label, Name, Op, Outcome, Row, Tuple};
use qc_serial::SerialEvent;
use rows_text::{BadLine, Words};
use std::alloc::Global;

/// A line that sets up a case, but for the entries of its history.
#[derive(Drop)]
pub enum Setting {
    Copies(u8),
    Record(Row),
    /// Where a copy starts otherwise than the table says.
    Starts {
        copy: usize,
        rec: usize,
        tuple: Tuple,
    },
    Event(SerialEvent),
    /// A copy that granted nothing, for the steps and questions that follow.
    Copy(u8),
    Grant {
        access: Name,
        rec: u8,
        op: Op,
    },
    Settle(Name, Outcome),
}

fn outcome_of(text: &str) -> Result<Outcome, BadLine> {
    match text {
        "live" => Ok(Outcome::Live),
        "committed" => Ok(Outcome::Committed),
        "aborted" => Ok(Outcome::Aborted),
        _ => Err(BadLine::Word),
    }
}

// An event of the serial machine, as `start 1/1` or `write 1/1.1 0 5`.
fn serial_event(words: &mut Words<'_>) -> Result<SerialEvent, BadLine> {
    let word = words.word()?;
    let name = words.name()?;
    match word {
        "start" => Ok(SerialEvent::Start(name)),
        "enter" => Ok(SerialEvent::Enter(name)),
        "read" => Ok(SerialEvent::Read {
            name,
            rec: words.number()?,
            value: words.value()?,
        }),
        "write" => Ok(SerialEvent::Write {
            name,
            rec: words.number()?,
            value: words.value()?,
        }),
        "leave" => Ok(SerialEvent::Leave(name)),
        "skip" => Ok(SerialEvent::Skip(name)),
        _ => Err(BadLine::Word),
    }
}

fn record(alloc: Global, words: &mut Words<'_>) -> Result<Row, Wrong> {
    Ok(Row {
        name: Label::new(alloc, words.word()?.as_bytes())?,
        start: words.value()?,
        config: words.config()?,
    })
}

impl Setting {
    fn read(alloc: Global, words: &mut Words<'_>, word: &str) -> Result<Option<Self>, Wrong> {
        Ok(Some(match word {
            "copies" => Setting::Copies(words.number()?),
            "record" => Setting::Record(record(alloc, words)?),
            "starts" => Setting::Starts {
                copy: words.number()?,
                rec: words.number()?,
                tuple: words.tuple()?,
            },
            "event" => Setting::Event(serial_event(words)?),
            "copy" => Setting::Copy(words.number()?),
            "grant" => Setting::Grant {
                access: words.name()?,
                rec: words.number()?,
                op: words.op()?,
            },
            "settle" => Setting::Settle(words.name()?, outcome_of(words.word()?)?),
            _ => return Ok(None),
        }))
    }

    /// The setting that a line is, where it is no question.
    pub fn of(alloc: Global, line: &str) -> Result<Option<Self>, Wrong> {
        let mut words = Words::new(line);
        let word = words.word()?;
        let setting = Setting::read(alloc, &mut words, word)?;
        if setting.is_some() {
            words.end()?;
        }
        Ok(setting)
    }
}
