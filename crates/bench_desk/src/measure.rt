//! The time that a desk takes.
ghost use Rattle.std.specs.Prelude.{◌≡◌};

use crate::tops::{abort_all, ended_all, start_all};
use qc_desk::{Blank, DeskNo, Store};
use qc_event::{Base, Short};
use std::alloc::{AllocError, Global};
use std::io;
use std::marker::Brand;
use std::sync::Wait;
use std::time::{Clock, Duration, Instant};

/// How long it took to start all tops, then to abort each, and then to ask each for its end.
#[derive(Clone, Copy)]
pub(crate) struct Times {
    pub(crate) started: Duration,
    pub(crate) aborted: Duration,
    pub(crate) asked: Duration,
}

/// Why there are no times.
#[derive(Clone, Copy)]
pub(crate) enum Trouble {
    /// A line is no number.
    Number,
    /// The desk refused, or told that a top has no end.
    Desk,
    /// There was no memory.
    Memory,
    /// The clock could not be read.
    Clock,
}

impl From<AllocError> for Trouble {
    fn from(_: AllocError) -> Self {
        Trouble::Memory
    }
}

impl From<DeskNo> for Trouble {
    fn from(no: DeskNo) -> Self {
        match no {
            DeskNo::Short(Short::Memory) => Trouble::Memory,
            _ => Trouble::Desk,
        }
    }
}

impl From<io::Error> for Trouble {
    fn from(_: io::Error) -> Self {
        Trouble::Clock
    }
}

fn measured_at<N: Store, R: Wait + Clock>(
    rt: &R,
    alloc: Global,
    blank: Blank,
    tops: u32,
) -> Result<Times, Trouble>
    requires desk { blank.room.shared.table_id ≡ N.desk }
    requires base { blank.base ≡ N.base }
{
    let (desk, mut pass) = blank.name::<N>();
    let start = Instant::now(rt)?;
    let names = start_all(rt, alloc, &desk, &mut pass, tops)?;
    let started = start.elapsed(rt)?;
    let start = Instant::now(rt)?;
    abort_all(rt, &desk, &mut pass, names.as_slice())?;
    let aborted = start.elapsed(rt)?;
    let start = Instant::now(rt)?;
    let all = ended_all(rt, &desk, &mut pass, names.as_slice());
    let asked = start.elapsed(rt)?;
    if !all || !desk.settled(rt, &mut pass) {
        return Err(Trouble::Desk);
    }
    Ok(Times {
        started,
        aborted,
        asked,
    })
}

/// The times of so many tops at a desk of their own.
pub(crate) fn measured<R: Wait + Clock>(
    rt: &R,
    alloc: Global,
    tops: u32,
) -> Result<Times, Trouble> {
    let blank = Blank::new(alloc, Base::new(Vec::new(alloc)), 1)?;
    measured_at::<Brand, R>(rt, alloc, blank, tops)
}
