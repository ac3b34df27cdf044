//! Questions about serial orders and the serial machine.
use crate::case::Case;
use crate::told::TrailTold;
use crate::wrong::Wrong;
use qc_event::Entry;
use qc_serial::{NotSerial, SerialEvent, accepts, serialise};
use rows_text::Words;

/// What the serial machine makes of these events.
pub fn machine(case: &Case, events: &[SerialEvent]) -> Result<TrailTold, Wrong> {
    match accepts(case.alloc, case.starts()?.as_slice(), events) {
        Ok(values) => Ok(TrailTold::Values(values)),
        Err(NotSerial::At(place)) => Ok(TrailTold::NotAllowed(place)),
        Err(NotSerial::Memory) => Err(Wrong::Memory),
    }
}

/// The serial order of a transaction.
pub fn order(case: &Case, h: &[Entry], words: &mut Words<'_>) -> Result<TrailTold, Wrong> {
    Ok(TrailTold::Order(serialise(case.alloc, h, &words.name()?)?))
}

/// What the serial machine makes of the serial order of a transaction.
pub fn accepted(case: &Case, h: &[Entry], words: &mut Words<'_>) -> Result<TrailTold, Wrong> {
    let events = serialise(case.alloc, h, &words.name()?)?;
    machine(case, events.as_slice())
}
