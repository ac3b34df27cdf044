//! Questions about the copy of a case, whose locks the case grants and settles line by line.
ghost use Rattle.std.specs.Prelude.{◌<◌, IfOk, length};

use crate::case::Case;
use crate::copies::OwnCopy;
use crate::told::TrailTold;
use crate::wrong::Wrong;
use qc_moss::Locks;
use rows_text::Words;

/// How many records the copy has.
pub fn records(locks: &Locks) -> TrailTold {
    TrailTold::Count(locks.records())
}

/// What the copy granted an access.
pub fn granted(copy: &OwnCopy, words: &mut Words<'_>) -> Result<TrailTold, Wrong> {
    Ok(TrailTold::Tuple(copy.again(&words.name()?)))
}

// The next word, a record of the copy.
fn record(locks: &Locks, words: &mut Words<'_>) -> Result<u8, Wrong>
    ensures { IfOk result (λ rec. rec < length locks.now.start) }
{
    let rec = words.number::<u8>()?;
    if usize::from(rec) < locks.records() {
        Ok(rec)
    } else {
        Err(Wrong::Place)
    }
}

/// Whether an access may read a record, or write it.
pub fn test(locks: &Locks, words: &mut Words<'_>, write: bool) -> Result<TrailTold, Wrong> {
    let access = words.name()?;
    let rec = record(locks, words)?;
    Ok(TrailTold::Test(locks.test(&access, rec, write)))
}

/// The locks of a record.
pub fn holders(case: &Case, words: &mut Words<'_>) -> Result<TrailTold, Wrong> {
    let locks = &case.copy.locks;
    let rec = record(locks, words)?;
    Ok(TrailTold::Holders(locks.holders(rec).to_vec(case.alloc)?))
}

/// What the copy holds of a record.
pub fn holds(locks: &Locks, words: &mut Words<'_>) -> Result<TrailTold, Wrong> {
    let rec = record(locks, words)?;
    Ok(TrailTold::Tuple(Some(locks.seen_by(rec))))
}
