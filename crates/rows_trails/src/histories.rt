//! Questions about names and histories.
ghost use Rattle.std.specs.Prelude.{IsTrue};
ghost use Rattle.qc_event.specs.Base.{IsWithin};

use crate::case::Case;
use crate::told::TrailTold;
use crate::wrong::Wrong;
use qc_check::check_by_scans;
use qc_event::{Base, Entry, clear, dead, holder, kind, outcome, seen};
use rows_text::Words;

/// Whether the first name is an ancestor of the second.
pub fn ancestor(words: &mut Words<'_>) -> Result<TrailTold, Wrong> {
    Ok(TrailTold::Truth(words.name()?.is_ancestor(&words.name()?)))
}

/// The longest common ancestor of two names.
pub fn meet(words: &mut Words<'_>) -> Result<TrailTold, Wrong> {
    Ok(TrailTold::Name(Some(words.name()?.meet(&words.name()?))))
}

/// What a name was started for.
pub fn started(h: &[Entry], words: &mut Words<'_>) -> Result<TrailTold, Wrong> {
    Ok(TrailTold::Kind(kind(h, &words.name()?)))
}

/// How a transaction stands.
pub fn standing(h: &[Entry], words: &mut Words<'_>) -> Result<TrailTold, Wrong> {
    Ok(TrailTold::Outcome(outcome(h, &words.name()?)))
}

/// The shortest aborted ancestor.
pub fn dead_by(h: &[Entry], words: &mut Words<'_>) -> Result<TrailTold, Wrong> {
    Ok(TrailTold::Name(dead(h, &words.name()?)))
}

/// Whether the first access is clear for the second.
pub fn clear_for(h: &[Entry], words: &mut Words<'_>) -> Result<TrailTold, Wrong> {
    Ok(TrailTold::Truth(clear(h, &words.name()?, &words.name()?)))
}

/// The first grant in the way of an operation of an access, at a copy and a record.
pub fn held_by(h: &[Entry], words: &mut Words<'_>) -> Result<TrailTold, Wrong> {
    let copy = words.number()?;
    let rec = words.number()?;
    let op = words.op()?;
    Ok(TrailTold::Name(holder(h, copy, rec, &op, &words.name()?)))
}

fn is_within(base: &Base, copy: u8, rec: u8) -> bool
    ensures { IsTrue result → IsWithin base.now copy rec }
{
    usize::from(copy) < base.copies() && usize::from(rec) < base.row(copy).len()
}

/// What a copy holds of a record.
pub fn left(case: &Case, h: &[Entry], words: &mut Words<'_>) -> Result<TrailTold, Wrong> {
    let copy = words.number()?;
    let rec = words.number()?;
    let base = case.base()?;
    if !is_within(&base, copy, rec) {
        return Err(Wrong::Place);
    }
    Ok(TrailTold::Tuple(Some(seen(h, &base, copy, rec))))
}

/// The tuple with which a copy starts a record.
pub fn first(case: &Case, words: &mut Words<'_>) -> Result<TrailTold, Wrong> {
    let copy = words.number()?;
    let rec = words.number()?;
    Ok(TrailTold::Tuple(Some(case.base()?.tuple(copy, rec))))
}

/// How many copies there are.
pub fn copies(case: &Case) -> Result<TrailTold, Wrong> {
    Ok(TrailTold::Count(case.base()?.copies()))
}

/// How many records a copy has.
pub fn records(case: &Case, words: &mut Words<'_>) -> Result<TrailTold, Wrong> {
    Ok(TrailTold::Count(case.base()?.row(words.number()?).len()))
}

/// Whether the history is legal.
pub fn verdict(case: &Case, h: &[Entry]) -> Result<TrailTold, Wrong> {
    let base = case.base()?;
    Ok(TrailTold::Verdict(check_by_scans(&base, case.firsts()?.as_slice(), h).err()))
}
