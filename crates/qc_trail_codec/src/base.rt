//! What a run started from.
ghost use Rattle.std.specs.Prelude.{◌≡◌, ◌<◌, ◌≤◌, Some, length, IfOk, IfErr, OnOk};
ghost use Rattle.std.specs.List.{All};
ghost use Rattle.qc_codec.specs.Fields as field;
ghost use Rattle.qc_codec.specs.Fields.{current, current_format, layout};
ghost use Rattle.qc_codec.specs.Form.{times, times_taken};
ghost use Rattle.qc_codec.specs.Gives.{Refuses, Reads, ReadsEach, Puts, PutsEach};
ghost use Rattle.qc_event.specs.Base.{IsProperBase};
ghost use Rattle.qc_trail_codec.specs.Saving.{IsTupleFor, records_of};
ghost use Rattle.qc_trail_codec.specs.Trail as saved;

use crate::kind::put_byte;
use qc_codec::{CodecNo, Cursor, put_tuple};
use qc_config::Tuple;
use qc_event::Base;
use std::alloc::{AllocError, Global};

/// The most copies of a store.
const COPIES: u8 = 16;

/// The most records of a store.
const RECORDS: u8 = 64;

// The tuples of a copy of so many records.
fn row(
    cursor: &mut Cursor<'_>,
    alloc: Global,
    copies: u8,
    records: u8,
    format: u8,
) -> Result<Vec<Tuple>, CodecNo>
    requires { copies ≤ 16 }
    ensures some { IfOk result (λ row. times_taken records (field.tuple (layout copies format))
        cursor.old.rest.now ≡ Some (row.items, cursor.new.rest.now)) }
    ensures none { IfErr result (λ fault. Refuses fault
        (times_taken records (field.tuple (layout copies format)) cursor.old.rest.now)) }
{
    let mut row = Vec::new(alloc);
    for _ in 0..records {
        let tuple = cursor.tuple(copies, format)?;
        row.push(tuple)?;
    }
    Ok(row)
}

// The tuples of so many copies and records.
fn rows(
    cursor: &mut Cursor<'_>,
    alloc: Global,
    copies: u8,
    records: u8,
    format: u8,
) -> Result<Base, CodecNo>
    requires { copies ≤ 16 }
    ensures taken { ReadsEach (times records (field.tuple (layout copies format)))
        copies result cursor.old cursor.new }
    ensures many { IfOk result (λ base. length base ≡ copies) }
{
    let mut rows = Vec::new(alloc);
    for _ in 0..copies {
        let row = row(cursor, alloc, copies, records, format)?;
        rows.push(row)?;
    }
    Ok(Base::new(rows))
}

/// The base at a cursor, in a format.
#[tactic(auto, unfolding(crate::specs::Trail::base))]
pub(crate) fn base(cursor: &mut Cursor<'_>, alloc: Global, format: u8) -> Result<Base, CodecNo>
    ensures taken { Reads (saved.base format) result cursor.old cursor.new }
    ensures most { IfOk result (λ base. length base ≤ 16) }
{
    let copies = cursor.byte()?;
    if copies == 0 || copies > COPIES {
        return Err(CodecNo::Bad);
    }
    let records = cursor.byte()?;
    if records == 0 || records > RECORDS {
        return Err(CodecNo::Bad);
    }
    rows(cursor, alloc, copies, records, format)
}

fn put_row(out: &mut Vec<u8>, copies: u8, row: &[Tuple]) -> Result<(), AllocError>
    requires some { 0 < copies }
    requires most { copies ≤ 16 }
    requires for_copies { All (IsTupleFor copies) row.now }
    ensures written { PutsEach (field.tuple (current copies)) row.now result
        out.old.items out.new.items }
    ensures fits { OnOk result (All (field.tuple (current copies)).fits row.now) }
{
    for tuple in row {
        put_tuple(out, copies, tuple)?;
    }
    Ok(())
}

/// Writes a base behind bytes, of which nothing is known behind an error.
#[tactic(auto, unfolding(crate::specs::Trail::base))]
pub(crate) fn put_base(out: &mut Vec<u8>, base: &Base) -> Result<(), AllocError>
    requires { IsProperBase (records_of base.now) base.now }
    ensures written { Puts (saved.base current_format) base.now result out.old.items out.new.items }
    ensures fits { OnOk result ((saved.base current_format).fits base.now) }
{
    let copies = base.copies() as u8;
    put_byte(out, copies)?;
    put_byte(out, base.row(0).len() as u8)?;
    for copy in 0..copies {
        put_row(out, copies, base.row(copy))?;
    }
    Ok(())
}
