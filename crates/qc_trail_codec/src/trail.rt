//! Saved trails.
ghost use Rattle.std.specs.Prelude.{◌≡◌, ◌<◌, ◌≤◌, [], ◌∷◌, ◌++◌, length, IfOk, IsErrOf, OnOk};
ghost use Rattle.std.specs.List.{All};
ghost use Rattle.qc_codec.specs.Fields.{current, current_format, layout};
ghost use Rattle.qc_codec.specs.Gives.{Reads, ReadsEach, ReadsAll, Spells, SpellsNone, PutsEach};
ghost use Rattle.qc_codec.specs.declared.fault.CodecNo.TheVariants.{Bad};
ghost use Rattle.qc_event.specs.Base.{IsProperBase};
ghost use Rattle.qc_trail_codec.specs.Events as events;
ghost use Rattle.qc_trail_codec.specs.Saving.{CanBeSaved, records_of};
ghost use Rattle.qc_trail_codec.specs.Trail as saved;

use crate::base::{base, put_base};
use crate::event::{entry, put_entry};
use crate::record::{Entries, SavedTrail};
use qc_codec::{CodecNo, Cursor, put_long};
use qc_event::Base;
use qc_names::lists::append;
use qc_trail::Trail;
use std::alloc::{AllocError, Global};

// So many entries.
fn entries(
    cursor: &mut Cursor<'_>,
    alloc: Global,
    copies: u8,
    count: u64,
    format: u8,
) -> Result<Entries, CodecNo>
    requires { copies ≤ 16 }
    ensures { ReadsEach (events.entry (layout copies format)) count result cursor.old cursor.new }
{
    let mut entries = Vec::new(alloc);
    for _ in 0..count {
        // A `?` in place of the match gets no proof today.
        match entry(cursor, copies, format) {
            Ok(entry) => append(&mut entries, entry)?,
            Err(fault) => return Err(fault),
        }
    }
    Ok(Entries::new(entries))
}

#[tactic(auto, unfolding(crate::specs::Trail::trail))]
fn trail(cursor: &mut Cursor<'_>, alloc: Global, format: u8) -> Result<SavedTrail, CodecNo>
    ensures { Reads (saved.trail format) result cursor.old cursor.new }
{
    let base = base(cursor, alloc, format)?;
    let count = cursor.long()?;
    let entries = entries(cursor, alloc, base.copies() as u8, count, format)?;
    Ok(SavedTrail { base, entries })
}

fn all(alloc: Global, bytes: &[u8], format: u8) -> Result<SavedTrail, CodecNo>
    ensures { ReadsAll (saved.trail format) result bytes.now }
{
    let mut cursor = Cursor { rest: bytes };
    let trail = trail(&mut cursor, alloc, format)?;
    if !cursor.rest.is_empty() {
        return Err(CodecNo::Bad);
    }
    Ok(trail)
}

/// The saved trail that the bytes are in a format.
pub fn read_trail(alloc: Global, bytes: &[u8], format: u8) -> Result<SavedTrail, CodecNo>
    ensures exact { ReadsAll (saved.trail format) result bytes.now }
    ensures found { IfOk result (Spells (saved.trail format) bytes.now) }
    ensures bad { IsErrOf result Bad → SpellsNone (saved.trail format) bytes.now }

    // What was read can be saved again.
    ensures base { IfOk result (λ t. IsProperBase (records_of t.base) t.base) }
    ensures entries { IfOk result (λ t. All (CanBeSaved (length t.base)) t.entries) }
{
    all(alloc, bytes, format)
}

fn put_entries(out: &mut Vec<u8>, copies: u8, entries: &Trail) -> Result<(), AllocError>
    requires some { 0 < copies }
    requires most { copies ≤ 16 }
    requires can { All (CanBeSaved copies) entries.now }
    ensures written { PutsEach (events.entry (current copies)) entries.now result
        out.old.items out.new.items }
    ensures fits { OnOk result (All (events.entry (current copies)).fits entries.now) }
{
    for at in 0..entries.len() {
        let entry = entries.at(at);
        put_entry(out, copies, &entry)?;
    }
    Ok(())
}

/// The bytes of a trail in the current format: what a run started from, and its entries.
#[tactic(auto, unfolding(crate::specs::Trail::trail))]
pub fn write_trail(alloc: Global, base: &Base, entries: &Trail) -> Result<Vec<u8>, AllocError>
    requires base { IsProperBase (records_of base.now) base.now }
    requires entries { All (CanBeSaved (length base.now)) entries.now }
    ensures { IfOk result (λ bytes. Spells (saved.trail current_format) bytes.items
        (record { base = base.now; entries = entries.now })) }
{
    let mut out = Vec::new(alloc);
    put_base(&mut out, base)?;
    put_long(&mut out, entries.len() as u64)?;
    put_entries(&mut out, base.copies() as u8, entries)?;
    Ok(out)
}
