//! Saved trails: how disk 0 of a store is made, and the trail of a run over it.
ghost use Rattle.std.specs.Prelude.{◌≡◌, ◌↔◌, List, ℕ, IfErr, IfOk, IsErrOf, IsTrue};
ghost use Rattle.qc_codec.specs.Bodies as body;
ghost use Rattle.qc_codec.specs.Gives.{Spells};
ghost use Rattle.qc_codec.specs.Ledger.{made_in};
ghost use Rattle.qc_codec.specs.declared.fault.CodecNo.TheVariants.{Bad};
ghost use Rattle.qc_event.specs.declared.table.Table as tables;
ghost use Rattle.qc_trail_codec.specs.declared.record.SavedTrail as trails;
ghost use Rattle.qc_audit.specs.Saved.{AreParts, HasSizes, IsSaved};

use qc_codec::{CodecNo, Cursor, Made, read_made};
use qc_event::{Base, Table};
use qc_trail_codec::{SavedTrail, read_trail};
use std::alloc::Global;

/// The number of the ledger's disk.
pub(crate) const LEDGER_DISK: u8 = 0;

/// A table, and the trail of a run over it.
#[derive(Debug, Drop)]
pub(crate) struct Saved {
    pub(crate) table: Table,
    pub(crate) trail: SavedTrail,
}

// The two bodies of a saved trail.
#[derive(Drop)]
struct Parts<'a> {
    made: &'a [u8],
    trail: &'a [u8],
}

fn parted(bytes: &[u8]) -> Result<Parts<'_>, CodecNo>
    ensures found { IfOk result (λ p. AreParts bytes.now p.made.now p.trail.now) }
    ensures bad { IfErr result (λ e. (e ≡ Bad)
        × ((front back : List ℕ) → AreParts bytes.now front back → ⊥)) }
{
    let mut cursor = Cursor { rest: bytes };
    let size = cursor.word()? as usize;
    let rest = cursor.rest;
    if rest.len() < size {
        return Err(CodecNo::Bad);
    }
    let (made, trail) = rest.split_at(size);
    Ok(Parts { made, trail })
}

// How disk 0 was made.
fn ledger_made(alloc: Global, bytes: &[u8]) -> Result<Made, CodecNo>
    ensures found { IfOk result (λ m. Spells body.made bytes.now (made_in m.format 0 m.table)) }
    ensures bad { IsErrOf result Bad → (format : ℕ) (table : tables.Table) →
        Spells body.made bytes.now (made_in format 0 table) → ⊥ }
{
    let made = read_made(alloc, bytes)?;
    if made.who != LEDGER_DISK {
        return Err(CodecNo::Bad);
    }
    Ok(made)
}

// Whether a base has a table's copies, and its records at each.
fn has_sizes(table: &Table, base: &Base) -> bool
    ensures { IsTrue result ↔ HasSizes table.now base.now }
{
    let records = table.records.as_slice().len();
    if base.copies() != table.copies as usize {
        return false;
    }
    for copy in 0..table.copies {
        if base.row(copy).len() != records {
            return false;
        }
    }
    true
}

/// The table and the trail of which the bytes are the saved form.
pub(crate) fn read_saved(alloc: Global, bytes: &[u8]) -> Result<Saved, CodecNo>
    ensures found { IfOk result (λ s. IsSaved s.table s.trail bytes.now) }
    ensures bad { IsErrOf result Bad → (table : tables.Table) (trail : trails.SavedTrail) →
        IsSaved table trail bytes.now → ⊥ }
{
    let parts = parted(bytes)?;
    let Made { format, table, .. } = ledger_made(alloc, parts.made)?;
    let trail = read_trail(alloc, parts.trail, format)?;
    if !has_sizes(&table, &trail.base) {
        return Err(CodecNo::Bad);
    }
    Ok(Saved { table, trail })
}
