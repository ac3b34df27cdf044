//! What is saved of a run, so that it can be audited.
ghost use Rattle.std.specs.Prelude.{◌≡◌, ◌<◌, ◌^◌, ◌++◌, IfOk, OnOk, length, reverse};
ghost use Rattle.qc_codec.specs.Bodies as body;
ghost use Rattle.qc_codec.specs.Fields.{current_format, word};
ghost use Rattle.qc_codec.specs.Gives.{Spells};
ghost use Rattle.qc_codec.specs.Ledger.{made_for};
ghost use Rattle.qc_event.specs.Base.{IsProper};
ghost use Rattle.qc_event.specs.Legal.{Legal};
ghost use Rattle.qc_event.specs.Tables.{setting_of};
ghost use Rattle.qc_audit.specs.Saved.{IsSaved, saved_text};
ghost use Rattle.qc_codec.specs.declared.record.Made.{Made};

use crate::reading::LEDGER_DISK;
use qc_codec::{FORMAT, Made, copy_table, put_word, write_made};
use qc_event::{Base, Table};
use qc_trail::Trail;
use qc_trail_codec::{legal_histories_can_be_saved, write_trail};
use std::alloc::{AllocError, Global};

// How disk 0 of a table's store is made.
fn front(alloc: Global, table: &Table) -> Result<Vec<u8>, AllocError>
    requires { (body.table current_format).fits table.now }
    ensures made { IfOk result (λ bytes. Spells body.made bytes.items (made_for 0 table.now)) }
    ensures short { IfOk result (λ bytes. length bytes.items < 2 ^ 32) }
{
    let table = copy_table(alloc, table)?;
    let made = Made {
        format: FORMAT,
        who: LEDGER_DISK,
        table,
    };
    write_made(alloc, &made)
}

// A front and a back, behind how long the front is.
fn joined(alloc: Global, front: &[u8], back: &[u8]) -> Result<Vec<u8>, AllocError>
    requires { length front.now < 2 ^ 32 }
    ensures { IfOk result (λ bytes. bytes.items
        ≡ word.spell (length front.now) ++ (front.now ++ back.now)) }
{
    let mut bytes = Vec::new(alloc);
    put_word(&mut bytes, front.len() as u32)?;
    bytes.extend_from_slice(front)?;
    bytes.extend_from_slice(back)?;
    Ok(bytes)
}

/// The saved form, in the current format, of a table and the trail of a run over it, which began with a base. Its time
/// grows with the entries.
pub fn saved(
    alloc: Global,
    table: &Table,
    base: &Base,
    trail: &Trail,
) -> Result<Vec<u8>, AllocError>
    requires spelled { (body.table current_format).fits table.now }
    requires as_many { length base.now ≡ table.now.copies }
    requires proper { IsProper (setting_of table.now base.now) }
    requires legal { Legal (setting_of table.now base.now) (reverse trail.now) }
    ensures text { IfOk result (λ bytes. bytes.items
        ≡ saved_text table.now (record { base = base.now; entries = trail.now })) }

    // It can be read again.
    ensures saved { OnOk result (IsSaved table.now
        (record { base = base.now; entries = trail.now })
        (saved_text table.now (record { base = base.now; entries = trail.now }))) }
{
    legal_histories_can_be_saved();
    let front = front(alloc, table)?;
    let back = write_trail(alloc, base, trail)?;
    joined(alloc, front.as_slice(), back.as_slice())
}
