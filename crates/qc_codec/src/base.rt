//! What stands behind the made record of a journal that another was folded into.
ghost use Rattle.std.specs.Prelude.{◌≡◌, ◌≤◌, length, IfOk, IfErr, IsErrOf};
ghost use Rattle.std.specs.List.{All};
ghost use Rattle.qc_config.specs.declared.tuple.Tuple.{Tuple};
ghost use Rattle.qc_codec.specs.Bodies as body;
ghost use Rattle.qc_codec.specs.Fields as field;
ghost use Rattle.qc_codec.specs.Fields.{current, layout};
ghost use Rattle.qc_codec.specs.Gives.{Reads, ReadsEach, ReadsAll, Spells, SpellsNone, Puts, PutsEach};
ghost use Rattle.qc_codec.specs.declared.fault.CodecNo.TheVariants.{Bad};

use crate::cursor::Cursor;
use crate::fault::CodecNo;
use crate::record::{BaseRecord, Tuples};
use crate::spelling::{put_long, put_tuple, put_word};
use qc_config::Tuple;
use std::alloc::{AllocError, Global};

/// The greatest number of a fold.
const FOLDS: u64 = 0x8000_0000_0000_0000;

impl Cursor<'_> {
    // The number of a fold.
    fn fold(&mut self) -> Result<u64, CodecNo>
        ensures taken { Reads body.fold_number result self.old self.new }
        ensures only_bad { IfErr result (λ e. e ≡ Bad) }
    {
        let number = self.long()?;
        if number == 0 || number > FOLDS {
            return Err(CodecNo::Bad);
        }
        Ok(number)
    }

    // The epoch of a base.
    fn base_epoch(&mut self, format: u8) -> Result<u32, CodecNo>
        ensures taken { Reads (body.base_epoch format) result self.old self.new }
        ensures only_bad { IfErr result (λ e. e ≡ Bad) }
    {
        let epoch = self.word()?;
        if format == 1 && epoch == 0 {
            return Err(CodecNo::Bad);
        }
        Ok(epoch)
    }

    // So many tuples.
    fn tuples(
        &mut self,
        alloc: Global,
        copies: u8,
        format: u8,
        count: u8,
    ) -> Result<Tuples, CodecNo>
        requires { copies ≤ 16 }
        ensures { ReadsEach (field.tuple (layout copies format)) count result self.old self.new }
    {
        let mut tuples = Vec::new(alloc);
        for _ in 0..count {
            let tuple = self.tuple(copies, format)?;
            tuples.push(tuple)?;
        }
        Ok(Tuples::new(tuples))
    }

    // What stands behind the first byte of a base record.
    #[tactic(auto, unfolding(crate::specs::Bodies::folded))]
    fn folded(
        &mut self,
        alloc: Global,
        copies: u8,
        format: u8,
        records: u8,
    ) -> Result<BaseRecord, CodecNo>
        requires { copies ≤ 16 }
        ensures { Reads (body.folded (layout copies format) records) result self.old self.new }
    {
        let number = self.fold()?;
        let epoch = self.base_epoch(format)?;
        let tuples = self.tuples(alloc, copies, format, records)?;
        Ok(BaseRecord {
            number,
            epoch,
            tuples,
        })
    }
}

#[tactic(auto, unfolding(crate::specs::Bodies::base))]
fn all(
    alloc: Global,
    bytes: &[u8],
    copies: u8,
    records: u8,
    format: u8,
) -> Result<BaseRecord, CodecNo>
    requires { copies ≤ 16 }
    ensures { ReadsAll (body.base (layout copies format) records) result bytes.now }
{
    let mut cursor = Cursor { rest: bytes };
    if cursor.byte()? != 4 {
        return Err(CodecNo::Bad);
    }
    let base = cursor.folded(alloc, copies, format, records)?;
    if !cursor.rest.is_empty() {
        return Err(CodecNo::Bad);
    }
    Ok(base)
}

/// The base record that the bytes are, of a copy of so many records in a store of so many copies, in a format. A
/// ledger's is read with no records.
pub fn read_base(
    alloc: Global,
    bytes: &[u8],
    copies: u8,
    records: u8,
    format: u8,
) -> Result<BaseRecord, CodecNo>
    requires { copies ≤ 16 }
    ensures exact { ReadsAll (body.base (layout copies format) records) result bytes.now }
    ensures found { IfOk result (Spells (body.base (layout copies format) records) bytes.now) }
    ensures bad { IsErrOf result Bad
        → SpellsNone (body.base (layout copies format) records) bytes.now }
{
    all(alloc, bytes, copies, records, format)
}

// Tuples, each with a configuration for so many copies.
fn put_tuples(out: &mut Vec<u8>, copies: u8, tuples: &[Tuple]) -> Result<(), AllocError>
    requires copies { copies ≤ 16 }
    requires same { All (λ (t : Tuple). length t.config.votes ≡ copies) tuples.now }
    ensures { PutsEach (field.tuple (current copies)) tuples.now result
        out.old.items out.new.items }
{
    for tuple in tuples {
        put_tuple(out, copies, tuple)?;
    }
    Ok(())
}

/// The bytes of a base record, of a store of so many copies.
#[tactic(auto, unfolding(crate::specs::Bodies::base, crate::specs::Bodies::folded))]
pub fn write_base(alloc: Global, base: &BaseRecord, copies: u8) -> Result<Vec<u8>, AllocError>
    requires copies { copies ≤ 16 }
    requires proper { (body.base (current copies) (length base.now.tuples)).fits base.now }
    ensures { IfOk result (λ bytes. Spells
        (body.base (current copies) (length base.now.tuples)) bytes.items base.now) }
{
    let mut out = vec![in alloc; 4]?;
    put_long(&mut out, base.number)?;
    put_word(&mut out, base.epoch)?;
    put_tuples(&mut out, copies, base.tuples.as_slice())?;
    Ok(out)
}
