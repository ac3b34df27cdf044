//! Records of the ledger.
ghost use Rattle.std.specs.Prelude.{◌≡◌, [], ◌<◌, length, slice_index, IfOk, IfErr, IsErrOf};
ghost use Rattle.std.specs.List.{All};
ghost use Rattle.qc_codec.specs.Fields as field;
ghost use Rattle.qc_codec.specs.Bodies as body;
ghost use Rattle.qc_codec.specs.declared.record.LedgerRecord.{LedgerRecord};
ghost use Rattle.qc_codec.specs.Gives.{Reads, ReadsEach, ReadsAll, Spells, SpellsNone, Puts, PutsEach};
ghost use Rattle.qc_codec.specs.declared.fault.CodecNo.TheVariants.{Bad};

use crate::cursor::Cursor;
use crate::fault::CodecNo;
use crate::record::{LedgerRecord, Names};
use crate::spelling::{put_long, put_name, put_word};
use crate::table::put_making;
use qc_event::Name;
use std::alloc::{AllocError, Global};

// Whether a name begins with a top's number.
fn is_below(top: u64, name: &Name) -> bool
    ensures { result ≡ body.is_below top name.now }
{
    name.number(0) == Some(top)
}

impl Cursor<'_> {
    // A name below a top.
    #[tactic(auto, unfolding(crate::specs::Bodies::below))]
    fn below(&mut self, top: u64) -> Result<Name, CodecNo>
        ensures taken { Reads (body.below top) result self.old self.new }
        ensures only_bad { IfErr result (λ e. e ≡ Bad) }
    {
        let name = self.name(2)?;
        if !is_below(top, &name) {
            return Err(CodecNo::Bad);
        }
        Ok(name)
    }

    // So many names below a top.
    fn names(&mut self, alloc: Global, top: u64, count: u32) -> Result<Names, CodecNo>
        ensures { ReadsEach (body.below top) count result self.old self.new }
    {
        let mut names = Vec::new(alloc);
        for _ in 0..count {
            let name = self.below(top)?;
            names.push(name)?;
        }
        Ok(Names::new(names))
    }

    // A record of the ledger.
    #[tactic(auto, unfolding(crate::specs::Bodies::ledger, crate::specs::Bodies::top))]
    fn ledger(&mut self, alloc: Global) -> Result<LedgerRecord, CodecNo>
        ensures { Reads body.ledger result self.old self.new }
    {
        match self.byte()? {
            1 => Ok(LedgerRecord::Made(self.making(alloc)?)),
            2 => Ok(LedgerRecord::Epoch(self.some_number()?)),
            3 => {
                let top = self.top_number()?;
                let count = self.word()?;
                let aborted = self.names(alloc, top, count)?;
                Ok(LedgerRecord::Top {
                    top: Name::top(top),
                    aborted,
                })
            }
            _ => Err(CodecNo::Bad),
        }
    }
}

fn all(alloc: Global, bytes: &[u8]) -> Result<LedgerRecord, CodecNo>
    ensures { ReadsAll body.ledger result bytes.now }
{
    let mut cursor = Cursor { rest: bytes };
    let record = cursor.ledger(alloc)?;
    if !cursor.rest.is_empty() {
        return Err(CodecNo::Bad);
    }
    Ok(record)
}

/// The record of the ledger that the bytes are.
pub fn read_ledger(alloc: Global, bytes: &[u8]) -> Result<LedgerRecord, CodecNo>
    ensures exact { ReadsAll body.ledger result bytes.now }
    ensures found { IfOk result (Spells body.ledger bytes.now) }
    ensures bad { IsErrOf result Bad → SpellsNone body.ledger bytes.now }
{
    all(alloc, bytes)
}

// Names, each of at least one number.
fn put_names(out: &mut Vec<u8>, names: &[Name]) -> Result<(), AllocError>
    requires { All (λ n. 0 < length n) names.now }
    ensures { PutsEach (field.name 1) names.now result out.old.items out.new.items }
{
    for name in names {
        put_name(out, name)?;
    }
    Ok(())
}

// A top, and the names that were aborted below it.
#[tactic(auto, unfolding(crate::specs::Bodies::top))]
fn put_top(out: &mut Vec<u8>, top: &Name, names: &[Name]) -> Result<(), AllocError>
    requires fits { body.top.fits (slice_index top.now 0, names.now) }
    requires some { 0 < length top.now }
    ensures { Puts body.top (slice_index top.now 0, names.now) result out.old.items out.new.items }
{
    put_long(out, top.number(0).unwrap_or(0))?;
    put_word(out, names.len() as u32)?;
    put_names(out, names)
}

#[tactic(auto, unfolding(crate::specs::Bodies::ledger))]
fn put_ledger(out: &mut Vec<u8>, logged: &LedgerRecord) -> Result<(), AllocError>
    requires fits { body.ledger.fits logged.now }
    requires current { body.HasCurrentFormat logged.now }
    ensures { Puts body.ledger logged.now result out.old.items out.new.items }
{
    match logged {
        LedgerRecord::Made(made) => {
            out.push(1)?;
            put_making(out, made)
        }
        LedgerRecord::Epoch(epoch) => {
            out.push(2)?;
            put_word(out, *epoch)
        }
        LedgerRecord::Top { top, aborted } => {
            out.push(3)?;
            put_top(out, top, aborted.as_slice())
        }
    }
}

/// The bytes of a top's record, with the names that were aborted below it.
pub fn write_top(alloc: Global, top: &Name, aborted: &[Name]) -> Result<Vec<u8>, AllocError>
    requires proper { body.ledger.fits (LedgerRecord.Top top.now aborted.now) }
    ensures { IfOk result (λ bytes. Spells body.ledger bytes.items
        (LedgerRecord.Top top.now aborted.now)) }
{
    let mut out = vec![in alloc; 3]?;
    put_top(&mut out, top, aborted)?;
    Ok(out)
}

/// The bytes of a record of the ledger, in the current format.
pub fn write_ledger(alloc: Global, logged: &LedgerRecord) -> Result<Vec<u8>, AllocError>
    requires proper { body.ledger.fits logged.now }
    requires current { body.HasCurrentFormat logged.now }
    ensures { IfOk result (λ bytes. Spells body.ledger bytes.items logged.now) }
{
    let mut out = Vec::new(alloc);
    put_ledger(&mut out, logged)?;
    Ok(out)
}
