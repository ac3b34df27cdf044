//! Tables, and the records that say how a journal was made.
ghost use Rattle.std.specs.Prelude.{◌≡◌, ◌<◌, ◌≤◌, length, IfOk, IsErrOf};
ghost use Rattle.std.specs.Char.{is_ascii_alphanumeric};
ghost use Rattle.std.specs.List.{All, list_all, list_any};
ghost use Rattle.std.specs.Str.{bytes_eq};
ghost use Rattle.qc_codec.specs.Bodies as body;
ghost use Rattle.qc_codec.specs.Fields.{current, current_format, layout};
ghost use Rattle.qc_codec.specs.Gives.{Reads, ReadsEach, ReadsAll, Spells, SpellsNone, Puts, PutsEach};
ghost use Rattle.qc_codec.specs.Ledger.{made_for};
ghost use Rattle.qc_codec.specs.declared.fault.CodecNo.TheVariants.{Bad};

use crate::cursor::Cursor;
use crate::fault::CodecNo;
use crate::record::Made;
use crate::spelling::{put_config, put_value};
use qc_event::{Label, Row, Rows, Table};
use std::alloc::{AllocError, Global};

/// The most copies of a store.
const COPIES: u8 = 16;

/// The most records of a store.
const RECORDS: u8 = 64;

/// The most bytes of a record's name.
const LETTERS: u8 = 16;

/// The format in which journals and trails are written.
pub const FORMAT: u8 = 2;

// Whether all bytes are letters and digits.
fn is_plain(text: &[u8]) -> bool
    ensures { result ≡ list_all is_ascii_alphanumeric text.now }
{
    text.iter().all(u8::is_ascii_alphanumeric)
}

// Whether a row has this name.
fn is_named(row: &Row, name: &[u8]) -> bool
    ensures { result ≡ bytes_eq row.now.name name.now }
{
    row.name.as_bytes() == name
}

// Whether a row has this name.
fn has_name(rows: &[Row], name: &[u8]) -> bool
    ensures { result ≡ list_any (λ r. bytes_eq r.name name.now) rows.now }
{
    for row in rows {
        if is_named(row, name) {
            return true;
        }
    }
    false
}

// Whether no two rows have one name.
fn are_distinct(rows: &[Row]) -> bool
    ensures { result ≡ body.are_distinct rows.now }
{
    for (place, row) in rows.iter().enumerate() {
        if has_name(&rows[place + 1..], row.name.as_bytes()) {
            return false;
        }
    }
    true
}

impl Cursor<'_> {
    // The name of a record.
    #[tactic(auto, unfolding(crate::specs::Bodies::label))]
    fn label(&mut self, alloc: Global) -> Result<Label, CodecNo>
        ensures { Reads body.label result self.old self.new }
    {
        let count = self.byte()?;
        if count == 0 || count > LETTERS || self.rest.len() < count as usize {
            return Err(CodecNo::Bad);
        }
        let (text, rest) = self.rest.split_at(count as usize);
        self.rest = rest;
        if !is_plain(text) {
            return Err(CodecNo::Bad);
        }
        Ok(Label::new(alloc, text)?)
    }

    #[tactic(auto, unfolding(crate::specs::Bodies::row))]
    fn row(&mut self, alloc: Global, copies: u8, format: u8) -> Result<Row, CodecNo>
        requires { copies ≤ 16 }
        ensures { Reads (body.row (layout copies format)) result self.old self.new }
    {
        let name = self.label(alloc)?;
        let start = self.value(format)?;
        let config = self.config(copies, format)?;
        Ok(Row {
            name,
            start,
            config,
        })
    }

    // So many rows.
    fn rows(&mut self, alloc: Global, copies: u8, format: u8, count: u8) -> Result<Rows, CodecNo>
        requires { copies ≤ 16 }
        ensures { ReadsEach (body.row (layout copies format)) count result self.old self.new }
    {
        let mut rows = Vec::new(alloc);
        for _ in 0..count {
            let row = self.row(alloc, copies, format)?;
            rows.push(row)?;
        }
        Ok(Rows::new(rows))
    }

    #[tactic(auto, unfolding(crate::specs::Bodies::table))]
    fn table(&mut self, alloc: Global, format: u8) -> Result<Table, CodecNo>
        ensures { Reads (body.table format) result self.old self.new }
    {
        let copies = self.byte()?;
        if copies == 0 || copies > COPIES {
            return Err(CodecNo::Bad);
        }
        let count = self.byte()?;
        if count == 0 || count > RECORDS {
            return Err(CodecNo::Bad);
        }
        let records = self.rows(alloc, copies, format, count)?;
        if !are_distinct(records.as_slice()) {
            return Err(CodecNo::Bad);
        }
        Ok(Table { copies, records })
    }

    /// What stands behind the first byte of a made record.
    #[tactic(auto, unfolding(crate::specs::Bodies::making))]
    pub(crate) fn making(&mut self, alloc: Global) -> Result<Made, CodecNo>
        ensures { Reads body.making result self.old self.new }
    {
        let format = self.byte()?;
        if format == 0 || format > FORMAT {
            return Err(CodecNo::Bad);
        }
        let who = self.byte()?;
        let table = self.table(alloc, format)?;
        Ok(Made { format, who, table })
    }
}

#[tactic(auto, unfolding(crate::specs::Bodies::made))]
fn all(alloc: Global, bytes: &[u8]) -> Result<Made, CodecNo>
    ensures { ReadsAll body.made result bytes.now }
{
    let mut cursor = Cursor { rest: bytes };
    if cursor.byte()? != 1 {
        return Err(CodecNo::Bad);
    }
    let made = cursor.making(alloc)?;
    if !cursor.rest.is_empty() {
        return Err(CodecNo::Bad);
    }
    Ok(made)
}

/// The made record that the bytes are.
pub fn read_made(alloc: Global, bytes: &[u8]) -> Result<Made, CodecNo>
    ensures exact { ReadsAll body.made result bytes.now }
    ensures found { IfOk result (Spells body.made bytes.now) }
    ensures bad { IsErrOf result Bad → SpellsNone body.made bytes.now }
{
    all(alloc, bytes)
}

#[tactic(auto, unfolding(crate::specs::Bodies::label))]
fn put_label(out: &mut Vec<u8>, label: &Label) -> Result<(), AllocError>
    requires { length label.now < 256 }
    ensures { Puts body.label label.now result out.old.items out.new.items }
{
    let text = label.as_bytes();
    out.push(text.len() as u8)?;
    out.extend_from_slice(text)
}

#[tactic(auto, unfolding(crate::specs::Bodies::row))]
fn put_row(out: &mut Vec<u8>, copies: u8, row: &Row) -> Result<(), AllocError>
    requires copies { copies ≤ 16 }
    requires lengths { body.HasLengths copies row.now }
    ensures { Puts (body.row (current copies)) row.now result out.old.items out.new.items }
{
    put_label(out, &row.name)?;
    put_value(out, &row.start)?;
    put_config(out, copies, &row.config)
}

fn put_rows(out: &mut Vec<u8>, copies: u8, rows: &[Row]) -> Result<(), AllocError>
    requires copies { copies ≤ 16 }
    requires lengths { All (body.HasLengths copies) rows.now }
    ensures { PutsEach (body.row (current copies)) rows.now result out.old.items out.new.items }
{
    for row in rows {
        put_row(out, copies, row)?;
    }
    Ok(())
}

#[tactic(auto, unfolding(crate::specs::Bodies::table))]
fn put_table(out: &mut Vec<u8>, table: &Table) -> Result<(), AllocError>
    requires { (body.table current_format).fits table.now }
    ensures { Puts (body.table current_format) table.now result out.old.items out.new.items }
{
    let rows = table.records.as_slice();
    out.push(table.copies)?;
    out.push(rows.len() as u8)?;
    put_rows(out, table.copies, rows)
}

/// What stands behind the first byte of a made record of the current format.
#[tactic(auto, unfolding(crate::specs::Bodies::making))]
pub(crate) fn put_making(out: &mut Vec<u8>, made: &Made) -> Result<(), AllocError>
    requires fits { body.making.fits made.now }
    requires current { made.now.format ≡ current_format }
    ensures { Puts body.making made.now result out.old.items out.new.items }
{
    out.push(FORMAT)?;
    out.push(made.who)?;
    put_table(out, &made.table)
}

/// The bytes of a made record of the current format.
#[tactic(auto, unfolding(crate::specs::Bodies::made))]
pub fn write_made(alloc: Global, made: &Made) -> Result<Vec<u8>, AllocError>
    requires proper { body.made.fits made.now }
    requires current { made.now.format ≡ current_format }
    ensures { IfOk result (λ bytes. Spells body.made bytes.items made.now) }
{
    let mut out = vec![in alloc; 1]?;
    put_making(&mut out, made)?;
    Ok(out)
}

/// The bytes of a made record of the same disk and table in the current format.
#[tactic(auto, unfolding(crate::specs::Bodies::made, crate::specs::Bodies::making))]
pub fn write_made_anew(alloc: Global, made: &Made) -> Result<Vec<u8>, AllocError>
    requires proper { body.made.fits made.now }
    ensures { IfOk result (λ bytes. Spells body.made bytes.items
        (made_for made.now.who made.now.table)) }
{
    let mut out = vec![in alloc; 1]?;
    out.push(FORMAT)?;
    out.push(made.who)?;
    put_table(&mut out, &made.table)?;
    Ok(out)
}

// Copies of rows.
fn copy_rows(alloc: Global, rows: &[Row]) -> Result<Rows, AllocError>
    ensures { IfOk result (λ copied. copied ≡ rows.now) }
{
    let mut copied = Vec::new(alloc);
    for row in rows {
        let name = Label::new(alloc, row.name.as_bytes())?;
        copied.push(Row {
            name,
            start: row.start,
            config: row.config,
        })?;
    }
    Ok(Rows::new(copied))
}

/// A copy of a table.
pub fn copy_table(alloc: Global, table: &Table) -> Result<Table, AllocError>
    ensures { IfOk result (λ copied. copied ≡ table.now) }
{
    Ok(Table {
        copies: table.copies,
        records: copy_rows(alloc, table.records.as_slice())?,
    })
}
