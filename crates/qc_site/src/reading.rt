//! What the bodies of a copy's journal tell, held to its grammar.
ghost use Rattle.std.specs.Prelude.{ℕ, ◌≡◌, ◌+◌, ◌<◌, ◌≤◌, ◌↔◌, ◌++◌, ◌∷◌, [], IfOk, IfErr, OnOk, IsTrue, MatchOption, Some, if◌then◌else◌, is_some, length, slice_index_or};
ghost use Rattle.std.specs.Bool.{OnTrue};
ghost use Rattle.qc_codec.specs.Base.{base_in, copy_base, epoch_of_base, format_in, tuples_of_base};
ghost use Rattle.qc_codec.specs.Bodies as body;
ghost use Rattle.qc_codec.specs.Copy.{grant_in, granted_in, AreInOrder, MayFollow, MayStand};
ghost use Rattle.qc_codec.specs.Fields.{current_format};
ghost use Rattle.qc_codec.specs.Form.{all_of};
ghost use Rattle.qc_codec.specs.Ledger.{made_in, readings};
ghost use Rattle.qc_codec.specs.declared.past.Past.{Past};
ghost use Rattle.qc_journal.specs.Image.{bodies_of};
ghost use Rattle.qc_site.specs.Granted.{given_by, HasAccesses};
ghost use Rattle.qc_site.specs.Image.{made_body, AreGranted, AreMadeIn, IsCopyFault};
ghost use Rattle.qc_site.specs.Reading.{IsFirstBad, IsLaterBad};
ghost use Rattle.qc_site.specs.Refusing.{IsOfBytes};

use crate::fault::{SiteNo, image_no};
use crate::granted::Granted;
use qc_codec::{
    BaseRecord, CodecNo, FORMAT, ImageFault, Past, copy_table, read_base, read_grant, read_made,
    write_made_anew,
};
use qc_event::{Grant, Short, Table};
use qc_journal::Body;
use std::alloc::{AllocError, Global};

/// What the bodies of a copy's journal tell: their format, the base, where there is one, and the grants.
#[derive(Drop)]
pub(crate) struct Told {
    pub(crate) format: u8,
    pub(crate) base: Option<BaseRecord>,
    pub(crate) grants: Vec<Grant>,
}

// Holds the first body to how the disk was made, by its spelling in the current format, and tells in which format it
// was.
fn check_made(
    alloc: Global,
    who: u8,
    table: &Table,
    first: &[u8],
    spelled: &[u8],
) -> Result<u8, SiteNo>
    requires fits { (body.table current_format).fits table.now }
    requires spelled { spelled.now ≡ made_body who table.now }
    ensures made { IfOk result (λ format. all_of body.made first.now ≡ Some
        (made_in format who table.now)) }
    ensures fault { (past : Past) → IfErr result (IsOfBytes who
        (IsFirstBad who table.now past first.now)) }
{
    if first == spelled {
        return Ok(FORMAT);
    }
    let kept = match read_made(alloc, first) {
        Ok(kept) if kept.who == who => kept,
        Ok(_) | Err(CodecNo::Bad) => return Err(image_no(who, ImageFault::Grammar { index: 0 })),
        Err(CodecNo::Memory) => return Err(SiteNo::Short(Short::Memory)),
    };
    if write_made_anew(alloc, &kept)?.as_slice() == spelled {
        return Ok(kept.format);
    }
    let asked = copy_table(alloc, table)?;
    let kept = kept.table;
    Err(image_no(who, ImageFault::Table { kept, asked }))
}

// The base that the second body is, where it is one.
fn read_second(
    alloc: Global,
    who: u8,
    table: &Table,
    format: u8,
    past: &Past,
    bodies: &[Body],
) -> Result<Option<BaseRecord>, SiteNo>
    requires few { table.now.copies ≤ 16 }
    requires small { length table.now.records < 256 }
    requires made { AreMadeIn who table.now format (bodies_of bodies.now) }
    ensures base { IfOk result (λ base. base ≡ base_in copy_base (bodies_of bodies.now)) }
    ensures old { IfOk result (λ base. epoch_of_base base ≤ past.now.epoch) }
    ensures sized { IfOk result (λ base. length (tuples_of_base table.now base)
        ≡ length table.now.records) }
    ensures fault { IfErr result (IsOfBytes who
        (IsLaterBad who table.now past.now (bodies_of bodies.now))) }
{
    if bodies.len() < 2 {
        return Ok(None);
    }
    let records = table.records.as_slice().len() as u8;
    match read_base(alloc, bodies[1].as_slice(), table.copies, records, format) {
        Ok(base) if base.epoch <= past.epoch => Ok(Some(base)),
        Ok(_) => Err(image_no(who, ImageFault::Grammar { index: 1 })),
        Err(CodecNo::Bad) => Ok(None),
        Err(CodecNo::Memory) => Err(SiteNo::Short(Short::Memory)),
    }
}

// The epoch of a base, 0 where there is none.
fn epoch_of(base: &Option<BaseRecord>) -> u32
    ensures { result ≡ epoch_of_base base.now }
{
    match base {
        Some(base) => base.epoch,
        None => 0,
    }
}

// How many bodies stand in front of the grants.
fn in_front(base: &Option<BaseRecord>) -> usize
    ensures { result ≡ if is_some base.now then 2 else 1 }
{
    if base.is_some() { 2 } else { 1 }
}

// Takes in the grant that bytes are, where it is one that may stand behind a base of this epoch and those before it.
fn take_next(
    granted: &mut Granted,
    table: &Table,
    format: u8,
    past: &Past,
    base: u32,
    bytes: &[u8],
) -> Result<bool, AllocError>
    requires accesses { HasAccesses granted.old }
    requires few { table.now.copies ≤ 16 }
    ensures tells { IfOk result (λ taken. IsTrue taken ↔ MatchOption
        (all_of (grant_in format table.now) bytes.now) ⊥
        (MayFollow table.now past.now base (given_by granted.old))) }
    ensures taken { IfOk result (λ taken. OnTrue taken (given_by granted.new ≡ given_by granted.old
        ++ readings (grant_in format table.now) (bytes.now ∷ []))) }
    ensures accesses { IfOk result (λ taken. OnTrue taken (HasAccesses granted.new)) }
{
    match read_grant(bytes, table.copies, format) {
        Ok(grant) => granted.take(table, past, base, grant),
        Err(_) => Ok(false),
    }
}

// What the bodies behind the first and the base grant, where each may stand behind those before it.
fn read_rest(
    alloc: Global,
    who: u8,
    table: &Table,
    format: u8,
    past: &Past,
    base: &Option<BaseRecord>,
    bodies: &[Body],
) -> Result<Granted, SiteNo>
    requires few { table.now.copies ≤ 16 }
    requires some { 0 < length bodies.now }
    requires format { format ≡ format_in (bodies_of bodies.now) }
    requires made { MayStand who table.now past.now [] (slice_index_or (bodies_of bodies.now) 0
        []) }
    requires base { base.now ≡ base_in copy_base (bodies_of bodies.now) }
    requires old { epoch_of_base base.now ≤ past.now.epoch }
    ensures told { IfOk result (λ granted. given_by granted ≡ granted_in table.now
        (bodies_of bodies.now)) }
    ensures order { OnOk result (AreInOrder who table.now past.now (bodies_of bodies.now)) }
    ensures fault { IfErr result (IsOfBytes who
        (IsLaterBad who table.now past.now (bodies_of bodies.now))) }
{
    let epoch = epoch_of(base);
    let mut granted = Granted::new(alloc);
    for index in in_front(base)..bodies.len() {
        if !take_next(
            &mut granted,
            table,
            format,
            past,
            epoch,
            bodies[index].as_slice(),
        )? {
            let index = index as u64;
            return Err(image_no(who, ImageFault::Grammar { index }));
        }
    }
    Ok(granted)
}

/// What bodies tell, where they are those of the disk of this number for a table, in order behind a past. A base has a
/// tuple for each record.
pub(crate) fn grants_of(
    alloc: Global,
    who: u8,
    table: &Table,
    past: &Past,
    spelled: &[u8],
    bodies: &[Body],
) -> Result<Told, SiteNo>
    requires fits { (body.table current_format).fits table.now }
    requires few { table.now.copies ≤ 16 }
    requires spelled { spelled.now ≡ made_body who table.now }
    ensures told { IfOk result (λ told. told.grants.items ≡ granted_in table.now
        (bodies_of bodies.now)) }
    ensures base { IfOk result (λ told. told.base ≡ base_in copy_base (bodies_of bodies.now)) }
    ensures sized { IfOk result (λ told. length (tuples_of_base table.now told.base)
        ≡ length table.now.records) }
    ensures format { IfOk result (λ told. told.format ≡ format_in (bodies_of bodies.now)) }
    ensures granted { OnOk result (AreGranted who table.now past.now (bodies_of bodies.now)) }
    ensures fault { (limit : ℕ) → IfErr result (IsOfBytes who
        (IsCopyFault who table.now past.now limit (bodies_of bodies.now))) }
{
    if bodies.is_empty() {
        return Ok(Told {
            format: FORMAT,
            base: None,
            grants: Vec::new(alloc),
        });
    }
    let format = check_made(alloc, who, table, bodies[0].as_slice(), spelled)?;
    let base = read_second(alloc, who, table, format, past, bodies)?;
    let granted = read_rest(alloc, who, table, format, past, &base, bodies)?;
    let grants = granted.into_grants();
    Ok(Told {
        format,
        base,
        grants,
    })
}
