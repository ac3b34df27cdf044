//! What the bodies of a ledger's journal tell, held to its grammar.
ghost use Rattle.std.specs.Prelude.{ℕ, ◌≡◌, ◌<◌, ◌≤◌, ◌↔◌, [], IfOk, IfErr, OnOk, IsTrue, MatchOption, Some, is_some, length, slice_index_or};
ghost use Rattle.std.specs.Bool.{OnTrue};
ghost use Rattle.qc_codec.specs.Bodies as body;
ghost use Rattle.qc_codec.specs.Fields.{layout};
ghost use Rattle.qc_codec.specs.Form.{all_of};
ghost use Rattle.qc_codec.specs.Ledger.{made_in, past_in, MayFollow, MayStand, AreInOrder};
ghost use Rattle.qc_codec.specs.declared.record.Made.{Made};
ghost use Rattle.qc_journal.specs.Image.{bodies_of};
ghost use Rattle.qc_ledger.specs.Image.{made_body, LAST_EPOCH, AreLedgers, IsLedgerFault};
ghost use Rattle.qc_ledger.specs.Reading.{AreRead, IsFirstBad, IsLaterBad, IsMadeBy};
ghost use Rattle.qc_ledger.specs.Refusing.{IsOfBytes};
ghost use Rattle.qc_ledger.specs.Seen.{told_by, HasNumbers, with_base, with_body};

use crate::fault::{LedgerNo, image_no};
use crate::seen::Seen;
use qc_codec::{
    CodecNo, FORMAT, ImageFault, LedgerRecord, Made, Past, read_base, read_ledger, write_made_anew,
};
use qc_event::Short;
use qc_journal::Body;
use std::alloc::Global;

// Holds the first body to how the ledger was made, by its spelling in the current format, and tells in which format it
// was.
fn check_made(alloc: Global, first: &[u8], made: Made, spelled: &[u8]) -> Result<u8, LedgerNo>
    requires fits { body.made.fits made }
    requires spelled { spelled.now ≡ made_body made.who made.table }
    ensures made { IfOk result (λ format. all_of body.ledger first.now
        ≡ Some (LedgerRecord.Made (made_in format made.who made.table))) }
    ensures over { IfOk result (λ format. all_of body.made first.now
        ≡ Some (made_in format made.who made.table)) }
    ensures fault { IfErr result (IsOfBytes made.who (IsFirstBad made.who made.table first.now)) }
{
    if first == spelled {
        return Ok(FORMAT);
    }
    let who = made.who;
    let kept = match read_ledger(alloc, first) {
        Ok(LedgerRecord::Made(kept)) if kept.who == who => kept,
        Ok(_) | Err(CodecNo::Bad) => return Err(image_no(who, ImageFault::Grammar { index: 0 })),
        Err(CodecNo::Memory) => return Err(LedgerNo::Short(Short::Memory)),
    };
    if write_made_anew(alloc, &kept)?.as_slice() == spelled {
        return Ok(kept.format);
    }
    let (kept, asked) = (kept.table, made.table);
    Err(image_no(who, ImageFault::Table { kept, asked }))
}

// Takes in the base that bytes are, where they are one of a store of so many copies in a format, and tells whether
// they are.
fn take_base(
    alloc: Global,
    seen: &mut Seen,
    bytes: &[u8],
    copies: u8,
    format: u8,
) -> Result<bool, LedgerNo>
    requires few { copies ≤ 16 }
    requires numbers { HasNumbers seen.old }
    ensures tells { IfOk result (λ taken. taken ≡ is_some
        (all_of (body.base (layout copies format) 0) bytes.now)) }
    ensures taken { OnOk result (told_by seen.new ≡ with_base (told_by seen.old)
        (all_of (body.base (layout copies format) 0) bytes.now)) }
    ensures numbers { OnOk result (HasNumbers seen.new) }
    ensures memory { IfErr result (λ no. no ≡ LedgerNo.Short Short.Memory) }
{
    match read_base(alloc, bytes, copies, 0, format) {
        Ok(base) => {
            seen.take_base(base.epoch);
            Ok(true)
        }
        Err(CodecNo::Bad) => Ok(false),
        Err(CodecNo::Memory) => Err(LedgerNo::Short(Short::Memory)),
    }
}

// What the first body tells, which says how the ledger was made, and the second where it is a base; and how many
// bodies they are.
fn read_front(
    alloc: Global,
    who: u8,
    bodies: &[Body],
    copies: u8,
    format: u8,
) -> Result<(Seen, usize), LedgerNo>
    requires few { copies ≤ 16 }
    requires some { 0 < length bodies.now }
    requires made { MayStand who [] (slice_index_or (bodies_of bodies.now) 0 []) }
    requires over { IsMadeBy (layout copies format) (slice_index_or (bodies_of bodies.now) 0 []) }
    ensures read { IfOk result (λ front. AreRead who bodies.now front.0 front.1) }
    ensures memory { IfErr result (λ no. no ≡ LedgerNo.Short Short.Memory) }
{
    let mut seen = Seen::new(alloc);
    if bodies.len() == 1 {
        return Ok((seen, 1));
    }
    if take_base(alloc, &mut seen, bodies[1].as_slice(), copies, format)? {
        return Ok((seen, 2));
    }
    Ok((seen, 1))
}

// Takes in the record that bytes are, where it is one that may stand behind those before it.
fn take_next(alloc: Global, seen: &mut Seen, bytes: &[u8]) -> Result<bool, LedgerNo>
    requires { HasNumbers seen.old }
    ensures tells { IfOk result (λ taken. IsTrue taken ↔ MatchOption (all_of body.ledger bytes.now)
        ⊥ (MayFollow (told_by seen.old))) }
    ensures taken { IfOk result (λ taken. OnTrue taken (told_by seen.new ≡ with_body
        (told_by seen.old) (all_of body.ledger bytes.now))) }
    ensures numbers { IfOk result (λ taken. OnTrue taken (HasNumbers seen.new)) }
    ensures memory { IfErr result (λ no. no ≡ LedgerNo.Short Short.Memory) }
{
    match read_ledger(alloc, bytes) {
        Ok(next) => Ok(seen.take(next)?),
        Err(CodecNo::Bad) => Ok(false),
        Err(CodecNo::Memory) => Err(LedgerNo::Short(Short::Memory)),
    }
}

// What bodies tell whose first says how the ledger was made, where each may stand behind those before it.
fn read_rest(
    alloc: Global,
    who: u8,
    bodies: &[Body],
    copies: u8,
    format: u8,
) -> Result<Seen, LedgerNo>
    requires few { copies ≤ 16 }
    requires some { 0 < length bodies.now }
    requires made { MayStand who [] (slice_index_or (bodies_of bodies.now) 0 []) }
    requires over { IsMadeBy (layout copies format) (slice_index_or (bodies_of bodies.now) 0 []) }
    ensures told { IfOk result (λ seen. told_by seen ≡ past_in (bodies_of bodies.now)) }
    ensures order { OnOk result (AreInOrder who (bodies_of bodies.now)) }
    ensures fault { IfErr result (IsOfBytes who (IsLaterBad who (bodies_of bodies.now))) }
{
    let (mut seen, behind) = read_front(alloc, who, bodies, copies, format)?;
    for index in behind..bodies.len() {
        if !take_next(alloc, &mut seen, bodies[index].as_slice())? {
            let index = index as u64;
            return Err(image_no(who, ImageFault::Grammar { index }));
        }
    }
    Ok(seen)
}

/// What bodies tell, where they are a ledger's for the disk and the table of a made record with this spelling, and an
/// epoch may follow.
pub(crate) fn past_of(
    alloc: Global,
    bodies: &[Body],
    made: Made,
    spelled: &[u8],
) -> Result<Past, LedgerNo>
    requires fits { body.made.fits made }
    requires spelled { spelled.now ≡ made_body made.who made.table }
    ensures past { IfOk result (λ past. past ≡ past_in (bodies_of bodies.now)) }
    ensures ledgers { OnOk result (AreLedgers made.who made.table (bodies_of bodies.now)) }
    ensures epoch { IfOk result (λ past. past.epoch < LAST_EPOCH) }
    ensures fault { (limit : ℕ)
        → IfErr result (IsOfBytes made.who
        (IsLedgerFault made.who made.table limit (bodies_of bodies.now))) }
{
    if bodies.is_empty() {
        return Ok(Seen::new(alloc).into_past());
    }
    let (who, copies) = (made.who, made.table.copies);
    let format = check_made(alloc, bodies[0].as_slice(), made, spelled)?;
    let seen = read_rest(alloc, who, bodies, copies, format)?;
    if seen.epoch() == u32::MAX {
        return Err(image_no(who, ImageFault::Epoch(u32::MAX)));
    }
    Ok(seen.into_past())
}
