//! The first two bodies of a journal, held to the grammar of its kind.
ghost use Rattle.std.specs.Prelude.{◌≡◌, ◌≤◌, ◌<◌, ◌↔◌, IfOk, IfErr, OnOk, IsTrue, length};
ghost use Rattle.qc_codec.specs.Base.{number_of_base};
ghost use Rattle.qc_codec.specs.Form.{all_of};
ghost use Rattle.qc_codec.specs.Gives.{ReadsAll};
ghost use Rattle.qc_journal.specs.Image.{bodies_of};
ghost use Rattle.qc_pair.specs.Front.{base_form, number_in, IsFrontNo, IsRecord, IsSecondNo, MayBegin, MayStandSecond};
ghost use Rattle.qc_pair.specs.declared.fault.PairNo.TheVariants.{Memory};

use crate::fault::{PairNo, grammar_no};
use crate::kind::Kind;
use qc_codec::{
    BaseRecord, CodecNo, LedgerRecord, Made, read_base, read_grant, read_ledger, read_made,
};
use qc_journal::Body;
use std::alloc::Global;

// The base of a kind that bytes are.
fn base_of(alloc: Global, kind: Kind, made: &Made, bytes: &[u8]) -> Result<BaseRecord, CodecNo>
    requires few { made.now.table.copies ≤ 16 }
    requires small { length made.now.table.records < 256 }
    ensures { ReadsAll (base_form kind made.now) result bytes.now }
{
    let copies = made.table.copies;
    match kind {
        Kind::Ledger => read_base(alloc, bytes, copies, 0, made.format),
        Kind::Copy => {
            let records = made.table.records.as_slice().len() as u8;
            read_base(alloc, bytes, copies, records, made.format)
        }
    }
}

// Whether bytes are a record of a kind.
fn is_record(alloc: Global, kind: Kind, made: &Made, bytes: &[u8]) -> Result<bool, PairNo>
    requires few { made.now.table.copies ≤ 16 }
    ensures tells { IfOk result (λ is. IsTrue is ↔ IsRecord kind made.now bytes.now) }
    ensures memory { IfErr result (λ no. no ≡ Memory) }
{
    match kind {
        Kind::Ledger => match read_ledger(alloc, bytes) {
            Ok(LedgerRecord::Made(_)) | Err(CodecNo::Bad) => Ok(false),
            Ok(_) => Ok(true),
            Err(CodecNo::Memory) => Err(PairNo::Memory),
        },
        Kind::Copy => Ok(read_grant(bytes, made.table.copies, made.format).is_ok()),
    }
}

// The number of the base that a second body is, 0 where it is a record.
fn number_of_second(
    alloc: Global,
    who: u8,
    kind: Kind,
    made: &Made,
    bytes: &[u8],
) -> Result<u64, PairNo>
    requires few { made.now.table.copies ≤ 16 }
    requires small { length made.now.table.records < 256 }
    ensures number { IfOk result (λ n. n ≡ number_of_base (all_of (base_form kind made.now)
        bytes.now)) }
    ensures may { OnOk result (MayStandSecond kind made.now bytes.now) }
    ensures fault { IfErr result (IsSecondNo kind who made.now bytes.now) }
{
    match base_of(alloc, kind, made, bytes) {
        Ok(base) => return Ok(base.number),
        Err(CodecNo::Bad) => {}
        Err(CodecNo::Memory) => return Err(PairNo::Memory),
    }
    if is_record(alloc, kind, made, bytes)? {
        return Ok(0);
    }
    Err(grammar_no(who, 1))
}

/// The number of the base that stands second in the journal of the disk of a number, 0 where none does.
pub(crate) fn front_of(alloc: Global, who: u8, kind: Kind, bodies: &[Body]) -> Result<u64, PairNo>
    ensures number { IfOk result (λ n. n ≡ number_in kind (bodies_of bodies.now)) }
    ensures may { OnOk result (MayBegin kind who (bodies_of bodies.now)) }
    ensures fault { IfErr result (IsFrontNo kind who (bodies_of bodies.now)) }
{
    if bodies.is_empty() {
        return Ok(0);
    }
    let made = match read_made(alloc, bodies[0].as_slice()) {
        Ok(made) if made.who == who => made,
        Ok(_) | Err(CodecNo::Bad) => return Err(grammar_no(who, 0)),
        Err(CodecNo::Memory) => return Err(PairNo::Memory),
    };
    if bodies.len() == 1 {
        return Ok(0);
    }
    number_of_second(alloc, who, kind, &made, bodies[1].as_slice())
}
