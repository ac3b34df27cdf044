//! Operations, and what transactions are for.
ghost use Rattle.std.specs.Prelude.{◌<◌, ◌≤◌, OnOk};
ghost use Rattle.qc_codec.specs.Fields.{current, layout};
ghost use Rattle.qc_codec.specs.Form.{byte};
ghost use Rattle.qc_codec.specs.Gives.{Reads, Puts};
ghost use Rattle.qc_trail_codec.specs.Events as events;
ghost use Rattle.qc_trail_codec.specs.Saving.{IsKindFor, IsOpFor};

use qc_codec::{CodecNo, Cursor, put_config, put_long, put_value, put_word};
use qc_config::Op;
use qc_event::Kind;
use std::alloc::AllocError;

/// Writes a byte behind bytes, which stay as they are behind an error.
pub(crate) fn put_byte(out: &mut Vec<u8>, number: u8) -> Result<(), AllocError>
    ensures { Puts byte number result out.old.items out.new.items }
{
    out.push(number)?;
    Ok(())
}

/// The operation at a cursor.
#[tactic(auto, unfolding(crate::specs::Events::op))]
pub(crate) fn op(cursor: &mut Cursor<'_>, copies: u8, format: u8) -> Result<Op, CodecNo>
    requires { copies ≤ 16 }
    ensures { Reads (events.op (layout copies format)) result cursor.old cursor.new }
{
    match cursor.byte()? {
        0 => Ok(Op::Get),
        1 => Ok(Op::PutData {
            version: cursor.long()?,
            value: cursor.value(format)?,
        }),
        2 => Ok(Op::PutConfig {
            generation: cursor.long()?,
            config: cursor.config(copies, format)?,
        }),
        _ => Err(CodecNo::Bad),
    }
}

/// Writes an operation behind bytes, of which nothing is known behind an error.
#[tactic(auto, unfolding(crate::specs::Events::op))]
pub(crate) fn put_op(out: &mut Vec<u8>, copies: u8, op: &Op) -> Result<(), AllocError>
    requires some { 0 < copies }
    requires most { copies ≤ 16 }
    requires for_copies { IsOpFor copies op.now }
    ensures written { Puts (events.op (current copies)) op.now result
        out.old.items out.new.items }
    ensures fits { OnOk result ((events.op (current copies)).fits op.now) }
{
    match op {
        Op::Get => put_byte(out, 0),
        Op::PutData { version, value } => {
            out.push(1)?;
            put_long(out, *version)?;
            put_value(out, value)
        }
        Op::PutConfig { generation, config } => {
            out.push(2)?;
            put_long(out, *generation)?;
            put_config(out, copies, config)
        }
    }
}

/// What the transaction at a cursor is for.
#[tactic(auto, unfolding(crate::specs::Events::kind))]
pub(crate) fn kind(cursor: &mut Cursor<'_>, copies: u8, format: u8) -> Result<Kind, CodecNo>
    requires { copies ≤ 16 }
    ensures { Reads (events.kind (layout copies format)) result cursor.old cursor.new }
{
    match cursor.byte()? {
        0 => Ok(Kind::User {
            session: cursor.byte()?,
            body: cursor.word()?,
        }),
        1 => Ok(Kind::Read {
            rec: cursor.byte()?,
        }),
        2 => Ok(Kind::Write {
            rec: cursor.byte()?,
            value: cursor.value(format)?,
        }),
        3 => Ok(Kind::Reconf {
            rec: cursor.byte()?,
            config: cursor.config(copies, format)?,
        }),
        4 => Ok(Kind::Access),
        _ => Err(CodecNo::Bad),
    }
}

/// Writes what a transaction is for behind bytes, of which nothing is known behind an error.
#[tactic(auto, unfolding(crate::specs::Events::kind))]
pub(crate) fn put_kind(out: &mut Vec<u8>, copies: u8, kind: &Kind) -> Result<(), AllocError>
    requires some { 0 < copies }
    requires most { copies ≤ 16 }
    requires for_copies { IsKindFor copies kind.now }
    ensures written { Puts (events.kind (current copies)) kind.now result
        out.old.items out.new.items }
    ensures fits { OnOk result ((events.kind (current copies)).fits kind.now) }
{
    match kind {
        Kind::User { session, body } => {
            out.push(0)?;
            out.push(*session)?;
            put_word(out, *body)
        }
        Kind::Read { rec } => {
            out.push(1)?;
            put_byte(out, *rec)
        }
        Kind::Write { rec, value } => {
            out.push(2)?;
            out.push(*rec)?;
            put_value(out, value)
        }
        Kind::Reconf { rec, config } => {
            out.push(3)?;
            out.push(*rec)?;
            put_config(out, copies, config)
        }
        Kind::Access => put_byte(out, 4),
    }
}
