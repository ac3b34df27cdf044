//! How transactions end.
ghost use Rattle.std.specs.Prelude.{◌<◌, ◌≤◌, OnOk};
ghost use Rattle.qc_codec.specs.Fields.{current, layout};
ghost use Rattle.qc_codec.specs.Gives.{Reads, Puts};
ghost use Rattle.qc_trail_codec.specs.Events as events;
ghost use Rattle.qc_trail_codec.specs.Saving.{CanEndBeSaved, IsAnswerFor, IsNumberedCause};

use crate::kind::put_byte;
use crate::reason::{lack, put_lack};
use qc_codec::{CodecNo, Cursor, put_long, put_name, put_tuple, put_value};
use qc_event::{Answer, Cause, How};
use std::alloc::AllocError;

#[tactic(auto, unfolding(crate::specs::Events::answer))]
fn answer(cursor: &mut Cursor<'_>, copies: u8, format: u8) -> Result<Answer, CodecNo>
    requires { copies ≤ 16 }
    ensures { Reads (events.answer (layout copies format)) result cursor.old cursor.new }
{
    match cursor.byte()? {
        0 => Ok(Answer::Nothing),
        1 => Ok(Answer::Value(cursor.value(format)?)),
        2 => Ok(Answer::Generation(cursor.long()?)),
        3 => Ok(Answer::Reply(cursor.tuple(copies, format)?)),
        _ => Err(CodecNo::Bad),
    }
}

#[tactic(auto, unfolding(crate::specs::Events::answer))]
fn put_answer(out: &mut Vec<u8>, copies: u8, answer: &Answer) -> Result<(), AllocError>
    requires some { 0 < copies }
    requires most { copies ≤ 16 }
    requires for_copies { IsAnswerFor copies answer.now }
    ensures written { Puts (events.answer (current copies)) answer.now result
        out.old.items out.new.items }
    ensures fits { OnOk result ((events.answer (current copies)).fits answer.now) }
{
    match answer {
        Answer::Nothing => put_byte(out, 0),
        Answer::Value(value) => {
            put_byte(out, 1)?;
            put_value(out, value)
        }
        Answer::Generation(generation) => {
            put_byte(out, 2)?;
            put_long(out, *generation)
        }
        Answer::Reply(tuple) => {
            put_byte(out, 3)?;
            put_tuple(out, copies, tuple)
        }
    }
}

#[tactic(auto, unfolding(crate::specs::Events::cause))]
fn cause(cursor: &mut Cursor<'_>) -> Result<Cause, CodecNo>
    ensures { Reads events.cause result cursor.old cursor.new }
{
    match cursor.byte()? {
        0 => Ok(Cause::Asked {
            by: cursor.name(1)?,
        }),
        1 => Ok(Cause::Conflict {
            copy: cursor.byte()?,
            holder: cursor.name(1)?,
        }),
        2 => Ok(Cause::NoQuorum(lack(cursor)?)),
        3 => Ok(Cause::Last),
        4 => Ok(Cause::Orphan(cursor.name(1)?)),
        5 => Ok(Cause::Killed),
        6 => Ok(Cause::Child(cursor.name(1)?)),
        7 => Ok(Cause::Missed),
        _ => Err(CodecNo::Bad),
    }
}

#[tactic(auto, using(crate::proofs::Fits::numbered_some), unfolding(crate::specs::Events::cause))]
fn put_cause(out: &mut Vec<u8>, cause: &Cause) -> Result<(), AllocError>
    requires { IsNumberedCause cause.now }
    ensures written { Puts events.cause cause.now result out.old.items out.new.items }
    ensures fits { OnOk result (events.cause.fits cause.now) }
{
    match cause {
        Cause::Asked { by } => {
            put_byte(out, 0)?;
            put_name(out, by)
        }
        Cause::Conflict { copy, holder } => {
            put_byte(out, 1)?;
            put_byte(out, *copy)?;
            put_name(out, holder)
        }
        Cause::NoQuorum(lack) => {
            put_byte(out, 2)?;
            put_lack(out, lack)
        }
        Cause::Last => put_byte(out, 3),
        Cause::Orphan(ancestor) => {
            put_byte(out, 4)?;
            put_name(out, ancestor)
        }
        Cause::Killed => put_byte(out, 5),
        Cause::Child(child) => {
            put_byte(out, 6)?;
            put_name(out, child)
        }
        Cause::Missed => put_byte(out, 7),
    }
}

/// How the transaction at a cursor ended.
#[tactic(auto, unfolding(crate::specs::Events::how))]
pub(crate) fn how(cursor: &mut Cursor<'_>, copies: u8, format: u8) -> Result<How, CodecNo>
    requires { copies ≤ 16 }
    ensures { Reads (events.how (layout copies format)) result cursor.old cursor.new }
{
    match cursor.byte()? {
        0 => Ok(How::Commit(answer(cursor, copies, format)?)),
        1 => Ok(How::Abort(cause(cursor)?)),
        _ => Err(CodecNo::Bad),
    }
}

/// Writes how a transaction ended behind bytes, of which nothing is known behind an error.
#[tactic(auto, unfolding(crate::specs::Events::how))]
pub(crate) fn put_how(out: &mut Vec<u8>, copies: u8, how: &How) -> Result<(), AllocError>
    requires some { 0 < copies }
    requires most { copies ≤ 16 }
    requires can { CanEndBeSaved copies how.now }
    ensures written { Puts (events.how (current copies)) how.now result
        out.old.items out.new.items }
    ensures fits { OnOk result ((events.how (current copies)).fits how.now) }
{
    match how {
        How::Commit(answer) => {
            put_byte(out, 0)?;
            put_answer(out, copies, answer)
        }
        How::Abort(cause) => {
            put_byte(out, 1)?;
            put_cause(out, cause)
        }
    }
}
