//! Why no answer came, and who replied in a phase.
ghost use Rattle.std.specs.Prelude.{◌≡◌, ◌≤◌, length, OnOk};
ghost use Rattle.qc_codec.specs.Gives.{Reads, ReadsEach, Puts, PutsEach};
ghost use Rattle.qc_trail_codec.specs.Reasons as reasons;

use crate::kind::put_byte;
use qc_codec::{CodecNo, Cursor, put_half};
use qc_config::Copies;
use qc_event::{Lack, Phase, Why};
use std::alloc::AllocError;

/// The reason at a cursor.
#[tactic(auto, unfolding(crate::specs::Reasons::why))]
pub(crate) fn why(cursor: &mut Cursor<'_>) -> Result<Why, CodecNo>
    ensures { Reads reasons.why result cursor.old cursor.new }
{
    match cursor.byte()? {
        1 => Ok(Why::Lost),
        2 => Ok(Why::Late),
        3 => Ok(Why::Down),
        4 => Ok(Why::Full),
        5 => Ok(Why::Strange),
        _ => Err(CodecNo::Bad),
    }
}

fn tag_of(why: Why) -> u8
    ensures { result ≡ reasons.why_tag why }
{
    match why {
        Why::Lost => 1,
        Why::Late => 2,
        Why::Down => 3,
        Why::Full => 4,
        Why::Strange => 5,
    }
}

/// Writes a reason behind bytes, of which nothing is known behind an error.
#[tactic(auto, unfolding(crate::specs::Reasons::why))]
pub(crate) fn put_why(out: &mut Vec<u8>, why: Why) -> Result<(), AllocError>
    ensures { Puts reasons.why why result out.old.items out.new.items }
{
    put_byte(out, tag_of(why))
}

fn is_inability(why: Why) -> bool
    ensures { result ≡ reasons.is_inability why }
{
    match why {
        Why::Lost | Why::Late => false,
        Why::Down | Why::Full | Why::Strange => true,
    }
}

/// The reason at a cursor why a copy or the ledger could not serve.
#[tactic(auto, unfolding(crate::specs::Reasons::inability))]
pub(crate) fn inability(cursor: &mut Cursor<'_>) -> Result<Why, CodecNo>
    ensures { Reads reasons.inability result cursor.old cursor.new }
{
    let why = why(cursor)?;
    if !is_inability(why) {
        return Err(CodecNo::Bad);
    }
    Ok(why)
}

// Why a copy is missing, where it is.
#[tactic(auto, unfolding(crate::specs::Reasons::reason, crate::specs::Reasons::why))]
fn reason(cursor: &mut Cursor<'_>) -> Result<Option<Why>, CodecNo>
    ensures { Reads reasons.reason result cursor.old cursor.new }
{
    match cursor.rest {
        [0, rest @ ..] => {
            cursor.rest = rest;
            Ok(None)
        }
        _ => Ok(Some(why(cursor)?)),
    }
}

#[tactic(auto, unfolding(crate::specs::Reasons::reason))]
fn put_reason(out: &mut Vec<u8>, reason: Option<Why>) -> Result<(), AllocError>
    ensures { Puts reasons.reason reason result out.old.items out.new.items }
{
    put_byte(out, reason.map_or(0, tag_of))
}

fn missing(cursor: &mut Cursor<'_>) -> Result<[Option<Why>; 16], CodecNo>
    ensures { ReadsEach reasons.reason 16 result cursor.old cursor.new }
{
    let mut missing = [None; 16];
    for copy in 0..16 {
        missing[copy] = reason(cursor)?;
    }
    Ok(missing)
}

fn put_missing(out: &mut Vec<u8>, missing: &[Option<Why>; 16]) -> Result<(), AllocError>
    ensures written { PutsEach reasons.reason missing.now result out.old.items out.new.items }
    ensures sixteen { length missing.now ≡ 16 }
{
    for reason in missing {
        put_reason(out, *reason)?;
    }
    Ok(())
}

// The copies whose bits are set.
fn copies_of(number: u16) -> Copies
    ensures { result ≡ reasons.marks_of 16 number }
{
    let mut copies = Copies::none();
    let mut rest = number;
    for copy in 0..16 {
        if rest % 2 == 1 {
            copies = copies.with(copy);
        }
        rest /= 2;
    }
    copies
}

// The number of which the marks are the bits, the lowest first.
fn number_of(marks: &[bool]) -> u16
    requires { length marks.now ≤ 16 }
    ensures { result ≡ reasons.number_of marks.now }
{
    let mut number = 0;
    for place in (0..marks.len()).rev() {
        number *= 2;
        if marks[place] {
            number += 1;
        }
    }
    number
}

#[tactic(auto, unfolding(crate::specs::Reasons::phase))]
fn phase(cursor: &mut Cursor<'_>) -> Result<Phase, CodecNo>
    ensures { Reads reasons.phase result cursor.old cursor.new }
{
    match cursor.byte()? {
        0 => Ok(Phase::Collect),
        1 => Ok(Phase::Values),
        2 => Ok(Phase::Configs),
        _ => Err(CodecNo::Bad),
    }
}

#[tactic(auto, unfolding(crate::specs::Reasons::phase))]
fn put_phase(out: &mut Vec<u8>, phase: Phase) -> Result<(), AllocError>
    ensures { Puts reasons.phase phase result out.old.items out.new.items }
{
    match phase {
        Phase::Collect => put_byte(out, 0),
        Phase::Values => put_byte(out, 1),
        Phase::Configs => put_byte(out, 2),
    }
}

/// The lack at a cursor.
#[tactic(auto, unfolding(crate::specs::Reasons::lack, crate::specs::Reasons::copies))]
pub(crate) fn lack(cursor: &mut Cursor<'_>) -> Result<Lack, CodecNo>
    ensures { Reads reasons.lack result cursor.old cursor.new }
{
    let phase = phase(cursor)?;
    let replied = copies_of(cursor.half()?);
    let missing = missing(cursor)?;
    Ok(Lack {
        phase,
        replied,
        missing,
    })
}

/// Writes a lack behind bytes, of which nothing is known behind an error.
#[tactic(auto, unfolding(crate::specs::Reasons::lack, crate::specs::Reasons::copies))]
pub(crate) fn put_lack(out: &mut Vec<u8>, lack: &Lack) -> Result<(), AllocError>
    ensures written { Puts reasons.lack lack.now result out.old.items out.new.items }
    ensures fits { OnOk result (reasons.lack.fits lack.now) }
{
    put_phase(out, lack.phase)?;
    put_half(out, number_of(lack.replied.as_slice()))?;
    put_missing(out, &lack.missing)
}
