//! Entries.
ghost use Rattle.std.specs.Prelude.{◌<◌, ◌≤◌, OnOk};
ghost use Rattle.qc_codec.specs.Fields.{current, layout, IsNumbered};
ghost use Rattle.qc_codec.specs.Gives.{Reads, Puts};
ghost use Rattle.qc_event.specs.declared.event.Event.TheVariants as event;
ghost use Rattle.qc_trail_codec.specs.Events as events;
ghost use Rattle.qc_trail_codec.specs.Saving.{CanAskBeSaved, CanBeSaved, CanEventBeSaved, CanGrantBeSaved, IsNumberedRefusal};

use crate::end::{how, put_how};
use crate::kind::{kind, op, put_byte, put_kind, put_op};
use crate::reason::{inability, put_why, why};
use qc_codec::{CodecNo, Cursor, put_granted, put_name, put_word};
use qc_event::{Ask, Entry, Event, Grant, Name, Refusal, Why};
use std::alloc::AllocError;

/// The number past those of the sessions.
const SESSIONS: u8 = 16;

#[tactic(auto, unfolding(crate::specs::Events::ask))]
fn ask(cursor: &mut Cursor<'_>, copies: u8, format: u8) -> Result<Ask, CodecNo>
    requires { copies ≤ 16 }
    ensures { Reads (events.ask (layout copies format)) result cursor.old cursor.new }
{
    Ok(Ask {
        access: cursor.name(1)?,
        copy: cursor.byte()?,
        rec: cursor.byte()?,
        op: op(cursor, copies, format)?,
    })
}

#[tactic(auto, using(crate::proofs::Fits::numbered_some), unfolding(crate::specs::Events::ask))]
fn put_ask(out: &mut Vec<u8>, copies: u8, ask: &Ask) -> Result<(), AllocError>
    requires some { 0 < copies }
    requires most { copies ≤ 16 }
    requires can { CanAskBeSaved copies ask.now }
    ensures written { Puts (events.ask (current copies)) ask.now result
        out.old.items out.new.items }
    ensures fits { OnOk result ((events.ask (current copies)).fits ask.now) }
{
    put_name(out, &ask.access)?;
    put_byte(out, ask.copy)?;
    put_byte(out, ask.rec)?;
    put_op(out, copies, &ask.op)
}

#[tactic(auto, unfolding(crate::specs::Events::refusal))]
fn refusal(cursor: &mut Cursor<'_>) -> Result<Refusal, CodecNo>
    ensures { Reads events.refusal result cursor.old cursor.new }
{
    match cursor.byte()? {
        0 => Ok(Refusal::Blocked(cursor.name(1)?)),
        1 => Ok(Refusal::Dead(cursor.name(1)?)),
        _ => Err(CodecNo::Bad),
    }
}

#[tactic(auto, using(crate::proofs::Fits::numbered_some), unfolding(crate::specs::Events::refusal))]
fn put_refusal(out: &mut Vec<u8>, refusal: &Refusal) -> Result<(), AllocError>
    requires { IsNumberedRefusal refusal.now }
    ensures written { Puts events.refusal refusal.now result out.old.items out.new.items }
    ensures fits { OnOk result (events.refusal.fits refusal.now) }
{
    match refusal {
        Refusal::Blocked(holder) => {
            put_byte(out, 0)?;
            put_name(out, holder)
        }
        Refusal::Dead(ancestor) => {
            put_byte(out, 1)?;
            put_name(out, ancestor)
        }
    }
}

// The number of a session that is marked.
fn session(cursor: &mut Cursor<'_>) -> Result<u8, CodecNo>
    ensures { Reads events.session result cursor.old cursor.new }
{
    let session = cursor.byte()?;
    if session >= SESSIONS {
        return Err(CodecNo::Bad);
    }
    Ok(session)
}

#[tactic(auto, unfolding(crate::specs::Events::event))]
fn event(cursor: &mut Cursor<'_>, copies: u8, format: u8) -> Result<Event, CodecNo>
    requires { copies ≤ 16 }
    ensures { Reads (events.event (layout copies format)) result cursor.old cursor.new }
{
    match cursor.byte()? {
        1 => Ok(Event::Start {
            name: cursor.name(1)?,
            kind: kind(cursor, copies, format)?,
        }),
        2 => Ok(Event::Ask(ask(cursor, copies, format)?)),
        3 => Ok(Event::Gone {
            access: cursor.name(1)?,
            why: why(cursor)?,
        }),
        4 => Ok(Event::Granted {
            copy: cursor.byte()?,
            grant: cursor.granted(1, copies, format)?,
        }),
        5 => Ok(Event::Refused {
            access: cursor.name(1)?,
            copy: cursor.byte()?,
            refusal: refusal(cursor)?,
        }),
        6 => Ok(Event::Ready {
            top: cursor.name(1)?,
        }),
        7 => Ok(Event::End {
            name: cursor.name(1)?,
            how: how(cursor, copies, format)?,
        }),
        8 => Ok(Event::Unable {
            name: cursor.name(1)?,
            why: inability(cursor)?,
        }),
        9 => Ok(Event::Mark {
            by: cursor.name(1)?,
            session: session(cursor)?,
        }),
        _ => Err(CodecNo::Bad),
    }
}

#[tactic(auto, using(crate::proofs::Fits::numbered_some), unfolding(crate::specs::Events::event))]
fn put_gone(out: &mut Vec<u8>, copies: u8, access: &Name, why: Why) -> Result<(), AllocError>
    requires most { copies ≤ 16 }
    requires numbered { IsNumbered access.now }
    ensures written { Puts (events.event (current copies)) (event.Gone access.now why) result
        out.old.items out.new.items }
    ensures fits { OnOk result
        ((events.event (current copies)).fits (event.Gone access.now why)) }
{
    put_byte(out, 3)?;
    put_name(out, access)?;
    put_why(out, why)
}

#[tactic(auto, using(crate::proofs::Fits::numbered_some), unfolding(crate::specs::Events::event))]
fn put_grant(out: &mut Vec<u8>, copies: u8, copy: u8, grant: &Grant) -> Result<(), AllocError>
    requires some { 0 < copies }
    requires most { copies ≤ 16 }
    requires can { CanGrantBeSaved copies grant.now }
    ensures written { Puts (events.event (current copies)) (event.Granted copy grant.now) result
        out.old.items out.new.items }
    ensures fits { OnOk result
        ((events.event (current copies)).fits (event.Granted copy grant.now)) }
{
    put_byte(out, 4)?;
    put_byte(out, copy)?;
    put_granted(out, copies, grant)
}

#[tactic(auto, using(crate::proofs::Fits::numbered_some), unfolding(crate::specs::Events::event))]
fn put_refused(
    out: &mut Vec<u8>,
    copies: u8,
    access: &Name,
    copy: u8,
    refusal: &Refusal,
) -> Result<(), AllocError>
    requires most { copies ≤ 16 }
    requires access { IsNumbered access.now }
    requires refusal { IsNumberedRefusal refusal.now }
    ensures written { Puts (events.event (current copies))
        (event.Refused access.now copy refusal.now) result out.old.items out.new.items }
    ensures fits { OnOk result ((events.event (current copies)).fits
        (event.Refused access.now copy refusal.now)) }
{
    put_byte(out, 5)?;
    put_name(out, access)?;
    put_byte(out, copy)?;
    put_refusal(out, refusal)
}

#[tactic(auto, using(crate::proofs::Fits::numbered_some), unfolding(crate::specs::Events::event, crate::specs::Reasons::inability))]
fn put_event(out: &mut Vec<u8>, copies: u8, event: &Event) -> Result<(), AllocError>
    requires some { 0 < copies }
    requires most { copies ≤ 16 }
    requires can { CanEventBeSaved copies event.now }
    ensures written { Puts (events.event (current copies)) event.now result
        out.old.items out.new.items }
    ensures fits { OnOk result ((events.event (current copies)).fits event.now) }
{
    match event {
        Event::Start { name, kind } => {
            put_byte(out, 1)?;
            put_name(out, name)?;
            put_kind(out, copies, kind)
        }
        Event::Ask(ask) => {
            put_byte(out, 2)?;
            put_ask(out, copies, ask)
        }
        Event::Gone { access, why } => put_gone(out, copies, access, *why),
        Event::Granted { copy, grant } => put_grant(out, copies, *copy, grant),
        Event::Refused {
            access,
            copy,
            refusal,
        } => put_refused(out, copies, access, *copy, refusal),
        Event::Ready { top } => {
            put_byte(out, 6)?;
            put_name(out, top)
        }
        Event::End { name, how } => {
            put_byte(out, 7)?;
            put_name(out, name)?;
            put_how(out, copies, how)
        }
        Event::Unable { name, why } => {
            put_byte(out, 8)?;
            put_name(out, name)?;
            put_why(out, *why)
        }
        Event::Mark { by, session } => {
            put_byte(out, 9)?;
            put_name(out, by)?;
            put_byte(out, *session)
        }
    }
}

/// The entry at a cursor.
#[tactic(auto, unfolding(crate::specs::Events::entry))]
pub(crate) fn entry(cursor: &mut Cursor<'_>, copies: u8, format: u8) -> Result<Entry, CodecNo>
    requires { copies ≤ 16 }
    ensures { Reads (events.entry (layout copies format)) result cursor.old cursor.new }
{
    let seat = cursor.word()?;
    let event = event(cursor, copies, format)?;
    Ok(Entry { seat, event })
}

/// Writes an entry behind bytes, of which nothing is known behind an error.
#[tactic(auto, unfolding(crate::specs::Events::entry))]
pub(crate) fn put_entry(out: &mut Vec<u8>, copies: u8, entry: &Entry) -> Result<(), AllocError>
    requires some { 0 < copies }
    requires most { copies ≤ 16 }
    requires can { CanBeSaved copies entry.now }
    ensures written { Puts (events.entry (current copies)) entry.now result
        out.old.items out.new.items }
    ensures fits { OnOk result ((events.entry (current copies)).fits entry.now) }
{
    put_word(out, entry.seat)?;
    put_event(out, copies, &entry.event)
}
