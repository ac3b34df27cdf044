//! Which rule refuses an entry. None of these calls takes memory.
ghost use Rattle.std.specs.Prelude.{◌≡◌, ◌↔◌, IsTrue};
ghost use Rattle.qc_check.specs.Breaks as words;

use crate::aborts::is_licensed;
use crate::grants::{is_free, is_seat_of, was_asked};
use qc_event::{Ask, Cause, Entry, Event, Grant, How, Kind, LEDGER_SEAT, Name, is_client};
use qc_scan::{Looks, Setting, front, is_done, is_manager, waiting};
use thiserror::Error;

/// The rules of a legal history. Where an entry is not allowed, the first of its event's rules that it
/// breaks is told; the rules that are named for a kind of event stand for all that is left of that kind.
#[derive(Clone, Copy, PartialEq, Eq, Debug, Error)]
pub enum Rule {
    /// The seat is none under which such an event may be: a session's, a copy's own, the ledger's.
    #[error("seat")]
    Seat,
    /// A name starts in its turn, where it may stand.
    #[error("start")]
    Start,
    /// An access asks while its manager waits for no other.
    #[error("waiting")]
    Waiting,
    /// An access asks once, what its manager asks next.
    #[error("ask")]
    Ask,
    /// An access that asked is given up once, while it is open, and for a reason that was told.
    #[error("gone")]
    Gone,
    /// A copy grants what was asked of it.
    #[error("wanted")]
    Wanted,
    /// An access is granted once.
    #[error("once")]
    Once,
    /// A live access is granted where no grant is in its way.
    #[error("clear")]
    Clear,
    /// A grant tells the tuple after its operation.
    #[error("tuple")]
    Tuple,
    /// A refusal names the shortest aborted ancestor, or the first grant in the way.
    #[error("refused")]
    Refused,
    /// A copy that was asked, or the ledger for a ready top, may be unable.
    #[error("unable")]
    Unable,
    /// A started user transaction marks a session.
    #[error("mark")]
    Mark,
    /// A transaction that is ready, or commits, has no open child.
    #[error("open child")]
    OpenChild,
    /// A top is ready once, while it is open.
    #[error("ready")]
    Ready,
    /// A manager commits once it is complete.
    #[error("complete")]
    Complete,
    /// What commits is open and not dead, a top ready, and gives its own answer.
    #[error("commit")]
    Commit,
    /// An abort has its licence.
    #[error("licence")]
    Licence,
    /// What is aborted is open, and no ready top.
    #[error("abort")]
    Abort,
}

fn seat_fits(seat: u32, event: &Event) -> bool
    ensures { IsTrue result ↔ words.SeatFits seat event.now }
{
    match event {
        Event::Granted { copy, grant: _ } => is_seat_of(seat, *copy),
        Event::Refused {
            access: _,
            copy,
            refusal: _,
        } => is_seat_of(seat, *copy),
        Event::Unable { name: _, why: _ } => true,
        Event::End {
            name: _,
            how: How::Commit(_),
        } => seat == LEDGER_SEAT || is_client(seat),
        _ => is_client(seat),
    }
}

fn ask_rule<H: Looks>(h: &H, ask: &Ask) -> Rule
    ensures { words.AskBreaks (H.past h.now) ask.now result }
{
    if waiting(h, &front(&ask.access)).is_some() {
        Rule::Waiting
    } else {
        Rule::Ask
    }
}

fn grant_rule<H: Looks>(h: &mut H, copy: u8, grant: &Grant) -> Rule
    ensures { words.GrantBreaks (H.past h.old) copy grant.now result }
{
    if !was_asked(h, copy, grant) {
        return Rule::Wanted;
    }
    if h.granted(&grant.access).is_some() {
        return Rule::Once;
    }
    if h.dead(&grant.access).is_some() {
        return Rule::Tuple;
    }
    if !is_free(h, copy, grant) {
        return Rule::Clear;
    }
    Rule::Tuple
}

fn ready_rule<H: Looks>(h: &H, top: &Name) -> Rule
    ensures { words.ReadyBreaks (H.past h.now) top.now result }
{
    if !h.children_ended(top) {
        Rule::OpenChild
    } else {
        Rule::Ready
    }
}

fn falls_short<H: Looks>(setting: &Setting, h: &H, m: &Name, kind: &Kind) -> bool
    ensures { IsTrue result ↔ words.FallsShort setting.now (H.past h.now) m.now kind.now }
{
    if !is_manager(kind) {
        return false;
    }
    !is_done(setting, h, m, kind)
}

fn is_incomplete<H: Looks>(setting: &Setting, h: &H, n: &Name) -> bool
    ensures { IsTrue result ↔ words.IsIncomplete setting.now (H.past h.now) n.now }
{
    match h.start(n) {
        Some(begun) => falls_short(setting, h, n, &begun.kind()),
        None => false,
    }
}

fn commit_rule<H: Looks>(setting: &Setting, h: &H, n: &Name) -> Rule
    ensures { words.CommitBreaks setting.now (H.past h.now) n.now result }
{
    if !h.children_ended(n) {
        return Rule::OpenChild;
    }
    if is_incomplete(setting, h, n) {
        return Rule::Complete;
    }
    Rule::Commit
}

fn has_licence<H: Looks>(setting: &Setting, h: &H, seat: u32, n: &Name, cause: &Cause) -> bool
    ensures { IsTrue result ↔ words.HasLicence setting.now (H.past h.now) seat n.now cause.now }
{
    match h.start(n) {
        Some(begun) => is_licensed(setting, h, seat, n, &begun, cause),
        None => false,
    }
}

fn abort_rule<H: Looks>(setting: &Setting, h: &H, seat: u32, n: &Name, cause: &Cause) -> Rule
    ensures { words.AbortBreaks setting.now (H.past h.now) seat n.now cause.now result }
{
    if has_licence(setting, h, seat, n, cause) {
        Rule::Abort
    } else {
        Rule::Licence
    }
}

fn event_rule<H: Looks>(setting: &Setting, h: &mut H, seat: u32, event: &Event) -> Rule
    ensures { words.EventBreaks setting.now (H.past h.old) seat event.now result }
{
    match event {
        Event::Start { name: _, kind: _ } => Rule::Start,
        Event::Ask(ask) => ask_rule(h, ask),
        Event::Gone { access: _, why: _ } => Rule::Gone,
        Event::Granted { copy, grant } => grant_rule(h, *copy, grant),
        Event::Refused {
            access: _,
            copy: _,
            refusal: _,
        } => Rule::Refused,
        Event::Unable { name: _, why: _ } => Rule::Unable,
        Event::Mark { by: _, session: _ } => Rule::Mark,
        Event::Ready { top } => ready_rule(h, top),
        Event::End { name, how } => match how {
            How::Commit(_) => commit_rule(setting, h, name),
            How::Abort(cause) => abort_rule(setting, h, seat, name, cause),
        },
    }
}

/// The rule that refuses an entry, if one does: the first of its event's rules that it breaks.
pub fn breaks<H: Looks>(setting: &Setting, h: &mut H, e: &Entry) -> Rule
    ensures { words.Breaks setting.now (H.past h.old) e.now result }
{
    if seat_fits(e.seat, &e.event) {
        event_rule(setting, h, e.seat, &e.event)
    } else {
        Rule::Seat
    }
}
