//! What a history says first of a name. None of these calls takes memory.
ghost use Rattle.std.specs.Prelude.{◌≡◌, reverse};
ghost use Rattle.qc_event.specs.History as words;

use qc_event::{Ask, Entry, Event, Grant, How, Kind, Name, Refusal, Why};
use std::marker::Model;

/// The start of a name: the seat under which it was made, and the kind.
#[derive(Clone, Copy, Debug)]
pub struct Begun {
    seat: u32,
    kind: Kind,
}

impl Model for Begun {
    ghost use Rattle.qc_event.specs.History as words;

    ghost Value = { words.Begun };

    ghost view = { λ b. record { seat = b.seat; kind = b.kind } };

    ghost inverse = { λ v. record { seat = v.seat; kind = v.kind } };
}

impl Begun {
    ghost use Rattle.std.specs.Prelude.{◌≡◌};

    /// The seat under which the start was made.
    pub fn seat(&self) -> u32
        ensures { result ≡ self.now.seat }
    {
        self.seat
    }

    /// What was started.
    pub fn kind(&self) -> Kind
        ensures { result ≡ self.now.kind }
    {
        self.kind
    }
}

/// A request, and the seat under which it was made.
#[derive(Clone, Copy, Debug)]
pub struct Request {
    seat: u32,
    ask: Ask,
}

impl Model for Request {
    ghost use Rattle.qc_event.specs.History as words;

    ghost Value = { words.Asked };

    ghost view = { λ a. record { seat = a.seat; ask = a.ask } };

    ghost inverse = { λ v. record { seat = v.seat; ask = v.ask } };
}

impl Request {
    ghost use Rattle.std.specs.Prelude.{◌≡◌};

    /// The seat under which the request was made.
    pub fn seat(&self) -> u32
        ensures { result ≡ self.now.seat }
    {
        self.seat
    }

    /// The request.
    pub fn ask(&self) -> Ask
        ensures { result ≡ self.now.ask }
    {
        self.ask
    }
}

/// A grant, and the copy that gave it.
#[derive(Clone, Copy, Debug)]
pub struct Given {
    copy: u8,
    grant: Grant,
}

impl Model for Given {
    ghost use Rattle.qc_event.specs.History as words;

    ghost Value = { words.Given };

    ghost view = { λ g. record { copy = g.copy; grant = g.grant } };

    ghost inverse = { λ v. record { copy = v.copy; grant = v.grant } };
}

impl Given {
    ghost use Rattle.std.specs.Prelude.{◌≡◌};

    /// The grant.
    pub fn grant(&self) -> Grant
        ensures { result ≡ self.now.grant }
    {
        self.grant
    }
}

/// The start of a name, where the entry is it.
pub fn start_in(e: &Entry, n: &Name) -> Option<Begun>
    ensures { result ≡ words.start_in n.now e.now.seat e.now.event }
{
    match &e.event {
        Event::Start { name, kind } if name == n => Some(Begun {
            seat: e.seat,
            kind: *kind,
        }),
        _ => None,
    }
}

/// The start of a name.
pub fn start(h: &[Entry], n: &Name) -> Option<Begun>
    ensures { result ≡ words.start (reverse h.now) n.now }
{
    h.iter().find_map(|e| start_in(e, n))
}

/// How a name ended, where the entry is its end.
pub fn end_in(e: &Entry, n: &Name) -> Option<How>
    ensures { result ≡ words.end_in n.now e.now.event }
{
    match &e.event {
        Event::End { name, how } if name == n => Some(*how),
        _ => None,
    }
}

/// How a name ended.
pub fn end(h: &[Entry], n: &Name) -> Option<How>
    ensures { result ≡ words.end (reverse h.now) n.now }
{
    h.iter().find_map(|e| end_in(e, n))
}

fn ready_in(e: &Entry, n: &Name) -> Option<()>
    ensures { result ≡ words.ready_in n.now e.now.event }
{
    match &e.event {
        Event::Ready { top } if top == n => Some(()),
        _ => None,
    }
}

/// Whether a name is ready.
pub fn is_ready(h: &[Entry], n: &Name) -> bool
    ensures { result ≡ words.is_ready (reverse h.now) n.now }
{
    h.iter().find_map(|e| ready_in(e, n)).is_some()
}

/// The request of an access, where the entry is it.
pub fn ask_in(e: &Entry, n: &Name) -> Option<Request>
    ensures { result ≡ words.ask_in n.now e.now.seat e.now.event }
{
    match &e.event {
        Event::Ask(ask) if ask.access == *n => Some(Request {
            seat: e.seat,
            ask: *ask,
        }),
        _ => None,
    }
}

/// The request of an access.
pub fn asked(h: &[Entry], n: &Name) -> Option<Request>
    ensures { result ≡ words.asked (reverse h.now) n.now }
{
    h.iter().find_map(|e| ask_in(e, n))
}

/// Why an access got no answer, where the entry says so.
pub fn gone_in(e: &Entry, n: &Name) -> Option<Why>
    ensures { result ≡ words.gone_in n.now e.now.event }
{
    match &e.event {
        Event::Gone { access, why } if access == n => Some(*why),
        _ => None,
    }
}

/// Why an access first got no answer.
pub fn gone(h: &[Entry], n: &Name) -> Option<Why>
    ensures { result ≡ words.gone (reverse h.now) n.now }
{
    h.iter().find_map(|e| gone_in(e, n))
}

/// The grant of an access, where the entry is it.
pub fn grant_in(e: &Entry, n: &Name) -> Option<Given>
    ensures { result ≡ words.grant_in n.now e.now.event }
{
    match &e.event {
        Event::Granted { copy, grant } if grant.access == *n => Some(Given {
            copy: *copy,
            grant: *grant,
        }),
        _ => None,
    }
}

/// The grant of an access.
pub fn granted(h: &[Entry], n: &Name) -> Option<Given>
    ensures { result ≡ words.granted (reverse h.now) n.now }
{
    h.iter().find_map(|e| grant_in(e, n))
}

/// The refusal of an access, where the entry is it.
pub fn refusal_in(e: &Entry, n: &Name) -> Option<Refusal>
    ensures { result ≡ words.refusal_in n.now e.now.event }
{
    match &e.event {
        Event::Refused {
            access,
            copy: _,
            refusal,
        } if access == n => Some(*refusal),
        _ => None,
    }
}

/// The first refusal of an access.
pub fn refused(h: &[Entry], n: &Name) -> Option<Refusal>
    ensures { result ≡ words.refused (reverse h.now) n.now }
{
    h.iter().find_map(|e| refusal_in(e, n))
}
