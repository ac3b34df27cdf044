//! What a manager asked, and what became of it. None of these calls takes memory.
ghost use Rattle.std.specs.Prelude.{◌≡◌, ◌==◌, ◌&&◌, is_none, is_some};
ghost use Rattle.qc_scan.specs.Blocked as blocked;
ghost use Rattle.qc_event.specs.Clear as clear;
ghost use Rattle.qc_event.specs.History as history;
ghost use Rattle.qc_event.specs.Manager as words;

use crate::looks::Looks;
use qc_event::{Answer, Ask, Copies, How, Name, Op, Phase, Refusal, Tuple, Why};

/// The tuple that an access replied.
pub fn reply<H: Looks>(h: &H, access: &Name) -> Option<Tuple>
    ensures { result ≡ words.reply (H.past h.now) access.now }
{
    match h.end(access) {
        Some(How::Commit(Answer::Reply(tuple))) => Some(tuple),
        _ => None,
    }
}

/// Why an access is missing.
pub fn missing<H: Looks>(h: &H, access: &Name) -> Option<Why>
    ensures { result ≡ words.missing (H.past h.now) access.now }
{
    match h.end(access) {
        Some(How::Abort(_)) => h.gone(access),
        _ => None,
    }
}

fn holder_in(refusal: &Refusal) -> Option<Name>
    ensures { result ≡ blocked.holder_in refusal.now }
{
    match refusal {
        Refusal::Blocked(holder) => Some(*holder),
        Refusal::Dead(_) => None,
    }
}

/// The holder by which an access is blocked.
pub fn blocked_by<H: Looks>(h: &H, access: &Name) -> Option<Name>
    ensures { result ≡ words.blocked_by (H.past h.now) access.now }
{
    match h.end(access) {
        Some(How::Abort(_)) if h.gone(access).is_none() => match h.refused(access) {
            Some(refusal) => holder_in(&refusal),
            None => None,
        },
        _ => None,
    }
}

/// The phase in which an operation is asked for.
pub fn phase_of(op: &Op) -> Phase
    ensures { result ≡ words.phase_of op.now }
{
    match op {
        Op::Get => Phase::Collect,
        Op::PutData { .. } => Phase::Values,
        Op::PutConfig { .. } => Phase::Configs,
    }
}

fn is_in(ask: &Ask, phase: Phase) -> bool
    ensures { result ≡ words.is_phase phase (words.phase_of ask.now.op) }
{
    phase == phase_of(&ask.op)
}

/// Whether an operation only reads.
pub fn is_get(op: &Op) -> bool
    ensures { result ≡ clear.is_get op.now }
{
    matches!(op, Op::Get)
}

fn is_ask_to(ask: &Ask, phase: Phase, copy: u8) -> bool
    ensures { result
        ≡ (words.is_phase phase (words.phase_of ask.now.op) && (ask.now.copy == copy)) }
{
    is_in(ask, phase) && ask.copy == copy
}

fn has_reply<H: Looks>(h: &H, ask: &Ask, phase: Phase, copy: u8) -> bool
    ensures { result ≡ (words.is_phase phase (words.phase_of ask.now.op)
        && ((ask.now.copy == copy) && is_some (words.reply (H.past h.now) ask.now.access))) }
{
    is_in(ask, phase) && ask.copy == copy && reply(h, &ask.access).is_some()
}

fn is_blocked<H: Looks>(h: &H, ask: &Ask, phase: Phase) -> bool
    ensures { result ≡ (words.is_phase phase (words.phase_of ask.now.op)
        && is_some (words.blocked_by (H.past h.now) ask.now.access)) }
{
    is_in(ask, phase) && blocked_by(h, &ask.access).is_some()
}

fn is_open_ask<H: Looks>(h: &H, ask: &Ask) -> bool
    ensures { result ≡ is_none (history.end (H.past h.now) ask.now.access) }
{
    h.end(&ask.access).is_none()
}

/// A manager's request to a copy in a phase.
pub fn ask_at<H: Looks>(h: &H, m: &Name, phase: Phase, copy: u8) -> Option<Ask>
    ensures { result ≡ words.ask_at (H.past h.now) m.now phase copy }
{
    for k in 0..h.asks(m) {
        let ask = h.ask(m, k);
        if is_ask_to(&ask, phase, copy) {
            return Some(ask);
        }
    }
    None
}

/// Whether a copy replied to a manager in a phase.
pub fn has_replied<H: Looks>(h: &H, m: &Name, phase: Phase, copy: u8) -> bool
    ensures { result ≡ words.has_replied (H.past h.now) m.now phase copy }
{
    for k in 0..h.asks(m) {
        let ask = h.ask(m, k);
        if has_reply(h, &ask, phase, copy) {
            return true;
        }
    }
    false
}

/// The copies that replied to a manager in a phase.
pub fn replied<H: Looks>(h: &H, m: &Name, phase: Phase) -> Copies
    ensures { result ≡ words.replied (H.past h.now) m.now phase }
{
    let mut copies = Copies::none();
    for c in 0..16 {
        if has_replied(h, m, phase, c) {
            copies = copies.with(c);
        }
    }
    copies
}

/// Why a copy is missing in a phase.
pub fn missing_at<H: Looks>(h: &H, m: &Name, phase: Phase, copy: u8) -> Option<Why>
    ensures { result ≡ words.missing_at (H.past h.now) m.now phase copy }
{
    match ask_at(h, m, phase, copy) {
        Some(ask) => missing(h, &ask.access),
        None => None,
    }
}

/// The first request of a phase whose access is blocked.
pub fn first_blocked<H: Looks>(h: &H, m: &Name, phase: Phase) -> Option<Ask>
    ensures { result ≡ words.first_blocked (H.past h.now) m.now phase }
{
    for k in 0..h.asks(m) {
        let ask = h.ask(m, k);
        if is_blocked(h, &ask, phase) {
            return Some(ask);
        }
    }
    None
}

/// The first request of a manager whose access is open.
pub fn waiting<H: Looks>(h: &H, m: &Name) -> Option<Ask>
    ensures { result ≡ words.waiting (H.past h.now) m.now }
{
    for k in 0..h.asks(m) {
        let ask = h.ask(m, k);
        if is_open_ask(h, &ask) {
            return Some(ask);
        }
    }
    None
}
