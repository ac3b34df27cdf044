//! What a manager's accesses may ask, when one is given up, and who may be unable to serve. None of these
//! calls takes memory.
ghost use Rattle.std.specs.Prelude.{◌≡◌, ◌↔◌, IsTrue};
ghost use Rattle.qc_event.specs.declared.event.Kind.TheVariants.{Access};
ghost use Rattle.qc_event.specs.Manager as manager;
ghost use Rattle.qc_event.specs.Requests as words;
ghost use Rattle.qc_event.specs.Standing as standing;
ghost use Rattle.qc_check.specs.Parts as parts;

use qc_event::{Ask, Kind, LEDGER_SEAT, Name, Why, copy_seat, is_client};
use qc_scan::{
    Looks, Setting, Stage, front, is_asked_under, is_going, is_open, is_started_under, next_copy,
    record_of, same_op, stage_for, waiting,
};

// REQUESTS

fn is_access_under<H: Looks>(h: &H, seat: u32, access: &Name) -> bool
    ensures { IsTrue result ↔ standing.Started (H.past h.now) access.now
        (λ a. (a.seat ≡ seat) × (a.kind ≡ Access)) }
{
    match h.start(access) {
        Some(begun) => begun.seat() == seat && matches!(begun.kind(), Kind::Access),
        None => false,
    }
}

fn is_ask_at<H: Looks>(h: &H, m: &Name, kind: &Kind, ask: &Ask, stage: &Stage) -> bool
    ensures { IsTrue result ↔ words.IsNextAsk (H.past h.now) m.now kind.now ask.now stage.now }
{
    match next_copy(h, m, stage) {
        Some(copy) => {
            copy == ask.copy && ask.rec == record_of(kind) && same_op(&ask.op, &stage.op())
        }
        None => false,
    }
}

fn is_next_ask<H: Looks>(setting: &Setting, h: &H, m: &Name, kind: &Kind, ask: &Ask) -> bool
    ensures { IsTrue result ↔ manager.AtStage setting.now (H.past h.now) m.now kind.now
        (words.IsNextAsk (H.past h.now) m.now kind.now ask.now) }
{
    match stage_for(setting, h, m, kind) {
        Some(stage) => is_ask_at(h, m, kind, ask, &stage),
        None => false,
    }
}

fn is_asked_next<H: Looks>(setting: &Setting, h: &H, m: &Name, ask: &Ask) -> bool
    ensures { IsTrue result ↔ standing.Started (H.past h.now) m.now (λ b.
        manager.AtStage setting.now (H.past h.now) m.now b.kind
        (words.IsNextAsk (H.past h.now) m.now b.kind ask.now)) }
{
    match h.start(m) {
        Some(begun) => is_next_ask(setting, h, m, &begun.kind(), ask),
        None => false,
    }
}

fn is_free_to_ask<H: Looks>(h: &H, seat: u32, ask: &Ask) -> bool
    ensures { IsTrue result ↔ parts.IsFreeToAsk (H.past h.now) seat ask.now }
{
    let m = front(&ask.access);
    is_client(seat)
        && is_access_under(h, seat, &ask.access)
        && is_started_under(h, seat, &m)
        && is_going(h, &ask.access)
        && h.asked(&ask.access).is_none()
        && waiting(h, &m).is_none()
}

/// Whether an access may ask: once, under the seat at which it and its manager started, what its manager
/// asks next, and only where the manager waits for no other access.
pub fn may_ask<H: Looks>(setting: &Setting, h: &H, seat: u32, ask: &Ask) -> bool
    ensures { IsTrue result ↔ words.MayAsk setting.now (H.past h.now) seat ask.now }
{
    if !is_free_to_ask(h, seat, ask) {
        return false;
    }
    is_asked_next(setting, h, &front(&ask.access), ask)
}

// UNABLE

/// Whether a copy is down, its journal is full, or it is in a strange state.
fn is_fault(why: Why) -> bool
    ensures { result ≡ words.is_fault why }
{
    !matches!(why, Why::Lost | Why::Late)
}

fn is_ledger_fault(why: Why) -> bool
    ensures { result ≡ words.is_ledger_fault why }
{
    matches!(why, Why::Down | Why::Full)
}

fn is_unable_copy<H: Looks>(h: &H, seat: u32, n: &Name, why: Why) -> bool
    ensures { IsTrue result ↔ words.IsUnableCopy (H.past h.now) seat n.now why }
{
    match h.asked(n) {
        Some(asked) => seat == copy_seat(asked.ask().copy) && is_fault(why),
        None => false,
    }
}

fn is_unable_ledger<H: Looks>(h: &H, seat: u32, n: &Name, why: Why) -> bool
    ensures { IsTrue result ↔ words.IsUnableLedger (H.past h.now) seat n.now why }
{
    seat == LEDGER_SEAT && n.len() == 1 && h.is_ready(n) && is_ledger_fault(why)
}

/// Whether a copy may be unable to serve an access that asked it, or the ledger to log a top that is ready.
pub fn may_be_unable<H: Looks>(h: &H, seat: u32, n: &Name, why: Why) -> bool
    ensures { IsTrue result ↔ words.MayBeUnable (H.past h.now) seat n.now why }
{
    is_unable_copy(h, seat, n, why) || is_unable_ledger(h, seat, n, why)
}

// GIVING UP

/// Whether an access may be given up: it asked under this seat, is open, and was not given up before. That
/// its copy was unable wants the copy's own word.
pub fn may_give_up<H: Looks>(h: &H, seat: u32, access: &Name, why: Why) -> bool
    ensures { IsTrue result ↔ words.MayGiveUp (H.past h.now) seat access.now why }
{
    is_client(seat)
        && is_asked_under(h, seat, access)
        && is_open(h, access)
        && h.gone(access).is_none()
        && (!is_fault(why) || h.was_unable(access, why))
}
