//! The rules on user transactions, and where managers stand below them. None of these calls takes memory.
ghost use Rattle.std.specs.Prelude.{◌↔◌, IsTrue};
ghost use Rattle.qc_event.specs.Users as words;

use qc_event::{Answer, Cause, Kind, LEDGER_SEAT, Name, is_client};
use qc_scan::{
    Begun, Looks, Setting, is_child, is_going, is_open, is_orphan_of, is_started_user, is_user,
    top_number, was_aborted,
};

const HALF: u64 = 0x1_0000_0000;

/// Whether a top may start: both halves of its number are at least 1, and it has not started.
pub fn may_start_top<H: Looks>(h: &H, seat: u32, number: u64, kind: &Kind) -> bool
    ensures { IsTrue result ↔ words.MayStartTop (H.past h.now) seat number kind.now }
{
    is_client(seat)
        && is_user(kind)
        && number / HALF >= 1
        && number % HALF >= 1
        && h.start(&Name::top(number)).is_none()
}

/// Where a child of a kind may stand: user transactions, which nest no deeper than 16, and managers of a
/// record of the table stand under user transactions.
pub fn stands_under(setting: &Setting, parent: &Begun, depth: usize, kind: &Kind) -> bool
    ensures { IsTrue result ↔ words.StandsUnder setting.now parent.now depth kind.now }
{
    if !is_user(&parent.kind()) {
        return false;
    }
    match kind {
        Kind::User { .. } => depth <= 16,
        Kind::Read { rec } | Kind::Write { rec, .. } => (*rec as usize) < setting.records(),
        Kind::Reconf { rec, config } => {
            (*rec as usize) < setting.records()
                && config.count() == setting.copies()
                && config.is_legal()
        }
        Kind::Access => false,
    }
}

/// Whether a transaction may mark a session.
pub fn may_mark<H: Looks>(h: &H, seat: u32, by: &Name, session: u8) -> bool
    ensures { IsTrue result ↔ words.MayMark (H.past h.now) seat by.now session }
{
    is_client(seat) && is_started_user(h, by) && session <= 15
}

/// Whether a top may be ready: once, open and without an open child.
pub fn may_be_ready<H: Looks>(h: &H, seat: u32, top: &Name) -> bool
    ensures { IsTrue result ↔ words.MayReady (H.past h.now) seat top.now }
{
    is_client(seat)
        && top.len() == 1
        && is_open(h, top)
        && !h.is_ready(top)
        && h.children_ended(top)
}

fn may_commit_user<H: Looks>(h: &H, seat: u32, n: &Name, given: &Answer) -> bool
    ensures { IsTrue result ↔ words.MayCommitUser (H.past h.now) seat n.now given.now }
{
    is_client(seat) && is_going(h, n) && h.children_ended(n) && matches!(given, Answer::Nothing)
}

fn may_commit_top<H: Looks>(h: &H, seat: u32, n: &Name, given: &Answer) -> bool
    ensures { IsTrue result ↔ words.MayCommitTop (H.past h.now) seat n.now given.now }
{
    seat == LEDGER_SEAT && is_open(h, n) && h.is_ready(n) && matches!(given, Answer::Nothing)
}

/// Whether a user transaction may commit: below a top once its children have ended, and a top under the
/// ledger's seat once it is ready.
pub fn may_commit_user_or_top<H: Looks>(h: &H, seat: u32, n: &Name, given: &Answer) -> bool
    ensures { IsTrue result ↔ words.MayCommitUserOrTop (H.past h.now) seat n.now given.now }
{
    match n.len() {
        1 => may_commit_top(h, seat, n, given),
        _ => may_commit_user(h, seat, n, given),
    }
}

/// Whether a cause is one for which a user transaction may be aborted.
pub fn is_user_cause<H: Looks>(h: &H, n: &Name, session: u8, cause: &Cause) -> bool
    ensures { IsTrue result ↔ words.UserCause (H.past h.now) n.now session cause.now }
{
    match cause {
        Cause::Asked { by } => is_started_user(h, by) && n.is_ancestor(by),
        Cause::Orphan(ancestor) => is_orphan_of(h, n, ancestor),
        Cause::Killed => h.is_marked(session, top_number(n)),
        Cause::Child(child) => {
            is_child(n, child) && is_started_user(h, child) && was_aborted(h, child)
        }
        Cause::Missed => false,
        Cause::Conflict { .. } | Cause::NoQuorum(_) | Cause::Last => {
            h.is_child_aborted(n, cause)
        }
    }
}
