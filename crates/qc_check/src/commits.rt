//! Who may commit, with which answer. None of these calls takes memory.
ghost use Rattle.std.specs.Prelude.{◌≡◌, ◌↔◌, IsTrue, MatchOption};
ghost use Rattle.qc_event.specs.declared.event.Answer.TheVariants as answer;
ghost use Rattle.qc_event.specs.Commits as words;
ghost use Rattle.qc_event.specs.History as history;
ghost use Rattle.qc_event.specs.Manager as manager;
ghost use Rattle.qc_check.specs.Parts as parts;

use crate::users::may_commit_user_or_top;
use qc_event::{Answer, Config, Kind, Name, is_client};
use qc_scan::{
    Begun, Looks, Setting, greatest, is_asked_under, is_done, is_going, newest, record_of,
    same_answer,
};

fn is_granted<H: Looks>(h: &H, n: &Name, given: &Answer) -> bool
    ensures { IsTrue result ↔ MatchOption (history.granted (H.past h.now) n.now) ⊥
        (λ g. given.now ≡ answer.Reply g.grant.tuple) }
{
    match h.granted(n) {
        Some(granted) => same_answer(given, &Answer::Reply(granted.grant().tuple)),
        None => false,
    }
}

fn may_commit_access<H: Looks>(h: &H, seat: u32, n: &Name, given: &Answer) -> bool
    ensures { IsTrue result ↔ words.MayCommitAccess (H.past h.now) seat n.now given.now }
{
    is_client(seat) && is_asked_under(h, seat, n) && is_going(h, n) && is_granted(h, n, given)
}

fn is_manager_answer<H: Looks>(h: &H, first: &Config, m: &Name, kind: &Kind, given: &Answer) -> bool
    ensures { IsTrue result
        ↔ (given.now ≡ words.manager_answer (H.past h.now) first.now m.now kind.now) }
{
    match kind {
        Kind::Read { .. } => same_answer(given, &Answer::Value(greatest(h, m).value())),
        Kind::Reconf { .. } => match given {
            Answer::Generation(next) => *next > 0 && *next - 1 == newest(h, first, m).generation(),
            _ => false,
        },
        _ => matches!(given, Answer::Nothing),
    }
}

fn is_free_to_commit<H: Looks>(h: &H, seat: u32, n: &Name, begun: &Begun) -> bool
    ensures { IsTrue result ↔ parts.IsFreeToCommit (H.past h.now) seat n.now begun.now }
{
    is_client(seat) && seat == begun.seat() && is_going(h, n) && h.children_ended(n)
}

fn gives_answer<H: Looks>(setting: &Setting, h: &H, m: &Name, kind: &Kind, given: &Answer) -> bool
    ensures { IsTrue result ↔ (given.now ≡ words.manager_answer (H.past h.now)
        (manager.first_for setting.now kind.now) m.now kind.now) }
{
    is_manager_answer(h, &setting.first(record_of(kind)), m, kind, given)
}

fn may_commit_manager<H: Looks>(
    setting: &Setting,
    h: &H,
    seat: u32,
    n: &Name,
    begun: &Begun,
    given: &Answer,
) -> bool
    ensures { IsTrue result
        ↔ words.MayCommitManager setting.now (H.past h.now) seat n.now begun.now given.now }
{
    if !is_free_to_commit(h, seat, n, begun) {
        return false;
    }
    let kind = begun.kind();
    if !is_done(setting, h, n, &kind) {
        return false;
    }
    gives_answer(setting, h, n, &kind, given)
}

/// Whether a started name may commit, by its kind.
pub fn may_commit<H: Looks>(
    setting: &Setting,
    h: &H,
    seat: u32,
    n: &Name,
    begun: &Begun,
    given: &Answer,
) -> bool
    ensures { IsTrue result ↔ words.MayCommit setting.now (H.past h.now) seat n.now begun.now
        given.now begun.now.kind }
{
    match begun.kind() {
        Kind::User { .. } => may_commit_user_or_top(h, seat, n, given),
        Kind::Access => may_commit_access(h, seat, n, given),
        _ => may_commit_manager(setting, h, seat, n, begun, given),
    }
}
