//! Whether a history is legal.
ghost use Rattle.std.specs.Prelude.{◌≡◌, ◌↔◌, IsTrue, IfErr, OnErr, OnOk, reverse};
ghost use Rattle.qc_check.specs.Refused as refused;
ghost use Rattle.qc_event.specs.Legal as words;
ghost use Rattle.qc_event.specs.Standing as standing;

use crate::aborts::may_abort;
use crate::commits::may_commit;
use crate::grants::{may_grant, may_refuse};
use crate::requests::{may_ask, may_be_unable, may_give_up};
use crate::rule::{Rule, breaks};
use crate::starts::may_start;
use crate::users::{may_be_ready, may_mark};
use qc_event::{Base, Config, Entry, Event, How, Name};
use qc_scan::{Begun, Looks, Scans, Setting};
use thiserror::Error;

/// Why a history is not legal: the entry at this place, counted from 0, is the first that those before it
/// do not allow, and this is the first of its event's rules that it breaks.
#[derive(Clone, Copy, PartialEq, Eq, Debug, Error)]
#[error("the entry at {place} breaks the rule of {rule}")]
pub struct Illegal {
    pub place: usize,
    pub rule: Rule,
}

fn may_end_so<H: Looks>(
    setting: &Setting,
    h: &H,
    seat: u32,
    n: &Name,
    how: &How,
    begun: &Begun,
) -> bool
    ensures { IsTrue result
        ↔ words.MayEnd setting.now (H.past h.now) seat n.now how.now begun.now }
{
    match how {
        How::Commit(given) => may_commit(setting, h, seat, n, begun, given),
        How::Abort(cause) => may_abort(setting, h, seat, n, begun, cause),
    }
}

fn may_end<H: Looks>(setting: &Setting, h: &H, seat: u32, n: &Name, how: &How) -> bool
    ensures { IsTrue result ↔ standing.Started (H.past h.now) n.now
        (words.MayEnd setting.now (H.past h.now) seat n.now how.now) }
{
    match h.start(n) {
        Some(begun) => may_end_so(setting, h, seat, n, how, &begun),
        None => false,
    }
}

/// Whether an entry may come next, by whatever looks at the history.
pub fn is_allowed<H: Looks>(setting: &Setting, h: &mut H, e: &Entry) -> bool
    requires setting { H.setting h.old ≡ setting.now }
    ensures allowed { IsTrue result ↔ words.Allowed setting.now (H.past h.old) e.now }
    ensures past { H.past h.new ≡ H.past h.old }
    ensures setting { H.setting h.new ≡ H.setting h.old }
{
    let seat = e.seat;
    match &e.event {
        Event::Start { name, kind } => may_start(setting, h, seat, name, kind),
        Event::Ask(ask) => may_ask(setting, h, seat, ask),
        Event::Gone { access, why } => may_give_up(h, seat, access, *why),
        Event::Granted { copy, grant } => may_grant(setting, h, seat, *copy, grant),
        Event::Refused {
            access,
            copy,
            refusal,
        } => may_refuse(h, seat, access, *copy, refusal),
        Event::Unable { name, why } => may_be_unable(h, seat, name, *why),
        Event::Mark { by, session } => may_mark(h, seat, by, *session),
        Event::Ready { top } => may_be_ready(h, seat, top),
        Event::End { name, how } => may_end(setting, h, seat, name, how),
    }
}

/// Whether a history, the oldest entry first, is legal from these start tuples and each record's first
/// configuration. An error tells the first entry that those before it do not allow. It takes no memory, and
/// time that grows with the fourth power of the history's length at worst.
pub fn check_by_scans(base: &Base, firsts: &[Config], h: &[Entry]) -> Result<(), Illegal>
    ensures legal { OnOk result
        (words.Legal (record { firsts = firsts.now; base = base.now }) (reverse h.now)) }
    ensures refused { IfErr result
        (refused.HistoryIsRefused (record { firsts = firsts.now; base = base.now }) h.now) }
    ensures illegal { OnErr result
        (words.Legal (record { firsts = firsts.now; base = base.now }) (reverse h.now) → ⊥) }
{
    let setting = Setting::new(base, firsts);
    for (place, e) in h.iter().enumerate() {
        let mut before = Scans {
            setting: &setting,
            entries: &h[..place],
        };
        if !is_allowed(&setting, &mut before, e) {
            let rule = breaks(&setting, &mut before, e);
            return Err(Illegal { place, rule });
        }
    }
    Ok(())
}
