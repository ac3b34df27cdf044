//! For which causes managers and accesses may be aborted. None of these calls takes memory.
ghost use Rattle.std.specs.Prelude.{◌≡◌, ◌↔◌, ◌<◌, IsTrue, map};
ghost use Rattle.std.specs.List.{list_all};
ghost use Rattle.qc_event.specs.Aborts as words;
ghost use Rattle.qc_event.specs.Manager as manager;
ghost use Rattle.qc_event.specs.Users as users;

use crate::users::is_user_cause;
use qc_event::{Ask, Cause, Kind, Lack, Name, Phase, Why, is_client};
use qc_scan::{
    Begun, Looks, Setting, Stage, blocked_by, first_blocked, front, has_failed, has_replied,
    is_at_last_number, is_open, is_orphan_of, is_started_under, is_this, missing_at, replied,
    same_copies, stage_for,
};

fn is_blocked_there<H: Looks>(h: &H, copy: u8, holder: &Name, ask: &Ask) -> bool
    ensures { IsTrue result ↔ words.IsBlockedThere (H.past h.now) copy holder.now ask.now }
{
    ask.copy == copy && is_this(blocked_by(h, &ask.access), holder)
}

fn failed_by_conflict<H: Looks>(h: &H, m: &Name, copy: u8, holder: &Name, stage: &Stage) -> bool
    ensures { IsTrue result
        ↔ words.FailedByConflict (H.past h.now) m.now copy holder.now stage.now }
{
    if !has_failed(h, m, stage) {
        return false;
    }
    match first_blocked(h, m, stage.phase()) {
        Some(ask) => is_blocked_there(h, copy, holder, &ask),
        None => false,
    }
}

fn is_known<H: Looks>(h: &H, m: &Name, stage: &Stage, copy: u8) -> bool
    requires { copy < 16 }
    ensures { result ≡ words.is_known (H.past h.now) m.now stage.now copy }
{
    stage.config().votes(copy) == 0
        || has_replied(h, m, stage.phase(), copy)
        || missing_at(h, m, stage.phase(), copy).is_some()
}

fn each_is_known<H: Looks>(h: &H, m: &Name, stage: &Stage) -> bool
    ensures { result
        ≡ list_all (words.is_known (H.past h.now) m.now stage.now) manager.all_copies }
{
    for copy in 0..16 {
        if !is_known(h, m, stage, copy) {
            return false;
        }
    }
    true
}

fn is_why_at<H: Looks>(h: &H, m: &Name, phase: Phase, copy: u8, why: Option<Why>) -> bool
    ensures { IsTrue result ↔ (why ≡ manager.missing_at (H.past h.now) m.now phase copy) }
{
    why == missing_at(h, m, phase, copy)
}

fn tells_missing<H: Looks>(h: &H, m: &Name, phase: Phase, missing: &[Option<Why>; 16]) -> bool
    ensures { IsTrue result
        ↔ (missing.now ≡ map (manager.missing_at (H.past h.now) m.now phase) manager.all_copies) }
{
    for copy in 0..16 {
        if !is_why_at(h, m, phase, copy, missing[copy as usize]) {
            return false;
        }
    }
    true
}

fn failed_by_lack<H: Looks>(h: &H, m: &Name, lack: &Lack, stage: &Stage) -> bool
    ensures { IsTrue result ↔ words.FailedByLack (H.past h.now) m.now lack.now stage.now }
{
    let phase = stage.phase();
    has_failed(h, m, stage)
        && first_blocked(h, m, phase).is_none()
        && each_is_known(h, m, stage)
        && lack.phase == phase
        && same_copies(&lack.replied, &replied(h, m, phase))
        && tells_missing(h, m, phase, &lack.missing)
}

fn has_failed_by_conflict<H: Looks>(
    setting: &Setting,
    h: &H,
    m: &Name,
    kind: &Kind,
    copy: u8,
    holder: &Name,
) -> bool
    ensures { IsTrue result ↔ manager.AtStage setting.now (H.past h.now) m.now kind.now
        (words.FailedByConflict (H.past h.now) m.now copy holder.now) }
{
    match stage_for(setting, h, m, kind) {
        Some(stage) => failed_by_conflict(h, m, copy, holder, &stage),
        None => false,
    }
}

fn has_failed_by_lack<H: Looks>(
    setting: &Setting,
    h: &H,
    m: &Name,
    kind: &Kind,
    lack: &Lack,
) -> bool
    ensures { IsTrue result ↔ manager.AtStage setting.now (H.past h.now) m.now kind.now
        (words.FailedByLack (H.past h.now) m.now lack.now) }
{
    match stage_for(setting, h, m, kind) {
        Some(stage) => failed_by_lack(h, m, lack, &stage),
        None => false,
    }
}

fn is_manager_cause<H: Looks>(
    setting: &Setting,
    h: &H,
    m: &Name,
    kind: &Kind,
    cause: &Cause,
) -> bool
    ensures { IsTrue result
        ↔ words.ManagerCause setting.now (H.past h.now) m.now kind.now cause.now }
{
    match cause {
        Cause::Conflict { copy, holder } => {
            has_failed_by_conflict(setting, h, m, kind, *copy, holder)
        }
        Cause::NoQuorum(lack) => has_failed_by_lack(setting, h, m, kind, lack),
        Cause::Last => is_at_last_number(setting, h, m, kind),
        Cause::Orphan(ancestor) => is_orphan_of(h, m, ancestor),
        _ => false,
    }
}

fn is_access_cause<H: Looks>(h: &H, n: &Name, cause: &Cause) -> bool
    ensures { IsTrue result ↔ words.AccessCause (H.past h.now) n.now cause.now }
{
    match cause {
        Cause::Missed => h.gone(n).is_some() || h.refused(n).is_some(),
        Cause::Orphan(ancestor) => is_orphan_of(h, n, ancestor),
        _ => false,
    }
}

/// Whether an abort's cause is licensed, by the kind of what is aborted.
pub fn is_licensed<H: Looks>(
    setting: &Setting,
    h: &H,
    seat: u32,
    n: &Name,
    begun: &Begun,
    cause: &Cause,
) -> bool
    ensures { IsTrue result ↔ words.Licensed setting.now (H.past h.now) seat n.now begun.now
        begun.now.kind cause.now }
{
    match begun.kind() {
        Kind::User { session, .. } => is_user_cause(h, n, session, cause),
        Kind::Access => is_access_cause(h, n, cause) && is_started_under(h, seat, &front(n)),
        kind => is_manager_cause(setting, h, n, &kind, cause) && seat == begun.seat(),
    }
}

/// Whether a started name may be aborted: it is open and no ready top, and the cause is licensed, by its kind.
pub fn may_abort<H: Looks>(
    setting: &Setting,
    h: &H,
    seat: u32,
    n: &Name,
    begun: &Begun,
    cause: &Cause,
) -> bool
    ensures { IsTrue result ↔ users.MayAbort
        (words.Licensed setting.now (H.past h.now) seat n.now begun.now begun.now.kind cause.now)
        (H.past h.now) seat n.now }
{
    is_client(seat)
        && is_open(h, n)
        && !h.is_ready(n)
        && is_licensed(setting, h, seat, n, begun, cause)
}
