//! The calls with which an access of one's own is given up, and ends where it got no answer.
ghost use Rattle.std.specs.Prelude.{◌≡◌, ◌∷◌, [], OnOk, IfErr, IsTrue, not, ◌||◌};
ghost use Rattle.qc_event.specs.Aborts.{AccessCause};
ghost use Rattle.qc_event.specs.declared.event.Cause.TheVariants as cause;
ghost use Rattle.qc_event.specs.declared.event.Event.TheVariants as event;
ghost use Rattle.qc_event.specs.declared.event.How.TheVariants.{Abort as Aborts};
ghost use Rattle.qc_event.specs.Requests.{is_fault, was_unable};
ghost use Rattle.qc_event.specs.Standing.{IsNamedOrphan};
ghost use Rattle.qc_event.specs.Tables.{setting_of};
ghost use Rattle.qc_managers.specs.Carrying.{entry};
ghost use Rattle.qc_desk.specs.Known.{IsKnown};
ghost use Rattle.qc_desk.specs.Own.{IsOwnAccess};
ghost use Rattle.qc_desk.specs.Refusing.{Refuses, against_access};
ghost use Rattle.qc_desk.specs.Rules.{IsClient};
ghost use Rattle.qc_carry.specs.Access as words;
ghost use Rattle.qc_carry.specs.Access.{IsShort, IsStopped, Waits};
ghost use Rattle.qc_carry.specs.Walk.{Walk};

use qc_desk::{Desk, DeskNo, Pass, Store};
use qc_event::{Ask, Cause, Name, Short, Why};
use qc_managers::CarryNo;
use std::sync::Wait;

/// Why an access is not carried on, by a desk's answer. That its manager has ended or is ready, or has an open child,
/// is not told: it has none while an access is carried.
pub(crate) fn no_of(no: &DeskNo) -> CarryNo
    ensures { result ≡ words.no_of no.now }
{
    match no {
        DeskNo::Orphan(ancestor) => CarryNo::Orphan(*ancestor),
        DeskNo::Short(short) => CarryNo::Short(*short),
        DeskNo::Ended | DeskNo::Ready | DeskNo::ChildrenOpen(_) => CarryNo::Short(Short::Memory),
    }
}

// An access is aborted.
fn abort<R: Wait, N: Store>(
    rt: &R,
    desk: &Desk<N>,
    pass: &mut Pass<N>,
    access: &Name,
    why: &Cause,
) -> Result<(), CarryNo>
    requires client { IsClient pass.old }
    requires own { IsOwnAccess pass.old.seen pass.old.number access.now }
    requires licensed { AccessCause pass.old.seen access.now why.now }
    ensures ok { OnOk result (Walk pass.old pass.new
        (entry pass.old.number (event.End access.now (Aborts why.now)) ∷ [])) }
    ensures err { IfErr result (IsShort pass.old pass.new) }
    ensures known { IsKnown (setting_of N.table N.base) pass.new }
{
    let aborted = desk.abort(rt, pass, access, why);
    match aborted {
        Ok(()) => Ok(()),
        Err(no) => Err(no_of(&no)),
    }
}

/// An access that missed its answer is aborted.
pub(crate) fn miss<R: Wait, N: Store>(
    rt: &R,
    desk: &Desk<N>,
    pass: &mut Pass<N>,
    access: &Name,
) -> Result<(), CarryNo>
    requires client { IsClient pass.old }
    requires own { IsOwnAccess pass.old.seen pass.old.number access.now }
    requires missed { AccessCause pass.old.seen access.now cause.Missed }
    ensures ok { OnOk result (Walk pass.old pass.new
        (entry pass.old.number (event.End access.now (Aborts cause.Missed)) ∷ [])) }
    ensures err { IfErr result (IsShort pass.old pass.new) }
    ensures known { IsKnown (setting_of N.table N.base) pass.new }
{
    abort(rt, desk, pass, access, &Cause::Missed)
}

/// An access ends as an orphan.
pub(crate) fn orphaned<R: Wait, N: Store>(
    rt: &R,
    desk: &Desk<N>,
    pass: &mut Pass<N>,
    access: &Name,
    ancestor: &Name,
) -> CarryNo
    requires client { IsClient pass.old }
    requires own { IsOwnAccess pass.old.seen pass.old.number access.now }
    requires orphan { IsNamedOrphan pass.old.seen access.now ancestor.now }
    ensures stopped { IsStopped pass.old pass.new access.now result }
    ensures known { IsKnown (setting_of N.table N.base) pass.new }
{
    match abort(rt, desk, pass, access, &Cause::Orphan(*ancestor)) {
        Ok(()) => CarryNo::Orphan(*ancestor),
        Err(no) => no,
    }
}

/// An access is stopped where a desk refused it: it ends as an orphan where it is dead.
pub(crate) fn stopped<R: Wait, N: Store>(
    rt: &R,
    desk: &Desk<N>,
    pass: &mut Pass<N>,
    access: &Name,
    no: &DeskNo,
) -> CarryNo
    requires client { IsClient pass.old }
    requires own { IsOwnAccess pass.old.seen pass.old.number access.now }
    requires refused { Refuses (against_access access.now) pass.old.seen no.now }
    requires known { IsKnown (setting_of N.table N.base) pass.old }
    ensures stopped { IsStopped pass.old pass.new access.now result }
    ensures known { IsKnown (setting_of N.table N.base) pass.new }
{
    match no {
        DeskNo::Orphan(ancestor) => orphaned(rt, desk, pass, access, ancestor),
        DeskNo::Short(short) => CarryNo::Short(*short),
        DeskNo::Ended | DeskNo::Ready | DeskNo::ChildrenOpen(_) => CarryNo::Short(Short::Memory),
    }
}

/// An access that waits is given up.
pub(crate) fn give_up<R: Wait, N: Store>(
    rt: &R,
    desk: &Desk<N>,
    pass: &mut Pass<N>,
    ask: &Ask,
    why: Why,
) -> Result<(), CarryNo>
    requires client { IsClient pass.old }
    requires waits { Waits pass.old.seen pass.old.number ask.now }
    requires told { IsTrue (not (is_fault why) || was_unable pass.old.seen ask.now.access why) }
    ensures ok { OnOk result (Walk pass.old pass.new
        (entry pass.old.number (event.Gone ask.now.access why) ∷ [])) }
    ensures err { IfErr result (IsShort pass.old pass.new) }
    ensures known { IsKnown (setting_of N.table N.base) pass.new }
{
    desk.gone(rt, pass, &ask.access, why)?;
    Ok(())
}
