//! How a client ends user transactions.
ghost use Rattle.std.specs.Prelude.{◌≡◌, ◌≤◌, ◌∷◌, [], length, None, OnOk, IfErr};
ghost use Rattle.qc_carry.specs.Walk.{Walk};
ghost use Rattle.qc_event.specs.Aborts.{Licensed};
ghost use Rattle.qc_event.specs.Dead.{dead, is_aborted, is_committed, outcome_of};
ghost use Rattle.qc_event.specs.declared.event.Cause.TheVariants as cause;
ghost use Rattle.qc_event.specs.declared.event.Event.TheVariants as event;
ghost use Rattle.qc_event.specs.declared.event.How.TheVariants.{Abort as Aborts};
ghost use Rattle.qc_event.specs.Standing.{IsUser, Started};
ghost use Rattle.qc_event.specs.Tables.{setting_of};
ghost use Rattle.qc_managers.specs.Carrying.{entry};
ghost use Rattle.qc_net.specs.Courier.{link_of};
ghost use Rattle.qc_script.specs.Calls.{Committed, IsForChild, IsGrounded, NotAborted, NotCommitted, RefusesCommit, by_client};
ghost use Rattle.qc_script.specs.Client.{Client, Made};
ghost use Rattle.qc_session.specs.Acting.{IsUnaborted, IsUnfounded};
ghost use Rattle.qc_session.specs.Clients.{IsFor};
ghost use Rattle.qc_session.specs.Lines.{HasGoneOn};

use crate::refusals::{log_no, no_of};
use qc_carry::Line;
use qc_disk::Disk;
use qc_event::{Answer, Cause, How, Name};
use qc_net::Link;
use qc_script::TxNo;
use qc_system::Mounting;
use std::sync::Wait;

// Whether a name has committed, by how it ended.
fn is_commit(how: &Option<How>) -> bool
    ensures { result ≡ is_committed (outcome_of how.now) }
{
    matches!(how, Some(How::Commit(_)))
}

// Whether a name is aborted, by how it ended.
fn is_abort(how: &Option<How>) -> bool
    ensures { result ≡ is_aborted (outcome_of how.now) }
{
    matches!(how, Some(How::Abort(_)))
}

// Aborts a user transaction for a cause that is licensed.
fn abort_licensed<R: Wait, D: Disk + Drop, L: Link + Drop, N: Mounting>(
    line: &mut Line<'_, R, D, L, N>,
    target: &Name,
    cause: &Cause,
) -> Result<(), TxNo>
    requires user { Started line.old.pass.seen target.now (λ b. IsUser b.kind) }
    requires licensed { Started line.old.pass.seen target.now (λ b. Licensed
        (setting_of N.table N.base) line.old.pass.seen line.old.pass.number target.now b b.kind
        cause.now) }
    ensures ok { OnOk result (Walk line.old.pass line.new.pass
        (entry line.old.pass.number (event.End target.now (Aborts cause.now)) ∷ [])) }
    ensures err { IfErr result (IsUnaborted line.old.pass line.new.pass target.now) }
    ensures went { HasGoneOn (setting_of N.table N.base) line.old.pass line.new.pass
        (L.view (link_of line.old.courier)).plan (L.view (link_of line.new.courier)).plan
        line.old.patience line.new.patience line.old.system line.new.system }
{
    let aborted = line.abort(target, cause);
    match aborted {
        Ok(()) => Ok(()),
        Err(no) => Err(no_of(&no)),
    }
}

// Aborts a user transaction as the orphan of an ancestor that has ended, unless that has committed.
fn abort_orphan<R: Wait, D: Disk + Drop, L: Link + Drop, N: Mounting>(
    line: &mut Line<'_, R, D, L, N>,
    target: &Name,
    ancestor: &Name,
) -> Result<(), TxNo>
    requires user { Started line.old.pass.seen target.now (λ b. IsUser b.kind) }
    requires grounded { IsGrounded line.old.pass.seen target.now (cause.Orphan ancestor.now) }
    ensures ok { OnOk result (Walk line.old.pass line.new.pass
        (entry line.old.pass.number (event.End target.now
        (Aborts (cause.Orphan ancestor.now))) ∷ [])) }
    ensures err { IfErr result (IsUnfounded line.old.pass line.new.pass target.now
        (cause.Orphan ancestor.now)) }
    ensures went { HasGoneOn (setting_of N.table N.base) line.old.pass line.new.pass
        (L.view (link_of line.old.courier)).plan (L.view (link_of line.new.courier)).plan
        line.old.patience line.new.patience line.old.system line.new.system }
{
    let how = line.ended(ancestor);
    if is_commit(&how) {
        return Err(TxNo::Ended);
    }
    abort_licensed(line, target, &Cause::Orphan(*ancestor))
}

// Aborts a user transaction for a child that has ended, unless that is not aborted.
fn abort_with_child<R: Wait, D: Disk + Drop, L: Link + Drop, N: Mounting>(
    line: &mut Line<'_, R, D, L, N>,
    target: &Name,
    child: &Name,
) -> Result<(), TxNo>
    requires user { Started line.old.pass.seen target.now (λ b. IsUser b.kind) }
    requires grounded { IsGrounded line.old.pass.seen target.now (cause.Child child.now) }
    ensures ok { OnOk result (Walk line.old.pass line.new.pass
        (entry line.old.pass.number (event.End target.now
        (Aborts (cause.Child child.now))) ∷ [])) }
    ensures err { IfErr result (IsUnfounded line.old.pass line.new.pass target.now
        (cause.Child child.now)) }
    ensures went { HasGoneOn (setting_of N.table N.base) line.old.pass line.new.pass
        (L.view (link_of line.old.courier)).plan (L.view (link_of line.new.courier)).plan
        line.old.patience line.new.patience line.old.system line.new.system }
{
    let how = line.ended(child);
    if !is_abort(&how) {
        return Err(TxNo::Ended);
    }
    abort_licensed(line, target, &Cause::Child(*child))
}

// Aborts a user transaction for a child, unless an ancestor is aborted.
fn abort_for_child<R: Wait, D: Disk + Drop, L: Link + Drop, N: Mounting>(
    line: &mut Line<'_, R, D, L, N>,
    target: &Name,
    child: &Name,
) -> Result<(), TxNo>
    requires user { Started line.old.pass.seen target.now (λ b. IsUser b.kind) }
    requires grounded { IsGrounded line.old.pass.seen target.now (cause.Child child.now) }
    ensures ok { OnOk result (Walk line.old.pass line.new.pass
        (entry line.old.pass.number (event.End target.now
        (Aborts (cause.Child child.now))) ∷ [])) }
    ensures alive { OnOk result (dead line.old.pass.seen target.now ≡ None) }
    ensures err { IfErr result (IsUnfounded line.old.pass line.new.pass target.now
        (cause.Child child.now)) }
    ensures went { HasGoneOn (setting_of N.table N.base) line.old.pass line.new.pass
        (L.view (link_of line.old.courier)).plan (L.view (link_of line.new.courier)).plan
        line.old.patience line.new.patience line.old.system line.new.system }
{
    let fallen = line.dead(target);
    if let Some(ancestor) = fallen {
        return Err(TxNo::Orphan(ancestor));
    }
    abort_with_child(line, target, child)
}

/// Aborts a user transaction for a cause that what was seen licenses.
pub(crate) fn abort<R: Wait, D: Disk + Drop, L: Link + Drop, N: Mounting>(
    line: &mut Line<'_, R, D, L, N>,
    target: &Name,
    cause: &Cause,
) -> Result<(), TxNo>
    requires user { Started line.old.pass.seen target.now (λ b. IsUser b.kind) }
    requires grounded { IsGrounded line.old.pass.seen target.now cause.now }
    ensures ok { (c : Client) → IsFor (setting_of N.table N.base) line.old.pass line.new.pass c
        → OnOk result (Made c (by_client c (event.End target.now (Aborts cause.now)) ∷ [])
        line.old.pass.seen line.new.pass.seen) }
    ensures alive { OnOk result (IsForChild cause.now
        → dead line.old.pass.seen target.now ≡ None) }
    ensures err { (c : Client) → IsFor (setting_of N.table N.base) line.old.pass line.new.pass c
        → IfErr result (NotAborted c target.now cause.now line.old.pass.seen
        line.new.pass.seen) }
    ensures went { HasGoneOn (setting_of N.table N.base) line.old.pass line.new.pass
        (L.view (link_of line.old.courier)).plan (L.view (link_of line.new.courier)).plan
        line.old.patience line.new.patience line.old.system line.new.system }
{
    match cause {
        Cause::Orphan(ancestor) => abort_orphan(line, target, ancestor),
        Cause::Child(child) => abort_for_child(line, target, child),
        _ => abort_licensed(line, target, cause),
    }
}

/// Commits a user transaction below a top.
pub(crate) fn commit_below<R: Wait, D: Disk + Drop, L: Link + Drop, N: Mounting>(
    line: &mut Line<'_, R, D, L, N>,
    of: &Name,
) -> Result<(), TxNo>
    requires below { 2 ≤ length of.now }
    requires user { Started line.old.pass.seen of.now (λ b. IsUser b.kind) }
    ensures ok { (c : Client) → IsFor (setting_of N.table N.base) line.old.pass line.new.pass c
        → OnOk result (Committed c of.now line.old.pass.seen line.new.pass.seen) }
    ensures err { (c : Client) → IsFor (setting_of N.table N.base) line.old.pass line.new.pass c
        → IfErr result (NotCommitted c of.now line.old.pass.seen line.new.pass.seen) }
    ensures refused { IfErr result (RefusesCommit line.new.pass.seen of.now) }
    ensures went { HasGoneOn (setting_of N.table N.base) line.old.pass line.new.pass
        (L.view (link_of line.old.courier)).plan (L.view (link_of line.new.courier)).plan
        line.old.patience line.new.patience line.old.system line.new.system }
{
    let ended = line.end(of, &Answer::Nothing);
    match ended {
        Ok(()) => Ok(()),
        Err(no) => Err(no_of(&no)),
    }
}

/// Makes a top ready, and has the ledger commit it.
pub(crate) fn commit_top<R: Wait, D: Disk + Drop, L: Link + Drop, N: Mounting>(
    line: &mut Line<'_, R, D, L, N>,
    top: &Name,
    number: u64,
) -> Result<(), TxNo>
    requires top { top.now ≡ number ∷ [] }
    requires user { Started line.old.pass.seen top.now (λ b. IsUser b.kind) }
    ensures ok { (c : Client) → IsFor (setting_of N.table N.base) line.old.pass line.new.pass c
        → OnOk result (Committed c top.now line.old.pass.seen line.new.pass.seen) }
    ensures err { (c : Client) → IsFor (setting_of N.table N.base) line.old.pass line.new.pass c
        → IfErr result (NotCommitted c top.now line.old.pass.seen line.new.pass.seen) }
    ensures refused { IfErr result (RefusesCommit line.new.pass.seen top.now) }
    ensures went { HasGoneOn (setting_of N.table N.base) line.old.pass line.new.pass
        (L.view (link_of line.old.courier)).plan (L.view (link_of line.new.courier)).plan
        line.old.patience line.new.patience line.old.system line.new.system }
{
    let listed = match line.ready(top) {
        Ok(listed) => listed,
        Err(no) => {
            return Err(no_of(&no));
        }
    };
    line.look();
    let logged = line.log(top, listed.as_slice());
    match logged {
        Ok(()) => Ok(()),
        Err(no) => Err(log_no(&no)),
    }
}
