//! How a client begins user transactions and managers.
ghost use Rattle.std.specs.Prelude.{◌≡◌, ◌+◌, ◌∷◌, [], length, IsTrue, IfOk, IfErr};
ghost use Rattle.qc_event.specs.declared.event.Event.TheVariants as event;
ghost use Rattle.qc_event.specs.declared.event.Kind.TheVariants as kind;
ghost use Rattle.qc_event.specs.History.{is_child};
ghost use Rattle.qc_event.specs.Standing.{IsUser, Started};
ghost use Rattle.qc_event.specs.Tables.{setting_of};
ghost use Rattle.qc_net.specs.Courier.{link_of};
ghost use Rattle.qc_script.specs.Calls.{RefusesChild, WasRefused, by_client};
ghost use Rattle.qc_script.specs.Client.{Client, Made};
ghost use Rattle.qc_script.specs.Numbers.{Numbers};
ghost use Rattle.qc_session.specs.Acting.{StandsBelow};
ghost use Rattle.qc_session.specs.Clients.{IsFor};
ghost use Rattle.qc_session.specs.Managing.{HasStarted};
ghost use Rattle.qc_session.specs.Lines.{HasGoneOn};

use crate::refusals::no_of;
use qc_carry::Line;
use qc_disk::Disk;
use qc_event::{Kind, Name};
use qc_net::Link;
use qc_script::TxNo;
use qc_system::Mounting;
use std::sync::Wait;

/// Starts the next top, for a session with a body.
pub(crate) fn start_top<R: Wait, D: Disk + Drop, L: Link + Drop, N: Mounting>(
    line: &mut Line<'_, R, D, L, N>,
    session: u8,
    body: u32,
) -> Result<Name, TxNo>
    ensures child { IfOk result (λ n. IsTrue (is_child [] n)) }
    ensures ok { (c : Client) → IsFor (setting_of N.table N.base) line.old.pass line.new.pass c
        → IfOk result (λ n. Made c (by_client c (event.Start n (kind.User session body)) ∷ [])
        line.old.pass.seen line.new.pass.seen) }
    ensures number { (c : Client) → IsFor (setting_of N.table N.base) line.old.pass line.new.pass c
        → c.epoch ≡ line.old.system.now.desk.epoch
        → IfOk result (λ _. Numbers c line.old.pass.seen line.new.pass.seen) }
    ensures err { (c : Client) → IsFor (setting_of N.table N.base) line.old.pass line.new.pass c
        → IfErr result (WasRefused c [] line.old.pass.seen line.new.pass.seen) }
    ensures refused { IfErr result (RefusesChild line.new.pass.seen []) }
    ensures went { HasGoneOn (setting_of N.table N.base) line.old.pass line.new.pass
        (L.view (link_of line.old.courier)).plan (L.view (link_of line.new.courier)).plan
        line.old.patience line.new.patience line.old.system line.new.system }
{
    let started = line.start_top(session, body);
    let name = started?;
    Ok(name)
}

/// Starts the next child of a user transaction, for what may stand there.
pub(crate) fn start_child<R: Wait, D: Disk + Drop, L: Link + Drop, N: Mounting>(
    line: &mut Line<'_, R, D, L, N>,
    of: &Name,
    kind: Kind,
) -> Result<Name, TxNo>
    requires user { Started line.old.pass.seen of.now (λ b. IsUser b.kind) }
    requires stands { StandsBelow (setting_of N.table N.base) (length of.now + 1) kind }
    ensures ok { IfOk result (λ n. HasStarted line.old.pass line.new.pass of.now n kind) }
    ensures err { (c : Client) → IsFor (setting_of N.table N.base) line.old.pass line.new.pass c
        → IfErr result (WasRefused c of.now line.old.pass.seen line.new.pass.seen) }
    ensures refused { IfErr result (RefusesChild line.new.pass.seen of.now) }
    ensures went { HasGoneOn (setting_of N.table N.base) line.old.pass line.new.pass
        (L.view (link_of line.old.courier)).plan (L.view (link_of line.new.courier)).plan
        line.old.patience line.new.patience line.old.system line.new.system }
{
    let started = line.start(of, kind);
    match started {
        Ok(name) => Ok(name),
        Err(no) => Err(no_of(&no)),
    }
}
