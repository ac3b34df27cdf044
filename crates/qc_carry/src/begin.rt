//! How a manager's next access starts and asks.
ghost use Rattle.std.specs.Prelude.{◌≡◌, ◌∷◌, [], IfOk, IfErr};
ghost use Rattle.qc_event.specs.declared.event.Event.TheVariants as event;
ghost use Rattle.qc_event.specs.declared.event.Kind.TheVariants as kind;
ghost use Rattle.qc_event.specs.Tables.{setting_of};
ghost use Rattle.qc_managers.specs.Carrying.{MayCarry, began, entry, next_ask};
ghost use Rattle.qc_names.specs.Name.{front};
ghost use Rattle.qc_desk.specs.Known.{IsKnown};
ghost use Rattle.qc_desk.specs.Own.{MayAskOwn};
ghost use Rattle.qc_desk.specs.Rules.{IsClient};
ghost use Rattle.qc_carry.specs.Access.{CutUnasked};
ghost use Rattle.qc_carry.specs.Walk.{Walk};

use crate::calls::{no_of, stopped};
use qc_desk::{Desk, Pass, Store};
use qc_event::{Ask, Kind, Name, Op};
use qc_managers::CarryNo;
use std::sync::Wait;

/// What a manager's next access is to be.
#[derive(Clone, Copy)]
pub(crate) struct NextAccess {
    pub manager: Name,
    pub copy: u8,
    pub rec: u8,
    pub op: Op,
}

// Starts the access, which may then ask.
fn start<R: Wait, N: Store>(
    rt: &R,
    desk: &Desk<N>,
    pass: &mut Pass<N>,
    next: &NextAccess,
) -> Result<Ask, CarryNo>
    requires client { IsClient pass.old }
    requires may { MayCarry (setting_of N.table N.base) pass.old.number pass.old.seen
        next.now.manager next.now.copy next.now.rec next.now.op }
    ensures request { IfOk result (λ ask. ask ≡ next_ask pass.old.seen next.now.manager
        next.now.copy next.now.rec next.now.op) }
    ensures walk { IfOk result (λ ask. Walk pass.old pass.new
        (entry pass.old.number (event.Start ask.access kind.Access) ∷ [])) }
    ensures may_ask { IfOk result (λ ask. MayAskOwn (setting_of N.table N.base) pass.new.seen
        pass.new.number (front ask.access) ask) }
    ensures cut { IfErr result (CutUnasked pass.old pass.new next.now.manager
        (next_ask pass.old.seen next.now.manager next.now.copy next.now.rec next.now.op)) }
    ensures known { IsKnown (setting_of N.table N.base) pass.new }
{
    let started = desk.start(rt, pass, &next.manager, Kind::Access);
    match started {
        Ok(access) => Ok(Ask {
            access,
            copy: next.copy,
            rec: next.rec,
            op: next.op,
        }),
        Err(no) => Err(no_of(&no)),
    }
}

/// Starts the access, which asks. Where it may not ask it ends, and what is left is told.
pub(crate) fn begin<R: Wait, N: Store>(
    rt: &R,
    desk: &Desk<N>,
    pass: &mut Pass<N>,
    next: &NextAccess,
) -> Result<Ask, CarryNo>
    requires client { IsClient pass.old }
    requires may { MayCarry (setting_of N.table N.base) pass.old.number pass.old.seen
        next.now.manager next.now.copy next.now.rec next.now.op }
    ensures request { IfOk result (λ ask. ask ≡ next_ask pass.old.seen next.now.manager
        next.now.copy next.now.rec next.now.op) }
    ensures walk { IfOk result (λ ask. Walk pass.old pass.new (began pass.old.number ask)) }
    ensures cut { IfErr result (CutUnasked pass.old pass.new next.now.manager
        (next_ask pass.old.seen next.now.manager next.now.copy next.now.rec next.now.op)) }
    ensures known { IsKnown (setting_of N.table N.base) pass.new }
{
    let ask = start(rt, desk, pass, next)?;
    let asked = desk.ask(rt, pass, &ask);
    match asked {
        Ok(()) => Ok(ask),
        Err(no) => Err(stopped(rt, desk, pass, &ask.access, &no)),
    }
}
