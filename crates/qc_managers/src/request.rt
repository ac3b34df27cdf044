//! One request of a manager, carried to a copy and back.
ghost use Rattle.std.specs.Prelude.{IfOk, IfErr, [], ◌∷◌};
ghost use Rattle.qc_event.specs.declared.event.Kind.{Kind};
ghost use Rattle.qc_event.specs.Counts.{Rose};
ghost use Rattle.qc_event.specs.Manager.{phase_of};
ghost use Rattle.qc_managers.specs.Carrying.{MayCarry, became};
ghost use Rattle.qc_managers.specs.Going.{MayGoOn, HasHeard, HasServed};
ghost use Rattle.qc_managers.specs.Managed.{ManagerIsRefused};
ghost use Rattle.qc_managers.specs.Undisturbed.{TellHasCause, IsUndisturbed, IsShortage};

use crate::carrier::{Carried, Carrier};
use crate::no::MgrNo;
use qc_config::Op;
use qc_event::Name;

/// Carries one request of a manager that may go on, and says what became of it. Where it is missing, the link
/// gave trouble or its copy was unable to serve it.
pub(crate) fn request<C: Carrier>(
    carrier: &mut C,
    manager: &Name,
    copy: u8,
    rec: u8,
    op: Op,
) -> Result<Carried, MgrNo>
    ghost kind: { Kind }
    requires goes_on { MayGoOn (C.view carrier.old).seat (C.view carrier.old).seen manager.now
        kind }
    requires may_ask { MayCarry (C.view carrier.old).setting (C.view carrier.old).seat
        (C.view carrier.old).seen manager.now copy rec op }
    ensures served { HasServed manager.now (C.view carrier.old) (C.view carrier.new) }
    ensures heard { IfOk result (λ c. HasHeard (C.view carrier.old).seat (C.view carrier.old).seen
        (C.view carrier.new).seen manager.now kind (phase_of op)
        (record { copy = copy; result = became c } ∷ [])) }
    ensures cause { IfOk result (λ c. TellHasCause (C.view carrier.new).seen manager.now
        (Rose (C.view carrier.old).troubles (C.view carrier.new).troubles)
        (record { copy = copy; result = became c })) }
    ensures refused { IfErr result (ManagerIsRefused (C.view carrier.old).setting
        (C.view carrier.old).seat (C.view carrier.new).seen manager.now kind) }
    ensures complete { IfErr result (λ why. IsUndisturbed (C.view carrier.old).setting
        (C.view carrier.new).seen manager.now kind (C.view carrier.old).troubles
        (C.view carrier.new).troubles → IsShortage why) }
    ensures became { C.became carrier.old carrier.new }
{
    Ok(carrier.carry(manager, copy, rec, op)?)
}
