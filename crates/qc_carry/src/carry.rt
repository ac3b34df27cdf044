//! One access of a manager: started, sent, and ended by what came back.
ghost use Rattle.std.specs.Prelude.{◌≡◌, ◌≤◌, false, All, IfOk, option_map};
ghost use Rattle.qc_event.specs.Counts.{Rose};
ghost use Rattle.qc_event.specs.Tables.{setting_of};
ghost use Rattle.qc_managers.specs.Carrying.{MayCarry, HasReason, carriage, next_ask};
ghost use Rattle.qc_net.specs.Courier.{link_of, held_of};
ghost use Rattle.qc_net.specs.Plan.{anew};
ghost use Rattle.qc_desk.specs.Consulting.{HasAsked};
ghost use Rattle.qc_desk.specs.Known.{IsKnown};
ghost use Rattle.qc_desk.specs.Rules.{IsClient};
ghost use Rattle.qc_carry.specs.Access.{Course};
ghost use Rattle.qc_carry.specs.Kept as words;
ghost use Rattle.qc_carry.specs.Kept.{Keeps};

use crate::begin::{NextAccess, begin};
use crate::finish::finish;
use crate::way::send;
use qc_desk::Pass;
use qc_disk::Disk;
use qc_managers::{Carried, CarryNo};
use qc_net::{Courier, Link};
use qc_system::{Mounting, System};
use std::sync::Wait;

/// Whether an access was cut off, so that what was sent and the history may part.
pub(crate) fn is_cut_off(carried: &Result<Carried, CarryNo>) -> bool
    ensures { result ≡ words.is_cut_off carried.now }
{
    match carried {
        Err(CarryNo::Short(_)) => true,
        Ok(_) | Err(CarryNo::Orphan(_)) => false,
    }
}

/// Carries a manager's next access: starts it, sends its request, and ends it by what came back.
pub(crate) fn access<R: Wait, D: Disk + Drop, L: Link, N: Mounting>(
    rt: &R,
    system: &System<D, N>,
    pass: &mut Pass<N>,
    courier: &mut Courier<L>,
    patience: u32,
    next: &NextAccess,
) -> Result<Carried, CarryNo>
    requires client { IsClient pass.old }
    requires may { MayCarry (setting_of N.table N.base) pass.old.number pass.old.seen
        next.now.manager next.now.copy next.now.rec next.now.op }
    requires held { All (HasAsked pass.old.seen) (held_of courier.old) }
    requires keeps { Keeps pass.old.number (L.view (link_of courier.old)).plan
        (held_of courier.old) patience pass.old.seen false }
    ensures course { Course pass.old pass.new next.now.manager (next_ask pass.old.seen
        next.now.manager next.now.copy next.now.rec next.now.op) result }
    ensures reason { IfOk result (HasReason (carriage pass.old.number pass.old.seen pass.new.seen
        next.now.manager next.now.copy next.now.rec next.now.op)
        (Rose (L.view (link_of courier.old)).troubles (L.view (link_of courier.new)).troubles)) }
    ensures known { IsKnown (setting_of N.table N.base) pass.new }
    ensures held { All (HasAsked pass.new.seen) (held_of courier.new) }
    ensures keeps { Keeps pass.new.number (L.view (link_of courier.new)).plan
        (held_of courier.new) patience pass.new.seen (words.is_cut_off result) }
    ensures later { (L.view (link_of courier.old)).troubles
        ≤ (L.view (link_of courier.new)).troubles }
    ensures plan { option_map anew (L.view (link_of courier.new)).plan ≡ option_map anew
        (L.view (link_of courier.old)).plan }
{
    let ask = begin(rt, system.desk(), pass, next)?;
    let sent = send(rt, system, pass, courier, &ask, patience)?;
    finish(rt, system.desk(), pass, &ask, &sent)
}
