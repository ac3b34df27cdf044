//! The call with which a client starts what stands below a top.
ghost use Rattle.std.specs.Prelude.{IfOk, IfErr};
ghost use Rattle.qc_event.specs.Tables.{setting_of};
ghost use Rattle.qc_desk.specs.Calling.{Refused, StartsChild};
ghost use Rattle.qc_desk.specs.Known.{IsKnown};
ghost use Rattle.qc_desk.specs.Own.{MayStartOwn};
ghost use Rattle.qc_desk.specs.Refusing.{against_child};
ghost use Rattle.qc_desk.specs.Rules.{IsClient};

use crate::desk::Desk;
use crate::pass::Pass;
use crate::refusal::DeskNo;
use crate::store::Store;
use qc_event::{Event, Kind, Name};
use std::sync::Wait;

impl<N: Store> Desk<N> {
    /// Starts the next child of a name whose start was seen, for what may stand there: a user transaction or a
    /// manager below a user transaction, an access below a manager of the pass. Refused where the parent has
    /// committed, is dead, or is ready.
    pub fn start<R: Wait>(
        &self,
        rt: &R,
        pass: &mut Pass<N>,
        parent: &Name,
        kind: Kind,
    ) -> Result<Name, DeskNo>
        requires client { IsClient pass.old }
        requires stands { MayStartOwn (setting_of N.table N.base) pass.old parent.now kind }
        ensures ok { IfOk result (λ n. StartsChild parent.now kind n pass.old pass.new) }
        ensures err { IfErr result (Refused (against_child parent.now) pass.old pass.new) }
        ensures known { IsKnown (setting_of N.table N.base) pass.new }
    {
        let mut locked = self.locked.lock(rt);
        locked.look(&self.room, pass);
        let no = locked.against_child(parent);
        let number = locked.children(parent) + 1;
        let name = parent.child(number as u32);
        let event = Event::Start { name, kind };
        locked.enter(&self.room, pass, no, event)?;
        Ok(name)
    }
}
