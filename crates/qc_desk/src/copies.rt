//! Calls with the passes of copies and of the ledger, each with a seer: the pass of who asked.
ghost use Rattle.std.specs.Prelude.{◌≡◌, true, OnOk, IfErr};
ghost use Rattle.qc_event.specs.declared.event.Event.TheVariants as event;
ghost use Rattle.qc_event.specs.Grants.{MayGrant};
ghost use Rattle.qc_event.specs.Requests.{MayBeUnable};
ghost use Rattle.qc_event.specs.Tables.{setting_of};
ghost use Rattle.qc_desk.specs.Calling.{Entered, Shown, Wanted};
ghost use Rattle.qc_desk.specs.Known.{AreKnown};
ghost use Rattle.qc_desk.specs.Refusing.{against_nothing};

use crate::desk::Desk;
use crate::pass::Pass;
use crate::store::Store;
use qc_event::{Event, Grant, Name, Short, Why};
use std::sync::Wait;

impl<N: Store> Desk<N> {
    /// A copy was unable to serve a request, or the ledger to log a top, that the seer saw. Both passes have then
    /// seen the history at this step.
    pub fn unable<R: Wait>(
        &self,
        rt: &R,
        pass: &mut Pass<N>,
        seer: &mut Pass<N>,
        name: &Name,
        why: Why,
    ) -> Result<(), Short>
        requires live { pass.old.live ≡ true }
        requires may { MayBeUnable seer.old.seen pass.old.number name.now why }
        ensures ok { OnOk result
            (Entered against_nothing (event.Unable name.now why) pass.old pass.new) }
        ensures err { IfErr result (Wanted pass.old pass.new) }
        ensures shown { Shown seer.old seer.new }
        ensures same { seer.new.seen ≡ pass.new.seen }
        ensures known { AreKnown (setting_of N.table N.base) pass.new seer.new }
    {
        let mut locked = self.locked.lock(rt);
        locked.look(&self.room, pass);
        locked.look(&self.room, seer);
        let event = Event::Unable { name: *name, why };
        let answer = locked.append(&self.room, pass, event);
        locked.look(&self.room, seer);
        answer
    }

    /// Appends a grant that may be made by what the copy's pass has seen: it still may, whatever others entered since.
    /// Both passes have then seen the history at this step.
    pub fn append<R: Wait>(
        &self,
        rt: &R,
        pass: &mut Pass<N>,
        seer: &mut Pass<N>,
        copy: u8,
        grant: &Grant,
    ) -> Result<(), Short>
        requires live { pass.old.live ≡ true }
        requires free { MayGrant (setting_of N.table N.base) pass.old.seen pass.old.number copy
            grant.now }
        ensures ok { OnOk result
            (Entered against_nothing (event.Granted copy grant.now) pass.old pass.new) }
        ensures err { IfErr result (Wanted pass.old pass.new) }
        ensures shown { Shown seer.old seer.new }
        ensures same { seer.new.seen ≡ pass.new.seen }
        ensures known { AreKnown (setting_of N.table N.base) pass.new seer.new }
    {
        let mut locked = self.locked.lock(rt);
        locked.look(&self.room, pass);
        locked.look(&self.room, seer);
        let event = Event::Granted {
            copy,
            grant: *grant,
        };
        let answer = locked.append(&self.room, pass, event);
        locked.look(&self.room, seer);
        answer
    }
}
