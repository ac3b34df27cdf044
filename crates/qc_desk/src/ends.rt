//! The calls with which a client commits, aborts, and looks whether a name has ended, or is dead.
ghost use Rattle.std.specs.Prelude.{◌≡◌, OnOk, IfErr};
ghost use Rattle.qc_event.specs.Dead.{dead};
ghost use Rattle.qc_event.specs.declared.event.Event.TheVariants as event;
ghost use Rattle.qc_event.specs.declared.event.How.TheVariants.{Commit as Commits, Abort as Aborts};
ghost use Rattle.qc_event.specs.History.{end};
ghost use Rattle.qc_desk.specs.Calling.{Entered, Refused, Shown};
ghost use Rattle.qc_event.specs.Tables.{setting_of};
ghost use Rattle.qc_desk.specs.Known.{IsKnown};
ghost use Rattle.qc_desk.specs.Own.{MayAbortOwn, MayCommitOwn};
ghost use Rattle.qc_desk.specs.Refusing.{against_commit, against_abort};
ghost use Rattle.qc_desk.specs.Rules.{IsClient};

use crate::desk::Desk;
use crate::pass::Pass;
use crate::refusal::DeskNo;
use crate::store::Store;
use qc_event::{Answer, Cause, Event, How, Name};
use std::sync::Wait;

impl<N: Store> Desk<N> {
    /// Commits a user transaction below a top, or a manager that is complete by what was seen. Refused where it has
    /// ended, is dead, or has a child that has not ended.
    pub fn end<R: Wait>(
        &self,
        rt: &R,
        pass: &mut Pass<N>,
        name: &Name,
        answer: &Answer,
    ) -> Result<(), DeskNo>
        requires client { IsClient pass.old }
        requires may { MayCommitOwn (setting_of N.table N.base) pass.old name.now answer.now }
        ensures ok { OnOk result (Entered (against_commit name.now)
            (event.End name.now (Commits answer.now)) pass.old pass.new) }
        ensures err { IfErr result (Refused (against_commit name.now) pass.old pass.new) }
        ensures known { IsKnown (setting_of N.table N.base) pass.new }
    {
        let mut locked = self.locked.lock(rt);
        locked.look(&self.room, pass);
        let no = locked.against_commit(name);
        let event = Event::End {
            name: *name,
            how: How::Commit(*answer),
        };
        locked.enter(&self.room, pass, no, event)
    }

    /// Aborts a name whose start was seen, for a cause that was seen to be licensed: it still is, whatever others
    /// entered since. Refused where the name has ended, or is ready.
    pub fn abort<R: Wait>(
        &self,
        rt: &R,
        pass: &mut Pass<N>,
        name: &Name,
        cause: &Cause,
    ) -> Result<(), DeskNo>
        requires client { IsClient pass.old }
        requires licensed { MayAbortOwn (setting_of N.table N.base) pass.old name.now cause.now }
        ensures ok { OnOk result (Entered (against_abort name.now)
            (event.End name.now (Aborts cause.now)) pass.old pass.new) }
        ensures err { IfErr result (Refused (against_abort name.now) pass.old pass.new) }
        ensures known { IsKnown (setting_of N.table N.base) pass.new }
    {
        let mut locked = self.locked.lock(rt);
        locked.look(&self.room, pass);
        let no = locked.against_abort(name);
        let event = Event::End {
            name: *name,
            how: How::Abort(*cause),
        };
        locked.enter(&self.room, pass, no, event)
    }

    /// How a name ended, in the history at this step; none exactly where it has not.
    pub fn ended<R: Wait>(&self, rt: &R, pass: &mut Pass<N>, name: &Name) -> Option<How>
        ensures looked { Shown pass.old pass.new }
        ensures end { result ≡ end pass.new.seen name.now }
        ensures known { IsKnown (setting_of N.table N.base) pass.new }
    {
        let mut locked = self.locked.lock(rt);
        locked.look(&self.room, pass);
        locked.end(name)
    }

    /// The shortest aborted ancestor of a name, itself among them, in the history at this step; none exactly where none is.
    pub fn dead<R: Wait>(&self, rt: &R, pass: &mut Pass<N>, name: &Name) -> Option<Name>
        ensures looked { Shown pass.old pass.new }
        ensures dead { result ≡ dead pass.new.seen name.now }
        ensures known { IsKnown (setting_of N.table N.base) pass.new }
    {
        let mut locked = self.locked.lock(rt);
        locked.look(&self.room, pass);
        locked.dead(name)
    }
}
