//! The call with which the ledger commits a top.
ghost use Rattle.std.specs.Prelude.{◌≡◌, true, None, IsTrue, OnOk, IfErr};
ghost use Rattle.qc_event.specs.declared.event.Answer.TheVariants as answer;
ghost use Rattle.qc_event.specs.declared.event.Event.TheVariants as event;
ghost use Rattle.qc_event.specs.declared.event.How.TheVariants.{Commit as Commits};
ghost use Rattle.qc_event.specs.History.{end, is_ready};
ghost use Rattle.qc_event.specs.Seats.{ledger_seat};
ghost use Rattle.qc_event.specs.Tables.{setting_of};
ghost use Rattle.qc_desk.specs.Calling.{Entered, Shown, Wanted};
ghost use Rattle.qc_desk.specs.Known.{AreKnown};
ghost use Rattle.qc_desk.specs.Refusing.{against_nothing};

use crate::desk::Desk;
use crate::pass::Pass;
use crate::store::Store;
use qc_event::{Answer, Event, How, Name, Short};
use std::sync::Wait;

impl<N: Store> Desk<N> {
    /// Commits a top that the seer saw to be ready, under the ledger's pass, which has not ended it before. The only
    /// errors are want of memory and of room. Both passes have then seen the history at this step.
    pub fn finish<R: Wait>(
        &self,
        rt: &R,
        pass: &mut Pass<N>,
        seer: &mut Pass<N>,
        top: &Name,
    ) -> Result<(), Short>
        requires ledger { (pass.old.live ≡ true) × (pass.old.number ≡ ledger_seat) }
        requires ready { IsTrue (is_ready seer.old.seen top.now) }
        requires first { end pass.old.mine top.now ≡ None }
        ensures ok { OnOk result (Entered against_nothing
            (event.End top.now (Commits answer.Nothing)) pass.old pass.new) }
        ensures err { IfErr result (Wanted pass.old pass.new) }
        ensures shown { Shown seer.old seer.new }
        ensures same { seer.new.seen ≡ pass.new.seen }
        ensures known { AreKnown (setting_of N.table N.base) pass.new seer.new }
    {
        let mut locked = self.locked.lock(rt);
        locked.look(&self.room, pass);
        locked.look(&self.room, seer);
        let event = Event::End {
            name: *top,
            how: How::Commit(Answer::Nothing),
        };
        let answer = locked.append(&self.room, pass, event);
        locked.look(&self.room, seer);
        answer
    }
}
