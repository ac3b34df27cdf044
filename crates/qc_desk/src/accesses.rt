//! Calls with which a client asks, and gives up or takes what came, by what its pass has entered itself.
ghost use Rattle.std.specs.Prelude.{◌≡◌, OnOk, IfErr};
ghost use Rattle.qc_names.specs.Name.{front};
ghost use Rattle.qc_event.specs.declared.event.Answer.TheVariants as answer;
ghost use Rattle.qc_event.specs.declared.event.Event.TheVariants as event;
ghost use Rattle.qc_event.specs.declared.event.How.TheVariants.{Commit as Commits};
ghost use Rattle.qc_event.specs.Requests.{MayGiveUp};
ghost use Rattle.qc_event.specs.Tables.{setting_of};
ghost use Rattle.qc_desk.specs.Calling.{Entered, Refused, Wanted};
ghost use Rattle.qc_desk.specs.Known.{IsKnown};
ghost use Rattle.qc_desk.specs.Own.{IsOwnAccess, MayAskOwn, MayReplyOwn};
ghost use Rattle.qc_desk.specs.Refusing.{against_access, against_nothing};
ghost use Rattle.qc_desk.specs.Rules.{IsClient};

use crate::desk::Desk;
use crate::pass::Pass;
use crate::refusal::DeskNo;
use crate::store::Store;
use qc_event::{Answer, Ask, Event, How, Name, Short, Tuple, Why};
use std::sync::Wait;

impl<N: Store> Desk<N> {
    /// An access asks what its manager asks next. Refused where it is dead.
    pub fn ask<R: Wait>(&self, rt: &R, pass: &mut Pass<N>, ask: &Ask) -> Result<(), DeskNo>
        requires client { IsClient pass.old }
        requires own { MayAskOwn (setting_of N.table N.base) pass.old.seen pass.old.number
            (front ask.now.access) ask.now }
        ensures ok { OnOk result (Entered (against_access ask.now.access)
            (event.Ask ask.now) pass.old pass.new) }
        ensures err { IfErr result
            (Refused (against_access ask.now.access) pass.old pass.new) }
        ensures known { IsKnown (setting_of N.table N.base) pass.new }
    {
        let mut locked = self.locked.lock(rt);
        locked.look(&self.room, pass);
        let no = locked.against_access(&ask.access);
        locked.enter(&self.room, pass, no, Event::Ask(*ask))
    }

    /// An access is given up, dead or not. That its copy was unable wants the copy's own word, which was seen.
    pub fn gone<R: Wait>(
        &self,
        rt: &R,
        pass: &mut Pass<N>,
        access: &Name,
        why: Why,
    ) -> Result<(), Short>
        requires client { IsClient pass.old }
        requires own { IsOwnAccess pass.old.seen pass.old.number access.now }
        requires may { MayGiveUp pass.old.seen pass.old.number access.now why }
        ensures ok { OnOk result (Entered against_nothing
            (event.Gone access.now why) pass.old pass.new) }
        ensures err { IfErr result (Wanted pass.old pass.new) }
        ensures known { IsKnown (setting_of N.table N.base) pass.new }
    {
        let mut locked = self.locked.lock(rt);
        locked.look(&self.room, pass);
        let event = Event::Gone {
            access: *access,
            why,
        };
        locked.append(&self.room, pass, event)
    }

    /// An access commits with the reply that was granted, and seen. Refused where it is dead.
    pub fn take_reply<R: Wait>(
        &self,
        rt: &R,
        pass: &mut Pass<N>,
        access: &Name,
        tuple: &Tuple,
    ) -> Result<(), DeskNo>
        requires client { IsClient pass.old }
        requires own { IsOwnAccess pass.old.seen pass.old.number access.now }
        requires may { MayReplyOwn pass.old.seen pass.old.number access.now tuple.now }
        ensures ok { OnOk result (Entered (against_access access.now)
            (event.End access.now (Commits (answer.Reply tuple.now))) pass.old pass.new) }
        ensures err { IfErr result (Refused (against_access access.now) pass.old pass.new) }
        ensures known { IsKnown (setting_of N.table N.base) pass.new }
    {
        let mut locked = self.locked.lock(rt);
        locked.look(&self.room, pass);
        let no = locked.against_access(access);
        let event = Event::End {
            name: *access,
            how: How::Commit(Answer::Reply(*tuple)),
        };
        locked.enter(&self.room, pass, no, event)
    }
}
