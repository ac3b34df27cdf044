//! Calls with which a client starts tops, makes them ready, and marks sessions.
ghost use Rattle.std.specs.Prelude.{◌≡◌, ◌≤◌, true, length, is_some, OnOk, IfOk, IfErr};
ghost use Rattle.qc_event.specs.declared.event.Event.TheVariants as event;
ghost use Rattle.qc_event.specs.History.{start};
ghost use Rattle.qc_event.specs.Listed.{listed};
ghost use Rattle.qc_event.specs.Standing.{Started, IsUser};
ghost use Rattle.qc_event.specs.Tables.{setting_of};
ghost use Rattle.qc_desk.specs.Calling.{Entered, Refused, StartsTop, Wanted};
ghost use Rattle.qc_desk.specs.Known.{IsKnown};
ghost use Rattle.qc_desk.specs.Refusing.{against_nothing, against_ready};
ghost use Rattle.qc_desk.specs.Rules.{IsClient};

use crate::desk::Desk;
use crate::pass::Pass;
use crate::refusal::DeskNo;
use crate::store::Store;
use qc_event::{Event, Kind, LIMIT, Name, Short, top_name};
use std::sync::Wait;

impl<N: Store> Desk<N> {
    /// Starts the next top, for a session with a body. Its number is the desk's epoch and one more than tops were
    /// started before at this desk. The only errors are want of memory and of room.
    pub fn start_top<R: Wait>(
        &self,
        rt: &R,
        pass: &mut Pass<N>,
        session: u8,
        body: u32,
    ) -> Result<Name, Short>
        requires client { IsClient pass.old }
        ensures ok { IfOk result (λ n. StartsTop self.now.epoch session body n
            pass.old pass.new) }
        ensures err { IfErr result (Wanted pass.old pass.new) }
        ensures known { IsKnown (setting_of N.table N.base) pass.new }
    {
        let mut locked = self.locked.lock(rt);
        locked.look(&self.room, pass);
        if locked.len() >= LIMIT {
            return Err(Short::Room);
        }
        let top = top_name(self.epoch, locked.tops() as u32 + 1);
        let event = Event::Start {
            name: top,
            kind: Kind::User { session, body },
        };
        locked.append(&self.room, pass, event)?;
        Ok(top)
    }

    /// A top is ready: from then on it is not aborted. It tells the top's aborted descendants whose parent is not
    /// aborted, in the order of their ends. Refused where it has ended, is ready, or has a child that has not ended.
    /// An error leaves the history as it was. It reads each abort below the top once.
    pub fn ready<R: Wait>(
        &self,
        rt: &R,
        pass: &mut Pass<N>,
        top: &Name,
    ) -> Result<Vec<Name>, DeskNo>
        requires client { IsClient pass.old }
        requires started { (length top.now ≡ 1) × (is_some (start pass.old.seen top.now) ≡ true) }
        ensures ok { OnOk result
            (Entered (against_ready top.now) (event.Ready top.now) pass.old pass.new) }
        ensures list { IfOk result (λ found. found.items ≡ listed pass.new.seen top.now) }
        ensures err { IfErr result (Refused (against_ready top.now) pass.old pass.new) }
        ensures known { IsKnown (setting_of N.table N.base) pass.new }
    {
        let mut locked = self.locked.lock(rt);
        locked.look(&self.room, pass);
        if let Some(why) = locked.against_ready(top) {
            return Err(why);
        }
        if locked.len() >= LIMIT {
            return Err(DeskNo::Short(Short::Room));
        }
        let Ok(found) = locked.aborted_below(top) else {
            return Err(DeskNo::Short(Short::Memory));
        };
        locked.enter(&self.room, pass, None, Event::Ready { top: *top })?;
        Ok(found)
    }

    /// A user transaction whose start was seen marks a session, whose number is at most 15. The only errors are
    /// want of memory and of room.
    pub fn mark<R: Wait>(
        &self,
        rt: &R,
        pass: &mut Pass<N>,
        by: &Name,
        session: u8,
    ) -> Result<(), Short>
        requires client { IsClient pass.old }
        requires user { Started pass.old.seen by.now (λ b. IsUser b.kind) }
        requires small { session ≤ 15 }
        ensures ok { OnOk result
            (Entered against_nothing (event.Mark by.now session) pass.old pass.new) }
        ensures err { IfErr result (Wanted pass.old pass.new) }
        ensures known { IsKnown (setting_of N.table N.base) pass.new }
    {
        let mut locked = self.locked.lock(rt);
        locked.look(&self.room, pass);
        let event = Event::Mark { by: *by, session };
        locked.append(&self.room, pass, event)
    }
}
