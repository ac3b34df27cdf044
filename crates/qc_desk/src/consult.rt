//! The call with which a copy asks the desk before it grants.
ghost use Rattle.std.specs.Prelude.{◌≡◌, [], true, Ok, None, IfOk, IfErr, OnErr, slice_index_or};
ghost use Rattle.qc_config.specs.declared.tuple.Tuple.{Tuple};
ghost use Rattle.qc_moss.specs.declared.consulting.Verdict.TheVariants.{Free};
ghost use Rattle.qc_event.specs.Grants.{grant_with};
ghost use Rattle.qc_moss.specs.Consulting.{grant_of};
ghost use Rattle.qc_event.specs.Base.{IsProper};
ghost use Rattle.qc_event.specs.History.{grants};
ghost use Rattle.qc_event.specs.Seats.{copy_seat};
ghost use Rattle.qc_event.specs.Tables.{setting_of};
ghost use Rattle.qc_moss.specs.Follows.{TableFollows};
ghost use Rattle.qc_desk.specs.Calling.{IsRoomOf, Shown, Wanted};
ghost use Rattle.qc_desk.specs.Consulting as words;
ghost use Rattle.qc_desk.specs.Consulting.{HasAsked, IsTold, granted_before};
ghost use Rattle.qc_desk.specs.declared.consult.Consulted.TheVariants.{Fresh};
ghost use Rattle.qc_desk.specs.Known.{AreKnown, IsKnown};

use crate::desk::Desk;
use crate::locked::Locked;
use crate::pass::Pass;
use crate::store::{Room, Store};
use qc_config::Tuple;
use qc_event::{Ask, Event, Name, Outcome, Refusal, Short};
use qc_moss::{Locks, Source, Verdict, consult_locks};
use std::sync::Wait;

/// What the desk tells a copy of a request: what it granted it before, or whether it may be granted.
#[derive(Clone, Copy, Debug)]
pub enum Consulted {
    Again(Tuple),
    Fresh(Verdict),
}

// What tells a copy of the history at this step.
#[derive(Clone, Copy)]
struct DeskTold<'a, N: Store> {
    locked: &'a Locked<N>,
}

impl<'a, N: Store> Source for DeskTold<'a, N> {
    ghost use Rattle.std.specs.Prelude.{◌≡◌};

    ghost tells = { λ told past. told.locked.now ≡ past };

    fn outcome(&self, name: &Name) -> Outcome {
        self.locked.outcome(name)
    }

    fn dead(&self, name: &Name) -> Option<Name> {
        self.locked.dead(name)
    }
}

// The refusal that a verdict is.
fn refusal_of(verdict: &Verdict) -> Option<Refusal>
    ensures { result ≡ words.refusal_of verdict.now }
{
    match verdict {
        Verdict::Free(_) => None,
        Verdict::Blocked(holder) => Some(Refusal::Blocked(*holder)),
        Verdict::Dead(ancestor) => Some(Refusal::Dead(*ancestor)),
    }
}

impl<N: Store> Locked<N> {
    // Tells what a request was granted before; else it asks the locks of the copy by the history, and appends what they
    // refuse.
    fn consult(
        &mut self,
        room: &Room,
        pass: &mut Pass<N>,
        ask: &Ask,
        locks: &mut Locks,
    ) -> Result<Consulted, Short>
        requires room { IsRoomOf N.desk room.now.shared.table_id }
        requires copy { (pass.old.live ≡ true) × (pass.old.number ≡ copy_seat ask.now.copy) }
        requires asked { HasAsked self.old ask.now }
        requires proper { IsProper (setting_of N.table N.base) }
        requires start { locks.old.start ≡ slice_index_or N.base ask.now.copy [] }
        requires follows { TableFollows pass.old.seen (grants pass.old.seen ask.now.copy)
            locks.old }
        ensures told { IfOk result
            (IsTold (setting_of N.table N.base) ask.now pass.old pass.new) }
        ensures admits { (tuple : Tuple) → result ≡ Ok (Fresh (Free tuple))
            → grant_of locks.new ask.now ≡ grant_with ask.now tuple }
        ensures err { IfErr result (Wanted pass.old pass.new) }
        ensures fresh { OnErr result (granted_before pass.new.seen ask.now ≡ None) }
        ensures follows { TableFollows pass.new.seen (grants pass.new.seen ask.now.copy) locks.new }
        ensures start { locks.new.start ≡ locks.old.start }
        ensures reserved { locks.new.reserved ≡ locks.old.reserved }
        ensures seen { pass.new.seen ≡ self.new }
        ensures known { IsKnown (setting_of N.table N.base) pass.new }
    {
        self.look(room, pass);
        if let Some(tuple) = self.granted(ask.copy, &ask.access) {
            return Ok(Consulted::Again(tuple));
        }
        let verdict = consult_locks(locks, ask, &DeskTold { locked: self });
        let Some(refusal) = refusal_of(&verdict) else {
            return Ok(Consulted::Fresh(verdict));
        };
        let event = Event::Refused {
            access: ask.access,
            copy: ask.copy,
            refusal,
        };
        self.append(room, pass, event)?;
        Ok(Consulted::Fresh(verdict))
    }
}

impl<N: Store> Desk<N> {
    /// Tells what a request that the seer saw was granted before at its copy, in the history at this step; a repeat is
    /// never refused, and enters nothing. Else it says by that history, and by the locks of the copy, whether the request
    /// may be granted, and with which tuple. Where it may not, the refusal is appended under the copy's pass, and the
    /// verdict tells it. The locks of the record are settled by the history; at an error too they are locks of this
    /// copy, with the room that they had. The only errors are want of memory and of room for a refusal. Both passes
    /// have then seen the history at this step. A repeat costs a step for each number of its name.
    pub fn consult<R: Wait>(
        &self,
        rt: &R,
        pass: &mut Pass<N>,
        seer: &mut Pass<N>,
        ask: &Ask,
        locks: &mut Locks,
    ) -> Result<Consulted, Short>
        requires copy { (pass.old.live ≡ true) × (pass.old.number ≡ copy_seat ask.now.copy) }
        requires asked { HasAsked seer.old.seen ask.now }
        requires proper { IsProper (setting_of N.table N.base) }
        requires start { locks.old.start ≡ slice_index_or N.base ask.now.copy [] }
        requires follows { TableFollows pass.old.seen (grants pass.old.seen ask.now.copy)
            locks.old }
        ensures told { IfOk result
            (IsTold (setting_of N.table N.base) ask.now pass.old pass.new) }
        ensures admits { (tuple : Tuple) → result ≡ Ok (Fresh (Free tuple))
            → grant_of locks.new ask.now ≡ grant_with ask.now tuple }
        ensures err { IfErr result (Wanted pass.old pass.new) }
        ensures fresh { OnErr result (granted_before pass.new.seen ask.now ≡ None) }
        ensures follows { TableFollows pass.new.seen (grants pass.new.seen ask.now.copy) locks.new }
        ensures start { locks.new.start ≡ locks.old.start }
        ensures reserved { locks.new.reserved ≡ locks.old.reserved }
        ensures shown { Shown seer.old seer.new }
        ensures same { seer.new.seen ≡ pass.new.seen }
        ensures known { AreKnown (setting_of N.table N.base) pass.new seer.new }
    {
        let mut locked = self.locked.lock(rt);
        locked.look(&self.room, seer);
        let told = locked.consult(&self.room, pass, ask, locks);
        locked.look(&self.room, seer);
        told
    }
}
