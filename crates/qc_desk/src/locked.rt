//! What lies under the lock of a desk: the one history, and the right to append.
ghost use Rattle.std.specs.Prelude.{◌≡◌, ◌≤◌, List, [], ◌∷◌, ◌++◌, true, None, IfErr, reverse, length, OnOk, OnErr};
ghost use Rattle.qc_event.specs.Tables.{setting_of};
ghost use Rattle.qc_event.specs.History.{limit};
ghost use Rattle.qc_event.specs.Legal.{Legal, Allowed};
ghost use Rattle.qc_event.specs.Wants.{IsExactWant};
ghost use Rattle.qc_desk.specs.Calling.{IsRoomOf, IsLook, IsEntry};
ghost use Rattle.qc_desk.specs.Entries.{AreCounted, IsLegal, IsOlder, IsSince, entry, entries_of};
ghost use Rattle.qc_desk.specs.Known.{IsDeskHistory, IsKnown};
ghost use Rattle.qc_desk.specs.Refusing.{Refuses};
ghost use Rattle.qc_desk.specs.Rules.{IsClient, IsSettled, joined};

use crate::pass::Pass;
use crate::refusal::DeskNo;
use crate::steps::{give_back, lend, push};
use crate::store::{Room, Store};
use crate::view::{Joining, Knowing, Settling, View};
use atomic_table::Seat;
use qc_event::{Entry, Event, Short};
use qc_history::History;
use qc_trail::Trail;
use std::marker::{Model, PhantomData};

/// What lies under the lock: the history, and the right to append.
#[derive(Drop)]
pub(crate) struct Locked<N: Store> {
    pub(crate) history: History,
    pub(crate) seat: Seat<Entry, View>,
    pub(crate) of: PhantomData<N>,
}

impl<N: Store> Model for Locked<N> {
    ghost use Rattle.std.specs.Prelude.{◌≡◌, ◌≤◌, List, [], length};
    ghost use Rattle.qc_event.specs.History.{limit};
    ghost use Rattle.qc_event.specs.Tables.{setting_of};
    ghost use Rattle.qc_event.specs.declared.event.Entry.{Entry};
    ghost use Rattle.qc_desk.specs.Entries.{IsLegal, AreCounted};
    ghost use Rattle.qc_desk.specs.Rules.{ruler};

    ghost Value = { List Entry };

    ghost view = { λ d. d.history };

    ghost invariant = { λ d. (d.seat.table_id ≡ N.desk) × (d.seat.me ≡ (ruler d.history, []))
        × IsLegal (setting_of N.table N.base) d.history × AreCounted d.history
        × (length d.history ≤ limit) };
}

impl<N: Store> Locked<N> {
    /// Appends an entry under the pass's number that may come next.
    pub(crate) fn append(
        &mut self,
        room: &Room,
        pass: &mut Pass<N>,
        event: Event,
    ) -> Result<(), Short>
        requires room { IsRoomOf N.desk room.now.shared.table_id }
        requires live { pass.old.live ≡ true }
        requires allowed { Allowed (setting_of N.table N.base) self.old
            (entry pass.old.number event) }
        requires counted { AreCounted self.old →
            AreCounted (entry pass.old.number event ∷ self.old) }
        ensures ok { OnOk result (IsEntry event self.old self.new pass.old pass.new) }
        ensures err { OnErr result (IsLook self.old self.new pass.old pass.new) }
        ensures want { IfErr result (IsExactWant self.old) }
        ensures known { IsKnown (setting_of N.table N.base) pass.new }
    {
        lend(room, &mut pass.seat, &mut self.seat);
        let new = Entry {
            seat: pass.number,
            event,
        };
        let answer = push(room, &mut pass.seat, &mut self.history, &new);
        give_back(room, &mut pass.seat, &mut self.seat);
        answer
    }

    /// Appends an entry where nothing is against it, and says why not otherwise.
    pub(crate) fn enter(
        &mut self,
        room: &Room,
        pass: &mut Pass<N>,
        no: Option<DeskNo>,
        event: Event,
    ) -> Result<(), DeskNo>
        requires room { IsRoomOf N.desk room.now.shared.table_id }
        requires live { pass.old.live ≡ true }
        requires allowed { no ≡ None → Allowed (setting_of N.table N.base) self.old
            (entry pass.old.number event) }
        requires counted { AreCounted self.old →
            AreCounted (entry pass.old.number event ∷ self.old) }
        ensures ok { OnOk result ((no ≡ None)
            × IsEntry event self.old self.new pass.old pass.new) }
        ensures err { IfErr result (λ why. IsLook self.old self.new pass.old pass.new
            × Refuses (λ _. no) self.old why) }
        ensures known { IsKnown (setting_of N.table N.base) pass.new }
    {
        if let Some(why) = no {
            self.look(room, pass);
            return Err(why);
        }
        self.append(room, pass, event)?;
        Ok(())
    }

    /// The pass sees the history.
    pub(crate) fn look(&mut self, room: &Room, pass: &mut Pass<N>)
        requires room { IsRoomOf N.desk room.now.shared.table_id }
        ensures seen { IsOlder pass.old.seen self.old }
        ensures mine { pass.old.live ≡ true →
            entries_of pass.old.number self.old ≡ pass.old.mine }
        ensures since { pass.old.live ≡ true → IsSince pass.old.number pass.old.seen self.old }
        ensures same { IsLook self.old self.new pass.old pass.new }
        ensures history { IsDeskHistory (setting_of N.table N.base) self.old }
        ensures known { IsKnown (setting_of N.table N.base) pass.new }
    {
        lend(room, &mut pass.seat, &mut self.seat);
        give_back(room, &mut pass.seat, &mut self.seat);
    }

    /// A pass with nothing out is joined into a pass, which sees the history.
    pub(crate) fn join(&mut self, room: &Room, pass: &mut Pass<N>, mut other: Pass<N>)
        requires room { IsRoomOf N.desk room.now.shared.table_id }
        requires client { IsClient pass.old }
        requires other { (other.live ≡ true) × (other.out ≡ []) }
        ensures seen { IsOlder pass.old.seen self.old × IsOlder other.seen self.old }
        ensures same { IsLook self.old self.new (joined pass.old other) pass.new }
        ensures history { IsDeskHistory (setting_of N.table N.base) self.old }
        ensures known { IsKnown (setting_of N.table N.base) pass.new }
    {
        self.look(room, pass);
        self.look(room, &mut other);
        let Pass { seat, .. } = other;
        room.shared.join_seat::<Joining>(&mut pass.seat, seat);
        room.shared.load::<Knowing>(&mut pass.seat, 0);
    }

    /// The history. The pass is the first, and has nothing out.
    pub(crate) fn close(self, room: Room, pass: Pass<N>) -> Trail
        requires room { IsRoomOf N.desk room.shared.table_id }
        requires first { (pass.live ≡ true) × (pass.number ≡ 0) × (pass.out ≡ []) }
        ensures legal { Legal (setting_of N.table N.base) (reverse result) }
        ensures bounded { length result ≤ limit }
        ensures settled { IsOlder pass.seen (reverse result)
            × IsSettled (reverse result) pass }
    {
        let Locked {
            history,
            seat: mut right,
            ..
        } = self;
        let Pass { mut seat, .. } = pass;
        lend(&room, &mut seat, &mut right);
        room.shared.load::<Settling>(&mut seat, 0);
        history.into_trail()
    }
}
