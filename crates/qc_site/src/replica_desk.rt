//! What a copy does at its desk: it looks, asks, and enters.
ghost use Rattle.std.specs.Prelude.{◌≡◌, ◌<◌, ◌≤◌, ◌⊎◌, ◌++◌, ◌∷◌, [], true, All, Ok, IfOk, IfErr, IfSome, OnOk, OnErr, None, Some, length, option_to_list, slice_index_or};
ghost use Rattle.qc_config.specs.declared.tuple.Tuple.{Tuple};
ghost use Rattle.qc_codec.specs.Bodies as body;
ghost use Rattle.qc_codec.specs.Fields as field;
ghost use Rattle.qc_codec.specs.Fields.{current};
ghost use Rattle.qc_config.specs.Tuple.{after};
ghost use Rattle.qc_event.specs.Seen.{seen};
ghost use Rattle.qc_moss.specs.declared.consulting.Verdict.TheVariants.{Free};
ghost use Rattle.qc_event.specs.Grants.{grant_with, MayGrant};
ghost use Rattle.qc_event.specs.Base.{IsProper};
ghost use Rattle.qc_event.specs.History.{grants, limit, grants as past_grants};
ghost use Rattle.qc_event.specs.Requests.{is_fault};
ghost use Rattle.qc_event.specs.Seats.{copy_seat};
ghost use Rattle.qc_event.specs.Tables.{setting_of};
ghost use Rattle.qc_event.specs.Wants.{IsWant};
ghost use Rattle.qc_desk.specs.Entries.{IsOlder};
ghost use Rattle.qc_desk.specs.Calling.{Looked, SeesMore};
ghost use Rattle.qc_desk.specs.Consulting.{HasAsked, IsTold, granted_before};
ghost use Rattle.qc_desk.specs.declared.consult.Consulted.TheVariants.{Again, Fresh};
ghost use Rattle.qc_desk.specs.Held.{held_row};
ghost use Rattle.qc_desk.specs.Known.{AreKnown};
ghost use Rattle.qc_desk.specs.Answers.{IsGranted};
ghost use Rattle.qc_site.specs.AtDesk.{hand_after, hand_entries, told_entries, unable_entry, LeavesKnown, OnlyLooks};
ghost use Rattle.qc_site.specs.Replica.{IsTableOf};

use crate::fits::{held_to_fit, known_to_fit};
use crate::replica::{Replica, grant_of};
use qc_config::Tuple;
use qc_desk::{Consulted, Desk, Pass, Store};
use qc_event::{Ask, Grant, Short, Why};
use qc_moss::{Locks, Verdict, replay_locks};
use std::alloc::{AllocError, Global};
use std::sync::Wait;

// Asks the desk whether a request is a repeat, where memory for one more lock is wanting: a repeat needs none.
fn ask_without_room<N: Store, R: Wait>(
    rt: &R,
    desk: &Desk<N>,
    pass: &mut Pass<N>,
    seer: &mut Pass<N>,
    ask: &Ask,
) -> Result<Consulted, Short>
    requires live { pass.old.live ≡ true }
    requires asked { HasAsked seer.old.seen ask.now }
    ensures told { IfOk result (IsTold (setting_of N.table N.base) ask.now pass.old pass.new) }
    ensures again { (tuple : Tuple) → result ≡ Ok (Fresh (Free tuple)) → ⊥ }
    ensures looked { Looked pass.old pass.new }
    ensures known { AreKnown (setting_of N.table N.base) pass.new seer.new }
    ensures asked { HasAsked pass.new.seen ask.now }
    ensures fresh { OnErr result (granted_before pass.new.seen ask.now ≡ None) }
    ensures want { IfErr result (IsWant pass.new.seen) }
    ensures seer { SeesMore seer.old seer.new }
    ensures same { seer.new.seen ≡ pass.new.seen }
{
    let before = desk.granted(rt, pass, seer, ask.copy, &ask.access);
    match before {
        Some(tuple) => Ok(Consulted::Again(tuple)),
        None => Err(Short::Memory),
    }
}

// Makes room for one more lock of a copy, and asks the desk of a request by its locks.
fn ask_desk<N: Store, R: Wait>(
    rt: &R,
    desk: &Desk<N>,
    pass: &mut Pass<N>,
    seer: &mut Pass<N>,
    ask: &Ask,
    locks: &mut Locks,
) -> Result<Consulted, Short>
    requires copy { (pass.old.live ≡ true) × (pass.old.number ≡ copy_seat ask.now.copy) }
    requires asked { HasAsked seer.old.seen ask.now }
    requires proper { IsProper (setting_of N.table N.base) }
    requires locks { IsTableOf (slice_index_or N.base ask.now.copy []) pass.old.seen ask.now.copy
        locks.old }
    ensures told { IfOk result (IsTold (setting_of N.table N.base) ask.now pass.old pass.new) }
    ensures asked { HasAsked pass.new.seen ask.now }
    ensures err { OnErr result (Looked pass.old pass.new) }
    ensures known { AreKnown (setting_of N.table N.base) pass.new seer.new }
    ensures fresh { OnErr result (granted_before pass.new.seen ask.now ≡ None) }
    ensures want { IfErr result (IsWant pass.new.seen) }
    ensures locks { IsTableOf (slice_index_or N.base ask.now.copy []) pass.new.seen ask.now.copy
        locks.new }
    ensures room { (tuple : Tuple) → result ≡ Ok (Fresh (Free tuple)) → locks.new.reserved ≡ true }
    ensures seer { SeesMore seer.old seer.new }
    ensures same { seer.new.seen ≡ pass.new.seen }
{
    match locks.reserve() {
        Ok(()) => desk.consult(rt, pass, seer, ask, locks),
        Err(_) => ask_without_room(rt, desk, pass, seer, ask),
    }
}

// What is in hand then: the grant of a free request.
fn hand_of(ask: &Ask, told: &Consulted) -> Option<Grant>
    ensures { result ≡ hand_after ask.now told.now }
{
    match told {
        Consulted::Again(_) => None,
        Consulted::Fresh(verdict) => match verdict {
            Verdict::Free(tuple) => Some(grant_of(ask, tuple)),
            Verdict::Blocked(_) | Verdict::Dead(_) => None,
        },
    }
}

impl<N: Store, const C: u8> Replica<N, C> {
    /// What the copy granted, in the history at this step.
    pub(crate) fn given<R: Wait>(
        &mut self,
        rt: &R,
        desk: &Desk<N>,
    ) -> Result<Vec<Grant>, AllocError>
        ensures given { IfOk result (λ g. g.items ≡ grants self.new.pass.seen C) }
        ensures looks { OnlyLooks C self.old self.new }
        ensures hand { self.new.hand ≡ self.old.hand }
        ensures up { self.new.up ≡ self.old.up }
    {
        desk.grants(rt, &mut self.pass, C)
    }

    /// What the copy holds of each record, in the history at this step.
    pub(crate) fn held<R: Wait>(
        &mut self,
        rt: &R,
        desk: &Desk<N>,
        alloc: Global,
    ) -> Result<Vec<Tuple>, AllocError>
        ensures held { IfOk result (λ row. row.items
            ≡ held_row (slice_index_or N.base C []) self.new.pass.seen C) }
        ensures looks { OnlyLooks C self.old self.new }
        ensures hand { self.new.hand ≡ self.old.hand }
        ensures up { self.new.up ≡ self.old.up }
    {
        desk.held(rt, alloc, &mut self.pass, C)
    }

    /// What the copy holds of each record, by what it has seen, fits the form in which a base has it.
    pub(crate) fn held_fits(&self, held: &[Tuple])
        requires proper { IsProper (setting_of N.table N.base) }
        requires held { held.now ≡ held_row (slice_index_or N.base C []) self.now.pass.seen C }
        ensures fits { All (field.tuple (current (length N.base))).fits held.now }
        ensures small { C < 16 }
    {
        held_to_fit(&self.pass, C, held);
    }

    /// Asks the desk of a request that the seer saw. A repeat is told what it was granted, and a grant that may be made is
    /// in hand then.
    pub(crate) fn consult<R: Wait>(
        &mut self,
        rt: &R,
        desk: &Desk<N>,
        seer: &mut Pass<N>,
        ask: &Ask,
    ) -> Result<Consulted, Short>
        requires up { self.old.up ≡ true }
        requires none { self.old.hand ≡ None }
        requires copy { ask.now.copy ≡ C }
        requires asked { HasAsked seer.old.seen ask.now }
        requires proper { IsProper (setting_of N.table N.base) }
        ensures told { IfOk result
            (IsTold (setting_of N.table N.base) ask.now self.old.pass self.new.pass) }
        ensures granted { (tuple : Tuple) → result ≡ Ok (Again tuple)
            → IsGranted C self.new.pass.seen (grant_with ask.now tuple) }
        ensures again { (tuple : Tuple)
            → IsGranted C self.old.pass.seen (grant_with ask.now tuple)
            → result ≡ Ok (Again tuple) }
        ensures asked { HasAsked self.new.pass.seen ask.now }
        ensures hand { IfOk result (λ told. self.new.hand ≡ hand_after ask.now told) }
        ensures may { OnOk result (IfSome self.new.hand (MayGrant (setting_of N.table N.base)
            self.new.pass.seen (copy_seat C) C)) }
        ensures known { OnOk result
            (LeavesKnown (setting_of N.table N.base) C self.new.pass seer.new) }
        ensures none { OnErr result (self.new.hand ≡ None) }
        ensures enters { IfOk result (λ told. self.new.pass.mine
            ≡ told_entries C ask.now told ++ self.old.pass.mine) }
        ensures err { OnErr result (self.new.pass.mine ≡ self.old.pass.mine) }
        ensures grants { grants self.new.pass.seen C ≡ grants self.old.pass.seen C }
        ensures seen { IsOlder self.old.pass.seen self.new.pass.seen }
        ensures want { IfErr result (IsWant self.new.pass.seen) }
        ensures up { self.new.up ≡ true }
        ensures seer { SeesMore seer.old seer.new }
        ensures same { seer.new.seen ≡ self.new.pass.seen }
    {
        let Some(mut locks) = self.locks.take() else {
            unreachable!();
        };
        let answer = ask_desk(rt, desk, &mut self.pass, seer, ask, &mut locks);
        self.locks = Some(locks);
        let told = answer?;
        self.hand = hand_of(ask, &told);
        Ok(told)
    }

    /// Enters the grant in hand, where there is one, which the seer has then seen.
    pub(crate) fn append<R: Wait>(
        &mut self,
        rt: &R,
        desk: &Desk<N>,
        seer: &mut Pass<N>,
    ) -> Result<(), Short>
        ensures enters { OnOk result
            (self.new.pass.mine ≡ hand_entries C self.old.hand ++ self.old.pass.mine) }
        ensures granted { OnOk result (IfSome self.old.hand (IsGranted C self.new.pass.seen)) }
        ensures grants { OnOk result (grants self.new.pass.seen C
            ≡ grants self.old.pass.seen C ++ option_to_list self.old.hand) }
        ensures none { OnOk result (self.new.hand ≡ None) }
        ensures idle { self.old.hand ≡ None → self.new ≡ self.old }
        ensures calm { self.old.hand ≡ None → OnErr result ⊥ }
        ensures err { OnErr result (OnlyLooks C self.old self.new) }
        ensures kept { OnErr result (self.new.hand ≡ self.old.hand) }
        ensures seen { IsOlder self.old.pass.seen self.new.pass.seen }
        ensures want { IfErr result (IsWant self.new.pass.seen) }
        ensures up { self.new.up ≡ self.old.up }
        ensures seer { SeesMore seer.old seer.new }
        ensures same { (self.old.hand ≡ None) ⊎ (seer.new.seen ≡ self.new.pass.seen) }
        ensures known { OnOk result ((self.old.hand ≡ None)
            ⊎ LeavesKnown (setting_of N.table N.base) C self.new.pass seer.new) }
    {
        let Some(grant) = self.hand else {
            return Ok(());
        };
        desk.append(rt, &mut self.pass, seer, C, &grant)?;
        self.hand = None;
        if let Some(mut locks) = self.locks.take() {
            locks.hold(&grant.access, grant.rec, &grant.op);
            self.locks = Some(locks);
        }
        Ok(())
    }

    /// Enters that the copy was unable to serve an access that the seer saw ask.
    pub(crate) fn unable<R: Wait>(
        &mut self,
        rt: &R,
        desk: &Desk<N>,
        seer: &mut Pass<N>,
        ask: &Ask,
        why: Why,
    ) -> Result<(), Short>
        requires copy { ask.now.copy ≡ C }
        requires asked { HasAsked seer.old.seen ask.now }
        requires fault { is_fault why ≡ true }
        ensures enters { OnOk result
            (self.new.pass.mine ≡ unable_entry C ask.now why ∷ self.old.pass.mine) }
        ensures err { OnErr result (self.new.pass.mine ≡ self.old.pass.mine) }
        ensures grants { grants self.new.pass.seen C ≡ grants self.old.pass.seen C }
        ensures seen { IsOlder self.old.pass.seen self.new.pass.seen }
        ensures want { IfErr result (IsWant self.new.pass.seen) }
        ensures hand { self.new.hand ≡ self.old.hand }
        ensures up { self.new.up ≡ self.old.up }
        ensures seer { SeesMore seer.old seer.new }
        ensures same { seer.new.seen ≡ self.new.pass.seen }
        ensures known { LeavesKnown (setting_of N.table N.base) C self.new.pass seer.new }
    {
        desk.unable(rt, &mut self.pass, seer, &ask.access, why)
    }

    /// The seer has then seen what the copy has: the history at this step.
    pub(crate) fn show<R: Wait>(&mut self, rt: &R, desk: &Desk<N>, seer: &mut Pass<N>)
        ensures looks { OnlyLooks C self.old self.new }
        ensures hand { self.new.hand ≡ self.old.hand }
        ensures up { self.new.up ≡ self.old.up }
        ensures seer { SeesMore seer.old seer.new }
        ensures same { seer.new.seen ≡ self.new.pass.seen }
        ensures bounded { length seer.new.seen ≤ limit }
        ensures known { LeavesKnown (setting_of N.table N.base) C self.new.pass seer.new }
    {
        desk.show(rt, &mut self.pass, seer);
    }

    /// Enters the grant in hand, where there is one, for no one.
    pub(crate) fn enter<R: Wait>(&mut self, rt: &R, desk: &Desk<N>) -> Result<(), Short>
        ensures enters { OnOk result
            (self.new.pass.mine ≡ hand_entries C self.old.hand ++ self.old.pass.mine) }
        ensures grants { OnOk result (grants self.new.pass.seen C
            ≡ grants self.old.pass.seen C ++ option_to_list self.old.hand) }
        ensures none { OnOk result (self.new.hand ≡ None) }
        ensures idle { self.old.hand ≡ None → self.new ≡ self.old }
        ensures calm { self.old.hand ≡ None → OnErr result ⊥ }
        ensures err { OnErr result (OnlyLooks C self.old self.new) }
        ensures kept { OnErr result (self.new.hand ≡ self.old.hand) }
        ensures seen { IsOlder self.old.pass.seen self.new.pass.seen }
        ensures want { IfErr result (IsWant self.new.pass.seen) }
        ensures up { self.new.up ≡ self.old.up }
    {
        let mut seer = desk.note(&mut self.pass);
        self.append(rt, desk, &mut seer)
    }

    /// A grant of what was asked, with the tuple that the copy has after it, fits the form in which grants are written.
    pub(crate) fn fits(&self, copies: u8, ask: &Ask, tuple: &Tuple)
        requires proper { IsProper (setting_of N.table N.base) }
        requires copies { copies ≡ length N.base }
        requires asked { HasAsked self.now.pass.seen ask.now }
        requires tuple { tuple.now ≡ after (seen N.base self.now.pass.seen ask.now.copy ask.now.rec)
            ask.now.op }
        ensures fits { (body.grant (current copies)).fits (grant_with ask.now tuple.now) }
    {
        known_to_fit(&self.pass, copies, ask, tuple);
    }

    /// Has its locks again, by what it granted.
    pub(crate) fn restore(&mut self, alloc: Global, grants: &[Grant]) -> Result<(), AllocError>
        requires proper { IsProper (setting_of N.table N.base) }
        requires none { self.old.hand ≡ None }
        requires given { grants.now ≡ past_grants self.old.pass.seen C }
        ensures up { OnOk result (self.new.up ≡ true) }
        ensures kept { OnErr result (self.new.up ≡ self.old.up) }
        ensures hand { self.new.hand ≡ None }
        ensures pass { self.new.pass ≡ self.old.pass }
    {
        let locks = replay_locks(alloc, self.start.to_vec(alloc)?, grants)?;
        self.locks = Some(locks);
        Ok(())
    }
}
