//! A copy at its desk: its pass, its locks, and the grant in hand.
ghost use Rattle.std.specs.Prelude.{◌≡◌, ◌<◌, [], true, false, Option, None, Some, IfSome, slice_index_or, is_some};
ghost use Rattle.qc_config.specs.declared.tuple.Tuple.{Tuple};
ghost use Rattle.qc_event.specs.Grants.{grant_with, MayGrant};
ghost use Rattle.qc_event.specs.History.{grants};
ghost use Rattle.qc_event.specs.Seats.{copy_seat};
ghost use Rattle.qc_event.specs.Tables.{setting_of};
ghost use Rattle.qc_desk.specs.Known.{IsKnown};
ghost use Rattle.qc_site.specs.Replica.{IsTableOf};

use qc_config::Tuple;
use qc_desk::{Pass, Store};
use qc_event::{Ask, Grant};
use qc_moss::Locks;
use std::marker::Model;

/// A copy at its desk. It is up where it has its locks. A grant may be in hand, which is not entered in the history yet.
#[derive(Drop)]
pub struct Replica<N: Store, const C: u8> {
    pub(crate) pass: Pass<N>,
    pub(crate) start: Vec<Tuple>,
    pub(crate) locks: Option<Locks>,
    pub(crate) hand: Option<Grant>,
}

impl<N: Store, const C: u8> Model for Replica<N, C> {
    ghost use Rattle.std.specs.Prelude.{is_some};
    ghost use Rattle.qc_event.specs.Tables.{setting_of};
    ghost use Rattle.qc_site.specs.Replica.{IsKept, Standing};

    ghost Value = { Standing };

    ghost view = { λ r. record { pass = r.pass; hand = r.hand; up = is_some r.locks } };

    ghost invariant = { λ r.
        IsKept (setting_of N.table N.base) C r.pass r.start.items r.locks r.hand };
}

/// The grant of a request, with a tuple.
pub(crate) fn grant_of(ask: &Ask, tuple: &Tuple) -> Grant
    ensures { result ≡ grant_with ask.now tuple.now }
{
    Grant {
        access: ask.access,
        rec: ask.rec,
        op: ask.op,
        tuple: *tuple,
    }
}

impl<N: Store, const C: u8> Replica<N, C> {
    /// A copy that is up and has granted nothing.
    pub(crate) fn new(pass: Pass<N>, start: Vec<Tuple>, locks: Locks) -> Self
        requires small { C < 16 }
        requires pass { (pass.live ≡ true) × (pass.number ≡ copy_seat C) }
        requires none_out { pass.out ≡ [] }
        requires none_joined { pass.kin ≡ [] }
        requires known { IsKnown (setting_of N.table N.base) pass }
        requires nothing { grants pass.seen C ≡ [] }
        requires starts { start.items ≡ slice_index_or N.base C [] }
        requires locks { IsTableOf start.items pass.seen C locks }
        ensures up { result.up ≡ true }
        ensures none { result.hand ≡ None }
        ensures pass { result.pass ≡ pass }
    {
        Replica {
            pass,
            start,
            locks: Some(locks),
            hand: None,
        }
    }

    /// Whether it is up.
    pub(crate) fn is_up(&self) -> bool
        ensures { result ≡ self.now.up }
    {
        self.locks.is_some()
    }

    /// The grant in hand.
    pub(crate) fn hand(&self) -> Option<Grant>
        ensures { result ≡ self.now.hand }
    {
        self.hand
    }

    /// Lets go of the grant in hand.
    pub(crate) fn drop_hand(&mut self)
        ensures none { self.new.hand ≡ None }
        ensures pass { self.new.pass ≡ self.old.pass }
        ensures up { self.new.up ≡ self.old.up }
    {
        self.hand = None;
    }

    /// Forgets its locks. The grant in hand stays.
    pub(crate) fn forget(&mut self)
        ensures down { self.new.up ≡ false }
        ensures hand { self.new.hand ≡ self.old.hand }
        ensures pass { self.new.pass ≡ self.old.pass }
    {
        self.locks = None;
    }

    /// Its pass.
    pub(crate) fn into_pass(self) -> Pass<N>
        ensures pass { result ≡ self.pass }
        ensures copy { (result.live ≡ true) × (result.number ≡ copy_seat C) × (result.out ≡ []) }
        ensures kin { result.kin ≡ [] }
        ensures known { IsKnown (setting_of N.table N.base) result }
        ensures may { IfSome self.hand (MayGrant (setting_of N.table N.base) self.pass.seen
            (copy_seat C) C) }
    {
        self.pass
    }
}
