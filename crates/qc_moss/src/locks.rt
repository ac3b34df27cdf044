//! The locks of a copy.
ghost use Rattle.std.specs.Prelude.{ℕ, false, List, ◌∷◌, ◌++◌, [], ◌≡◌, ◌<◌, true, IsTrue, IfOk, OnOk, OnErr, length, fold, vec_len, vec_capacity, All};
ghost use Rattle.qc_names.specs.Name.{front};
ghost use Rattle.qc_config.specs.Tuple.{after};
ghost use Rattle.qc_event.specs.History.{Past};
ghost use Rattle.qc_event.specs.declared.event.Grant.{Grant};
ghost use Rattle.qc_moss.specs.Follows.{TableFollows, IsSettled};
ghost use Rattle.qc_moss.specs.Locks as locks;
ghost use Rattle.qc_moss.specs.Locks.{StaysAt};

use crate::holder::Holder;
use crate::settling::{fold_first, settle_list};
use crate::source::Source;
use qc_config::{Op, Tuple};
use qc_names::Name;
use qc_names::lists::add;
use std::alloc::{AllocError, Global};
use std::marker::Model;

/// Whether an access may have a lock.
#[derive(Clone, Copy, Debug)]
pub enum Test {
    /// No lock is in its way.
    Free,
    /// The access of the first lock that is in its way.
    Held(Name),
}

/// The locks of one copy, for each record in order of their first grants. When a transaction commits its parent
/// inherits its locks and what was done under them; when it aborts they go, and what was there before stands
/// (Moss). All this is done to a record's locks when they are asked for, by `settle_by`. What has come to the root
/// first is folded into the record's tuple.
#[derive(Debug, Drop)]
pub struct Locks {
    start: Vec<Tuple>,
    base: Vec<Tuple>,
    held: Vec<Vec<Holder>>,
    reserved: bool,
}

impl Model for Locks {
    ghost use Rattle.std.specs.Prelude.{◌≡◌, true, All, vec_len};
    ghost use Rattle.qc_moss.specs.Locks.{Table, HoldersHaveRoom, lists};

    ghost Value = { Table };

    ghost view = { λ l. record { start = l.start.items; base = l.base.items; held = lists l.held.items; reserved = l.reserved } };

    ghost invariant = { λ l. record {
      same_length : vec_len l.held ≡ vec_len l.start;
      same_base : vec_len l.base ≡ vec_len l.start;
      has_room : l.reserved ≡ true → All HoldersHaveRoom l.held.items;
    } };
}

fn first_barred(held: &[Holder], access: &Name, write: bool) -> Test
    ensures { result ≡ locks.test_by (locks.first_in_way access.now write held.now) }
{
    for holder in held {
        if let Some(first) = holder.in_way(access, write) {
            return Test::Held(first);
        }
    }
    Test::Free
}

fn all_effects(base: &Tuple, held: &[Holder]) -> Tuple
    ensures { result ≡ fold locks.effect base.now held.now }
{
    let mut tuple = *base;
    for holder in held {
        tuple = holder.effect(&tuple);
    }
    tuple
}

fn make_room(held: &mut [Vec<Holder>]) -> Result<(), AllocError>
    ensures holders { locks.lists held.new ≡ locks.lists held.old }
    ensures room { OnOk result (All locks.HoldersHaveRoom held.new) }
{
    for list in held.iter_mut() {
        list.reserve(1)?;
    }
    Ok(())
}

impl Locks {
    /// A table without locks, of the tuples with which the records start.
    pub fn new(alloc: Global, start: Vec<Tuple>) -> Result<Self, AllocError>
        ensures { IfOk result (λ l. l ≡ locks.unheld start.items) }
    {
        let mut held = Vec::new(alloc);
        for _ in 0..start.len() {
            held.push(Vec::new(alloc))?;
        }
        Ok(Locks {
            base: start.to_vec(alloc)?,
            start,
            held,
            reserved: false,
        })
    }

    /// How many records there are.
    pub fn records(&self) -> usize
        ensures records { result ≡ length self.now.start }
        ensures lists { length self.now.held ≡ length self.now.start }
    {
        self.held.len()
    }

    /// The locks of a record, in order of their first grants, without what was folded into its tuple.
    pub fn holders(&self, rec: u8) -> &[Holder]
        requires { rec < length self.now.start }
        ensures { result.now ≡ locks.holders_of self.now rec }
    {
        self.held[rec as usize].as_slice()
    }

    /// Whether an access may read a record, or write it, by the locks that others hold: one that is no
    /// ancestor of it bars its reads by a write lock, and its writes by any lock (Moss).
    pub fn test(&self, access: &Name, rec: u8, write: bool) -> Test
        requires { rec < length self.now.start }
        ensures { result ≡ locks.test_of self.now access.now rec write }
    {
        first_barred(self.holders(rec), access, write)
    }

    /// What the copy has of a record: its start tuple, changed by what was folded and then by what was done under
    /// each lock, in order.
    pub fn seen_by(&self, rec: u8) -> Tuple
        requires { rec < length self.now.start }
        ensures { result ≡ locks.tuple_of self.now rec }
    {
        all_effects(&self.base[rec as usize], self.holders(rec))
    }

    /// Makes room for one more lock of any record. An error leaves all as it was.
    pub fn reserve(&mut self) -> Result<(), AllocError>
        ensures ok { OnOk result (self.new ≡ record self.old { reserved = true }) }
        ensures err { OnErr result (self.new ≡ self.old) }
    {
        if self.reserved {
            return Ok(());
        }
        make_room(&mut self.held)?;
        self.reserved = true;
        Ok(())
    }

    /// Gives an access a lock of a record, though others be in its way. It takes the room that was reserved.
    pub fn hold(&mut self, access: &Name, rec: u8, op: &Op)
        requires reserved { IsTrue self.old.reserved }
        requires within { rec < length self.old.start }
        ensures granted { self.new ≡ locks.granted_to self.old access.now rec op.now }
        ensures lists { length self.old.held ≡ length self.old.start }
    {
        add(&mut self.held[rec as usize], Holder::alone(access, op));
        self.reserved = false;
    }

    /// Gives an access a lock of a record, though others be in its way, and answers the tuple there after
    /// its operation. It takes the room that was reserved.
    pub fn grant(&mut self, access: &Name, rec: u8, op: &Op) -> Tuple
        requires reserved { IsTrue self.old.reserved }
        requires within { rec < length self.old.start }
        ensures tuple { result ≡ after (locks.tuple_of self.old rec) op.now }
        ensures granted { self.new ≡ locks.granted_to self.old access.now rec op.now }
        ensures lists { length self.old.held ≡ length self.old.start }
    {
        let tuple = self.seen_by(rec).after(op);
        self.hold(access, rec, op);
        tuple
    }

    /// Settles the locks of one record by what a source tells: each goes up as far as it was inherited, those of
    /// the dead go, and what has come to one transaction is one lock, unless something was put under another in
    /// between. What the root holds first is folded into the record's tuple. It takes no memory, and asks once for
    /// each lock of the record who made its holder dead, and for each transaction on the way up how it stands.
    pub fn settle_by<S: Source>(&mut self, rec: u8, source: &S)
        requires { rec < length self.old.start }
        ensures start { self.new.start ≡ self.old.start }
        ensures reserved { self.new.reserved ≡ self.old.reserved }
        ensures lists { length self.new.held ≡ length self.old.held }
        ensures others { (other : ℕ) → (other ≡ rec → ⊥) → StaysAt self.old self.new other }
        ensures follows { (past : Past) (given : List Grant) → S.tells source.now past
            → TableFollows past given self.old → TableFollows past given self.new }
        ensures settled { (past : Past) → S.tells source.now past → IsSettled past self.new rec }
        ensures short { locks.is_short (locks.holders_of self.new rec) ≡ true }
        ensures folded { locks.is_first_root (locks.holders_of self.new rec) ≡ false }
    {
        let list = &mut self.held[rec as usize];
        settle_list(list, source);
        fold_first(list, &mut self.base[rec as usize]);
    }
}
