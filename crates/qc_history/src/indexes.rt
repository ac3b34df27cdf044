//! All that is kept beside a history.
ghost use Rattle.std.specs.Prelude.{◌≡◌, ◌<◌, [], ◌∷◌, OnOk, IfOk, is_none, length, option_and_then, reverse, slice_get};
ghost use Rattle.qc_event.specs.Base.{Setting};
ghost use Rattle.qc_event.specs.History.{Past, limit, granted, grants, refused};
ghost use Rattle.qc_event.specs.Legal.{Legal};
ghost use Rattle.qc_event.specs.Listed.{aborted_below};
ghost use Rattle.qc_event.specs.Standing.{open_child};
ghost use Rattle.qc_event.specs.Users.{is_marked, top_number};
ghost use Rattle.qc_history.specs.Index.{IsOf};
ghost use Rattle.qc_history.specs.Standing.{OfEach};
ghost use Rattle.qc_history.specs.Growing.{CanFollow};
ghost use Rattle.qc_history.specs.Grants.{Differs, put_at, tuple_at};
ghost use Rattle.qc_history.specs.Indexes.{AreOf, AreKept, AreReady, IndexesHaveRoom, OfEntries};

use crate::aborts::Aborts;
use crate::answered::{granted_name, refusal_of, refused_name, tuple_of};
use crate::firsts::Firsts;
use crate::grants::Grants;
use crate::index::Index;
use crate::marks::Marks;
use crate::opens::Opens;
use qc_event::{Entry, Grant, Name, Refusal, Tuple};
use qc_trail::Trail;
use std::alloc::{AllocError, Global};

/// What is kept beside a history and the index of its names, so that no look goes over the entries.
#[derive(Debug, Drop)]
pub struct Indexes {
    alloc: Global,
    pub(crate) opens: Opens,
    pub(crate) refusals: Firsts,
    pub(crate) first_grants: Firsts,
    pub(crate) marks: Marks,
    pub(crate) aborts: Aborts,
    pub(crate) grants: Grants,
}

impl Indexes {
    /// Those of no entries. It takes no memory.
    pub fn new(alloc: Global) -> Self
        ensures { AreOf result [] }
    {
        Indexes {
            alloc,
            opens: Opens::new(),
            refusals: Firsts::new(alloc),
            first_grants: Firsts::new(alloc),
            marks: Marks::new(),
            aborts: Aborts::new(alloc),
            grants: Grants::new(alloc),
        }
    }

    /// Makes room for an entry that may come next, at its place; the index of names does not have it yet. They stay
    /// those of the same history, after an error too. It takes memory for a refusal, a grant and an abort below a top.
    pub fn make_room(&mut self, entry: &Entry, names: &Index, at: u32) -> Result<(), AllocError>
        ensures same { (past : Past) → AreOf self.old past → AreOf self.new past }
        ensures room { OnOk result (OfEach (IsOf names.now) (λ past. at ≡ length past →
            IndexesHaveRoom entry.now past self.new)) }
    {
        self.refusals.make_room(refused_name(entry), names)?;
        self.first_grants.make_room(granted_name(entry), names)?;
        self.aborts.make_room(entry, names, at)?;
        self.grants.make_room(entry)
    }

    /// Takes in an entry that may come next, for which room was made, at its place. The index of names has it. It
    /// takes no memory.
    pub fn push(&mut self, entry: &Entry, names: &Index, at: u32)
        requires follows { CanFollow (AreReady self.old entry.now) entry.now }
        requires at { at < limit }
        ensures { (setting : Setting) → (past : Past) → AreReady self.old entry.now past →
            IsOf names.now (entry.now ∷ past) → Legal setting (entry.now ∷ past) →
            at ≡ length past → AreOf self.new (entry.now ∷ past) }
    {
        self.opens.push(entry);
        self.refusals.push(refused_name(entry), names, at);
        self.first_grants.push(granted_name(entry), names, at);
        self.marks.push(entry);
        self.aborts.push(entry, names, at);
        self.grants.push(entry, at);
    }

    /// Whether each started top has its end.
    pub fn settled(&self) -> bool
        ensures { OfEach (AreOf self.now) (λ past. result ≡ is_none (open_child past [])) }
    {
        self.opens.is_none()
    }

    /// The first refusal of an access.
    pub fn refusal(&self, names: &Index, entries: &Trail, access: &Name) -> Option<Refusal>
        ensures { OfEntries self.now names.now (reverse entries.now)
            (λ past. result ≡ refused past access.now) }
    {
        match self.refusals.first(names, entries, access) {
            Some(entry) => refusal_of(&entry),
            None => None,
        }
    }

    /// The tuple that an access was granted first, where it was at this copy.
    pub fn granted(&self, names: &Index, entries: &Trail, copy: u8, access: &Name) -> Option<Tuple>
        ensures { OfEntries self.now names.now (reverse entries.now)
            (λ past. result ≡ option_and_then (tuple_at copy) (granted past access.now)) }
    {
        match self.first_grants.first(names, entries, access) {
            Some(entry) => tuple_of(&entry, copy),
            None => None,
        }
    }

    /// Whether a session is marked by a transaction whose top has at least the number of a name's top.
    pub fn marked(&self, session: u8, name: &Name) -> bool
        ensures { OfEach (AreOf self.now)
            (λ past. result ≡ is_marked past session (top_number name.now)) }
    {
        self.marks.reach(session, name)
    }

    /// The aborted descendants of a top whose parent is not aborted, in the order of their ends. It reads each abort
    /// below the top once, those below an aborted name too. The only error is want of memory for the list.
    pub fn aborted_below(
        &self,
        names: &Index,
        entries: &Trail,
        top: &Name,
    ) -> Result<Vec<Name>, AllocError>
        requires kept { AreKept self.now names.now (reverse entries.now) }
        requires top { length top.now ≡ 1 }
        ensures { IfOk result (λ found.
            found.items ≡ aborted_below (reverse entries.now) top.now) }
    {
        self.aborts.below(self.alloc, names, entries, top)
    }

    /// How many grants a copy gave. It reads none of them.
    pub fn count_of(&self, entries: &Trail, copy: u8) -> usize
        requires { AreOf self.now (reverse entries.now) }
        ensures { result ≡ length (grants (reverse entries.now) copy) }
    {
        self.grants.count_of(entries, copy)
    }

    /// The grant of a copy at an index, in the order in which it gave them, where that is one of a put. It reads that
    /// one.
    pub fn put_at(&self, entries: &Trail, copy: u8, index: usize) -> Option<Grant>
        requires { AreOf self.now (reverse entries.now) }
        ensures { result ≡ put_at (grants (reverse entries.now) copy) index }
    {
        self.grants.put_at(entries, copy, index)
    }

    /// A copy's grants, in order. It reads each of them once. The only error is want of memory for the list.
    pub fn of_copy(&self, entries: &Trail, copy: u8) -> Result<Vec<Grant>, AllocError>
        requires kept { AreOf self.now (reverse entries.now) }
        requires small { copy < 16 }
        ensures { IfOk result (λ given. given.items ≡ grants (reverse entries.now) copy) }
    {
        self.grants.of_copy(self.alloc, entries, copy)
    }

    /// The first of a copy's grants where another or none was given, with its index. It reads each grant of the copy
    /// once.
    pub fn differ(&self, entries: &Trail, copy: u8, given: &[Grant]) -> Option<(usize, Grant)>
        requires kept { AreOf self.now (reverse entries.now) }
        requires small { copy < 16 }
        ensures { Differs given.now (grants (reverse entries.now) copy) result }
    {
        self.grants.differ(entries, copy, given)
    }
}
