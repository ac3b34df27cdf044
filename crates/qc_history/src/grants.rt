//! What each copy granted.
ghost use Rattle.std.specs.Prelude.{◌≡◌, ◌↔◌, ℕ, ◌<◌, [], ◌∷◌, ◌++◌, IfOk, OnOk, IsTrue, None, Some, length, reverse, slice_get, vec_len, vec_capacity};
ghost use Rattle.qc_event.specs.declared.event.Grant.{Grant};
ghost use Rattle.qc_event.specs.History.{Past, grants};
ghost use Rattle.qc_history.specs.Grants as words;
ghost use Rattle.qc_history.specs.Grants.{AreGrants, Differs, HasSpare, granted_at, listed, put_at};

use qc_event::{Entry, Event, Grant};
use qc_names::lists::append_some;
use qc_trail::{Outline, Trail};
use std::alloc::{AllocError, Global};

// The copy that grants, where the entry is a grant.
fn copy_of(entry: &Entry) -> Option<u8>
    ensures { result ≡ granted_at entry.now.event }
{
    match &entry.event {
        Event::Granted { copy, .. } => Some(*copy),
        _ => None,
    }
}

// The grant, where the entry is one.
fn grant_of(entry: &Entry) -> Option<Grant>
    ensures { result ≡ words.grant_of entry.now.event }
{
    match &entry.event {
        Event::Granted { grant, .. } => Some(*grant),
        _ => None,
    }
}

fn same_grant(a: &Grant, b: &Grant) -> bool
    ensures { IsTrue result ↔ (a.now ≡ b.now) }
{
    a.access == b.access && a.rec == b.rec && a.op == b.op && a.tuple == b.tuple
}

// The grant at an index, where another or none was given there.
fn other_at(given: &[Grant], index: usize, grant: Option<Grant>) -> Option<(usize, Grant)>
    ensures same { (g : Grant) → grant ≡ Some g → result ≡ None →
        slice_get given.now index ≡ Some g }
    ensures other { (g : Grant) → (found : ℕ × Grant) → grant ≡ Some g → result ≡ Some found →
        (found ≡ (index, g)) × (slice_get given.now index ≡ Some g → ⊥) }
{
    let Some(grant) = grant else {
        return None;
    };
    match given.get(index) {
        Some(other) if same_grant(other, &grant) => None,
        _ => Some((index, grant)),
    }
}

/// The places of one copy's grants among the entries, in order.
#[derive(Debug, Drop)]
pub struct Places {
    places: Vec<u32>,
}

impl Places {
    fn new(alloc: Global) -> Self
        ensures { result.places.items ≡ [] }
    {
        Places {
            places: Vec::new(alloc),
        }
    }

    fn make_room(&mut self) -> Result<(), AllocError>
        ensures same { self.new.places.items ≡ self.old.places.items }
        ensures room { OnOk result (vec_len self.new.places < vec_capacity self.new.places) }
    {
        self.places.reserve(1)
    }

    fn push(&mut self, at: u32)
        requires { vec_len self.old.places < vec_capacity self.old.places }
        ensures { self.new.places.items ≡ self.old.places.items ++ at ∷ [] }
    {
        self.places.push_reserved(at);
    }
}

// Lets the lists of copies reach as far as a copy's.
fn reach_copy(alloc: Global, copies: &mut Vec<Places>, copy: u8) -> Result<(), AllocError>
    ensures same { (c : ℕ) → listed copies.new.items c ≡ listed copies.old.items c }
    ensures reached { OnOk result (copy < length copies.new.items) }
{
    while copies.len() <= copy as usize {
        copies.push(Places::new(alloc))?;
    }
    Ok(())
}

/// What each copy granted: the places of its grants among the entries.
#[derive(Debug, Drop)]
pub struct Grants {
    alloc: Global,
    copies: Vec<Places>,
}

impl Grants {
    /// Those of no entries. It takes no memory.
    pub(crate) fn new(alloc: Global) -> Self
        ensures { AreGrants result [] }
    {
        Grants {
            alloc,
            copies: Vec::new(alloc),
        }
    }

    /// Makes room for an entry, of the same history; for one that is no grant it takes no memory.
    pub(crate) fn make_room(&mut self, entry: &Entry) -> Result<(), AllocError>
        ensures same { (past : Past) → AreGrants self.old past → AreGrants self.new past }
        ensures room { OnOk result (HasSpare entry.now.event self.new.copies.items) }
    {
        let Some(copy) = copy_of(entry) else {
            return Ok(());
        };
        reach_copy(self.alloc, &mut self.copies, copy)?;
        self.copies[copy as usize].make_room()
    }

    /// Takes in an entry, for which there is room, at its place.
    pub(crate) fn push(&mut self, entry: &Entry, at: u32)
        requires room { HasSpare entry.now.event self.old.copies.items }
        ensures { (past : Past) → AreGrants self.old past → at ≡ length past →
            AreGrants self.new (entry.now ∷ past) }
    {
        let Some(copy) = copy_of(entry) else {
            return;
        };
        self.copies[copy as usize].push(at);
    }

    // The places of a copy's grants.
    fn places(&self, copy: u8) -> &[u32]
        ensures { result.now ≡ listed self.now.copies.items copy }
    {
        match self.copies.get(copy as usize) {
            Some(list) => list.places.as_slice(),
            None => &[],
        }
    }

    /// How many grants a copy gave. It reads none of them.
    pub(crate) fn count_of(&self, entries: &Trail, copy: u8) -> usize
        requires kept { AreGrants self.now (reverse entries.now) }
        ensures { result ≡ length (grants (reverse entries.now) copy) }
    {
        self.places(copy).len()
    }

    /// The grant of a copy at an index, in the order in which it gave them, where that is one of a put. It builds no
    /// other.
    pub(crate) fn put_at(&self, entries: &Trail, copy: u8, index: usize) -> Option<Grant>
        requires kept { AreGrants self.now (reverse entries.now) }
        ensures { result ≡ put_at (grants (reverse entries.now) copy) index }
    {
        let places = self.places(copy);
        if index >= places.len() {
            return None;
        }
        let at = places[index] as usize;
        match entries.outline(at) {
            Outline::Put => grant_of(&entries.at(at)),
            _ => None,
        }
    }

    /// A copy's grants, in order. It reads each of them once. The only error is want of memory for the list.
    pub(crate) fn of_copy(
        &self,
        alloc: Global,
        entries: &Trail,
        copy: u8,
    ) -> Result<Vec<Grant>, AllocError>
        requires kept { AreGrants self.now (reverse entries.now) }
        ensures { IfOk result (λ given. given.items ≡ grants (reverse entries.now) copy) }
    {
        let mut given = Vec::new(alloc);
        for place in self.places(copy) {
            append_some(&mut given, grant_of(&entries.at(*place as usize)))?;
        }
        Ok(given)
    }

    /// The first of a copy's grants where another or none was given, with its index. It reads each grant of the copy
    /// up to that.
    pub(crate) fn differ(
        &self,
        entries: &Trail,
        copy: u8,
        given: &[Grant],
    ) -> Option<(usize, Grant)>
        requires kept { AreGrants self.now (reverse entries.now) }
        ensures { Differs given.now (grants (reverse entries.now) copy) result }
    {
        for (index, place) in self.places(copy).iter().enumerate() {
            let grant = grant_of(&entries.at(*place as usize));
            if let Some(found) = other_at(given, index, grant) {
                return Some(found);
            }
        }
        None
    }
}
