//! What each manager's accesses asked.
ghost use Rattle.std.specs.Prelude.{◌≡◌, ℕ, ◌<◌, [], ◌∷◌, ◌++◌, OnOk, Some, length, reverse, slice_get};
ghost use Rattle.qc_event.specs.Base.{Setting};
ghost use Rattle.qc_event.specs.History as words;
ghost use Rattle.qc_event.specs.History.{Past};
ghost use Rattle.qc_event.specs.Legal.{Legal};
ghost use Rattle.qc_history.specs.Index.{IsOf};
ghost use Rattle.qc_looks.specs.Asks as asks;
ghost use Rattle.qc_looks.specs.Asks.{AreAsks, AreKept, OfAsks, listed};

use qc_event::{Ask, Entry, Event, Name};
use qc_history::Index;
use qc_scan::front;
use qc_trail::Trail;
use std::alloc::{AllocError, Global};

// Whose access asks by the entry.
fn manager_of(entry: &Entry) -> Option<Name>
    ensures { result ≡ asks.manager_of entry.now.event }
{
    match &entry.event {
        Event::Ask(ask) => Some(front(&ask.access)),
        _ => None,
    }
}

// The request, where the entry is one.
fn ask_of(entry: &Entry) -> Option<Ask>
    ensures { result ≡ asks.ask_of entry.now.event }
{
    match &entry.event {
        Event::Ask(ask) => Some(*ask),
        _ => None,
    }
}

// Lets the lists reach as far as a place.
fn reach(alloc: Global, lists: &mut Vec<Vec<u32>>, place: u32) -> Result<(), AllocError>
    ensures same { (i : ℕ) → listed lists.new.items i ≡ listed lists.old.items i }
    ensures reached { OnOk result (place < length lists.new.items) }
{
    while lists.len() <= place as usize {
        lists.push(Vec::new(alloc))?;
    }
    Ok(())
}

// Lists one more at a place.
fn append(lists: &mut Vec<Vec<u32>>, place: u32, at: u32) -> Result<(), AllocError>
    requires { place < length lists.old.items }
    ensures here { OnOk result
        (listed lists.new.items place ≡ listed lists.old.items place ++ at ∷ []) }
    ensures others { (i : ℕ) → (i ≡ place → ⊥) →
        listed lists.new.items i ≡ listed lists.old.items i }
{
    lists[place as usize].push(at)?;
    Ok(())
}

fn nth(items: &[u32], k: usize) -> Option<u32>
    ensures { result ≡ slice_get items.now k }
{
    match items.get(k) {
        Some(item) => Some(*item),
        None => None,
    }
}

/// Where each manager's accesses asked: beside the place of the manager's name, the places of these entries, in order.
#[derive(Debug, Drop)]
pub struct Asks {
    alloc: Global,
    lists: Vec<Vec<u32>>,
}

impl Asks {
    /// Those of no entries. It takes no memory.
    pub fn new(alloc: Global) -> Self
        ensures { AreAsks result [] }
    {
        Asks {
            alloc,
            lists: Vec::new(alloc),
        }
    }

    /// Takes in an entry that may come next, at its place. The index of names has it.
    pub fn push(&mut self, entry: &Entry, names: &Index, at: u32) -> Result<(), AllocError>
        ensures { OnOk result ((setting : Setting) → (past : Past) → AreAsks self.old past →
            IsOf names.now (entry.now ∷ past) → Legal setting (entry.now ∷ past) →
            at ≡ length past → AreAsks self.new (entry.now ∷ past)) }
    {
        let Some(manager) = manager_of(entry) else {
            return Ok(());
        };
        let Some(place) = names.place(&manager) else {
            return Ok(());
        };
        reach(self.alloc, &mut self.lists, place)?;
        append(&mut self.lists, place, at)
    }

    fn list(&self, place: u32) -> &[u32]
        ensures { result.now ≡ listed self.now.lists.items place }
    {
        match self.lists.get(place as usize) {
            Some(list) => list.as_slice(),
            None => &[],
        }
    }

    /// How often a manager's accesses asked.
    pub fn count(&self, names: &Index, m: &Name) -> usize
        ensures { OfAsks self.now names.now
            (λ past. result ≡ length (words.asks past m.now)) }
    {
        match names.place(m) {
            Some(place) => self.list(place).len(),
            None => 0,
        }
    }

    // Where a request of a manager's accesses stands among the entries.
    fn place_at(&self, names: &Index, m: &Name, k: usize) -> Option<u32>
        ensures { OfAsks self.now names.now
            (λ past. result ≡ slice_get (asks.asked_at past m.now) k) }
    {
        match names.place(m) {
            Some(place) => nth(self.list(place), k),
            None => None,
        }
    }

    /// A request of a manager's accesses, by its place among them, counted from 0.
    pub fn ask(&self, names: &Index, entries: &Trail, m: &Name, k: usize) -> Ask
        requires kept { AreKept self.now names.now (reverse entries.now) }
        requires within { k < length (words.asks (reverse entries.now) m.now) }
        ensures { slice_get (words.asks (reverse entries.now) m.now) k ≡ Some result }
    {
        let Some(at) = self.place_at(names, m, k) else {
            unreachable!();
        };
        match ask_of(&entries.at(at as usize)) {
            Some(ask) => ask,
            None => unreachable!(),
        }
    }
}
