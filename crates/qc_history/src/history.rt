//! The history of a desk, with the index of its names.
ghost use Rattle.std.specs.Prelude.{◌≡◌, ◌<◌, ◌≤◌, ◌∷◌, ◌++◌, [], vec_len, vec_capacity, IsErrOf, OnOk, OnErr, length, reverse};
ghost use Rattle.qc_event.specs.Base.{Setting};
ghost use Rattle.qc_event.specs.Dead as dead_words;
ghost use Rattle.qc_event.specs.History as words;
ghost use Rattle.qc_event.specs.History.{limit};
ghost use Rattle.qc_event.specs.Legal.{Legal};
ghost use Rattle.qc_event.specs.Standing.{open_child};
ghost use Rattle.qc_names.specs.Name.{longest};
ghost use Rattle.qc_history.specs.Index.{IsOf};
ghost use Rattle.qc_history.specs.Indexes.{AreOf};
ghost use Rattle.qc_history.specs.Looking.{WhereLegal};

use crate::index::Index;
use crate::indexes::Indexes;
use qc_event::{Entry, Event, How, LIMIT, Name, Outcome, Short};
use qc_trail::Trail;
use std::alloc::{AllocError, Global};
use std::marker::Model;

// The place of an entry's name among those of the started transactions, where most entries are of one. Where it is not
// told, the trail keeps the name once more.
fn place_in(index: &Index, event: &Event) -> Option<u32> {
    match event {
        Event::Ask(ask) => index.place(&ask.access),
        Event::Granted { grant, .. } => index.place(&grant.access),
        Event::Ready { top } => index.place(top),
        Event::End { name, .. } => index.place(name),
        Event::Start { .. }
        | Event::Gone { .. }
        | Event::Refused { .. }
        | Event::Unable { .. }
        | Event::Mark { .. } => None,
    }
}

// How a name ended, where the entry is its end.
fn end_in(entry: &Entry, n: &Name) -> Option<How>
    ensures { result ≡ words.end_in n.now entry.now.event }
{
    match &entry.event {
        Event::End { name, how } if name == n => Some(*how),
        _ => None,
    }
}

/// A legal history with its indexes. Contracts see it with its latest entry first. How a name stands is found by the
/// index of names, in a step for each of the name's numbers, however long the history is; no other look scans it either.
#[derive(Debug, Drop)]
pub struct History {
    pub(crate) entries: Trail,
    pub(crate) index: Index,
    pub(crate) beside: Indexes,
}

impl Model for History {
    ghost use Rattle.std.specs.Prelude.{List, ◌≤◌, length, reverse};
    ghost use Rattle.qc_event.specs.declared.event.Entry.{Entry};
    ghost use Rattle.qc_event.specs.History.{limit};
    ghost use Rattle.qc_history.specs.Index.{IsOf};
    ghost use Rattle.qc_history.specs.Indexes.{AreOf};
    ghost use Rattle.qc_history.specs.Indexes.{AreOf};

    ghost Value = { List Entry };

    ghost view = { λ h. reverse h.entries };

    ghost invariant = { λ h. (length h.entries ≤ limit)
        × IsOf h.index (reverse h.entries) × AreOf h.beside (reverse h.entries) };
}

impl History {
    /// An empty history. It takes no memory.
    pub fn new(alloc: Global) -> Self
        ensures { result ≡ [] }
    {
        History {
            entries: Trail::new(alloc),
            index: Index::new(alloc),
            beside: Indexes::new(alloc),
        }
    }

    /// How many entries there are.
    pub fn len(&self) -> usize
        ensures length { result ≡ length self.now }
        ensures bounded { length self.now ≤ limit }
    {
        self.entries.len()
    }

    /// The index of the names.
    pub fn names(&self) -> &Index
        ensures { IsOf result.now self.now }
    {
        &self.index
    }

    /// The entries, the oldest first.
    pub fn entries(&self) -> &Trail
        ensures { reverse result.now ≡ self.now }
    {
        &self.entries
    }

    /// What is kept beside the index.
    pub fn beside(&self) -> &Indexes
        ensures { AreOf result.now self.now }
    {
        &self.beside
    }

    fn take_in(&mut self, entry: &Entry) -> Result<(), AllocError>
        requires legal { (setting : Setting) × Legal setting (entry.now ∷ self.old) }
        requires room { length self.old < limit }
        ensures ok { OnOk result (self.new ≡ entry.now ∷ self.old) }
        ensures err { OnErr result (self.new ≡ self.old) }
    {
        let at = self.entries.len() as u32;
        self.beside.make_room(entry, &self.index, at)?;
        let place = place_in(&self.index, &entry.event);
        self.entries.push(entry, place)?;
        if let Err(AllocError) = self.index.push(entry) {
            self.entries.pop();
            return Err(AllocError);
        }
        self.beside.push(entry, &self.index, at);
        Ok(())
    }

    /// Takes in an entry that may come next; `Room` comes exactly where the history takes no more. An error leaves
    /// the history as it was.
    pub fn push(&mut self, entry: &Entry) -> Result<(), Short>
        requires legal { (setting : Setting) × Legal setting (entry.now ∷ self.old) }
        ensures ok { OnOk result (self.new ≡ entry.now ∷ self.old) }
        ensures err { OnErr result (self.new ≡ self.old) }
        ensures room { IsErrOf result Short.Room → length self.old ≡ limit }
        ensures full { length self.old ≡ limit → IsErrOf result Short.Room }
    {
        if self.entries.len() >= LIMIT {
            return Err(Short::Room);
        }
        match self.take_in(entry) {
            Ok(()) => Ok(()),
            Err(AllocError) => Err(Short::Memory),
        }
    }

    /// How a name stands.
    pub fn outcome(&self, name: &Name) -> Outcome
        ensures { WhereLegal self.now (result ≡ dead_words.outcome self.now name.now) }
    {
        self.index.outcome(name)
    }

    /// How a name ended.
    pub fn end(&self, name: &Name) -> Option<How>
        ensures { WhereLegal self.now (result ≡ words.end self.now name.now) }
    {
        let Some(at) = self.index.end(name) else {
            return None;
        };
        match self.entries.get(at as usize) {
            Some(entry) => end_in(&entry, name),
            None => None,
        }
    }

    /// The shortest aborted ancestor of a name.
    pub fn dead(&self, name: &Name) -> Option<Name>
        ensures { WhereLegal self.now (result ≡ dead_words.dead self.now name.now) }
    {
        self.index.dead(name)
    }

    /// Whether a name is ready.
    pub fn is_ready(&self, name: &Name) -> bool
        ensures { WhereLegal self.now (result ≡ words.is_ready self.now name.now) }
    {
        self.index.is_ready(name)
    }

    /// How many children of a name have started.
    pub fn children(&self, name: &Name) -> usize
        requires { 0 < length name.now }
        ensures { WhereLegal self.now (result ≡ length (words.children self.now name.now)) }
    {
        self.index.children(name)
    }

    /// How many tops have started.
    pub fn tops(&self) -> usize
        ensures { WhereLegal self.now (result ≡ length (words.children self.now [])) }
    {
        self.index.tops()
    }

    /// The first started child of a name that has no end. It reads each child up to that.
    pub fn open_child(&self, name: &Name) -> Option<Name>
        requires below_a_top { 0 < length name.now }
        requires room { length name.now < longest }
        ensures { WhereLegal self.now (result ≡ open_child self.now name.now) }
    {
        self.index.open_child(name)
    }

    /// The entries, the oldest first. It takes no memory.
    pub fn into_trail(self) -> Trail
        ensures entries { reverse result ≡ self }
        ensures bounded { length result ≤ limit }
    {
        self.entries
    }
}
