//! A history's entries.
ghost use Rattle.std.specs.Prelude.{◌≡◌, ◌<◌, ◌-◌, ◌↔◌, [], ◌∷◌, ◌++◌, length, option_to_list, take, slice_get, vec_len, vec_capacity, IfOk, IsTrue, Some, OnOk, OnErr};
ghost use Rattle.std.specs.Option.{option_map};
ghost use Rattle.qc_event.specs.declared.event.Entry.{Entry};
ghost use Rattle.qc_trail.specs.Outline.{outline_of};

use crate::brief::BriefEntry;
use crate::lists::Lists;
use crate::outline::Outline;
use qc_event::Entry;
use qc_names::lists::{add, append_some, make_room};
use std::alloc::{AllocError, Global};
use std::marker::Model;

/// The entries of a history, the oldest first. An entry takes 40 bytes where `Entry` takes more than 2,000; beside that
/// a name is kept for each started transaction, a tuple and a text for each that is not the one before it, and what is
/// seldom.
#[derive(Debug, Drop)]
pub struct Trail {
    lists: Lists,
    briefs: Vec<BriefEntry>,
}

impl Model for Trail {
    ghost use Rattle.std.specs.Prelude.{List, map};
    ghost use Rattle.qc_event.specs.declared.event.Entry.{Entry};
    ghost use Rattle.qc_trail.specs.Told.{AreWithin, told};

    ghost Value = { List Entry };

    ghost view = { λ t. map (told t.lists) t.briefs.items };

    ghost invariant = { λ t. AreWithin t.lists t.briefs.items };
}

fn drop_last<T: Copy>(items: &mut Vec<T>)
    ensures { items.new.items ≡ take (length items.old.items - 1) items.old.items }
{
    items.truncate(items.len().saturating_sub(1));
}

impl Trail {
    /// No entries. It takes no memory.
    pub fn new(alloc: Global) -> Self
        ensures { result ≡ [] }
    {
        Trail {
            lists: Lists::new(alloc),
            briefs: Vec::new(alloc),
        }
    }

    /// How many entries there are.
    pub fn len(&self) -> usize
        ensures { result ≡ length self.now }
    {
        self.briefs.len()
    }

    /// Whether there are none.
    pub fn is_empty(&self) -> bool
        ensures { IsTrue result ↔ (self.now ≡ []) }
    {
        self.briefs.is_empty()
    }

    /// The entry at a place, counted from 0.
    pub fn get(&self, at: usize) -> Option<Entry>
        ensures { result ≡ slice_get self.now at }
    {
        match self.briefs.get(at) {
            Some(brief) => Some(Entry {
                seat: brief.seat,
                event: self.lists.event(&brief.event),
            }),
            None => None,
        }
    }

    /// The entry at a place, counted from 0, that is within.
    pub fn at(&self, at: usize) -> Entry
        requires { at < length self.now }
        ensures { slice_get self.now at ≡ Some result }
    {
        let brief = &self.briefs[at];
        Entry {
            seat: brief.seat,
            event: self.lists.event(&brief.event),
        }
    }

    /// What the entry at a place is of, counted from 0, that is within. It builds no event.
    pub fn outline(&self, at: usize) -> Outline
        requires { at < length self.now }
        ensures { option_map (λ (e : Entry). outline_of e.event) (slice_get self.now at)
            ≡ Some result }
    {
        self.lists.outline(&self.briefs[at].event)
    }

    /// Adds an entry. The place is where its name may stand among those of the started transactions, in order of their
    /// starts: with the right one less memory is taken. An error leaves the trail as it was.
    pub fn push(&mut self, entry: &Entry, place: Option<u32>) -> Result<(), AllocError>
        ensures ok { OnOk result (self.new ≡ self.old ++ entry.now ∷ []) }
        ensures err { OnErr result (self.new ≡ self.old) }
    {
        make_room(&mut self.briefs)?;
        match self.lists.brief(&entry.event, place) {
            Ok(event) => {
                let seat = entry.seat;
                add(&mut self.briefs, BriefEntry { seat, event });
                Ok(())
            }
            Err(AllocError) => Err(AllocError),
        }
    }

    /// Takes the last entry away, where there is one.
    pub fn pop(&mut self)
        ensures { self.new ≡ take (length self.old - 1) self.old }
    {
        drop_last(&mut self.briefs);
    }

    /// The entries, each as it is.
    pub fn to_vec(&self, alloc: Global) -> Result<Vec<Entry>, AllocError>
        ensures { IfOk result (λ entries. entries.items ≡ self.now) }
    {
        let mut entries = Vec::new(alloc);
        for at in 0..self.len() {
            append_some(&mut entries, self.get(at))?;
        }
        Ok(entries)
    }
}
