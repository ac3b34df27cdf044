//! Who was aborted below each top.
ghost use Rattle.std.specs.Prelude.{◌≡◌, ◌+◌, ◌<◌, [], ◌∷◌, ◌++◌, length, reverse, OnOk, IfOk, option_to_list};
ghost use Rattle.qc_names.specs.Name as names_words;
ghost use Rattle.qc_event.specs.Base.{Setting};
ghost use Rattle.qc_event.specs.History.{Past, limit};
ghost use Rattle.qc_event.specs.Legal.{Legal};
ghost use Rattle.qc_event.specs.Listed as listed;
ghost use Rattle.qc_event.specs.Listed.{aborted_below};
ghost use Rattle.qc_history.specs.Index.{IsOf};
ghost use Rattle.qc_history.specs.Standing.{OfEach};
ghost use Rattle.qc_history.specs.Aborts.{AreAborts, HaveRoomFor, last_abort, top_name};

use crate::index::Index;
use crate::slots::{reach, reach_name, set_slot, slot};
use qc_event::{Entry, Event, How, Name};
use qc_names::lists::{append_some, turn};
use qc_trail::Trail;
use std::alloc::{AllocError, Global};

// The top below which the entry aborts a name.
fn top_of(entry: &Entry) -> Option<Name>
    ensures { result ≡ top_name entry.now.event }
{
    match &entry.event {
        Event::End {
            name,
            how: How::Abort(_),
        } if name.len() > 1 => Some(name.ancestor(1)),
        _ => None,
    }
}

fn front(name: &Name) -> Name
    ensures { result ≡ names_words.front name.now }
{
    match name.parent() {
        Some(parent) => parent,
        None => *name,
    }
}

// The name that the entry aborts below a top, where its parent is not aborted.
fn aborted_in(names: &Index, entry: &Entry, top: &Name) -> Option<Name>
    ensures { OfEach (IsOf names.now)
        (λ past. result ≡ listed.aborted_in past top.now entry.now.event) }
{
    match &entry.event {
        Event::End {
            name,
            how: How::Abort(_),
        } if top.is_ancestor(name) && top != name && !names.outcome(&front(name)).is_aborted() =>
            Some(*name),
        _ => None,
    }
}

/// Who was aborted below each top: beside the place of the top's name, one more than the place of the last such entry,
/// and beside each such entry the same of the one before it.
#[derive(Debug, Drop)]
pub struct Aborts {
    last: Vec<u32>,
    before: Vec<u32>,
}

impl Aborts {
    /// Those of no entries. It takes no memory.
    pub(crate) fn new(alloc: Global) -> Self
        ensures { AreAborts result [] }
    {
        Aborts {
            last: Vec::new(alloc),
            before: Vec::new(alloc),
        }
    }

    /// Makes room for an entry at a place, of the same history; for one that aborts no name below a top it takes no
    /// memory.
    pub(crate) fn make_room(
        &mut self,
        entry: &Entry,
        names: &Index,
        at: u32,
    ) -> Result<(), AllocError>
        ensures same { (past : Past) → AreAborts self.old past → AreAborts self.new past }
        ensures room { OnOk result (OfEach (IsOf names.now) (λ past. at ≡ length past →
            HaveRoomFor entry.now past self.new.last.items self.new.before.items)) }
    {
        let Some(top) = top_of(entry) else {
            return Ok(());
        };
        reach_name(&mut self.last, Some(top), names)?;
        reach(&mut self.before, at)
    }

    /// Takes in an entry that may come next, for which there is room, at its place. The index of names has it.
    pub(crate) fn push(&mut self, entry: &Entry, names: &Index, at: u32)
        requires { at < limit }
        ensures { (setting : Setting) → (past : Past) → AreAborts self.old past →
            HaveRoomFor entry.now past self.old.last.items self.old.before.items →
            IsOf names.now (entry.now ∷ past) →
            Legal setting (entry.now ∷ past) → at ≡ length past →
            AreAborts self.new (entry.now ∷ past) }
    {
        let Some(top) = top_of(entry) else {
            return;
        };
        let Some(place) = names.place(&top) else {
            return;
        };
        set_slot(
            &mut self.before,
            at as usize,
            slot(&self.last, place as usize),
        );
        set_slot(&mut self.last, place as usize, at + 1);
    }

    // One more than the place of the last abort below a top, or 0.
    fn last_below(&self, names: &Index, top: &Name) -> u32
        ensures { (setting : Setting) → (past : Past) → AreAborts self.now past →
            IsOf names.now past → Legal setting past → result ≡ last_abort past top.now }
    {
        match names.place(top) {
            Some(place) => slot(&self.last, place as usize),
            None => 0,
        }
    }

    /// The aborted descendants of a top whose parent is not aborted, in the order of their ends. It reads each abort
    /// below the top once.
    pub(crate) fn below(
        &self,
        alloc: Global,
        names: &Index,
        entries: &Trail,
        top: &Name,
    ) -> Result<Vec<Name>, AllocError>
        requires kept { (setting : Setting) × AreAborts self.now (reverse entries.now)
            × IsOf names.now (reverse entries.now) × Legal setting (reverse entries.now) }
        requires top { length top.now ≡ 1 }
        ensures { IfOk result (λ found.
            found.items ≡ aborted_below (reverse entries.now) top.now) }
    {
        let mut found = Vec::new(alloc);
        let mut next = self.last_below(names, top);
        while next > 0 {
            let at = next as usize - 1;
            append_some(&mut found, aborted_in(names, &entries.at(at), top))?;
            next = slot(&self.before, at);
        }
        turn(&mut found);
        Ok(found)
    }
}
