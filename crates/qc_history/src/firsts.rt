//! The first entry about each name.
ghost use Rattle.std.specs.Prelude.{◌≡◌, ◌<◌, [], ◌∷◌, OnOk, length, reverse};
ghost use Rattle.qc_event.specs.Base.{Setting};
ghost use Rattle.qc_event.specs.declared.event.Entry.{Entry};
ghost use Rattle.qc_event.specs.History.{Past, limit};
ghost use Rattle.qc_event.specs.Legal.{Legal};
ghost use Rattle.qc_history.specs.Index.{IsOf};
ghost use Rattle.qc_history.specs.Standing.{OfEach};
ghost use Rattle.qc_history.specs.Firsts.{Subject, AreFirsts, ComesAfterStart, first_about};
ghost use Rattle.qc_history.specs.Slots.{Reaches};

use crate::index::Index;
use crate::slots::{reach_name, set_slot, slot};
use qc_event::{Entry, Name};
use qc_trail::Trail;
use std::alloc::{AllocError, Global};

/// Where the first entry about each name stands: beside the place of the name, one more than the place of that entry.
/// Who keeps it says whom an entry is about, each time in the same way.
#[derive(Debug, Drop)]
pub struct Firsts {
    after: Vec<u32>,
}

impl Firsts {
    /// Those of no entries. It takes no memory.
    pub fn new(alloc: Global) -> Self
        ensures { (subject : Subject) → AreFirsts subject result [] }
    {
        Firsts {
            after: Vec::new(alloc),
        }
    }

    /// Makes room for an entry about a name, of the same history; for one about no name it takes no memory.
    pub fn make_room(&mut self, name: Option<Name>, names: &Index) -> Result<(), AllocError>
        ensures same { (subject : Subject) → (past : Past) →
            AreFirsts subject self.old past → AreFirsts subject self.new past }
        ensures room { OnOk result
            (OfEach (IsOf names.now) (λ past. Reaches past name self.new.after.items)) }
    {
        reach_name(&mut self.after, name, names)
    }

    /// Takes in an entry that may come next, for which there is room, at its place, by the name that it is about. The
    /// index of names has it.
    pub fn push(&mut self, name: Option<Name>, names: &Index, at: u32)
        requires { at < limit }
        ensures { (subject : Subject) → (setting : Setting) → (past : Past) → (e : Entry) →
            ComesAfterStart subject → AreFirsts subject self.old past →
            Reaches past name self.old.after.items → IsOf names.now (e ∷ past) →
            Legal setting (e ∷ past) → name ≡ subject e.event → at ≡ length past →
            AreFirsts subject self.new (e ∷ past) }
    {
        let Some(name) = name else {
            return;
        };
        let Some(place) = names.place(&name) else {
            return;
        };
        if slot(&self.after, place as usize) == 0 {
            set_slot(&mut self.after, place as usize, at + 1);
        }
    }

    /// The first entry about a name.
    pub fn first(&self, names: &Index, entries: &Trail, name: &Name) -> Option<Entry>
        ensures { (subject : Subject) → (setting : Setting) →
            AreFirsts subject self.now (reverse entries.now) →
            IsOf names.now (reverse entries.now) → Legal setting (reverse entries.now) →
            result ≡ first_about subject (reverse entries.now) name.now }
    {
        let Some(place) = names.place(name) else {
            return None;
        };
        let after = slot(&self.after, place as usize);
        if after == 0 {
            return None;
        }
        entries.get(after as usize - 1)
    }
}
