//! The locks of all copies.
ghost use Rattle.std.specs.Prelude.{List, ◌≡◌, ◌<◌, ◌≤◌, [], ◌∷◌, ◌++◌, IfOk, OnOk, filter, length, not, slice_index_or};
ghost use Rattle.qc_config.specs.declared.tuple.Tuple.{Tuple};
ghost use Rattle.qc_event.specs.declared.event.Entry.{Entry};
ghost use Rattle.qc_event.specs.declared.event.Grant.{Grant};
ghost use Rattle.qc_event.specs.Base.{IsProper, Setting};
ghost use Rattle.qc_event.specs.Clear.{is_get};
ghost use Rattle.qc_event.specs.Legal.{Legal};
ghost use Rattle.qc_event.specs.Seen as seen_words;
ghost use Rattle.qc_moss.specs.Consulting.{blocker};
ghost use Rattle.qc_moss.specs.Follows.{TableFollows};
ghost use Rattle.qc_moss.specs.Locks.{start_of};
ghost use Rattle.qc_looks.specs.Tables as words;
ghost use Rattle.qc_looks.specs.Tables.{AreTables, CanAsk, CanGrow};

use qc_config::{Op, Tuple};
use qc_event::{Ask, Base, Entry, Event, Name, Outcome};
use qc_history::History;
use qc_moss::{Locks, Source, Test};
use std::alloc::{AllocError, Global};

// What tells locks of a legal history.
#[derive(Clone, Copy)]
struct IndexTold<'a> {
    history: &'a History,
}

impl<'a> Source for IndexTold<'a> {
    ghost use Rattle.std.specs.Prelude.{◌≡◌};
    ghost use Rattle.qc_event.specs.Base.{Setting};
    ghost use Rattle.qc_event.specs.Legal.{Legal};

    ghost tells = { λ told past. (told.history.now ≡ past)
        × ((setting : Setting) × Legal setting told.history.now) };

    fn outcome(&self, name: &Name) -> Outcome {
        self.history.outcome(name)
    }

    fn dead(&self, name: &Name) -> Option<Name> {
        self.history.dead(name)
    }
}

fn is_write(op: &Op) -> bool
    ensures { result ≡ not (is_get op.now) }
{
    !matches!(op, Op::Get)
}

fn first_of(test: &Test) -> Option<Name>
    ensures { result ≡ words.first_of test.now }
{
    match test {
        Test::Held(first) => Some(*first),
        Test::Free => None,
    }
}

// The access of the first of a copy's grants that is in a request's way. The locks of its record are settled.
fn blocker(locks: &mut Locks, history: &History, ask: &Ask) -> Option<Name>
    requires { ask.now.rec < length locks.old.start }
    ensures start { locks.new.start ≡ locks.old.start }
    ensures follows { (setting : Setting) → (given : List Grant) → Legal setting history.now →
        TableFollows history.now given locks.old → TableFollows history.now given locks.new }
    ensures blocker { (setting : Setting) → (given : List Grant) → Legal setting history.now →
        TableFollows history.now given locks.old → result ≡ blocker history.now given ask.now }
{
    locks.settle_by(ask.rec, &IndexTold { history });
    first_of(&locks.test(&ask.access, ask.rec, is_write(&ask.op)))
}

// What a copy holds of a request's record. Its locks are settled.
fn held(locks: &mut Locks, history: &History, ask: &Ask) -> Tuple
    requires { ask.now.rec < length locks.old.start }
    ensures start { locks.new.start ≡ locks.old.start }
    ensures follows { (setting : Setting) → (given : List Grant) → Legal setting history.now →
        TableFollows history.now given locks.old → TableFollows history.now given locks.new }
    ensures held { (setting : Setting) → (given : List Grant) → Legal setting history.now →
        TableFollows history.now given locks.old →
        result ≡ seen_words.changed_by (start_of locks.old ask.now.rec)
        (filter (seen_words.is_live_at history.now ask.now.rec) given) }
{
    locks.settle_by(ask.rec, &IndexTold { history });
    locks.seen_by(ask.rec)
}

// A generic push: one at the type of lock tables gets no proof today.
fn add<T: Drop>(items: &mut Vec<T>, item: T) -> Result<(), AllocError>
    ensures { OnOk result (items.new.items ≡ items.old.items ++ item ∷ []) }
{
    items.push(item)?;
    Ok(())
}

/// The locks of each copy, as its grants left them.
#[derive(Debug, Drop)]
pub struct Tables {
    copies: Vec<Locks>,
}

impl Tables {
    /// The lock tables of copies that start with these tuples and granted nothing.
    pub fn new(alloc: Global, base: &Base) -> Result<Self, AllocError>
        requires { length base.now ≤ 16 }
        ensures { IfOk result (λ tables. AreTables base.now tables []) }
    {
        let mut copies = Vec::new(alloc);
        for copy in 0..base.copies() {
            let start = base.row(copy as u8).to_vec(alloc)?;
            add(&mut copies, Locks::new(alloc, start)?)?;
        }
        Ok(Tables { copies })
    }

    /// Takes in an entry that may come next.
    pub fn push(&mut self, entry: &Entry) -> Result<(), AllocError>
        requires { CanGrow self.old entry.now }
        ensures { OnOk result (words.Grows self.old self.new entry.now) }
    {
        let Event::Granted { copy, grant } = &entry.event else {
            return Ok(());
        };
        let locks = &mut self.copies[*copy as usize];
        locks.reserve()?;
        locks.hold(&grant.access, grant.rec, &grant.op);
        Ok(())
    }

    /// The access of the first grant at a copy that is in a request's way.
    pub fn holder(&mut self, history: &History, ask: &Ask) -> Option<Name>
        requires { CanAsk self.old history.now ask.now }
        ensures tables { (base : List (List Tuple)) → AreTables base self.old history.now →
            AreTables base self.new history.now }
        ensures holder { result ≡ seen_words.holder history.now ask.now.copy ask.now.rec
            ask.now.op ask.now.access }
    {
        blocker(&mut self.copies[ask.copy as usize], history, ask)
    }

    /// What a copy holds of the record of a request.
    pub fn held(&mut self, history: &History, ask: &Ask) -> Tuple
        requires { CanAsk self.old history.now ask.now }
        ensures tables { (base : List (List Tuple)) → AreTables base self.old history.now →
            AreTables base self.new history.now }
        ensures held { (base : List (List Tuple)) → AreTables base self.old history.now →
            result ≡ seen_words.seen base history.now ask.now.copy ask.now.rec }
    {
        held(&mut self.copies[ask.copy as usize], history, ask)
    }
}
