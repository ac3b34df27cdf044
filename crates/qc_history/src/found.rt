//! What is looked up in a history beside how names stand, each by an index.
ghost use Rattle.std.specs.Prelude.{◌≡◌, ◌<◌, [], is_none, length, option_and_then, IfOk, slice_get};
ghost use Rattle.qc_event.specs.Base.{Setting};
ghost use Rattle.qc_event.specs.History.{granted, grants, refused};
ghost use Rattle.qc_event.specs.Legal.{Legal};
ghost use Rattle.qc_event.specs.Listed.{aborted_below};
ghost use Rattle.qc_event.specs.Standing.{open_child};
ghost use Rattle.qc_history.specs.Grants.{Differs, put_at, tuple_at};
ghost use Rattle.qc_history.specs.Looking.{WhereLegal, is_marked_for};
ghost use Rattle.qc_history.specs.Looking as words;

use crate::history::History;
use qc_event::{Grant, Kind, Name, Refusal, Tuple};
use std::alloc::AllocError;

// The session of a user transaction.
fn session_of(kind: &Kind) -> Option<u8>
    ensures { result ≡ words.session_of kind.now }
{
    match kind {
        Kind::User { session, .. } => Some(*session),
        _ => None,
    }
}

impl History {
    /// The first refusal of an access.
    pub fn refusal(&self, access: &Name) -> Option<Refusal>
        ensures { WhereLegal self.now (result ≡ refused self.now access.now) }
    {
        self.beside.refusal(&self.index, &self.entries, access)
    }

    /// The tuple that an access was granted first, where it was at this copy.
    pub fn granted(&self, copy: u8, access: &Name) -> Option<Tuple>
        ensures { WhereLegal self.now
            (result ≡ option_and_then (tuple_at copy) (granted self.now access.now)) }
    {
        self.beside
            .granted(&self.index, &self.entries, copy, access)
    }

    /// Whether a user transaction is marked to be killed.
    pub fn marked(&self, of: &Name) -> bool
        ensures { WhereLegal self.now (result ≡ is_marked_for self.now of.now) }
    {
        let Some(kind) = self.index.kind(&self.entries, of) else {
            return false;
        };
        let Some(session) = session_of(&kind) else {
            return false;
        };
        self.beside.marked(session, of)
    }

    /// The aborted descendants of a top whose parent is not aborted, in the order of their ends.
    pub fn aborted_below(&self, top: &Name) -> Result<Vec<Name>, AllocError>
        requires legal { (setting : Setting) × Legal setting self.now }
        requires top { length top.now ≡ 1 }
        ensures { IfOk result (λ found. found.items ≡ aborted_below self.now top.now) }
    {
        self.beside.aborted_below(&self.index, &self.entries, top)
    }

    /// How many grants a copy gave.
    pub fn count_of(&self, copy: u8) -> usize
        ensures { result ≡ length (grants self.now copy) }
    {
        self.beside.count_of(&self.entries, copy)
    }

    /// The grant of a copy at an index, in the order in which it gave them, where that is one of a put.
    pub fn put_at(&self, copy: u8, index: usize) -> Option<Grant>
        ensures { result ≡ put_at (grants self.now copy) index }
    {
        self.beside.put_at(&self.entries, copy, index)
    }

    /// A copy's grants, in order.
    pub fn of_copy(&self, copy: u8) -> Result<Vec<Grant>, AllocError>
        requires { copy < 16 }
        ensures { IfOk result (λ given. given.items ≡ grants self.now copy) }
    {
        self.beside.of_copy(&self.entries, copy)
    }

    /// The first of a copy's grants where another or none was given, with its index.
    pub fn differ(&self, copy: u8, given: &[Grant]) -> Option<(usize, Grant)>
        requires { copy < 16 }
        ensures { Differs given.now (grants self.now copy) result }
    {
        self.beside.differ(&self.entries, copy, given)
    }

    /// Whether each started top has its end.
    pub fn settled(&self) -> bool
        ensures { WhereLegal self.now (result ≡ is_none (open_child self.now [])) }
    {
        self.beside.settled()
    }
}
