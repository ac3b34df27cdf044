//! What is looked up under the lock beside how names stand.
ghost use Rattle.std.specs.Prelude.{◌≡◌, ◌<◌, [], is_none, length, option_and_then, slice_get, IfOk};
ghost use Rattle.qc_event.specs.History.{granted, grants, refused};
ghost use Rattle.qc_event.specs.Listed.{aborted_below};
ghost use Rattle.qc_event.specs.Standing.{open_child};
ghost use Rattle.qc_history.specs.Grants.{Differs, put_at, tuple_at};
ghost use Rattle.qc_history.specs.Looking.{is_marked_for};

use crate::locked::Locked;
use crate::store::Store;
use qc_event::{Grant, Name, Refusal, Tuple};
use std::alloc::AllocError;

impl<N: Store> Locked<N> {
    /// The first refusal of an access.
    pub(crate) fn refusal(&self, access: &Name) -> Option<Refusal>
        ensures { result ≡ refused self.now access.now }
    {
        self.history.refusal(access)
    }

    /// The tuple that an access was granted first, where it was at this copy.
    pub(crate) fn granted(&self, copy: u8, access: &Name) -> Option<Tuple>
        ensures { result ≡ option_and_then (tuple_at copy) (granted self.now access.now) }
    {
        self.history.granted(copy, access)
    }

    /// Whether a user transaction is marked to be killed.
    pub(crate) fn marked(&self, of: &Name) -> bool
        ensures { result ≡ is_marked_for self.now of.now }
    {
        self.history.marked(of)
    }

    /// The aborted descendants of a top whose parent is not aborted, in the order of their ends.
    pub(crate) fn aborted_below(&self, top: &Name) -> Result<Vec<Name>, AllocError>
        requires { length top.now ≡ 1 }
        ensures { IfOk result (λ found. found.items ≡ aborted_below self.now top.now) }
    {
        self.history.aborted_below(top)
    }

    /// How many grants a copy gave.
    pub(crate) fn count_of(&self, copy: u8) -> usize
        ensures { result ≡ length (grants self.now copy) }
    {
        self.history.count_of(copy)
    }

    /// The grant of a copy at an index, in the order in which it gave them, where that is one of a put.
    pub(crate) fn put_at(&self, copy: u8, index: usize) -> Option<Grant>
        ensures { result ≡ put_at (grants self.now copy) index }
    {
        self.history.put_at(copy, index)
    }

    /// A copy's grants, in order.
    pub(crate) fn of_copy(&self, copy: u8) -> Result<Vec<Grant>, AllocError>
        requires { copy < 16 }
        ensures { IfOk result (λ given. given.items ≡ grants self.now copy) }
    {
        self.history.of_copy(copy)
    }

    /// The first of a copy's grants where another or none was given, with its index.
    pub(crate) fn differ(&self, copy: u8, given: &[Grant]) -> Option<(usize, Grant)>
        requires { copy < 16 }
        ensures { Differs given.now (grants self.now copy) result }
    {
        self.history.differ(copy, given)
    }

    /// Whether each started top has its end.
    pub(crate) fn settled(&self) -> bool
        ensures { result ≡ is_none (open_child self.now []) }
    {
        self.history.settled()
    }
}
