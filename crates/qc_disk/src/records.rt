//! What is kept of the calls of a disk in memory, so that they can be undone.
ghost use Rattle.std.specs.Prelude.{◌≡◌, ◌≤◌, ◌<◌, ◌+◌, ◌^◌, ◌++◌, [], ◌∷◌, length, IfOk, OnErr, OnOk};
ghost use Rattle.std.specs.Vec.{vec_capacity, vec_len};
ghost use Rattle.qc_disk.specs.Kept.{kept};

use std::alloc::{AllocError, Global};

/// What a call did to the disk.
#[derive(Clone, Copy)]
pub(crate) enum Kind {
    Nothing,
    Wrote,
    Cut,
    Synced,
}

/// Where a call wrote or cut, how many bytes it wrote over or cut off, and how many it added behind the end.
#[derive(Clone, Copy)]
pub(crate) struct Change {
    pub(crate) at: u32,
    pub(crate) over: u32,
    pub(crate) added: u32,
}

// The same number in 32 bits, where it fits.
fn narrow(number: usize) -> Result<u32, AllocError>
    ensures { IfOk result (λ same. same ≡ number) }
{
    match u32::try_from(number) {
        Ok(same) => Ok(same),
        Err(_) => Err(AllocError),
    }
}

impl Change {
    /// An error where a number does not fit 32 bits.
    pub(crate) fn new(at: usize, over: usize, added: usize) -> Result<Change, AllocError>
        ensures at { IfOk result (λ change. change.at ≡ at) }
        ensures over { IfOk result (λ change. change.over ≡ over) }
        ensures added { IfOk result (λ change. change.added ≡ added) }
    {
        Ok(Change {
            at: narrow(at)?,
            over: narrow(over)?,
            added: narrow(added)?,
        })
    }
}

/// The kind of each call, the changes of those that wrote or cut, and all bytes that they wrote over or cut off: each
/// call's behind those of the calls before it.
#[derive(Drop)]
pub(crate) struct Records {
    calls: Vec<Kind>,
    changes: Vec<Change>,
    lost: Vec<u8>,
}

/// The records of the first calls.
#[derive(Clone, Copy)]
pub(crate) struct Past<'a> {
    pub(crate) calls: &'a [Kind],
    pub(crate) changes: &'a [Change],
    pub(crate) lost: &'a [u8],
}

// A generic push: one at the type of kinds or of changes gets no proof today.
fn append<T: Copy>(items: &mut Vec<T>, item: T)
    requires { vec_len items.old < vec_capacity items.old }
    ensures { items.new.items ≡ items.old.items ++ item ∷ [] }
{
    items.push_reserved(item);
}

/// Puts bytes behind others, into the room that there is.
pub(crate) fn append_all(bytes: &mut Vec<u8>, more: &[u8])
    requires { vec_len bytes.old + length more.now ≤ vec_capacity bytes.old }
    ensures { bytes.new.items ≡ bytes.old.items ++ more.now }
{
    match bytes.extend_from_slice(more) {
        Ok(()) => {}
        Err(AllocError) => unreachable!(),
    }
}

impl Records {
    pub(crate) fn new(alloc: Global) -> Self
        ensures calls { result.calls.items ≡ [] }
        ensures changes { result.changes.items ≡ [] }
        ensures lost { result.lost.items ≡ [] }
    {
        Records {
            calls: Vec::new(alloc),
            changes: Vec::new(alloc),
            lost: Vec::new(alloc),
        }
    }

    /// How many calls there were.
    pub(crate) fn count(&self) -> usize
        ensures count { result ≡ length self.now.calls.items }
        ensures bounded { result < 2 ^ 63 }
    {
        self.calls.len()
    }

    pub(crate) fn past(&self) -> Past<'_>
        ensures calls { result.calls.now ≡ self.now.calls.items }
        ensures changes { result.changes.now ≡ self.now.changes.items }
        ensures lost { result.lost.now ≡ self.now.lost.items }
    {
        Past {
            calls: &self.calls,
            changes: &self.changes,
            lost: &self.lost,
        }
    }

    /// Records a call that changed no byte.
    pub(crate) fn note(&mut self, kind: Kind) -> Result<(), AllocError>
        ensures ok { OnOk result (self.new.calls.items ≡ self.old.calls.items ++ kind ∷ []) }
        ensures err { OnErr result (self.new.calls.items ≡ self.old.calls.items) }
        ensures changes { self.new.changes.items ≡ self.old.changes.items }
        ensures lost { self.new.lost.items ≡ self.old.lost.items }
    {
        self.calls.reserve(1)?;
        append(&mut self.calls, kind);
        Ok(())
    }

    /// Makes room for a call that changes so many bytes.
    pub(crate) fn reserve(&mut self, over: usize) -> Result<(), AllocError>
        ensures call { OnOk result (vec_len self.new.calls < vec_capacity self.new.calls) }
        ensures change { OnOk result (vec_len self.new.changes < vec_capacity self.new.changes) }
        ensures room { OnOk result (vec_len self.new.lost + over ≤ vec_capacity self.new.lost) }
        ensures calls { self.new.calls.items ≡ self.old.calls.items }
        ensures changes { self.new.changes.items ≡ self.old.changes.items }
        ensures lost { self.new.lost.items ≡ self.old.lost.items }
    {
        self.calls.reserve(1)?;
        self.changes.reserve(1)?;
        self.lost.reserve(over)
    }

    /// Records a call that changed bytes, with those that it wrote over or cut off. It takes the room that there is.
    pub(crate) fn enter(&mut self, kind: Kind, change: Change, lost: &[u8])
        requires call { vec_len self.old.calls < vec_capacity self.old.calls }
        requires change { vec_len self.old.changes < vec_capacity self.old.changes }
        requires room { vec_len self.old.lost + length lost.now ≤ vec_capacity self.old.lost }
        ensures calls { self.new.calls.items ≡ self.old.calls.items ++ kind ∷ [] }
        ensures changes { self.new.changes.items ≡ self.old.changes.items ++ change ∷ [] }
        ensures lost { self.new.lost.items ≡ self.old.lost.items ++ lost.now }
    {
        append(&mut self.calls, kind);
        append(&mut self.changes, change);
        append_all(&mut self.lost, lost);
    }
}
