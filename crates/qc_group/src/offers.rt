//! The tops that are offered, as they lie behind the lock.
ghost use Rattle.std.specs.Prelude.{◌≡◌, ◌≤◌, ◌<◌, ◌+◌, ◌++◌, ◌∷◌, [], IfOk, IfErr, OnOk, OnErr, vec_len, vec_capacity};
ghost use Rattle.std.specs.List.{All, IsDistinct};
ghost use Rattle.qc_event.specs.History.{same};
ghost use Rattle.qc_group.specs.Offers.{AreDivided, IsOpenOffer, StayFor, tops};
ghost use Rattle.qc_group.specs.Offers as words;
ghost use Rattle.qc_group.specs.Draws.{PlacesOneMore};

use crate::waiting::Waiting;
use qc_desk::{Desk, Store};
use qc_event::Name;
use std::alloc::{AllocError, AllocFailed, Global};
use std::sync::Wait;

/// The tops that are offered, the oldest offer first.
#[derive(Drop)]
pub struct Offers<N: Store> {
    pub(crate) items: Vec<Waiting<N>>,
}

// Whether a top is one's own, or that of an offer that was drawn.
fn is_taken<N: Store>(own: &Name, drawn: &[Waiting<N>], top: &Name) -> bool
    ensures { result ≡ words.is_taken own.now drawn.now top.now }
{
    *top == *own || drawn.iter().any(|one| *top == one.top)
}

// Shows an offer the history, and draws it, has it stay, or drops it.
fn place<N: Store, R: Wait>(
    rt: &R,
    desk: &Desk<N>,
    own: &Name,
    most: usize,
    drawn: &mut Vec<Waiting<N>>,
    left: &mut Vec<Waiting<N>>,
    item: Waiting<N>,
)
    requires room { vec_len left.old < vec_capacity left.old }
    requires room_drawn { vec_len drawn.old < most → vec_len drawn.old < vec_capacity drawn.old }
    ensures room { (vec_capacity left.new ≡ vec_capacity left.old)
        × (vec_capacity drawn.new ≡ vec_capacity drawn.old) }
    ensures one { (vec_len left.new ≤ vec_len left.old + 1)
        × (vec_len drawn.new ≤ vec_len drawn.old + 1) }
    ensures places { PlacesOneMore own.now most item drawn.old.items left.old.items
        drawn.new.items left.new.items }
{
    let (item, ended) = item.look(rt, desk);
    if ended {
        return;
    }
    if drawn.len() < most && !is_taken(own, drawn.as_slice(), &item.top) {
        drawn.push_reserved(item);
        return;
    }
    left.push_reserved(item);
}

impl<N: Store> Offers<N> {
    /// Adds an offer behind the others. An error leaves them as they were, and hands the new one back.
    pub(crate) fn put(&mut self, item: Waiting<N>) -> Result<(), (Waiting<N>, AllocError)>
        ensures ok { OnOk result (self.new.items.items ≡ self.old.items.items ++ item ∷ []) }
        ensures err { OnErr result (self.new.items.items ≡ self.old.items.items) }
        ensures back { IfErr result (λ no. no.0 ≡ item) }
    {
        match self.items.push(item) {
            Ok(()) => Ok(()),
            Err(AllocFailed { value }) => Err((value, AllocError)),
        }
    }

    /// Draws at most so many offers, each of another top than one's own, and of another than the rest of those drawn.
    /// Each is shown the history first, and those whose top has ended are dropped. An error is want of memory: the
    /// offers are then as before. Each top is looked up once, and compared with those drawn.
    pub(crate) fn draw<R: Wait>(
        &mut self,
        rt: &R,
        alloc: Global,
        desk: &Desk<N>,
        own: &Name,
        most: usize,
    ) -> Result<Vec<Waiting<N>>, AllocError>
        ensures few { IfOk result (λ drawn. vec_len drawn ≤ most) }
        ensures others { IfOk result (λ drawn. IsDistinct same (own.now ∷ tops drawn.items)) }
        ensures open { IfOk result (λ drawn. All IsOpenOffer drawn.items) }

        // What stays, what was drawn and what was dropped are what was there. An offer of one's own top stays, and so
        // does a second one of a top that was drawn, unless the top has ended.
        ensures rest { IfOk result
            (λ drawn. AreDivided self.old.items.items drawn.items self.new.items.items) }
        ensures stay { IfOk result
            (λ drawn. StayFor own.now most drawn.items self.new.items.items) }
        ensures err { OnErr result (self.new.items.items ≡ self.old.items.items) }
    {
        let waiting = self.items.len();
        let room = most.min(waiting);
        let mut drawn = Vec::with_capacity(alloc, room)?;
        let mut left = Vec::with_capacity(alloc, waiting)?;
        self.items.as_mut_slice().reverse();
        while let Some(item) = self.items.pop() {
            place(rt, desk, own, most, &mut drawn, &mut left, item);
        }
        self.items = left;
        Ok(drawn)
    }
}
