//! The group of ready tops.
ghost use Rattle.std.specs.Prelude.{◌≡◌, ◌≤◌, ◌∷◌, IfOk, IfErr, vec_len};
ghost use Rattle.std.specs.List.{All, IsDistinct};
ghost use Rattle.qc_event.specs.History.{same};
ghost use Rattle.qc_group.specs.Offers.{IsOpenOffer, tops};

use crate::offers::Offers;
use crate::waiting::Waiting;
use qc_desk::{Desk, Store};
use qc_event::Name;
use std::alloc::{AllocError, Global};
use std::sync::{Mutex, Wait};

/// Ready tops that wait to be logged together, for all threads. Each call takes the group's lock once, and a draw takes
/// the desk's under it.
#[derive(Drop)]
pub struct Group<N: Store> {
    alloc: Global,
    locked: Mutex<Offers<N>>,
}

impl<N: Store> Group<N> {
    /// A group without offers. It takes no memory.
    pub fn new(alloc: Global) -> Self {
        let offers = Offers {
            items: Vec::new(alloc),
        };
        Group {
            alloc,
            locked: Mutex::new(offers),
        }
    }

    /// Offers a top, behind those that are offered. An error is want of memory, leaves the others as they were, and
    /// hands the offer back.
    pub fn offer<R: Wait>(&self, rt: &R, item: Waiting<N>) -> Result<(), (Waiting<N>, AllocError)>
        ensures back { IfErr result (λ no. no.0 ≡ item) }
    {
        self.locked.lock(rt).put(item)
    }

    /// Draws at most so many offers, in order of offer, each of another top than one's own, and of another than the
    /// rest of those drawn. None had an end as the draw looked. Offers of tops that have ended are dropped; each other
    /// one that is not drawn stays for a later draw, one of the own top too. An error is want of memory, and leaves the
    /// offers as they were. Each top is looked up once, and compared with those drawn.
    pub fn draw<R: Wait>(
        &self,
        rt: &R,
        desk: &Desk<N>,
        own: &Name,
        most: usize,
    ) -> Result<Vec<Waiting<N>>, AllocError>
        ensures few { IfOk result (λ drawn. vec_len drawn ≤ most) }
        ensures others { IfOk result (λ drawn. IsDistinct same (own.now ∷ tops drawn.items)) }
        ensures open { IfOk result (λ drawn. All IsOpenOffer drawn.items) }
    {
        self.locked.lock(rt).draw(rt, self.alloc, desk, own, most)
    }
}
