//! A queue of requests to one copy, and what its ends do.
ghost use Rattle.std.specs.Prelude.{◌≡◌, ◌≤◌, ◌<◌, ◌++◌, ℕ, List, [], true, length, map, IfOk};
ghost use Rattle.crossbeam_queue.specs.Passes.{view, IsPassOf, ruled_capacity};
ghost use Rattle.qc_lane.specs.declared.lane.Request.{Request};
ghost use Rattle.qc_lane.specs.Lanes.{numbered, taker, putter, seated, noted, told, reopened, of};
ghost use Rattle.qc_lane.specs.Lanes.{Puts, Takes, IsBounded};

use crate::lane::{
    Balancing, Bounding, Closing, InOrder, Lane, Noting, Posted, Putting, Seating, Taking,
};
use crossbeam_queue::{Pass, RuledArrayQueue};
use std::alloc::{AllocError, Global};
use std::mem::replace;
use std::sync::Wait;
use std::thread;

/// A queue of requests to one copy.
pub type Queue<T> = RuledArrayQueue<T, Lane, InOrder>;

/// What one end of such a queue knows. It has no bytes.
pub type LanePass<T> = Pass<T, Lane>;

/// A queue with so many places, and the pass that takes from it.
pub fn open<T: Posted>(alloc: Global, places: usize) -> Result<(Queue<T>, LanePass<T>), AllocError>
    requires places { 0 < places }
    ensures { IfOk result (λ r. IsPassOf r.0 r.1 × (view r.1 ≡ taker)) }
{
    Queue::ruled(alloc, places)
}

/// A pass for the next session.
pub fn seat<T: Posted>(queue: &Queue<T>, taking: &mut LanePass<T>) -> LanePass<T>
    requires queue { IsPassOf queue.now taking.old }
    requires takes { (view taking.old).takes ≡ true }
    ensures queue { IsPassOf queue.now taking.new × IsPassOf queue.now result }
    ensures seated { (view taking.new ≡ seated (view taking.old))
        × (view result ≡ putter (view taking.old).made) }
{
    queue.another::<Seating>(taking)
}

/// Puts an item behind all others, once there is room.
pub fn put<T: Posted, R: Wait>(rt: &R, queue: &Queue<T>, pass: &mut LanePass<T>, item: T)
    requires queue { IsPassOf queue.now pass.old }
    requires puts { (view pass.old).puts ≡ true }
    requires number { T.requests item ≡ numbered (view pass.old).from (length (view pass.old).put)
        (map (λ (r : Request). r.ask) (T.requests item)) }
    ensures queue { IsPassOf queue.now pass.new }
    ensures put { Puts T.requests (view pass.old) item (view pass.new) }
{
    let mut item = item;
    for _ in rt.forever() {
        match queue.try_push_as::<Putting>(pass, item) {
            Ok(()) => return,
            Err(back) => {
                item = back;
                thread::yield_now();
            }
        }
    }
    unreachable!()
}

/// Takes the item that was put longest ago, once there is one.
pub fn take<T: Posted, R: Wait>(rt: &R, queue: &Queue<T>, pass: &mut LanePass<T>) -> T
    requires queue { IsPassOf queue.now pass.old }
    requires takes { (view pass.old).takes ≡ true }
    ensures queue { IsPassOf queue.now pass.new }
    ensures taken { Takes T.requests (view pass.old) result (view pass.new) }
{
    for _ in rt.forever() {
        match queue.try_pop_as::<Taking>(pass) {
            Some(item) => return item,
            None => thread::yield_now(),
        }
    }
    unreachable!()
}

/// A note of the last request taken.
pub fn note<T: Posted>(queue: &Queue<T>, taking: &mut LanePass<T>) -> LanePass<T>
    requires queue { IsPassOf queue.now taking.old }
    requires takes { (view taking.old).takes ≡ true }
    ensures queue { IsPassOf queue.now taking.new × IsPassOf queue.now result }
    ensures noted { (view taking.new ≡ view taking.old) × (view result ≡ noted (view taking.old)) }
{
    queue.another::<Noting>(taking)
}

/// A session's pass learns what a note tells of its session.
pub fn tell<T: Posted>(queue: &Queue<T>, pass: &mut LanePass<T>, note: LanePass<T>)
    requires queue { IsPassOf queue.now pass.old × IsPassOf queue.now note }
    requires puts { (view pass.old).puts ≡ true }
    ensures queue { IsPassOf queue.now pass.new }
    ensures told { view pass.new ≡ told (view pass.old) (view note) }
    ensures bounded { IsBounded (view pass.new) }
{
    queue.absorb::<Noting>(pass, note);
    queue.learn_as::<Bounding>(pass);
}

/// A session's pass is held against the one that takes: what was taken of the session is a beginning of what it put,
/// and all that it knows to be taken is in it.
pub fn settle<T: Posted>(queue: &Queue<T>, taking: &mut LanePass<T>, pass: &mut LanePass<T>)
    requires queue { IsPassOf queue.now taking.old × IsPassOf queue.now pass.old }
    requires takes { (view taking.old).takes ≡ true }
    requires puts { (view pass.old).puts ≡ true }
    ensures queue { IsPassOf queue.now taking.new × IsPassOf queue.now pass.new }
    ensures taking { ((view taking.new).takes ≡ true)
        × ((view taking.new).got ≡ (view taking.old).got) }
    ensures pass { view pass.new ≡ reopened (view pass.old) }
    ensures beginning { (rest : List Request) × (of (view pass.old).from (view taking.old).got
        ++ rest ≡ numbered (view pass.old).from 0 (view pass.old).put) }
    ensures known { (view pass.old).known
        ≤ length (of (view pass.old).from (view taking.old).got) }
{
    let note = note(queue, taking);
    let own = replace(pass, note);
    queue.absorb::<Closing>(taking, own);
    queue.learn_as::<Balancing>(taking);
    *pass = queue.another::<Closing>(taking);
}
