//! The ends of a copy's queue, each of which is of the queue that a name says.
ghost use Rattle.std.specs.Prelude.{◌≡◌, ◌≤◌, ◌<◌, ◌+◌, ℕ, List, [], ◌∷◌, ◌++◌, true, length, IfSome, option_to_list};
ghost use Rattle.crossbeam_queue.specs.Passes.{view};
ghost use Rattle.qc_event.specs.declared.event.Ask.{Ask};
ghost use Rattle.qc_lane.specs.declared.lane.Request.{Request};
ghost use Rattle.qc_lane.specs.Ends.{queue_id, IsLast};
ghost use Rattle.qc_lane.specs.Lanes.{numbered, of, request};

use crate::lane::{Posted, Request};
use crate::queue::{LanePass, Queue, note, put, seat, settle, take, tell};
use qc_event::Ask;
use std::marker::{Brand, PhantomData};
use std::sync::Wait;
use std::thread;

/// How many copies have a queue and which it is, and how many sessions put into each. Each call that names queues
/// picks them.
pub trait Mailed {
    ghost use Rattle.std.specs.Prelude.{ℕ};
    ghost use Rattle.atomic_table.specs.Seated.{TableId};

    ghost copies: { ℕ };

    ghost sessions: { ℕ };

    ghost lanes: { ℕ → TableId };
}

impl Mailed for Brand {
    ghost use Rattle.qc_lane.specs.Ends.{no_queue};

    ghost copies = { 0 };

    ghost sessions = { 0 };

    ghost lanes = { λ _. no_queue };
}

/// The queue of a copy.
#[derive(Drop)]
pub struct Tray<T: Posted, M: Mailed> {
    pub copy: u8,
    pub queue: Queue<T>,
    pub of: PhantomData<M>,
    ghost named: { queue_id queue ≡ M.lanes copy },
}

/// The end of a copy's queue at which requests are taken, with how many were.
#[derive(Drop)]
pub struct Outlet<T: Posted, M: Mailed> {
    pub copy: u8,
    pub taken: u64,
    pub pass: LanePass<T>,
    pub of: PhantomData<M>,
    ghost named: { (pass.table_id ≡ M.lanes copy) × (pass.me.1 ≡ []) },
    ghost within: { copy < M.copies },
    ghost takes: { (view pass).takes ≡ true },
    ghost counted: { taken ≡ length (view pass).got },
}

/// The end of a copy's queue at which one session puts requests, with how many it put.
#[derive(Drop)]
pub struct Inlet<T: Posted, M: Mailed> {
    pub copy: u8,
    pub session: u8,
    pub sent: u64,
    pub pass: LanePass<T>,
    pub of: PhantomData<M>,
    ghost named: { (pass.table_id ≡ M.lanes copy) × (pass.me.1 ≡ []) },
    ghost puts: { ((view pass).puts ≡ true) × ((view pass).from ≡ session) },
    ghost counted: { sent ≡ length (view pass).put },
}

/// That a session's request of this number was taken at a copy.
#[derive(Drop)]
pub struct Receipt<T: Posted, M: Mailed> {
    pub copy: u8,
    pub session: u8,
    pub number: u64,
    pub pass: LanePass<T>,
    pub of: PhantomData<M>,
    ghost named: { (pass.table_id ≡ M.lanes copy) × (pass.me.1 ≡ []) },
    ghost tells: { ((view pass).from ≡ session) × ((view pass).known ≡ number + 1) },
}

// A count and one more. At the end of its range it waits for ever.
fn one_more<R: Wait>(rt: &R, count: u64) -> u64
    ensures { result ≡ count + 1 }
{
    for _ in rt.forever() {
        if let Some(more) = count.checked_add(1) {
            return more;
        }
        thread::yield_now();
    }
    unreachable!()
}

impl<T: Posted, M: Mailed> Outlet<T, M> {
    /// The end of the next session, at which nothing was put.
    pub fn seat(&mut self, tray: &Tray<T, M>, session: u8) -> Inlet<T, M>
        requires same { tray.now.copy ≡ self.old.copy }
        requires next { (view self.old.pass).made ≡ session }
        ensures outlet { (self.new.copy ≡ self.old.copy)
            × ((view self.new.pass).got ≡ (view self.old.pass).got) }
        ensures made { (view self.new.pass).made ≡ session + 1 }
        ensures inlet { (result.copy ≡ self.old.copy) × (result.session ≡ session) }
        ensures put { ((view result.pass).put ≡ []) × ((view result.pass).known ≡ 0) }
    {
        Inlet {
            copy: self.copy,
            session,
            sent: 0,
            pass: seat(&tray.queue, &mut self.pass),
            of: PhantomData,
        }
    }

    /// Takes the item that was put longest ago, once there is one, and tells the request in it.
    pub fn take<R: Wait>(&mut self, rt: &R, tray: &Tray<T, M>) -> (T, Option<Request>)
        requires same { tray.now.copy ≡ self.old.copy }
        ensures copy { self.new.copy ≡ self.old.copy }
        ensures item { T.requests result.0 ≡ option_to_list result.1 }
        ensures got { (view self.new.pass).got
            ≡ (view self.old.pass).got ++ option_to_list result.1 }
        ensures number { IfSome result.1
            (λ r. r.number ≡ length (of r.from (view self.old.pass).got)) }
    {
        let item = take(rt, &tray.queue, &mut self.pass);
        let request = item.request();
        if request.is_some() {
            self.taken = one_more(rt, self.taken);
        }
        (item, request)
    }

    /// That the last request was taken.
    pub fn receipt(&mut self, tray: &Tray<T, M>, request: &Request) -> Receipt<T, M>
        requires same { tray.now.copy ≡ self.old.copy }
        requires last { IsLast (view self.old.pass).got request.now }
        ensures outlet { (self.new.copy ≡ self.old.copy)
            × (view self.new.pass ≡ view self.old.pass) }
        ensures receipt { (result.copy ≡ self.old.copy) × (result.session ≡ request.now.from)
            × (result.number ≡ request.now.number) }
    {
        Receipt {
            copy: self.copy,
            session: request.from,
            number: request.number,
            pass: note(&tray.queue, &mut self.pass),
            of: PhantomData,
        }
    }
}

impl<T: Posted, M: Mailed> Inlet<T, M> {
    /// Puts an item with the session's next request behind all others, once there is room.
    pub fn send<R: Wait>(&mut self, rt: &R, tray: &Tray<T, M>, ask: &Ask, item: T)
        requires same { tray.now.copy ≡ self.old.copy }
        requires next { T.requests item ≡ request self.old.session self.old.sent ask.now ∷ [] }
        ensures same { (self.new.copy ≡ self.old.copy) × (self.new.session ≡ self.old.session) }
        ensures sent { self.new.sent ≡ self.old.sent + 1 }
        ensures put { (view self.new.pass).put ≡ (view self.old.pass).put ++ ask.now ∷ [] }
        ensures known { (view self.new.pass).known ≡ (view self.old.pass).known }
    {
        put(rt, &tray.queue, &mut self.pass, item);
        self.sent = one_more(rt, self.sent);
    }

    /// Puts an item without a request behind all others, once there is room.
    pub fn stop<R: Wait>(&mut self, rt: &R, tray: &Tray<T, M>, item: T)
        requires same { tray.now.copy ≡ self.old.copy }
        requires none { T.requests item ≡ [] }
        ensures same { (self.new.copy ≡ self.old.copy) × (self.new.session ≡ self.old.session) }
        ensures put { ((view self.new.pass).put ≡ (view self.old.pass).put)
            × ((view self.new.pass).known ≡ (view self.old.pass).known) }
    {
        put(rt, &tray.queue, &mut self.pass, item);
    }

    /// Learns that its last request was taken: then all were.
    pub fn accept(&mut self, tray: &Tray<T, M>, receipt: Receipt<T, M>)
        requires same { tray.now.copy ≡ self.old.copy }
        requires receipt { (receipt.copy ≡ self.old.copy) × (receipt.session ≡ self.old.session) }
        requires last { receipt.number + 1 ≡ self.old.sent }
        ensures same { (self.new.copy ≡ self.old.copy) × (self.new.session ≡ self.old.session)
            × (self.new.sent ≡ self.old.sent) }
        ensures put { (view self.new.pass).put ≡ (view self.old.pass).put }
        ensures known { (view self.new.pass).known ≡ length (view self.new.pass).put }
    {
        let Receipt { pass, .. } = receipt;
        tell(&tray.queue, &mut self.pass, pass);
    }

    /// Is held against the end that takes: what was taken of its session is a beginning of what it sent, in order, each
    /// once, and all that it knows to be taken is in it.
    pub fn settle(&mut self, tray: &Tray<T, M>, outlet: &mut Outlet<T, M>)
        requires same { (tray.now.copy ≡ self.old.copy) × (outlet.old.copy ≡ self.old.copy) }
        ensures same { (self.new.copy ≡ self.old.copy) × (self.new.session ≡ self.old.session) }
        ensures put { ((view self.new.pass).put ≡ (view self.old.pass).put)
            × ((view self.new.pass).known ≡ (view self.old.pass).known) }
        ensures outlet { (outlet.new.copy ≡ outlet.old.copy)
            × ((view outlet.new.pass).got ≡ (view outlet.old.pass).got) }
        ensures beginning { (rest : List Request)
            × (of self.old.session (view outlet.old.pass).got ++ rest
            ≡ numbered self.old.session 0 (view self.old.pass).put) }
        ensures known { (view self.old.pass).known
            ≤ length (of self.old.session (view outlet.old.pass).got) }
    {
        settle(&tray.queue, &mut outlet.pass, &mut self.pass);
    }
}
