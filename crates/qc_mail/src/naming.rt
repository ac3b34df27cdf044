//! A mail is made, and named.
ghost use Rattle.std.specs.Prelude.{◌≡◌, ◌<◌, ◌+◌, [], IfOk, OnOk, length, map, set, get_or, All};
ghost use Rattle.std.specs.List.{range_with_len};
ghost use Rattle.crossbeam_queue.specs.Passes.{view, IsPassOf};
ghost use Rattle.qc_lane.specs.Ends.{queue_id};
ghost use Rattle.qc_lane.specs.Lanes.{taker};
ghost use Rattle.qc_mail.specs.Mails.{got_at, known_at, made_at, put_at};

use crate::letter::{Letter, Reply};
use crate::mail::{Mail, Post};
use crate::seating::seat_all;
use crate::stub::Stub;
use crossbeam_queue::ArrayQueue;
use qc_desk::Store;
use qc_lane::{Inlet, LanePass, Mailed, Outlet, Posted, Queue, Tray, open};
use std::alloc::{AllocError, Global};
use std::marker::PhantomData;

// How many requests to one copy may wait.
const PLACES: usize = 16;

/// A copy's queue without a name.
#[derive(Drop)]
pub struct Opened<N: Store>
where
    Letter<N>: Posted,
{
    pub(crate) queue: Queue<Letter<N>>,
    pub(crate) pass: LanePass<Letter<N>>,
    ghost taking: { IsPassOf queue pass × (view pass ≡ taker) },
}

// A copy's queue without a name.
fn open_one<N: Store>(alloc: Global) -> Result<Opened<N>, AllocError> {
    let (queue, pass) = open(alloc, PLACES)?;
    Ok(Opened { queue, pass })
}

// A copy's queue and its server's end, by name.
fn name_one<N: Store, M: Mailed>(opened: Opened<N>, copy: u8) -> (Tray<Letter<N>, M>, Stub<N, M>)
    requires named { queue_id opened.queue ≡ M.lanes copy }
    requires within { copy < M.copies }
    ensures tray { result.0.copy ≡ copy }
    ensures stub { (result.1.outlet.copy ≡ copy) × (got_at result.1.outlet.pass ≡ [])
        × (made_at result.1.outlet.pass ≡ 0) }
{
    let Opened { queue, pass } = opened;
    let outlet = Outlet {
        copy,
        taken: 0,
        pass,
        of: PhantomData,
    };
    (
        Tray {
            copy,
            queue,
            of: PhantomData,
        },
        Stub { outlet },
    )
}

// The queues of all copies and their servers' ends, by name.
fn name_all<N: Store, M: Mailed>(
    alloc: Global,
    mut opened: Vec<Opened<N>>,
    copies: u8,
) -> Result<(Vec<Tray<Letter<N>, M>>, Vec<Stub<N, M>>), AllocError>
    requires named { map (λ o. queue_id o.queue) opened.items
        ≡ map M.lanes (range_with_len 0 M.copies) }
    requires copies { copies ≡ M.copies }
    ensures trays { IfOk result (λ r. map (λ t. t.copy) r.0.items ≡ range_with_len 0 M.copies) }
    ensures stubs { IfOk result (λ r. map (λ s. s.outlet.copy) r.1.items
        ≡ range_with_len 0 M.copies) }
    ensures none { IfOk result (λ r. All (λ s. got_at s.outlet.pass ≡ []) r.1.items) }
    ensures made { IfOk result (λ r. All (λ s. made_at s.outlet.pass ≡ 0) r.1.items) }
{
    let mut trays = Vec::new(alloc);
    let mut stubs = Vec::new(alloc);
    for copy in 0..copies {
        let (tray, stub) = name_one(opened.remove(0), copy);
        trays.push(tray)?;
        stubs.push(stub)?;
    }
    Ok((trays, stubs))
}

// A queue of one place for each session's reply.
fn reply_queues<N: Store, M: Mailed>(
    alloc: Global,
    sessions: u8,
) -> Result<Vec<ArrayQueue<Reply<N, M>>>, AllocError>
    ensures { IfOk result (λ r. length r.items ≡ sessions) }
{
    let mut all = Vec::new(alloc);
    for _ in 0..sessions {
        all.push(ArrayQueue::new(alloc, 1)?)?;
    }
    Ok(all)
}

/// The queues of a mail without names, one for each copy.
#[derive(Drop)]
pub struct Unnamed<N: Store>
where
    Letter<N>: Posted,
{
    pub(crate) opened: Vec<Opened<N>>,
    pub(crate) copies: u8,
    pub(crate) sessions: u8,
    ghost whole: { length opened.items ≡ copies },
}

impl<N: Store> Unnamed<N> {
    /// The queues of so many copies, for so many sessions, without names. An error is want of memory.
    pub fn new(alloc: Global, copies: u8, sessions: u8) -> Result<Self, AllocError>
        ensures { IfOk result (λ u. (u.copies ≡ copies) × (u.sessions ≡ sessions)) }
    {
        let mut opened = Vec::new(alloc);
        for _ in 0..copies {
            opened.push(open_one(alloc)?)?;
        }
        Ok(Unnamed {
            opened,
            copies,
            sessions,
        })
    }

    /// The mail, a post for each session and a stub for each copy, in the order of their numbers. Nothing was sent yet.
    /// An error is want of memory.
    pub fn name<M: Mailed>(
        self,
        alloc: Global,
    ) -> Result<(Mail<N, M>, Vec<Post<N, M>>, Vec<Stub<N, M>>), AllocError>
        requires lanes { map (λ o. queue_id o.queue) self.opened.items
            ≡ map M.lanes (range_with_len 0 M.copies) }
        requires numbers { (self.copies ≡ M.copies) × (self.sessions ≡ M.sessions) }
        ensures posts { IfOk result (λ r. map (λ p. p.session) r.1.items
            ≡ range_with_len 0 M.sessions) }
        ensures sent { IfOk result (λ r. All (λ p. All (λ e. put_at e.pass ≡ []) p.ends.items)
            r.1.items) }
        ensures stubs { IfOk result (λ r. map (λ s. s.outlet.copy) r.2.items
            ≡ range_with_len 0 M.copies) }
        ensures taken { IfOk result (λ r. All (λ s. got_at s.outlet.pass ≡ []) r.2.items) }
    {
        let Unnamed {
            opened,
            copies,
            sessions,
        } = self;
        let (trays, mut stubs) = name_all(alloc, opened, copies)?;
        let mail = Mail {
            trays,
            replies: reply_queues(alloc, sessions)?,
        };
        let posts = seat_all(alloc, &mail, &mut stubs, copies, sessions)?;
        Ok((mail, posts, stubs))
    }
}
