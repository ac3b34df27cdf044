//! A copy's server.
ghost use Rattle.std.specs.Prelude.{◌≡◌, ◌<◌, IfSome, length};
ghost use Rattle.crossbeam_queue.specs.Passes.{view};
ghost use Rattle.qc_lane.specs.Ends.{IsLast};
ghost use Rattle.qc_mail.specs.Letters.{IsSeen};
ghost use Rattle.qc_desk.specs.Consulting.{HasAsked};

use crate::letter::{Letter, Reply, Served};
use crate::serve::Serve;
use crossbeam_queue::ArrayQueue;
use qc_desk::{Pass, Store};
use qc_event::Ask;
use qc_lane::{Mailed, Outlet, Request, Tray};
use std::sync::Wait;
use std::thread;

// Serves a request that a note saw.
fn serve<N: Store, B: Serve<N>, R: Wait>(rt: &R, to: &B, ask: Ask, note: Pass<N>) -> Served<N>
    requires copy { ask.copy < length N.base }
    requires asked { HasAsked note.seen ask }
    ensures { result.ask ≡ ask }
{
    let mut note = note;
    let answer = to.serve(rt, &mut note, &ask);
    Served { ask, answer, note }
}

// Takes the next request, with a note that has seen it; none is the word to stop.
fn next<N: Store, M: Mailed, R: Wait>(
    rt: &R,
    outlet: &mut Outlet<Letter<N>, M>,
    tray: &Tray<Letter<N>, M>,
) -> Option<(Request, Pass<N>)>
    requires same { tray.now.copy ≡ outlet.old.copy }
    ensures same { outlet.new.copy ≡ outlet.old.copy }
    ensures last { IfSome result (λ job. IsLast (view outlet.new.pass).got job.0) }
    ensures seen { IfSome result (λ job. IsSeen (length N.base) job.0 job.1.seen) }
{
    let (letter, _request) = outlet.take(rt, tray);
    letter.open()
}

// Puts a reply, once there is room.
fn give<N: Store, M: Mailed, R: Wait>(
    rt: &R,
    replies: &ArrayQueue<Reply<N, M>>,
    reply: Reply<N, M>,
) {
    let mut reply = reply;
    for _ in rt.forever() {
        match replies.push(rt, reply) {
            Ok(()) => return,
            Err(back) => {
                reply = back;
                thread::yield_now();
            }
        }
    }
    unreachable!()
}

/// Serves the requests in a copy's queue, each reply to its session's, until it takes the word to stop.
pub(crate) fn work<N: Store, M: Mailed, B: Serve<N>, R: Wait>(
    rt: &R,
    outlet: &mut Outlet<Letter<N>, M>,
    tray: &Tray<Letter<N>, M>,
    replies: &[ArrayQueue<Reply<N, M>>],
    to: &B,
)
    requires same { tray.now.copy ≡ outlet.old.copy }
    ensures same { outlet.new.copy ≡ outlet.old.copy }
{
    for _ in rt.forever() {
        let Some((request, note)) = next(rt, outlet, tray) else {
            return;
        };
        let reply = Reply {
            receipt: outlet.receipt(tray, &request),
            served: serve(rt, to, request.ask, note),
        };
        let from = usize::from(request.from);
        if from < replies.len() {
            give(rt, &replies[from], reply);
        }
    }
    unreachable!()
}
