//! A request goes to its copy's server, and its reply comes back.
ghost use Rattle.std.specs.Prelude.{◌≡◌, ◌<◌, ◌+◌, [], ◌∷◌, ◌++◌, IfOk, IsErrOf, length};
ghost use Rattle.crossbeam_queue.specs.Passes.{view};
ghost use Rattle.qc_event.specs.declared.short.Short.TheVariants.{Room};
ghost use Rattle.qc_event.specs.History.{limit};
ghost use Rattle.qc_event.specs.Tables.{setting_of};
ghost use Rattle.qc_desk.specs.Calling.{SeesMore};
ghost use Rattle.qc_mail.specs.Serving.{HasAnswered};
ghost use Rattle.qc_desk.specs.Consulting.{HasAsked};
ghost use Rattle.qc_desk.specs.Known.{IsKnown};

use crate::letter::{Letter, Reply, Served};
use crossbeam_queue::ArrayQueue;
use qc_desk::{Desk, Pass, Store};
use qc_event::{Answered, Ask, Short};
use qc_lane::{Inlet, Mailed, Request, Tray};
use std::sync::Wait;
use std::thread;

// Waits for the reply to a request.
fn reply_to<N: Store, M: Mailed, R: Wait>(
    rt: &R,
    replies: &ArrayQueue<Reply<N, M>>,
    copy: u8,
    request: &Request,
) -> Reply<N, M>
    ensures receipt { (result.receipt.copy ≡ copy) × (result.receipt.session ≡ request.now.from)
        × (result.receipt.number ≡ request.now.number) }
    ensures access { result.served.ask.access ≡ request.now.ask.access }
{
    for _ in rt.forever() {
        match replies.pop(rt) {
            Some(reply) => {
                if reply.receipt.copy == copy
                    && reply.receipt.session == request.from
                    && reply.receipt.number == request.number
                    && reply.served.ask.access == request.ask.access
                {
                    return reply;
                }
            }
            None => thread::yield_now(),
        }
    }
    unreachable!()
}

// Sends a request, and waits for its reply. The inlet then knows that all its requests were taken.
fn exchange<N: Store, M: Mailed, R: Wait>(
    rt: &R,
    inlet: &mut Inlet<Letter<N>, M>,
    tray: &Tray<Letter<N>, M>,
    replies: &ArrayQueue<Reply<N, M>>,
    note: Pass<N>,
    ask: &Ask,
) -> Served<N>
    requires same { tray.now.copy ≡ inlet.old.copy }
    requires copy { ask.now.copy < length N.base }
    requires asked { HasAsked note.seen ask.now }
    ensures same { (inlet.new.copy ≡ inlet.old.copy) × (inlet.new.session ≡ inlet.old.session) }
    ensures put { (view inlet.new.pass).put ≡ (view inlet.old.pass).put ++ ask.now ∷ [] }
    ensures taken { (view inlet.new.pass).known ≡ length (view inlet.new.pass).put }
    ensures access { result.ask.access ≡ ask.now.access }
{
    let request = Request {
        from: inlet.session,
        number: inlet.sent,
        ask: *ask,
    };
    inlet.send(rt, tray, ask, Letter::of(request, note));
    let reply = reply_to(rt, replies, inlet.copy, &request);
    let Reply { receipt, served } = reply;
    inlet.accept(tray, receipt);
    served
}

/// Sends a request to its copy's server, and waits for the reply. The seer has then seen what the answer rests on, and
/// the inlet knows that all requests of its session were taken.
pub(crate) fn deliver<N: Store, M: Mailed, R: Wait>(
    rt: &R,
    inlet: &mut Inlet<Letter<N>, M>,
    tray: &Tray<Letter<N>, M>,
    replies: &ArrayQueue<Reply<N, M>>,
    desk: &Desk<N>,
    seer: &mut Pass<N>,
    ask: &Ask,
) -> Result<Answered, Short>
    requires same { tray.now.copy ≡ inlet.old.copy }
    requires copy { ask.now.copy < length N.base }
    requires asked { HasAsked seer.old.seen ask.now }
    ensures same { (inlet.new.copy ≡ inlet.old.copy) × (inlet.new.session ≡ inlet.old.session) }
    ensures put { (view inlet.new.pass).put ≡ (view inlet.old.pass).put ++ ask.now ∷ [] }
    ensures taken { (view inlet.new.pass).known ≡ length (view inlet.new.pass).put }
    ensures answered { IfOk result (HasAnswered ask.now.copy seer.new.seen ask.now) }
    ensures room { IsErrOf result Room → length seer.new.seen ≡ limit }
    ensures seer { SeesMore seer.old seer.new }
    ensures known { IsKnown (setting_of N.table N.base) seer.new }
{
    let note = desk.note(seer);
    let Served {
        answer,
        mut note,
        ..
    } = exchange(rt, inlet, tray, replies, note, ask);
    desk.show(rt, &mut note, seer);
    answer
}
