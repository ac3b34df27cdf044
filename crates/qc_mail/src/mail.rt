//! The queues of all copies, and a session's ends of them.
ghost use Rattle.std.specs.Prelude.{◌≡◌, ◌<◌, IfOk, IsErrOf, length, map, nat_lt, All};
ghost use Rattle.std.specs.List.{range_with_len};
ghost use Rattle.qc_event.specs.declared.short.Short.TheVariants.{Room};
ghost use Rattle.qc_event.specs.History.{limit};
ghost use Rattle.qc_event.specs.Tables.{setting_of};
ghost use Rattle.qc_desk.specs.Consulting.{HasAsked};
ghost use Rattle.qc_desk.specs.Known.{IsKnown};
ghost use Rattle.qc_mail.specs.Mails.{known_at, put_at, with_sent};
ghost use Rattle.qc_desk.specs.Calling.{SeesMore};
ghost use Rattle.qc_mail.specs.Serving.{HasAnswered};

use crate::delivery::deliver;
use crate::letter::{Letter, Reply};
use crossbeam_queue::ArrayQueue;
use qc_desk::{Desk, Pass, Store};
use qc_event::{Answered, Ask, Short};
use qc_lane::{Inlet, Mailed, Posted, Tray};
use std::sync::Wait;

/// The queues of all copies, and those of the sessions' replies, each at its number.
#[derive(Drop)]
pub struct Mail<N: Store, M: Mailed>
where
    Letter<N>: Posted,
{
    pub trays: Vec<Tray<Letter<N>, M>>,
    pub replies: Vec<ArrayQueue<Reply<N, M>>>,
    ghost in_order: { map (λ t. t.copy) trays.items ≡ range_with_len 0 M.copies },
    ghost whole: { length replies.items ≡ M.sessions },
}

/// A session's ends of the copies' queues, each at its copy's number. All that it sent was taken.
#[derive(Drop)]
pub struct Post<N: Store, M: Mailed>
where
    Letter<N>: Posted,
{
    pub session: u8,
    pub ends: Vec<Inlet<Letter<N>, M>>,
    ghost within: { session < M.sessions },
    ghost in_order: { map (λ e. e.copy) ends.items ≡ range_with_len 0 M.copies },
    ghost own: { All (λ e. e.session ≡ session) ends.items },
    ghost taken: { All (λ e. known_at e.pass ≡ length (put_at e.pass)) ends.items },
}

impl<N: Store, M: Mailed> Mail<N, M> {
    /// A copy's queue.
    pub fn tray(&self, copy: u8) -> &Tray<Letter<N>, M>
        requires served { copy < M.copies }
        ensures { result.now.copy ≡ copy }
    {
        &self.trays[usize::from(copy)]
    }
}

impl<N: Store, M: Mailed> Post<N, M> {
    /// Whether it has an end of a copy's queue.
    pub fn has(&self, copy: u8) -> bool
        ensures { result ≡ nat_lt copy M.copies }
    {
        usize::from(copy) < self.ends.len()
    }

    /// Sends a request to its copy's server, and waits for the reply. The seer has then seen what the answer rests on.
    pub fn deliver<R: Wait>(
        &mut self,
        rt: &R,
        mail: &Mail<N, M>,
        desk: &Desk<N>,
        seer: &mut Pass<N>,
        ask: &Ask,
    ) -> Result<Answered, Short>
        requires served { ask.now.copy < M.copies }
        requires copy { ask.now.copy < length N.base }
        requires asked { HasAsked seer.old.seen ask.now }
        ensures session { self.new.session ≡ self.old.session }
        ensures sent { map (λ e. put_at e.pass) self.new.ends.items ≡ with_sent ask.now.copy
            ask.now (map (λ e. put_at e.pass) self.old.ends.items) }
        ensures answered { IfOk result (HasAnswered ask.now.copy seer.new.seen ask.now) }
        ensures room { IsErrOf result Room → length seer.new.seen ≡ limit }
        ensures seer { SeesMore seer.old seer.new }
        ensures known { IsKnown (setting_of N.table N.base) seer.new }
    {
        deliver(
            rt,
            &mut self.ends[usize::from(ask.copy)],
            mail.tray(ask.copy),
            &mail.replies[usize::from(self.session)],
            desk,
            seer,
            ask,
        )
    }

    /// Sends the word to stop to a copy's server.
    pub fn stop<R: Wait>(&mut self, rt: &R, mail: &Mail<N, M>, copy: u8)
        requires served { copy < M.copies }
        ensures session { self.new.session ≡ self.old.session }
        ensures sent { map (λ e. put_at e.pass) self.new.ends.items
            ≡ map (λ e. put_at e.pass) self.old.ends.items }
    {
        self.ends[usize::from(copy)].stop(rt, mail.tray(copy), Letter::stop());
    }
}
