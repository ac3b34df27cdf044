//! Carries requests over a link to a port.
ghost use Rattle.std.specs.Prelude.{◌≡◌, ◌≤◌, ◌<◌, [], ◌∷◌, ◌++◌, length, option_map, vec_len, vec_capacity, All, IfOk, IfErr, IsErrOf, OnOk, OnErr, IfSome, IsTrue};
ghost use Rattle.qc_event.specs.declared.event.Ask.{Ask};
ghost use Rattle.qc_event.specs.declared.event.Answered.{Answered};
ghost use Rattle.qc_event.specs.Counts.{Rose};
ghost use Rattle.qc_net.specs.Given.{IsWant};
ghost use Rattle.qc_net.specs.Plan.{Counts, is_trouble, next_fate, passed, anew, due_in};
ghost use Rattle.qc_net.specs.Sending.{waiting, meeting, sending, IsSending};

use crate::link::{Fate, Link};
use crate::port::{Port, deliver_twice};
use qc_event::{Answered, Ask, Short};
use qc_names::lists::add;
use std::alloc::{AllocError, Global};

/// What came back of a request.
#[derive(Clone, Copy, Debug)]
pub enum Sent {
    /// The answer that the port gave.
    Answer(Answered),
    /// The request or its answer was lost.
    Lost,
    /// It is held, and was not delivered while its sender waited.
    Late,
}

/// Carries requests over a link, and holds those that are delivered later.
#[derive(Drop)]
pub struct Courier<L> {
    link: L,
    held: Vec<Ask>,
}

impl<L: Link> Courier<L> {
    ghost use Rattle.qc_net.specs.Courier.{link_of, held_of, CourierHasRoom, IsLeft, IsHeldBehind, HeldAfter, IsAnswered, SentHasCause, Stepped};

    /// A courier that holds nothing.
    pub fn new(alloc: Global, link: L) -> Self
        ensures link { link_of result ≡ link }
        ensures held { held_of result ≡ [] }
    {
        Courier {
            link,
            held: Vec::new(alloc),
        }
    }

    /// A courier that holds nothing, over a link with the same fates and hold from the start on. The only error is want of
    /// memory.
    pub fn fresh(&self) -> Result<Self, AllocError>
        ensures plan { IfOk result (λ courier. (L.view (link_of courier)).plan ≡ option_map anew
            (L.view (link_of self.now)).plan) }
        ensures held { IfOk result (λ courier. held_of courier ≡ []) }
    {
        let link = self.link.fresh()?;
        let alloc = *self.held.allocator();
        Ok(Courier::new(alloc, link))
    }

    // One due step: the place of the request that was delivered, and its answer. A request that the port does not
    // answer stays held.
    fn due_step<P: Port>(&mut self, port: &mut P) -> Result<Option<(usize, Answered)>, Short>
        requires { All (P.view port.old).may (held_of self.old) }
        ensures stepped { IfOk result (Stepped (P.view port.new).gave (held_of self.old)
            (held_of self.new) (P.view port.old).made (P.view port.new).made) }
        ensures held_err { OnErr result (held_of self.new ≡ held_of self.old) }
        ensures made_err { OnErr result ((P.view port.new).made ≡ (P.view port.old).made) }
        ensures short { IfErr result (IsWant (P.view port.new).full) }
        ensures room { CourierHasRoom self.old → CourierHasRoom self.new }
        ensures place { IfSome (L.view (link_of self.old)).plan
            (λ plan. IfOk result (λ step. option_map (λ s. s.0) step ≡ due_in plan
            (length (held_of self.old)))) }
        ensures plan { (L.view (link_of self.new)).plan ≡ option_map passed
            (L.view (link_of self.old)).plan }
        ensures counts { (L.view (link_of self.new)).troubles
            ≡ (L.view (link_of self.old)).troubles }
        ensures may { (other : Ask) → (P.view port.old).may other → (P.view port.new).may other }
        ensures gave { (other : Ask) (answer : Answered) → (P.view port.old).gave other answer
            → (P.view port.new).gave other answer }
        ensures became { P.became port.old port.new }
    {
        let Some(place) = self.link.due(self.held.len()) else {
            return Ok(None);
        };
        let ask = self.held[place];
        let answer = port.deliver(&ask)?;
        self.held.remove(place);
        Ok(Some((place, answer)))
    }

    // Holds a request last, where there is room for it, and waits for its delivery.
    fn hold<P: Port>(&mut self, ask: &Ask, port: &mut P, patience: u32) -> Result<Sent, Short>
        requires ask { (P.view port.old).may ask.now }
        requires held { All (P.view port.old).may (held_of self.old) }
        requires room { CourierHasRoom self.old }
        ensures told { IfSome (L.view (link_of self.old)).plan
            (λ plan. IfOk result (IsSending (waiting patience
            (record { plan = plan; held = held_of self.old ++ ask.now ∷ []; delivered = [] }))
            (L.view (link_of self.new)).plan (held_of self.new) (P.view port.new).gave
            (P.view port.old).made (P.view port.new).made)) }
        ensures answered { IfOk result (IsAnswered (P.view port.new).gave ask.now) }
        ensures held { HeldAfter (P.view port.new).gave (held_of self.old) ask.now
            (held_of self.new) result }
        ensures short { IfErr result (IsWant (P.view port.new).full) }
        ensures allowed { All (P.view port.new).may (held_of self.new) }
        ensures may { (other : Ask) → (P.view port.old).may other → (P.view port.new).may other }
        ensures gave { (other : Ask) (answer : Answered) → (P.view port.old).gave other answer
            → (P.view port.new).gave other answer }
        ensures became { P.became port.old port.new }
        ensures plan { option_map anew (L.view (link_of self.new)).plan ≡ option_map anew
            (L.view (link_of self.old)).plan }
        ensures counts { (L.view (link_of self.new)).troubles
            ≡ (L.view (link_of self.old)).troubles }
    {
        add(&mut self.held, *ask);
        for _ in 0..patience {
            let last = self.held.len() - 1;
            if let Some((place, answer)) = self.due_step(port)? {
                if place == last {
                    return Ok(Sent::Answer(answer));
                }
            }
        }
        Ok(Sent::Late)
    }

    // A request meets its fate.
    fn meet<P: Port>(
        &mut self,
        fate: Fate,
        ask: &Ask,
        port: &mut P,
        patience: u32,
    ) -> Result<Sent, Short>
        requires ask { (P.view port.old).may ask.now }
        requires held { All (P.view port.old).may (held_of self.old) }
        requires room { CourierHasRoom self.old }
        ensures told { IfSome (L.view (link_of self.old)).plan
            (λ plan. IfOk result (IsSending (meeting fate ask.now patience
            (record { plan = plan; held = held_of self.old; delivered = [] }))
            (L.view (link_of self.new)).plan (held_of self.new) (P.view port.new).gave
            (P.view port.old).made (P.view port.new).made)) }
        ensures answered { IfOk result (IsAnswered (P.view port.new).gave ask.now) }
        ensures held { HeldAfter (P.view port.new).gave (held_of self.old) ask.now
            (held_of self.new) result }
        ensures short { IfErr result (IsWant (P.view port.new).full) }
        ensures allowed { All (P.view port.new).may (held_of self.new) }
        ensures cause { IfOk result (SentHasCause (IsTrue (is_trouble fate))) }
        ensures may { (other : Ask) → (P.view port.old).may other → (P.view port.new).may other }
        ensures gave { (other : Ask) (answer : Answered) → (P.view port.old).gave other answer
            → (P.view port.new).gave other answer }
        ensures became { P.became port.old port.new }
        ensures plan { option_map anew (L.view (link_of self.new)).plan ≡ option_map anew
            (L.view (link_of self.old)).plan }
        ensures counts { (L.view (link_of self.new)).troubles
            ≡ (L.view (link_of self.old)).troubles }
    {
        match fate {
            Fate::Deliver => Ok(Sent::Answer(port.deliver(ask)?)),
            Fate::LoseAsk => Ok(Sent::Lost),
            Fate::LoseReply => {
                port.deliver(ask)?;
                Ok(Sent::Lost)
            }
            Fate::Hold => self.hold(ask, port, patience),
            Fate::Twice => Ok(Sent::Answer(deliver_twice(port, ask)?)),
        }
    }

    /// Sends a request. First comes one due step: it delivers the held request that the link says, if any, and
    /// drops its answer. Then the request meets its fate. One that is held waits for at most `patience` due
    /// steps, and is answered where one of them delivers it.
    ///
    /// An error is the port's, or want of memory to hold the request, before anything is done. Of what was held all is
    /// left then that was not answered, and this request behind it where it was held already. `Room` comes only where
    /// the port is full, and `Memory` only where it is not, or was full before.
    pub fn send<P: Port>(&mut self, ask: &Ask, port: &mut P, patience: u32) -> Result<Sent, Short>
        requires ask { (P.view port.old).may ask.now }
        requires held { All (P.view port.old).may (held_of self.old) }
        ensures told { IfSome (L.view (link_of self.old)).plan
            (λ plan. IfOk result (IsSending (sending plan (held_of self.old) ask.now patience)
            (L.view (link_of self.new)).plan (held_of self.new) (P.view port.new).gave
            (P.view port.old).made (P.view port.new).made)) }
        ensures answered { IfOk result (IsAnswered (P.view port.new).gave ask.now) }
        ensures held { HeldAfter (P.view port.new).gave (held_of self.old) ask.now
            (held_of self.new) result }
        ensures room { IsErrOf result Short.Room → (P.view port.new).full }
        ensures memory { IsErrOf result Short.Memory → (P.view port.new).full
            → (P.view port.old).full }
        ensures allowed { All (P.view port.new).may (held_of self.new) }
        ensures cause { IfOk result (SentHasCause
            (Rose (L.view (link_of self.old)).troubles (L.view (link_of self.new)).troubles)) }
        ensures counts { IfSome (L.view (link_of self.old)).plan
            (λ plan. OnOk result (Counts (next_fate plan.coming)
            (L.view (link_of self.old)).troubles (L.view (link_of self.new)).troubles)) }
        ensures later { (L.view (link_of self.old)).troubles
            ≤ (L.view (link_of self.new)).troubles }
        ensures may { (other : Ask) → (P.view port.old).may other → (P.view port.new).may other }
        ensures gave { (other : Ask) (answer : Answered) → (P.view port.old).gave other answer
            → (P.view port.new).gave other answer }
        ensures became { P.became port.old port.new }
        ensures plan { option_map anew (L.view (link_of self.new)).plan ≡ option_map anew
            (L.view (link_of self.old)).plan }
    {
        if self.held.reserve(1).is_err() {
            return Err(Short::Memory);
        }
        self.due_step(port)?;
        let fate = self.link.fate(ask.copy);
        self.meet(fate, ask, port, patience)
    }
}
