//! A link that goes by a list.
ghost use Rattle.std.specs.Prelude.{◌≤◌, ◌<◌, ◌-◌, length};

use crate::link::{Fate, Link};
use std::alloc::AllocError;

/// A link with a list of fates, over and over; of every `hold` due steps its last one delivers the request
/// that was held first.
#[derive(Drop)]
pub struct PlanLink {
    fates: Vec<Fate>,
    /// The place of the next fate.
    at: usize,
    hold: u64,
    /// How many due steps passed since one that could deliver.
    waited: u64,
    troubles: u64,
    ghost within: { at ≤ length fates.items - 1 },
    ghost waiting: { waited < hold },
}

impl PlanLink {
    ghost use Rattle.std.specs.Prelude.{◌≡◌, ◌≤◌};
    ghost use Rattle.qc_net.specs.Plan.{starting, asked};
    ghost use Rattle.qc_net.specs.PlanLink.{plan_of, troubles_of};

    /// A link with these fates, one for each request; where there are none, each is delivered.
    pub fn new(fates: Vec<Fate>, hold: u64) -> Self
        requires { 1 ≤ hold }
        ensures plan { plan_of result ≡ starting fates.items hold }
        ensures troubles { troubles_of result ≡ 0 }
    {
        PlanLink {
            fates,
            at: 0,
            hold,
            waited: 0,
            troubles: 0,
        }
    }

    // Goes on to the next fate.
    fn turn(&mut self)
        ensures plan { plan_of self.new ≡ asked (plan_of self.old) }
        ensures troubles { troubles_of self.new ≡ troubles_of self.old }
    {
        let next = self.at + 1;
        if next < self.fates.len() {
            self.at = next;
        } else {
            self.at = 0;
        }
    }
}

impl Link for PlanLink {
    ghost use Rattle.std.specs.Prelude.{◌≡◌, ◌<◌, Some, if◌then◌else◌, IfSome, IfOk};
    ghost use Rattle.qc_event.specs.Counts.{next};
    ghost use Rattle.qc_net.specs.Plan.{Counts, is_trouble, next_fate, asked, due_in, passed, anew};
    ghost use Rattle.qc_net.specs.PlanLink.{plan_of, troubles_of};

    ghost view = { λ link. record { troubles = troubles_of link; plan = Some (plan_of link) } };

    fn fate(&mut self, _to: u8) -> Fate
        ensures told { result ≡ next_fate (plan_of self.old).coming }
        ensures plan { plan_of self.new ≡ asked (plan_of self.old) }
        ensures counts { Counts result (troubles_of self.old) (troubles_of self.new) }
        ensures counted { troubles_of self.new
            ≡ (if is_trouble result then next (troubles_of self.old) else troubles_of self.old) }
    {
        let fate = match self.fates.get(self.at) {
            Some(fate) => *fate,
            None => Fate::Deliver,
        };
        self.turn();
        if fate.is_trouble() {
            self.troubles = self.troubles.saturating_add(1);
        }
        fate
    }

    fn due(&mut self, held: usize) -> Option<usize>
        ensures within { IfSome result (λ place. place < held) }
        ensures told { result ≡ due_in (plan_of self.old) held }
        ensures plan { plan_of self.new ≡ passed (plan_of self.old) }
        ensures counts { troubles_of self.new ≡ troubles_of self.old }
    {
        self.waited += 1;
        if self.waited < self.hold {
            return None;
        }
        self.waited = 0;
        if held > 0 { Some(0) } else { None }
    }

    fn fresh(&self) -> Result<Self, AllocError>
        ensures plan { IfOk result (λ link. plan_of link ≡ anew (plan_of self.now)) }
        ensures counts { IfOk result (λ link. troubles_of link ≡ 0) }
    {
        Ok(PlanLink::new(self.fates.clone()?, self.hold))
    }
}
