//! Where requests arrive.
ghost use Rattle.std.specs.Prelude.{◌≡◌, ◌∷◌, option_map, IfOk, IfErr, OnErr};
ghost use Rattle.qc_event.specs.declared.event.Ask.{Ask};
ghost use Rattle.qc_event.specs.declared.event.Answered.{Answered};
ghost use Rattle.qc_net.specs.Given.{PortView, IsWant, given, GaveTwice};

use qc_event::{Answered, Ask, Short};

/// Takes requests to the copies.
pub trait Port {
    /// Which requests it may be given, which answers it has given, its deliveries, where it tells them, and whether
    /// its history is full.
    ghost view: { Self → PortView };

    /// Whether deliveries alone have made the second of the first.
    ghost became: { Self → Self → Type 0 };

    /// Delivers a request. `Room` comes exactly where its history is full, now that the call is over.
    fn deliver(&mut self, ask: &Ask) -> Result<Answered, Short>
        requires { (view self.old).may ask.now }
        ensures answered { IfOk result (λ answer. (view self.new).gave ask.now answer) }
        ensures told { IfOk result (λ answer. (view self.new).made ≡ option_map
            (λ earlier. given ask.now answer ∷ earlier) (view self.old).made) }
        ensures told_err { OnErr result ((view self.new).made ≡ (view self.old).made) }
        ensures short { IfErr result (IsWant (view self.new).full) }
        ensures may { (other : Ask) → (view self.old).may other → (view self.new).may other }
        ensures gave { (other : Ask) (answer : Answered) → (view self.old).gave other answer
            → (view self.new).gave other answer }
        ensures became { became self.old self.new };

    /// Without a delivery it is as it was.
    ghost became_itself: { (port : Self) → became port port };

    /// Deliveries after deliveries are deliveries.
    ghost became_by_both: { (a b c : Self) → became a b → became b c → became a c };
}

/// Delivers a request two times. The answer is that of the first delivery.
pub(crate) fn deliver_twice<P: Port>(port: &mut P, ask: &Ask) -> Result<Answered, Short>
    requires { (P.view port.old).may ask.now }
    ensures answered { IfOk result (λ answer. (P.view port.new).gave ask.now answer) }
    ensures told { IfOk result (λ answer. GaveTwice (P.view port.new).gave (P.view port.old).made
        (P.view port.new).made ask.now answer) }
    ensures short { IfErr result (IsWant (P.view port.new).full) }
    ensures may { (other : Ask) → (P.view port.old).may other → (P.view port.new).may other }
    ensures gave { (other : Ask) (answer : Answered) → (P.view port.old).gave other answer
        → (P.view port.new).gave other answer }
    ensures became { P.became port.old port.new }
{
    let first = port.deliver(ask)?;
    let _second = port.deliver(ask)?;
    Ok(first)
}
