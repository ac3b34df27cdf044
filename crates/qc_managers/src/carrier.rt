//! How a manager's accesses get to the copies and back.
ghost use Rattle.std.specs.Prelude.{◌≡◌, ◌≤◌, IfOk, IfErr};
ghost use Rattle.qc_event.specs.Counts.{Rose};
ghost use Rattle.qc_event.specs.Legal.{Legal};
ghost use Rattle.qc_managers.specs.Carrying.{CarrierView, MayCarry, next_ask, HasGrown, carriage, became as result_of, WasCarried, WasNotCarried, HasReason};

use qc_config::{Op, Tuple};
use qc_event::{Name, Short, Why};
use thiserror::Error;

/// What became of an access that ended.
#[derive(Clone, Copy, Debug)]
pub enum Carried {
    /// The copy granted it: the tuple there after the operation. The access is committed.
    Reply(Tuple),
    /// The access of the first conflicting grant in its way (Moss). The access is aborted.
    Blocked(Name),
    /// No answer came, for this reason. The access is aborted.
    Gone(Why),
}

/// Why an access was not carried to an answer.
#[derive(Clone, Copy, Debug, Error)]
pub enum CarryNo {
    /// An ancestor of the manager is aborted. The access, where it started, ended as its orphan.
    #[error("{0} is aborted")]
    Orphan(Name),
    /// There was no memory, or the history takes no more entries. The steps done before stand.
    #[error("{0}")]
    Short(Short),
}

impl From<Short> for CarryNo {
    ghost use Rattle.qc_managers.specs.declared.carrier.CarryNo.TheVariants as no;

    ghost from_gives = { λ short e. e ≡ no.Short short };

    fn from(short: Short) -> Self {
        CarryNo::Short(short)
    }
}

/// Carries a manager's accesses to the copies, one at a time.
pub trait Carrier {
    /// Its setting and seat, what it has seen and what others may make, and the troubles of its link.
    ghost view: { Self → CarrierView };

    /// Whether carrying alone has made the second of the first.
    ghost became: { Self → Self → Type 0 };

    /// Starts the manager's next access, sends its request to a copy, and ends it by what came back. A
    /// copy's word that the access is dead comes back as `Orphan`.
    fn carry(&mut self, manager: &Name, copy: u8, rec: u8, op: Op) -> Result<Carried, CarryNo>
        requires { MayCarry (view self.old).setting (view self.old).seat (view self.old).seen
            manager.now copy rec op }
        ensures setting { (view self.new).setting ≡ (view self.old).setting }
        ensures seat { (view self.new).seat ≡ (view self.old).seat }
        ensures others { (view self.new).others ≡ (view self.old).others }
        ensures grown { HasGrown (view self.old).others (λ n. n ≡ (next_ask (view self.old).seen
            manager.now copy rec op).access) (view self.old).seen (view self.new).seen }
        ensures carried { IfOk result (λ c. WasCarried (carriage (view self.old).seat
            (view self.old).seen (view self.new).seen manager.now copy rec op) (result_of c)) }
        ensures refused { IfErr result (WasNotCarried (carriage (view self.old).seat
            (view self.old).seen (view self.new).seen manager.now copy rec op)) }
        ensures reason { IfOk result (HasReason (carriage (view self.old).seat (view self.old).seen
            (view self.new).seen manager.now copy rec op) (Rose (view self.old).troubles
            (view self.new).troubles)) }
        ensures later { (view self.old).troubles ≤ (view self.new).troubles }
        ensures became { became self.old self.new };

    /// Where nothing is carried it is as it was.
    ghost became_itself: { (carrier : Self) → became carrier carrier };

    /// What is carried after what was carried is carried.
    ghost became_by_both: { (a b c : Self) → became a b → became b c → became a c };

    /// The history that it has seen is legal.
    ghost is_legal: { (carrier : Self) → Legal (view carrier).setting (view carrier).seen };
}
