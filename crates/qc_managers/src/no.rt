//! Why a manager has no answer.
ghost use Rattle.std.specs.Prelude.{◌≡◌};
ghost use Rattle.qc_managers.specs.Managed.{cause_of};

use crate::carrier::CarryNo;
use crate::shortage::Shortage;
use qc_event::{Cause, Lack, Name, Short};
use thiserror::Error;

/// Why a manager has no answer.
#[derive(Clone, Copy, Debug, Error)]
pub enum MgrNo {
    /// An ancestor of the manager is aborted.
    #[error("{0} is aborted")]
    Orphan(Name),
    /// The access of the manager that was the first to be blocked was blocked at this copy by this access (Moss).
    #[error("copy {copy} is blocked by {holder}")]
    Conflict { copy: u8, holder: Name },
    /// Too few copies replied (Gifford).
    #[error("{0}")]
    NoQuorum(Lack),
    /// The number to raise is at `2^64 - 1`.
    #[error("a number is at its last value")]
    Last,
    /// There was no memory, or the history takes no more entries. The steps done before stand.
    #[error("{0}")]
    Short(Short),
}

impl MgrNo {
    /// The cause with which a manager ends that has no answer for this reason; none where memory or
    /// room was wanting.
    pub fn cause(&self) -> Option<Cause>
        ensures { result ≡ cause_of self.now }
    {
        match *self {
            MgrNo::Orphan(ancestor) => Some(Cause::Orphan(ancestor)),
            MgrNo::Conflict { copy, holder } => Some(Cause::Conflict { copy, holder }),
            MgrNo::NoQuorum(lack) => Some(Cause::NoQuorum(lack)),
            MgrNo::Last => Some(Cause::Last),
            MgrNo::Short(_) => None,
        }
    }
}

impl From<CarryNo> for MgrNo {
    ghost use Rattle.qc_managers.specs.Managed.{mgr_no};

    ghost from_gives = { λ no e. e ≡ mgr_no no };

    fn from(no: CarryNo) -> Self {
        match no {
            CarryNo::Orphan(ancestor) => MgrNo::Orphan(ancestor),
            CarryNo::Short(short) => MgrNo::Short(short),
        }
    }
}

impl From<Shortage> for MgrNo {
    ghost use Rattle.qc_managers.specs.Managed.{no_of};

    ghost from_gives = { λ shortage e. e ≡ no_of shortage };

    fn from(shortage: Shortage) -> Self {
        match shortage {
            Shortage::Conflict { copy, holder } => MgrNo::Conflict { copy, holder },
            Shortage::NoQuorum(lack) => MgrNo::NoQuorum(lack),
        }
    }
}
