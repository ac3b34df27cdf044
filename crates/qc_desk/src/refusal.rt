//! Why a call of a desk appended nothing.
ghost use Rattle.std.specs.Prelude.{◌≡◌};
ghost use Rattle.qc_desk.specs.declared.refusal.DeskNo.TheVariants as no;

use qc_event::{Name, Short};
use thiserror::Error;

/// Why a call appended nothing.
#[derive(Clone, Copy, Debug, Error)]
pub enum DeskNo {
    /// The shortest aborted ancestor of the name in question.
    #[error("{0} is aborted")]
    Orphan(Name),
    /// The name has ended.
    #[error("the name has ended")]
    Ended,
    /// The first started child without an end.
    #[error("{0} has not ended")]
    ChildrenOpen(Name),
    /// The top is ready.
    #[error("the top is ready")]
    Ready,
    /// There was no memory, or the history takes no more entries.
    #[error("{0}")]
    Short(Short),
}

impl From<Short> for DeskNo {
    ghost from_gives = { λ short e. e ≡ no.Short short };

    fn from(short: Short) -> Self {
        DeskNo::Short(short)
    }
}
