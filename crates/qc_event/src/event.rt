//! The entries of a history.
use qc_config::{Config, Copies, Op, Tuple, Val};
use qc_names::Name;
use std::{error, fmt};
use thiserror::Error;

/// How a transaction stands.
#[derive(Clone, Copy, PartialEq, Eq, Debug)]
pub enum Outcome {
    Live,
    Committed,
    Aborted,
}

impl Outcome {
    ghost use Rattle.std.specs.Prelude.{◌≡◌};
    ghost use Rattle.qc_event.specs.Dead as words;

    /// Whether the transaction has not ended.
    pub fn is_live(self) -> bool
        ensures { result ≡ words.is_live self }
    {
        match self {
            Outcome::Live => true,
            Outcome::Committed | Outcome::Aborted => false,
        }
    }

    /// Whether the transaction was aborted.
    pub fn is_aborted(self) -> bool
        ensures { result ≡ words.is_aborted self }
    {
        match self {
            Outcome::Aborted => true,
            Outcome::Live | Outcome::Committed => false,
        }
    }

    /// Whether the transaction was committed.
    pub fn is_committed(self) -> bool
        ensures { result ≡ words.is_committed self }
    {
        match self {
            Outcome::Committed => true,
            Outcome::Live | Outcome::Aborted => false,
        }
    }
}

/// What a transaction is for: a user transaction runs a body for a session, a manager serves one user
/// read, write or reconfiguration, and an access of a manager goes to one copy.
#[derive(Clone, Copy, Debug)]
pub enum Kind {
    User { session: u8, body: u32 },
    Read { rec: u8 },
    Write { rec: u8, value: Val },
    Reconf { rec: u8, config: Config },
    Access,
}

/// A request to a copy.
#[derive(Clone, Copy, Debug)]
pub struct Ask {
    pub access: Name,
    pub copy: u8,
    pub rec: u8,
    pub op: Op,
}

/// A grant at a copy, with the tuple after the operation.
#[derive(Clone, Copy, Debug)]
pub struct Grant {
    pub access: Name,
    pub rec: u8,
    pub op: Op,
    pub tuple: Tuple,
}

/// Why no answer came.
#[derive(Clone, Copy, PartialEq, Eq, Debug, Error)]
pub enum Why {
    #[error("lost")]
    Lost,
    #[error("late")]
    Late,
    #[error("down")]
    Down,
    #[error("full")]
    Full,
    #[error("strange")]
    Strange,
}

/// Why a copy refused.
#[derive(Clone, Copy, Debug, Error)]
pub enum Refusal {
    #[error("blocked by {0}")]
    Blocked(Name),
    #[error("{0} is aborted")]
    Dead(Name),
}

/// What a manager is doing.
#[derive(Clone, Copy, PartialEq, Eq, Debug, Error)]
pub enum Phase {
    #[error("collect")]
    Collect,
    #[error("values")]
    Values,
    #[error("configs")]
    Configs,
}

/// Who replied in a phase, and why others did not.
#[derive(Clone, Copy, Debug)]
pub struct Lack {
    pub phase: Phase,
    pub replied: Copies,
    pub missing: [Option<Why>; 16],
}

fn tell_replied<W: fmt::Write>(replied: Copies, f: &mut fmt::Formatter<W>) -> fmt::Result {
    for (copy, has_replied) in replied.as_slice().iter().enumerate() {
        if *has_replied {
            write!(f, " {copy}")?;
        }
    }
    Ok(())
}

impl fmt::Display for Lack {
    fn fmt<W: fmt::Write>(&self, f: &mut fmt::Formatter<W>) -> fmt::Result {
        write!(f, "too few copies in phase {}: replied", self.phase)?;
        tell_replied(self.replied, f)?;
        write!(f, ", missing")?;
        for (copy, missing) in self.missing.iter().enumerate() {
            if let Some(why) = missing {
                write!(f, " {copy}:{why}")?;
            }
        }
        Ok(())
    }
}

impl error::Error for Lack {}

/// Why a transaction was aborted: it was asked to be, a copy's lock stood in the way, too few copies
/// answered, a number was at its last value, an ancestor was aborted, its session was killed, a child
/// that had to commit did not, or its access got no answer.
#[derive(Clone, Copy, Debug, Error)]
pub enum Cause {
    #[error("asked by {by}")]
    Asked { by: Name },
    #[error("copy {copy} is blocked by {holder}")]
    Conflict { copy: u8, holder: Name },
    #[error("{0}")]
    NoQuorum(Lack),
    #[error("a number is at its last value")]
    Last,
    #[error("{0} is aborted")]
    Orphan(Name),
    #[error("the session is killed")]
    Killed,
    #[error("child {0} did not commit")]
    Child(Name),
    #[error("no answer")]
    Missed,
}

/// What a committed transaction answered.
#[derive(Clone, Copy, Debug)]
pub enum Answer {
    Nothing,
    Value(Val),
    Generation(u64),
    Reply(Tuple),
}

/// How a transaction ended.
#[derive(Clone, Copy, Debug)]
pub enum How {
    Commit(Answer),
    Abort(Cause),
}

/// One step of a run.
#[derive(Clone, Copy, Debug)]
pub enum Event {
    Start {
        name: Name,
        kind: Kind,
    },
    Ask(Ask),
    Gone {
        access: Name,
        why: Why,
    },
    Granted {
        copy: u8,
        grant: Grant,
    },
    Refused {
        access: Name,
        copy: u8,
        refusal: Refusal,
    },
    Unable {
        name: Name,
        why: Why,
    },
    Mark {
        by: Name,
        session: u8,
    },
    Ready {
        top: Name,
    },
    End {
        name: Name,
        how: How,
    },
}

/// A step, and the seat under which it was made.
#[derive(Clone, Copy, Debug)]
pub struct Entry {
    pub seat: u32,
    pub event: Event,
}

/// What a copy answers a request.
#[derive(Clone, Copy, Debug)]
pub enum Answered {
    Granted(Tuple),
    Blocked(Name),
    Dead(Name),
    Down,
    Full,
    Strange,
}
