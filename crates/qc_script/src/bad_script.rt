//! Why bytes are no script.
ghost use Rattle.qc_script.specs.declared.bad_script.BadScript.TheVariants.{Memory};
ghost use Rattle.std.specs.Prelude.{◌≡◌};

use qc_event::{BadConfig, Label};
use std::alloc::{AllocError, AllocFailed};
use thiserror::Error;

/// The part of a script that a refusal speaks of.
#[derive(Clone, Copy, PartialEq, Eq, Debug, Error)]
pub enum Member {
    #[error("script")]
    Script,
    #[error("copies")]
    Copies,
    #[error("patience")]
    Patience,
    #[error("records")]
    Records,
    #[error("record")]
    RecordRow,
    #[error("name")]
    Name,
    #[error("start")]
    Start,
    #[error("config")]
    Config,
    #[error("votes")]
    Votes,
    #[error("read")]
    Read,
    #[error("write")]
    Write,
    #[error("sessions")]
    Sessions,
    #[error("session")]
    Session,
    #[error("net")]
    Net,
    #[error("fates")]
    Fates,
    #[error("hold")]
    Hold,
    #[error("tops")]
    Tops,
    #[error("body")]
    Body,
    #[error("tries")]
    Tries,
    #[error("must")]
    Must,
    #[error("steps")]
    Steps,
    #[error("step")]
    Step,
    #[error("value")]
    Value,
    #[error("levels")]
    Levels,
    #[error("copy")]
    Copy,
    #[error("branches")]
    Branches,
}

/// Why bytes are no script.
#[derive(Debug, Drop, Error)]
pub enum BadScript {
    /// The bytes are no JSON.
    #[error("the bytes are no JSON")]
    NotJson,
    /// A part of the script has not the form that it must have.
    #[error("a part of the script has another form: {0}")]
    Shape(Member),
    /// A number, or the length of a list or a text, is beyond a limit.
    #[error("a number or a length is beyond its limit: {0} {1}")]
    Limit(Member, u64),
    /// Votes and thresholds are no configuration.
    #[error("votes and thresholds are no configuration: {0}")]
    Config(BadConfig),
    /// A step names a record that is not in the table.
    #[error("a step names a record that is not in the table: {0}")]
    Unknown(Label),
    /// There are more than `2^20` bytes.
    #[error("the script is too long")]
    TooLong,
    /// Two records have one name.
    #[error("two records have one name: {0}")]
    Twice(Label),
    /// There was no memory. It says nothing of the bytes.
    #[error("no memory")]
    Memory,
}

impl From<AllocError> for BadScript {
    ghost from_gives = { λ _ e. e ≡ Memory };

    fn from(_: AllocError) -> Self {
        BadScript::Memory
    }
}

impl<T: Drop> From<AllocFailed<T>> for BadScript {
    ghost from_gives = { λ _ e. e ≡ Memory };

    fn from(_: AllocFailed<T>) -> Self {
        BadScript::Memory
    }
}
