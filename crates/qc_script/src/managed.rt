//! What a user transaction has a manager do.
ghost use Rattle.std.specs.Prelude.{◌≡◌};
ghost use Rattle.qc_script.specs.Managers.{manager_for};

use qc_event::{Config, Kind, Val};

/// What a user transaction has a manager do.
#[derive(Clone, Copy, Debug)]
pub enum Managed {
    /// Reads a record.
    Read { rec: u8 },
    /// Writes a value to a record.
    Write { rec: u8, value: Val },
    /// Gives a record another configuration.
    Reconf { rec: u8, config: Config },
}

impl Managed {
    /// The kind of manager that does it.
    pub fn kind(&self) -> Kind
        ensures { result ≡ manager_for self.now }
    {
        match *self {
            Managed::Read { rec } => Kind::Read { rec },
            Managed::Write { rec, value } => Kind::Write { rec, value },
            Managed::Reconf { rec, config } => Kind::Reconf { rec, config },
        }
    }
}
