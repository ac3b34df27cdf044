//! What a copy keeps of a record, and what operations do to it.
ghost use Rattle.std.specs.Prelude.{◌≡◌};
ghost use Rattle.qc_config.specs.Tuple.{after};

use crate::config::Config;
use crate::val::Val;

/// What a copy keeps of a record: its value with a version number, and the configuration that the
/// copy knows with a generation number (Gifford's versioned copies).
#[derive(Clone, Copy, PartialEq, Eq, Debug)]
pub struct Tuple {
    pub version: u64,
    pub value: Val,
    pub generation: u64,
    pub config: Config,
}

/// What an access does at a copy.
#[derive(Clone, Copy, PartialEq, Eq, Debug)]
pub enum Op {
    Get,
    PutData { version: u64, value: Val },
    PutConfig { generation: u64, config: Config },
}

impl Tuple {
    /// The tuple after the operation.
    pub fn after(&self, op: &Op) -> Self
        ensures { result ≡ after self.now op.now }
    {
        match *op {
            Op::Get => *self,
            Op::PutData { version, value } => Tuple {
                version,
                value,
                ..*self
            },
            Op::PutConfig { generation, config } => Tuple {
                generation,
                config,
                ..*self
            },
        }
    }
}
