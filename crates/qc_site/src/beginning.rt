//! What a copy starts with.
ghost use Rattle.std.specs.Prelude.{◌≡◌, ℕ, [], IfOk};
ghost use Rattle.qc_event.specs.History.{Past, grants};
ghost use Rattle.qc_site.specs.Replica.{IsTableOf};

use qc_config::Tuple;
use qc_moss::Locks;
use std::alloc::{AllocError, Global};
use std::marker::Model;

/// What a copy starts with: its tuples, one for each record, and its locks, of which none is held. Contracts see the
/// tuples.
#[derive(Drop)]
pub(crate) struct Beginning {
    start: Vec<Tuple>,
    locks: Locks,
}

impl Model for Beginning {
    ghost use Rattle.std.specs.Prelude.{◌≡◌, List};
    ghost use Rattle.qc_config.specs.declared.tuple.Tuple.{Tuple};
    ghost use Rattle.qc_moss.specs.Locks.{unheld};

    ghost Value = { List Tuple };

    ghost view = { λ b. b.start.items };

    ghost invariant = { λ b. b.locks ≡ unheld b.start.items };
}

impl Beginning {
    /// With these tuples.
    pub(crate) fn new(alloc: Global, start: Vec<Tuple>) -> Result<Self, AllocError>
        ensures { IfOk result (λ b. b ≡ start.items) }
    {
        let locks = Locks::new(alloc, start.to_vec(alloc)?)?;
        Ok(Beginning { start, locks })
    }

    /// The tuples.
    pub(crate) fn tuples(&self) -> &[Tuple]
        ensures { result.now ≡ self.now }
    {
        self.start.as_slice()
    }

    /// The tuples and the locks, which follow any history in which the copy granted nothing.
    pub(crate) fn into_parts(self) -> (Vec<Tuple>, Locks)
        ensures start { result.0.items ≡ self }
        ensures locks { (past : Past) (copy : ℕ) → grants past copy ≡ []
            → IsTableOf self past copy result.1 }
    {
        (self.start, self.locks)
    }
}
