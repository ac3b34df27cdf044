//! What was found on each disk at its mounting.

use qc_desk::Store;
use std::marker::Brand;

/// What was found on each pair of disks at its mounting, by the pair's number: the ledger's is 0, and copy `c`'s is
/// `c + 1`; and how long a journal may become. Each call that names a system picks it.
pub trait Mounting: Store {
    ghost use Rattle.qc_system.specs.Parts.{Findings};

    /// What was found.
    ghost found: { Findings };
}

impl Mounting for Brand {
    ghost use Rattle.qc_system.specs.Parts.{no_findings};

    ghost found = { no_findings };
}
