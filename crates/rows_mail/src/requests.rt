//! A desk over one record at one copy.
ghost use Rattle.std.specs.Prelude.{◌≡◌, IfOk};
ghost use Rattle.rows_request.specs.OneCopy as words;

use qc_config::Config;
use qc_desk::Blank;
use qc_event::Base;
use rows_request::first_tuple;
use std::alloc::{AllocError, Global};

/// A desk without a name over the one record.
pub fn one_copy(alloc: Global, config: &Config) -> Result<Blank, AllocError>
    requires { config.now ≡ words.config }
    ensures { IfOk result (λ b. b.base ≡ words.base) }
{
    let mut row = Vec::new(alloc);
    row.push(first_tuple(config))?;
    let mut rows = Vec::new(alloc);
    rows.push(row)?;
    Blank::new(alloc, Base::new(rows), 1)
}
