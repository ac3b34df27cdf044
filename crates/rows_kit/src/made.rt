//! How a disk was made.
ghost use Rattle.std.specs.Prelude.{IfOk, IfSome};
ghost use Rattle.qc_codec.specs.Bodies as body;
ghost use Rattle.qc_codec.specs.Fields.{current_format};
ghost use Rattle.qc_codec.specs.declared.record.Made.{Made};

use crate::step::bytes;
use qc_codec::{Made, read_made};
use std::alloc::{AllocError, Global};

/// How a disk was made, by the body of that record in hex.
pub fn made_of(alloc: Global, word: &str) -> Result<Option<Made>, AllocError>
    ensures { IfOk result (λ made. IfSome made (λ m. (body.table current_format).fits m.table)) }
{
    let spelled = bytes(alloc, word)?;
    match read_made(alloc, &spelled) {
        Ok(made) => Ok(Some(made)),
        Err(_) => Ok(None),
    }
}
