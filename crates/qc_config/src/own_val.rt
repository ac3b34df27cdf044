//! Values that are kept for long.
ghost use Rattle.std.specs.Prelude.{◌≡◌, IfOk};
ghost use Rattle.qc_config.specs.Val as val;

use crate::val::Val;
use std::alloc::{AllocError, Global};
use std::marker::Model;

// A number in place, or a text in as many bytes on the heap as it has.
#[derive(Debug, Drop)]
enum Long {
    Number(u64),
    Text(Vec<u8>),
}

/// A value that is kept for long: a number takes no memory, and a text what its bytes take.
#[derive(Debug, Drop)]
pub struct OwnVal {
    kept: Long,
}

impl Model for OwnVal {
    ghost use Rattle.qc_config.specs.Val.{Datum};

    ghost Value = { Datum };

    ghost use Rattle.qc_config.specs.Own.{told, is_short};

    ghost view = { told };

    ghost invariant = { is_short };
}

impl OwnVal {
    /// A number. It takes no memory.
    pub fn number(n: u64) -> Self
        ensures { result ≡ val.Number n }
    {
        OwnVal {
            kept: Long::Number(n),
        }
    }

    /// A value, kept.
    pub fn of(alloc: Global, value: &Val) -> Result<Self, AllocError>
        ensures { IfOk result (λ kept. kept ≡ value.now) }
    {
        let kept = match value.as_text() {
            Some(text) => Long::Text(text.to_vec(alloc)?),
            None => Long::Number(value.as_number().unwrap_or(0)),
        };
        Ok(OwnVal { kept })
    }

    /// The value. It takes no memory.
    pub fn val(&self) -> Val
        ensures { result ≡ self.now }
    {
        match &self.kept {
            Long::Number(n) => Val::number(*n),
            Long::Text(text) => Val::text(text.as_slice()).unwrap_or(Val::number(0)),
        }
    }
}
