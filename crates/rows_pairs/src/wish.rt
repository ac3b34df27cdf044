//! What a step has a fold write.
ghost use Rattle.std.specs.Prelude.{◌≤◌, All, IfOk, IfSome};
ghost use Rattle.qc_codec.specs.Fields as field;
ghost use Rattle.qc_codec.specs.Fields.{current};

use crate::tuple::tuples;
use qc_config::Tuple;
use qc_journal::Body;
use rows_kit::{Step, bytes};
use std::alloc::{AllocError, Global};

/// How the disk was made, the epoch, and the tuples, of a store of so many copies.
#[derive(Drop)]
pub(crate) struct Wish {
    pub(crate) made: Body,
    pub(crate) epoch: u32,
    pub(crate) copies: u8,
    pub(crate) tuples: Vec<Tuple>,
    ghost few: { copies ≤ 16 },
}

impl Wish {
    /// That of a step; none where its words are none. A step that does not fold wishes nothing.
    pub(crate) fn of(alloc: Global, step: &Step<'_>) -> Result<Option<Self>, AllocError>
        ensures { IfOk result (λ wish. IfSome wish (λ w.
            All (field.tuple (current w.copies)).fits w.tuples.items)) }
    {
        if step.name != "fold" && step.name != "renew" {
            return Ok(Some(Wish {
                made: Vec::new(alloc),
                epoch: 1,
                copies: 0,
                tuples: Vec::new(alloc),
            }));
        }
        let made = bytes(alloc, step.word(2))?;
        let Ok(epoch) = u32::try_from(step.number(3)) else {
            return Ok(None);
        };
        let copies = u8::try_from(step.number(4)).unwrap_or(u8::MAX);
        if copies > 16 {
            return Ok(None);
        }
        let tuples = match tuples(alloc, copies, step.words_from(5))? {
            Some(tuples) => tuples,
            None => return Ok(None),
        };
        Ok(Some(Wish {
            made,
            epoch,
            copies,
            tuples,
        }))
    }
}
