//! What is known of marks, and the steps that change it.

// What a seat of a board knows.
use atomic_table::{Join, Play, Split, TableRule};
use std::collections::LinkedList;

/// Which sessions may be marked, and the marks that are known. No value of it is made.
pub struct Known {
    pub live: bool,
    pub may: u16,
    pub marks: LinkedList<(u8, u64)>,
}

/// The rule of a board.
pub struct Marked;

impl TableRule<u8, Known, u16> for Marked {
    ghost use Rattle.std.specs.Prelude.{[]};
    ghost use Rattle.qc_board.specs.Marks.{IsBoard, known};

    ghost holds = { λ may s. IsBoard may s };

    ghost first = { λ may. known may [] };
}

/// A step that marks a session.
pub struct Dooming;

impl Play<u8, Known> for Dooming {
    ghost use Rattle.qc_board.specs.Marks.{Dooms};

    ghost then = { Dooms };
}

/// A step that looks at a session's word.
pub struct Looking;

impl Play<u8, Known> for Looking {
    ghost use Rattle.qc_board.specs.Marks.{Looks};

    ghost then = { Looks };
}

/// A seat is split into two that know the same, and two are joined.
pub struct Same;

impl Split<Known> for Same {
    ghost left = { λ v. v };

    ghost right = { λ v. v };
}

impl Join<Known> for Same {
    ghost use Rattle.qc_board.specs.Marks.{both_marks, nobody};

    ghost both = { both_marks };

    ghost spent = { nobody };
}
