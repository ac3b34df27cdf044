//! Which board it is.
ghost use Rattle.atomic_table.specs.Seated.{TableId};

use std::marker::Brand;

/// Which board it is, and which sessions may be marked there. Each call that names a board picks them.
pub trait Boarded {
    ghost use Rattle.std.specs.Prelude.{ℕ};
    ghost use Rattle.atomic_table.specs.Seated.{TableId};

    ghost board: { TableId };

    ghost may: { ℕ };
}

impl Boarded for Brand {
    ghost use Rattle.qc_board.specs.Boards.{no_board};

    ghost board = { no_board };

    ghost may = { 0 };
}
