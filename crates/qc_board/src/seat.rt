//! A caller's token at a board.
use crate::view::Known;
use atomic_table::Seat;
use std::marker::Model;

/// A caller's token. Contracts see of which board it is, which sessions may be marked there, and the marks that it
/// knows, the latest first.
#[derive(Drop)]
pub struct BoardSeat {
    pub(crate) seat: Seat<u8, Known>,
}

impl Model for BoardSeat {
    ghost use Rattle.std.specs.Prelude.{◌≡◌, [], true};
    ghost use Rattle.qc_board.specs.Boards.{Seated};

    ghost Value = { Seated };

    ghost view = { λ s. record {
      board = s.seat.table_id;
      may = s.seat.me.0.may;
      marks = s.seat.me.0.marks;
    } };

    ghost invariant = { λ s. (s.seat.me.1 ≡ []) × (s.seat.me.0.live ≡ true) };
}
