//! The words of the sessions.
ghost use Rattle.std.specs.Prelude.{◌≡◌, ℕ, ◌<◌, ◌≤◌, ◌^◌, [], ◌∷◌, ◌++◌, IfOk, IsBitSet, nat_le};
ghost use Rattle.atomic_table.specs.Seated.{TableId};
ghost use Rattle.qc_board.specs.Boards.{Seated};
ghost use Rattle.qc_board.specs.Marks.{IsAbove};

use crate::seat::BoardSeat;
use crate::view::{Dooming, Known, Looking, Marked, Same};
use atomic_table::Table;
use std::alloc::{AllocError, Global};
use std::marker::Model;

/// A word for each session: the greatest top up to which it is marked to be killed. Contracts see which board it is and
/// how many sessions it has. No call of a board waits, and none but `new` takes memory.
#[derive(Drop)]
pub struct Board {
    table: Table<u8, Known, u16, Marked, Global>,
    sessions: u8,
}

impl Model for Board {
    ghost use Rattle.std.specs.Prelude.{◌≡◌, ◌≤◌};
    ghost use Rattle.qc_board.specs.Boards.{Shown};

    ghost Value = { Shown };

    ghost view = { λ b. record { board = b.table.shared.table_id; sessions = b.sessions } };

    ghost invariant = { λ b. (b.table.shared.table_id.words ≡ 16) × (b.sessions ≤ 16) };
}

impl Board {
    /// A board without marks, on which a session may be marked where its bit of `may` is set, and its first seat. The
    /// only error is want of memory.
    pub fn new(alloc: Global, sessions: u8, may: u16) -> Result<(Board, BoardSeat), AllocError>
        requires sessions { (1 ≤ sessions) × (sessions ≤ 16) }
        requires may { may < 2 ^ sessions }
        ensures board { IfOk result (λ r. r.0.sessions ≡ sessions) }
        ensures seat { IfOk result (λ r.
            r.1 ≡ record { board = r.0.board; may = may; marks = [] }) }
    {
        let (table, seat) = Table::of_words(alloc, &[0; 16], &may)?;
        Ok((Board { table, sessions }, BoardSeat { seat }))
    }

    /// A seat that knows the same marks.
    pub fn split(&self, seat: &mut BoardSeat) -> BoardSeat
        requires of { seat.old.board ≡ self.now.board }
        ensures same { seat.new ≡ seat.old }
        ensures new { result ≡ seat.old }
    {
        BoardSeat {
            seat: self.table.shared.split_seat::<Same>(&mut seat.seat),
        }
    }

    /// The seat then knows the marks of both.
    pub fn join(&self, seat: &mut BoardSeat, other: BoardSeat)
        requires of { seat.old.board ≡ self.now.board }
        requires other { other.board ≡ self.now.board }
        ensures { seat.new ≡ record seat.old { marks = seat.old.marks ++ other.marks } }
    {
        let BoardSeat { seat: other } = other;
        self.table.shared.join_seat::<Same>(&mut seat.seat, other);
    }

    /// Marks a session that may be marked: raises its word to at least `upto`. The seat then knows this mark.
    pub fn doom(&self, seat: &mut BoardSeat, session: u8, upto: u64)
        requires of { seat.old.board ≡ self.now.board }
        requires session { session < self.now.sessions }
        requires may { IsBitSet seat.old.may session }
        ensures { seat.new ≡ record seat.old { marks = (session, upto) ∷ seat.old.marks } }
    {
        self.table
            .shared
            .fetch_max::<Dooming>(&mut seat.seat, usize::from(session), upto);
    }

    /// Whether a session is marked up to a top. The word found at this step is at least every mark of the session
    /// that the seat knows, and 0 where the session may not be marked; the answer is whether it is at least `top`.
    pub fn look(&self, seat: &mut BoardSeat, session: u8, top: u64) -> bool
        requires of { seat.old.board ≡ self.now.board }
        requires session { session < self.now.sessions }
        requires top { 1 ≤ top }
        ensures same { seat.new ≡ seat.old }
        ensures word { (word : ℕ) × IsAbove seat.old session word
            × (result ≡ nat_le top word) }
    {
        let word = self
            .table
            .shared
            .load::<Looking>(&mut seat.seat, usize::from(session));
        top <= word
    }
}
