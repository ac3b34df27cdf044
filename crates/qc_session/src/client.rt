//! A client of a session.
ghost use Rattle.std.specs.Prelude.{◌≡◌, ◌<◌, []};
ghost use Rattle.qc_event.specs.Tables.{setting_of};
ghost use Rattle.qc_desk.specs.Rules.{numbers};
ghost use Rattle.qc_session.specs.Keeping.{IsClientPass};
ghost use Rattle.qc_session.specs.Marking.{IsSeatAt};
ghost use Rattle.qc_session.specs.Session.{AreHigh};
ghost use Rattle.qc_session.specs.Tidy.{AreTidy};

use qc_board::{Board, BoardSeat, Boarded};
use qc_carry::Line;
use qc_desk::Pass;
use qc_disk::Disk;
use qc_event::{Name, Table};
use qc_net::Link;
use qc_system::{Boxed, Mounting};
use std::marker::PhantomData;
use std::sync::Wait;

/// A client of a session: what it begins, ends and asks at its line, by managers for each read, write and change of
/// quorums; and the sessions that it marks, at the board too. It knows the marks of the branches that it has merged.
pub struct Client<'a, R, D: Disk + Drop, L: Link + Drop, N: Mounting, B: Boarded>
where
    Boxed<D>: Disk,
{
    pub(crate) line: Line<'a, R, D, L, N>,
    pub(crate) table: &'a Table,
    /// The transaction below which it stands; the root of all, for a session's client.
    pub(crate) root: Name,
    pub(crate) session: u8,
    pub(crate) board: &'a Board,
    pub(crate) seat: BoardSeat,
    pub(crate) at: PhantomData<B>,
    ghost over: { table.now ≡ N.table },
    ghost kept: { IsClientPass line.pass seat.marks },
    ghost low: { session < 16 },
    ghost seated: { IsSeatAt board.now seat },
    ghost boarded: { board.now.board ≡ B.board },
}

impl<'a, R: Wait, D: Disk + Drop, L: Link + Drop, N: Mounting, B: Boarded> Client<
    'a,
    R,
    D,
    L,
    N,
    B,
> {
    /// A client of a session over a line, whose pass has entered nothing, with a seat at a board. It takes no memory.
    pub fn new(
        line: Line<'a, R, D, L, N>,
        table: &'a Table,
        session: u8,
        board: &'a Board,
        seat: BoardSeat,
    ) -> Self
        requires over { table.now ≡ N.table }
        requires high { 17 < line.pass.number }
        requires session { session < 16 }
        requires seated { IsSeatAt board.now seat }
        requires boarded { board.now.board ≡ B.board }
        requires fresh { (line.pass.kin ≡ []) × (line.pass.out ≡ []) × (line.pass.mine ≡ []) }
        ensures line { result.line ≡ line.entry }
        ensures root { result.root ≡ [] }
        ensures session { result.session ≡ session }
    {
        Client {
            line,
            table,
            root: Name::root(),
            session,
            board,
            seat,
            at: PhantomData,
        }
    }

    // Its line and its seat.
    pub(crate) fn into_parts(self) -> (Line<'a, R, D, L, N>, BoardSeat)
        ensures line { result.0 ≡ self.entry.line }
        ensures seat { result.1 ≡ self.entry.seat }
    {
        let Self {
            line,
            table: _,
            root: _,
            session: _,
            board: _,
            seat,
            at: _,
        } = self;
        (line, seat)
    }

    /// Its pass, of what it keeps.
    pub fn into_pass(self) -> Pass<N>
        ensures pass { result ≡ self.entry.line.pass }
        ensures high { AreHigh (numbers result) }
        ensures tidy { ∥ AreTidy (numbers result) result.seen ∥₁ }
    {
        let Self {
            line,
            table: _,
            root: _,
            session: _,
            board: _,
            seat: _,
            at: _,
        } = self;
        let Line { pass, .. } = line;
        pass
    }
}

// A derive would ask of a disk in a box what each has.
impl<'a, R, D: Disk + Drop, L: Link + Drop, N: Mounting, B: Boarded> Drop
    for Client<'a, R, D, L, N, B> {
    fn drop(self) {
        let Self {
            line,
            table: _,
            root: _,
            session: _,
            board: _,
            seat: _,
            at: _,
        } = self;
        let Line { .. } = line;
    }
}
