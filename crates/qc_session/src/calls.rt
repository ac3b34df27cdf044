//! What a session asks of a client, one call after another.
ghost use Rattle.std.specs.Prelude.{◌≡◌, [], ◌∷◌, length, None, IfSome};

use crate::client::Client;
use crate::ends::{abort, commit_below, commit_top};
use crate::managers::manage;
use crate::marks::{mark, marked, number_of_top};
use crate::starts::{start_child, start_top};
use qc_board::Boarded;
use qc_disk::Disk;
use qc_event::{Answer, Cause, Kind, Name, Short};
use qc_net::Link;
use qc_script::{Managed, Tx, TxNo};
use qc_system::Mounting;
use std::alloc::AllocError;
use std::marker::PhantomData;
use std::sync::Wait;

// The number of a top.
fn top_number(of: &Name) -> Option<u64>
    ensures top { IfSome result (λ number. of.now ≡ number ∷ []) }
    ensures none { result ≡ None → length of.now ≡ 1 → ⊥ }
{
    if of.len() == 1 { of.number(0) } else { None }
}

impl<'a, R: Wait, D: Disk + Drop, L: Link + Drop, N: Mounting, B: Boarded> Tx
    for Client<'a, R, D, L, N, B> {
    ghost use Rattle.qc_event.specs.Tables.{setting_of};
    ghost use Rattle.qc_net.specs.Courier.{link_of};
    ghost use Rattle.qc_session.specs.Clients.{link_told, view_of};

    ghost view = { λ c. view_of (setting_of N.table N.base) c.root c.session
        c.line.system.now.desk.epoch
        (link_told (L.view (link_of c.line.courier)).plan c.line.patience) c.line.pass };

    fn begin(&mut self, parent: &Name, body: u32) -> Result<Name, TxNo> {
        let session = self.session;
        if parent.is_empty() {
            return start_top(&mut self.line, session, body);
        }
        start_child(&mut self.line, parent, Kind::User { session, body })
    }

    fn manage(&mut self, of: &Name, what: &Managed) -> Result<Answer, TxNo> {
        manage(&mut self.line, self.table, of, what)
    }

    fn abort(&mut self, target: &Name, cause: Cause) -> Result<(), TxNo> {
        abort(&mut self.line, target, &cause)
    }

    fn commit(&mut self, of: &Name) -> Result<(), TxNo> {
        if let Some(number) = top_number(of) {
            return commit_top(&mut self.line, of, number);
        }
        commit_below(&mut self.line, of)
    }

    fn killed(&mut self, of: &Name) -> bool {
        let top = number_of_top(of);
        if !self.board.look(&mut self.seat, self.session, top) {
            return false;
        }
        marked(&mut self.line, of)
    }

    fn kill(&mut self, by: &Name, session: u8) -> Result<(), Short> {
        if let Err(short) = mark(&mut self.line, by, session) {
            return Err(short);
        }
        let upto = number_of_top(by);
        self.board.doom(&mut self.seat, session, upto);
        Ok(())
    }

    fn branch(&mut self, of: &Name) -> Result<Self, AllocError> {
        let line = self.line.branch()?;
        Ok(Client {
            line,
            table: self.table,
            root: *of,
            session: self.session,
            board: self.board,
            seat: self.board.split(&mut self.seat),
            at: PhantomData,
        })
    }

    fn show(&mut self, branch: &mut Self) {
        self.line.show(&mut branch.line);
    }

    fn merge(&mut self, branch: Self) {
        let (line, seat) = branch.into_parts();
        self.line.take(line);
        self.board.join(&mut self.seat, seat);
    }

    fn crash(&mut self, copy: u8) {
        self.line.system.crash(self.line.rt, copy);
    }
}
