//! A session, and branches of it, that pass a gate.
ghost use Rattle.std.specs.Prelude.{◌≡◌};

use qc_event::{Answer, Cause, Name, Short};
use qc_gate::{Gate, Walker};
use qc_script::{Managed, Tx, TxNo};
use std::alloc::AllocError;

/// Who carries out what a session asks, behind a gate: it passes before each begin, each step and each end. A branch's first
/// transaction is begun for it by who made it, who has passed. What is asked, and what it comes to, is as without the gate.
#[derive(Drop)]
pub struct Gated<'a, T, G> {
    tx: T,
    gate: &'a G,
    walker: Walker,
    /// How many branches it has made.
    made: u32,
    /// How many of them are not merged.
    out: u32,
    /// Its next begin is its own.
    begun: bool,
}

impl<'a, T: Tx, G: Gate> Gated<'a, T, G> {
    /// The session with this number, which starts.
    pub fn new(tx: T, gate: &'a G, session: u8) -> Self
        ensures inside { result.tx ≡ tx }
    {
        gate.starts(session);
        Gated {
            tx,
            gate,
            walker: Walker::session(session),
            made: 0,
            out: 0,
            begun: true,
        }
    }

    /// Who carried out what it asked. It passes no more.
    pub fn into_inner(self) -> T
        ensures inside { result ≡ self.entry.tx }
    {
        let Gated {
            tx,
            gate,
            walker,
            made: _,
            out: _,
            begun: _,
        } = self;
        gate.ends(&walker);
        tx
    }
}

impl<'a, T: Tx, G: Gate> Tx for Gated<'a, T, G> {
    ghost view = { λ g. T.view g.tx };

    fn begin(&mut self, parent: &Name, body: u32) -> Result<Name, TxNo> {
        if self.begun {
            self.gate.pass(&self.walker);
        }
        self.begun = true;
        self.tx.begin(parent, body)
    }

    fn manage(&mut self, of: &Name, what: &Managed) -> Result<Answer, TxNo> {
        self.gate.pass(&self.walker);
        self.tx.manage(of, what)
    }

    fn abort(&mut self, target: &Name, cause: Cause) -> Result<(), TxNo> {
        self.gate.pass(&self.walker);
        self.tx.abort(target, cause)
    }

    fn commit(&mut self, of: &Name) -> Result<(), TxNo> {
        self.gate.pass(&self.walker);
        self.tx.commit(of)
    }

    fn killed(&mut self, of: &Name) -> bool {
        self.tx.killed(of)
    }

    fn kill(&mut self, by: &Name, session: u8) -> Result<(), Short> {
        self.gate.pass(&self.walker);
        self.tx.kill(by, session)
    }

    fn branch(&mut self, of: &Name) -> Result<Self, AllocError> {
        // A row of branches is one step.
        if self.out == 0 {
            self.gate.pass(&self.walker);
        }
        let tx = self.tx.branch(of)?;
        let walker = Walker {
            below: *of,
            place: self.made,
        };
        self.made = self.made.wrapping_add(1);
        self.out = self.out.saturating_add(1);
        self.gate.expects(&self.walker, &walker);
        Ok(Gated {
            tx,
            gate: self.gate,
            walker,
            made: 0,
            out: 0,
            begun: false,
        })
    }

    fn show(&mut self, branch: &mut Self) {
        self.tx.show(&mut branch.tx);
    }

    fn merge(&mut self, branch: Self) {
        let Gated {
            tx,
            gate: _,
            walker,
            made: _,
            out: _,
            begun: _,
        } = branch;
        self.gate.returns(&self.walker, &walker);
        self.out = self.out.saturating_sub(1);
        self.tx.merge(tx);
    }

    fn crash(&mut self, copy: u8) {
        self.gate.pass(&self.walker);
        self.tx.crash(copy);
    }

    fn rest(&mut self) {
        self.gate.ends(&self.walker);
        self.tx.rest();
    }
}
