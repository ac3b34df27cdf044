//! What a client does at the desk, on its line. None of it is of an access, so what was sent and what is held stay.
ghost use Rattle.std.specs.Prelude.{◌≡◌, [], ◌≤◌, true, length, is_some, IsTrue, OnOk, IfOk, IfErr};
ghost use Rattle.qc_carry.specs.Acting.{KeepsRest, IsNoAccess};
ghost use Rattle.qc_carry.specs.Walk.{Walk};
ghost use Rattle.qc_codec.specs.Bodies as body;
ghost use Rattle.qc_codec.specs.declared.record.LedgerRecord.TheVariants.{Top};
ghost use Rattle.qc_event.specs.Dead.{dead};
ghost use Rattle.qc_event.specs.declared.event.Event.TheVariants as event;
ghost use Rattle.qc_event.specs.declared.event.How.TheVariants.{Commit as Commits, Abort as Aborts};
ghost use Rattle.qc_event.specs.History.{end, is_ready, limit, start};
ghost use Rattle.qc_event.specs.Listed.{listed};
ghost use Rattle.qc_event.specs.Standing.{IsUser, Started};
ghost use Rattle.qc_event.specs.Tables.{setting_of};
ghost use Rattle.qc_desk.specs.Calling.{Entered, Refused, Shown, StartsChild, StartsTop, Wanted};
ghost use Rattle.qc_history.specs.Looking.{is_marked_for};
ghost use Rattle.qc_desk.specs.Own.{MayAbortOwn, MayCommitOwn, MayStartOwn};
ghost use Rattle.qc_desk.specs.Refusing.{against_abort, against_child, against_commit, against_nothing, against_ready};
ghost use Rattle.qc_system.specs.Kept.{HasRefused};

use crate::line::Line;
use qc_desk::DeskNo;
use qc_disk::Disk;
use qc_event::{Answer, Cause, How, Kind, Name, Short};
use qc_ledger::LedgerNo;
use qc_net::Link;
use qc_system::Mounting;
use std::sync::Wait;

impl<'a, R: Wait, D: Disk + Drop, L: Link + Drop, N: Mounting> Line<'a, R, D, L, N> {
    /// Starts the next top, for a session with a body. The only errors are want of memory and of room.
    pub fn start_top(&mut self, session: u8, body: u32) -> Result<Name, Short>
        ensures ok { IfOk result (λ n. StartsTop self.old.system.now.desk.epoch session body n
            self.old.pass self.new.pass) }
        ensures err { IfErr result (Wanted self.old.pass self.new.pass) }
        ensures rest { KeepsRest self.old self.new }
    {
        self.system
            .desk()
            .start_top(self.rt, &mut self.pass, session, body)
    }

    /// Starts the next child of a name, for what may stand there. Refused where the parent has committed, is dead, or is
    /// ready.
    pub fn start(&mut self, parent: &Name, kind: Kind) -> Result<Name, DeskNo>
        requires stands { MayStartOwn (setting_of N.table N.base) self.old.pass parent.now kind }
        ensures ok { IfOk result (λ n. StartsChild parent.now kind n
            self.old.pass self.new.pass) }
        ensures err { IfErr result (Refused (against_child parent.now) self.old.pass
            self.new.pass) }
        ensures rest { KeepsRest self.old self.new }
    {
        self.system
            .desk()
            .start(self.rt, &mut self.pass, parent, kind)
    }

    /// Commits a user transaction below a top, or a manager that is complete by what was seen. Refused where it has
    /// ended, is dead, or has a child that has not ended.
    pub fn end(&mut self, name: &Name, answer: &Answer) -> Result<(), DeskNo>
        requires may { MayCommitOwn (setting_of N.table N.base) self.old.pass name.now
            answer.now }
        ensures ok { OnOk result (Entered (against_commit name.now)
            (event.End name.now (Commits answer.now)) self.old.pass self.new.pass) }
        ensures err { IfErr result (Refused (against_commit name.now) self.old.pass
            self.new.pass) }
        ensures rest { KeepsRest self.old self.new }
    {
        self.system
            .desk()
            .end(self.rt, &mut self.pass, name, answer)
    }

    /// Aborts a user transaction or a manager for a cause that was seen to be licensed. Refused where it has ended, or is
    /// ready.
    pub fn abort(&mut self, name: &Name, cause: &Cause) -> Result<(), DeskNo>
        requires no_access { Started self.old.pass.seen name.now (λ b. IsNoAccess b.kind) }
        requires licensed { MayAbortOwn (setting_of N.table N.base) self.old.pass name.now
            cause.now }
        ensures ok { OnOk result (Entered (against_abort name.now)
            (event.End name.now (Aborts cause.now)) self.old.pass self.new.pass) }
        ensures err { IfErr result (Refused (against_abort name.now) self.old.pass self.new.pass) }
        ensures rest { KeepsRest self.old self.new }
    {
        self.system
            .desk()
            .abort(self.rt, &mut self.pass, name, cause)
    }

    /// How a name ended, in the history at this step; none exactly where it has not.
    pub fn ended(&mut self, name: &Name) -> Option<How>
        ensures looked { Shown self.old.pass self.new.pass }
        ensures end { result ≡ end self.new.pass.seen name.now }
        ensures rest { KeepsRest self.old self.new }
    {
        self.system.desk().ended(self.rt, &mut self.pass, name)
    }

    /// The shortest aborted ancestor of a name, itself among them, in the history at this step; none exactly where none is.
    pub fn dead(&mut self, name: &Name) -> Option<Name>
        ensures looked { Shown self.old.pass self.new.pass }
        ensures dead { result ≡ dead self.new.pass.seen name.now }
        ensures rest { KeepsRest self.old self.new }
    {
        self.system.desk().dead(self.rt, &mut self.pass, name)
    }

    /// A user transaction marks a session. The only errors are want of memory and of room.
    pub fn mark(&mut self, by: &Name, session: u8) -> Result<(), Short>
        requires user { Started self.old.pass.seen by.now (λ b. IsUser b.kind) }
        requires small { session ≤ 15 }
        ensures ok { OnOk result (Entered against_nothing (event.Mark by.now session)
            self.old.pass self.new.pass) }
        ensures err { IfErr result (Wanted self.old.pass self.new.pass) }
        ensures rest { KeepsRest self.old self.new }
    {
        self.system
            .desk()
            .mark(self.rt, &mut self.pass, by, session)
    }

    /// Whether a mark stands, in the history at this step, that lets a user transaction be killed: of its session, by
    /// a transaction whose top has at least the number of its own.
    pub fn marked(&mut self, of: &Name) -> bool
        ensures looked { Shown self.old.pass self.new.pass }
        ensures marked { result ≡ is_marked_for self.new.pass.seen of.now }
        ensures rest { KeepsRest self.old self.new }
    {
        self.system.desk().marked(self.rt, &mut self.pass, of)
    }

    /// Looks at the history, which has no more entries than it takes.
    pub fn look(&mut self)
        ensures looked { Shown self.old.pass self.new.pass }
        ensures bounded { length self.new.pass.seen ≤ limit }
        ensures rest { KeepsRest self.old self.new }
    {
        let mut note = self.system.desk().note(&mut self.pass);
        self.system.desk().show(self.rt, &mut note, &mut self.pass);
    }

    /// A top is ready: from then on it is not aborted. It tells the names that are listed of it. Refused where it has
    /// ended, is ready, or has a child that has not ended.
    pub fn ready(&mut self, top: &Name) -> Result<Vec<Name>, DeskNo>
        requires started { (length top.now ≡ 1)
            × (is_some (start self.old.pass.seen top.now) ≡ true) }
        ensures ok { OnOk result (Entered (against_ready top.now) (event.Ready top.now)
            self.old.pass self.new.pass) }
        ensures list { IfOk result (λ found. found.items ≡ listed self.new.pass.seen top.now) }
        ensures err { IfErr result (Refused (against_ready top.now) self.old.pass self.new.pass) }
        ensures rest { KeepsRest self.old self.new }
    {
        self.system.desk().ready(self.rt, &mut self.pass, top)
    }

    /// The ledger logs a ready top, with the names that are listed of it.
    pub fn log(&mut self, top: &Name, aborted: &[Name]) -> Result<(), LedgerNo>
        requires is_top { length top.now ≡ 1 }
        requires ready { IsTrue (is_ready self.old.pass.seen top.now) }
        requires proper { body.ledger.fits (Top top.now aborted.now) }
        requires listed { aborted.now ≡ listed self.old.pass.seen top.now }
        ensures ended { OnOk result (IsTrue (is_some (end self.new.pass.seen top.now))) }
        ensures refused { IfErr result (HasRefused self.new.pass.seen top.now) }
        ensures walk { Walk self.old.pass self.new.pass [] }
        ensures rest { KeepsRest self.old self.new }
    {
        self.system.log_top(self.rt, &mut self.pass, top, aborted)
    }
}
