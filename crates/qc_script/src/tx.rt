//! What a session asks of whoever carries it out.
ghost use Rattle.std.specs.Prelude.{◌≡◌};
ghost use Rattle.qc_script.specs.Client.{ClientView};

use crate::managed::Managed;
use qc_event::{Answer, Cause, Lack, Name, Short};
use std::alloc::AllocError;
use thiserror::Error;

/// Why a call was refused.
///
/// After `Orphan`, `Conflict`, `NoQuorum` and `Last` a manager that the call started has ended, aborted for that cause,
/// and the transaction has not ended by the call. After `Ledger` the top stays ready.
#[derive(Clone, Copy, Debug, Error)]
pub enum TxNo {
    /// This ancestor, or the transaction itself, is aborted.
    #[error("{0} is aborted")]
    Orphan(Name),
    /// Another transaction holds the record at a copy.
    #[error("copy {copy} is blocked by {holder}")]
    Conflict { copy: u8, holder: Name },
    /// No quorum of copies answered.
    #[error("{0}")]
    NoQuorum(Lack),
    /// The record has its last version or generation.
    #[error("a number is at its last value")]
    Last,
    /// The transaction has ended.
    #[error("the transaction has ended")]
    Ended,
    /// This child of it has not ended.
    #[error("{0} has not ended")]
    ChildrenOpen(Name),
    /// It is a top that is ready.
    #[error("the top is ready")]
    Ready,
    /// The ledger could not log the top.
    #[error("the ledger did not log the top")]
    Ledger,
    /// Memory ran out, or the history is full.
    #[error("{0}")]
    Short(Short),
}

impl From<Short> for TxNo {
    ghost use Rattle.qc_script.specs.declared.tx.TxNo.TheVariants as no;

    ghost from_gives = { λ short e. e ≡ no.Short short };

    fn from(short: Short) -> Self {
        TxNo::Short(short)
    }
}

/// Carries out what a session asks, in one transaction after another. No call but `branch` and `merge` changes what stays of
/// its client, and the history that it has seen only grows. Each answer is the one that the history then seen gives. Where the link is told,
/// the requests go on to meet its fates.
pub trait Tx: Sized {
    ghost use Rattle.std.specs.Prelude.{◌≡◌, ◌==◌, ◌<◌, ◌⊎◌, [], length, None, IfOk, IfErr, OnOk, IsTrue, true, false};
    ghost use Rattle.std.specs.List.{list_any};
    ghost use Rattle.qc_event.specs.declared.event.Cause.TheVariants as cause;
    ghost use Rattle.qc_event.specs.Dead.{dead};
    ghost use Rattle.qc_event.specs.History.{is_child};
    ghost use Rattle.qc_event.specs.Standing.{Started, IsUser};
    ghost use Rattle.qc_script.specs.Numbers.{Numbers};
    ghost use Rattle.qc_script.specs.Calls.{Began, Answers, Fails, Aborts, IsGrounded, IsForChild, WasRefused, RefusesChild, RefusesCommit, NotAborted, Committed, NotCommitted, MeetsLink, IsOfSession, Marks, MarksNone, Branched, Showed, Merged};
    ghost use Rattle.qc_script.specs.Client.{Made, ClientView, has_marked_itself};
    ghost use Rattle.qc_script.specs.Managers.{manager_for, IsAnswerTo};
    ghost use Rattle.qc_script.specs.Plan.{CopyFits, KindFits};

    /// Its number, root and branches, its session, table and link, and what it has seen.
    ghost view: { Self → ClientView };

    /// Starts a child of a body, under the root a top with the next number.
    fn begin(&mut self, parent: &Name, body: u32) -> Result<Name, TxNo>
        requires depth { length parent.now < 16 }
        requires parent { (parent.now ≡ []) ⊎ Started (view self.old).seen parent.now
            (λ b. IsUser b.kind) }
        requires met { MeetsLink (view self.old) }
        ensures met { MeetsLink (view self.new) }
        ensures client { (view self.new).client ≡ (view self.old).client }
        ensures child { IfOk result (λ n. IsTrue (is_child parent.now n)) }
        ensures ok { IfOk result (Began (view self.old) (view self.new) body) }
        ensures number { IfOk result (λ _. Numbers
            (view self.old).client (view self.old).seen (view self.new).seen) }
        ensures err { IfErr result (WasRefused
            (view self.old).client parent.now (view self.old).seen (view self.new).seen) }
        ensures refused { IfErr result (RefusesChild (view self.new).seen parent.now) };

    /// Has a manager run for a transaction, and answers what it committed with.
    fn manage(&mut self, of: &Name, what: &Managed) -> Result<Answer, TxNo>
        requires fits { KindFits (view self.old).client.setting (manager_for what.now) }
        requires user { Started (view self.old).seen of.now (λ b. IsUser b.kind) }
        requires met { MeetsLink (view self.old) }
        ensures met { MeetsLink (view self.new) }
        ensures client { (view self.new).client ≡ (view self.old).client }
        ensures ok { IfOk result (Answers (view self.old) (view self.new) of.now
            (manager_for what.now)) }
        ensures answer { IfOk result (IsAnswerTo what.now) }
        ensures err { IfErr result (Fails (view self.old) (view self.new) of.now
            (manager_for what.now)) };

    /// Aborts a transaction for a cause that what was seen licenses. For a child it is aborted only where that is aborted,
    /// and no ancestor is.
    fn abort(&mut self, target: &Name, cause: Cause) -> Result<(), TxNo>
        requires user { Started (view self.old).seen target.now (λ b. IsUser b.kind) }
        requires grounded { IsGrounded (view self.old).seen target.now cause }
        requires met { MeetsLink (view self.old) }
        ensures met { MeetsLink (view self.new) }
        ensures client { (view self.new).client ≡ (view self.old).client }
        ensures ok { OnOk result (Aborts (view self.old) (view self.new) target.now cause) }
        ensures alive { OnOk result (IsForChild cause
            → dead (view self.old).seen target.now ≡ None) }
        ensures err { IfErr result (NotAborted
            (view self.old).client target.now cause (view self.old).seen (view self.new).seen) };

    /// Commits a transaction. A top becomes ready, and is committed by the ledger.
    fn commit(&mut self, of: &Name) -> Result<(), TxNo>
        requires user { Started (view self.old).seen of.now (λ b. IsUser b.kind) }
        requires met { MeetsLink (view self.old) }
        ensures met { MeetsLink (view self.new) }
        ensures client { (view self.new).client ≡ (view self.old).client }
        ensures ok { OnOk result (Committed
            (view self.old).client of.now (view self.old).seen (view self.new).seen) }
        ensures err { IfErr result (NotCommitted
            (view self.old).client of.now (view self.old).seen (view self.new).seen) }
        ensures refused { IfErr result (RefusesCommit (view self.new).seen of.now) };

    /// Whether a mark of its client's session, by a transaction whose top has at least the number of this one's, is seen:
    /// one that licenses that this one is killed. Such a mark of the client's own it never misses; that another made it
    /// may see late.
    fn killed(&mut self, of: &Name) -> bool
        requires own { Started (view self.old).seen of.now
            (λ b. IsOfSession (view self.old).client.session b.kind) }
        requires met { MeetsLink (view self.old) }
        ensures met { MeetsLink (view self.new) }
        ensures client { (view self.new).client ≡ (view self.old).client }
        ensures made { Made (view self.old).client [] (view self.old).seen (view self.new).seen }
        ensures marked { IsTrue result → IsGrounded (view self.new).seen of.now cause.Killed }
        ensures unmarked { result ≡ false → has_marked_itself (view self.new) of.now ≡ false };

    /// Marks a session, so that its transactions up to the top of this one are to be killed. The only errors are want of
    /// memory and of room.
    fn kill(&mut self, by: &Name, session: u8) -> Result<(), Short>
        requires user { Started (view self.old).seen by.now (λ b. IsUser b.kind) }
        requires session { session < 16 }
        requires met { MeetsLink (view self.old) }
        ensures met { MeetsLink (view self.new) }
        ensures client { (view self.new).client ≡ (view self.old).client }
        ensures ok { OnOk result (Marks (view self.old) (view self.new) by.now session) }
        ensures err { IfErr result (MarksNone (view self.old) (view self.new)) };

    /// A branch of its client, which carries out what is asked below a transaction, at the same time as others: it has seen the
    /// same, stands under a number of its own, and begins its link's fates anew. Want of memory leaves all as it was.
    fn branch(&mut self, of: &Name) -> Result<Self, AllocError>
        requires met { MeetsLink (view self.old) }
        ensures met { MeetsLink (view self.new) }
        ensures branch_met { IfOk result (λ b. MeetsLink (view b)) }
        ensures ok { IfOk result (λ b. Branched (view self.old) (view self.new) of.now (view b)) }
        ensures err { IfErr result (λ _. view self.new ≡ view self.old) };

    /// Both have then seen the history as it stands at one step.
    fn show(&mut self, branch: &mut Self)
        requires met { MeetsLink (view self.old) }
        requires branch_met { MeetsLink (view branch.old) }
        ensures met { MeetsLink (view self.new) }
        ensures branch_met { MeetsLink (view branch.new) }
        ensures showed { Showed (view self.old) (view self.new) (view branch.old)
            (view branch.new) };

    /// Merges a branch of its own that has merged all of its own.
    fn merge(&mut self, branch: Self)
        requires out { list_any (λ k. k == (view branch).client.number)
            (view self.old).client.out ≡ true }
        requires none_out { (view branch).client.out ≡ [] }
        requires net { (view branch).client.net ≡ (view self.old).client.net }
        requires met { MeetsLink (view self.old) }
        requires branch_met { MeetsLink (view branch) }
        ensures met { MeetsLink (view self.new) }
        ensures merged { Merged (view self.old) (view branch) (view self.new) };

    /// Has a copy forget its locks and its grants, which stand in its journal: it reads them there before it serves
    /// again. It makes nothing, sees nothing, and has no answer.
    fn crash(&mut self, copy: u8)
        requires fits { CopyFits (view self.old).client.setting copy }
        ensures same { view self.new ≡ view self.old };

    /// Its client, a branch, asks for nothing more, and is then merged. It makes nothing, and sees nothing.
    fn rest(&mut self)
        ensures same { view self.new ≡ view self.old }
    {}
}
