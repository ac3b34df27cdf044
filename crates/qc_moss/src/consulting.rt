//! How a copy asks its locks of a request, and what they are after a replay.
ghost use Rattle.std.specs.Prelude.{List, ◌≡◌, ◌<◌, false, not, IfOk, All, length};
ghost use Rattle.qc_event.specs.Clear.{is_get};
ghost use Rattle.qc_event.specs.Grants.{grant_with};
ghost use Rattle.qc_event.specs.History.{Past};
ghost use Rattle.qc_config.specs.declared.tuple.Tuple.{Tuple};
ghost use Rattle.qc_event.specs.declared.event.Grant.{Grant};
ghost use Rattle.qc_moss.specs.Consulting as words;
ghost use Rattle.qc_moss.specs.Follows.{TableFollows};
ghost use Rattle.qc_moss.specs.Locks.{unheld};
ghost use Rattle.qc_moss.specs.declared.consulting.Verdict.TheVariants.{Free};

use crate::locks::{Locks, Test};
use crate::source::Source;
use qc_config::{Op, Tuple};
use qc_event::{Ask, Grant, Name};
use std::alloc::{AllocError, Global};

/// Whether a request may be granted: with this tuple after its operation; or whose lock is in its way, or the
/// shortest aborted ancestor of its access.
#[derive(Clone, Copy, Debug)]
pub enum Verdict {
    Free(Tuple),
    Blocked(Name),
    Dead(Name),
}

fn is_write(op: &Op) -> bool
    ensures { result ≡ not (is_get op.now) }
{
    !matches!(op, Op::Get)
}

/// Says whether a request may be granted by a history that a source tells, and by the locks of its copy, which follow
/// that with the grants there. It grants nothing, settles the locks of the record asked for, and takes no memory.
pub fn consult_locks<S: Source>(locks: &mut Locks, ask: &Ask, source: &S) -> Verdict
    requires { ask.now.rec < length locks.old.start }
    ensures start { locks.new.start ≡ locks.old.start }
    ensures reserved { locks.new.reserved ≡ locks.old.reserved }
    ensures follows { (past : Past) (given : List Grant) → S.tells source.now past
        → TableFollows past given locks.old → TableFollows past given locks.new }
    ensures verdict { (past : Past) (given : List Grant) → S.tells source.now past
        → TableFollows past given locks.old
        → result ≡ words.verdict past locks.old given ask.now }
    ensures admits { (tuple : Tuple) → result ≡ Free tuple
        → words.grant_of locks.new ask.now ≡ grant_with ask.now tuple }
{
    if let Some(ancestor) = source.dead(&ask.access) {
        return Verdict::Dead(ancestor);
    }
    locks.settle_by(ask.rec, source);
    match locks.test(&ask.access, ask.rec, is_write(&ask.op)) {
        Test::Held(first) => Verdict::Blocked(first),
        Test::Free => Verdict::Free(locks.seen_by(ask.rec).after(&ask.op)),
    }
}

/// The locks of a copy that starts with these tuples, record by record, and granted all this, where each access still
/// holds its own lock. They follow any history.
pub fn replay_locks(alloc: Global, start: Vec<Tuple>, grants: &[Grant]) -> Result<Locks, AllocError>
    requires { All (λ g. g.rec < length start.items) grants.now }
    ensures locks { IfOk result (λ l. l ≡ words.all_granted (unheld start.items) grants.now) }
    ensures start { IfOk result (λ l. l.start ≡ start.items) }
    ensures reserved { IfOk result (λ l. l.reserved ≡ false) }
    ensures follows { IfOk result (λ l. (past : Past) → TableFollows past grants.now l) }
{
    let mut locks = Locks::new(alloc, start)?;
    for grant in grants {
        locks.reserve()?;
        locks.hold(&grant.access, grant.rec, &grant.op);
    }
    Ok(locks)
}
