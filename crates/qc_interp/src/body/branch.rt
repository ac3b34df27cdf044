//! A branch of a step that runs bodies at once.
ghost use Rattle.std.specs.Prelude.{◌≡◌, ◌<◌, ◌+◌, ◌∷◌, [], length, IfOk, IfErr};
ghost use Rattle.qc_event.specs.Wants.{IsWant};
ghost use Rattle.qc_script.specs.Calls.{MeetsLink};
ghost use Rattle.qc_script.specs.Client.{HasJoined, IsLater};
ghost use Rattle.qc_script.specs.Steps.{numbered};
ghost use Rattle.qc_interp.specs.AtOnce.{stands, at_first, MayRun, HasRun, TriesEnd, came_at_last};
ghost use Rattle.qc_interp.specs.Branches.{RanTries};
ghost use Rattle.qc_interp.specs.Reach.{Reach};

use crate::body::steps;
use crate::host::Host;
use crate::pause::Pause;
use crate::stops::Finish;
use qc_event::{Name, Short};
use qc_script::{Body, Tx, TxNo};
use std::thread::Threads;

/// What the tries of a branch came to, or of all branches of a step.
#[derive(Clone, Copy)]
pub(crate) enum BranchCame {
    /// One of them committed.
    Through,
    /// The last of them was aborted.
    Failed { last: Name },
    /// A further one could not begin.
    Refused { why: TxNo },
}

/// A branch: who carries it out, its body, the first of its tries, and what they came to once it has run.
#[derive(Drop)]
pub(crate) struct Branch<'b, T> {
    pub tx: T,
    pub body: &'b Body,
    pub first: Name,
    pub came: Option<Result<BranchCame, Short>>,
}

// What a try came to that is the last.
fn last_came(finish: Finish, last: Name) -> BranchCame
    ensures { result ≡ came_at_last finish last }
{
    match finish {
        Finish::Committed => BranchCame::Through,
        Finish::Stopped { .. } => BranchCame::Failed { last },
    }
}

// Runs the tries of a body below a transaction, of which the first has begun.
#[cycle(run)]
fn branch_tries<T: Tx + Send + Drop, R: Threads + Sync>(
    tx: &mut T,
    host: &Host<'_, R>,
    of: &Name,
    body: &Body,
    first: &Name,
) -> Result<BranchCame, Short>
    requires may { MayRun of.now (at_first (T.view tx.old) (numbered body.now) first.now) }
    ensures met { MeetsLink (T.view tx.new) }
    ensures joined { HasJoined (T.view tx.old).client (T.view tx.old).seen
        (T.view tx.new).client }
    ensures later { IsLater (T.view tx.old).client (T.view tx.old).seen (T.view tx.new).seen }
    ensures ok { IfOk result (TriesEnd (T.view tx.new).client (numbered body.now)
        (T.view tx.new).seen) }
    ensures cut { IfErr result (λ _. RanTries Reach.cut_off (Unit {0}) (T.view tx.new).client
        (numbered body.now) (T.view tx.new).seen) }
    ensures room { IfErr result (IsWant (T.view tx.new).seen) }
{
    let mut name = *first;
    let mut pause = Pause::none();
    for _ in 1..body.tries {
        let finish = steps(tx, host, &name, body.steps.as_slice())?;
        if !finish.is_again() {
            return Ok(last_came(finish, name));
        }
        pause.grow(&name);
        pause.take();
        name = match tx.begin(of, body.number) {
            Ok(next) => next,
            Err(why) => {
                return match why {
                    TxNo::Short(short) => Err(short),
                    _ => Ok(BranchCame::Refused { why }),
                };
            }
        };
    }
    let finish = steps(tx, host, &name, body.steps.as_slice())?;
    Ok(last_came(finish, name))
}

/// Runs a branch that was begun.
#[cycle(run)]
pub(crate) fn run_branch<T: Tx + Send + Drop, R: Threads + Sync>(
    host: &Host<'_, R>,
    of: &Name,
    branch: &mut Branch<'_, T>,
)
    requires may { MayRun of.now (stands T.view branch.old) }
    ensures ran { HasRun (stands T.view branch.old) (stands T.view branch.new) }
{
    let came = branch_tries(&mut branch.tx, host, of, branch.body, &branch.first);
    branch.tx.rest();
    branch.came = Some(came);
}
