//! How the steps of a transaction are run.
ghost use Rattle.std.specs.Prelude.{◌≡◌, ◌<◌, ◌+◌, length, IfOk, IfErr};
ghost use Rattle.qc_event.specs.Wants.{IsWant};
ghost use Rattle.qc_script.specs.Calls.{MeetsLink};
ghost use Rattle.qc_script.specs.Client.{HasJoined};
ghost use Rattle.qc_script.specs.Plan.{Plan, PlanFits};
ghost use Rattle.qc_script.specs.Steps.{put, plan_of, numbered};
ghost use Rattle.qc_interp.specs.Running.{Runs, Ended, CutOff, HasActed, Stepped, TriesCame, child_step};

mod branch;
mod row;

use crate::host::Host;
use crate::managing::{Change, change_value, manage, need};
use crate::marks::{look, mark};
use crate::pause::Pause;
use crate::stops::{Finish, ask, commit, quit_for, stop};
use qc_event::{Name, Short};
use qc_script::{Body, Managed, Step, Tx, TxNo};
use row::par;
use std::thread::Threads;

// What the tries of a child came to.
enum Came {
    // One of them committed, or there was none to begin.
    Through,
    // The last of them was aborted.
    Failed { last: Name },
    // One could not begin. The transaction has stopped, and its body is to be tried again, or not.
    Stopped { again: bool },
}

// Runs a child as often as its body is tried.
#[cycle(run)]
fn tries<T: Tx + Send + Drop, R: Threads + Sync>(
    tx: &mut T,
    host: &Host<'_, R>,
    of: &Name,
    body: &Body,
) -> Result<Came, Short>
    requires runs { Runs (T.view tx.old).client of.now (T.view tx.old).seen }
    requires depth { length of.now < 16 }
    requires fits { PlanFits (T.view tx.old).client.setting (length of.now + 1)
        (numbered body.now).plan }
    requires met { MeetsLink (T.view tx.old) }
    ensures met { MeetsLink (T.view tx.new) }
    ensures joined { HasJoined (T.view tx.old).client (T.view tx.old).seen
        (T.view tx.new).client }
    ensures ok { IfOk result (TriesCame (T.view tx.new).client of.now (T.view tx.old).seen
        (T.view tx.new).seen (numbered body.now)) }
    ensures cut { IfErr result (λ _. (rest : Plan) → CutOff (T.view tx.new).client of.now
        (T.view tx.old).seen (T.view tx.new).seen (child_step (numbered body.now) rest)) }
    ensures room { IfErr result (IsWant (T.view tx.new).seen) }
{
    let mut last = None;
    let mut pause = Pause::none();
    for _ in 0..body.tries {
        pause.take();
        match tx.begin(of, body.number) {
            Ok(name) => match steps(tx, host, &name, body.steps.as_slice())? {
                Finish::Committed => return Ok(Came::Through),
                Finish::Stopped { again } => {
                    if !again {
                        return Ok(Came::Failed { last: name });
                    }
                    pause.grow(&name);
                    last = Some(name);
                }
            },
            Err(why) => {
                return match why {
                    TxNo::Short(short) => Err(short),
                    _ => {
                        let again = stop(tx, of, &why)?;
                        Ok(Came::Stopped { again })
                    }
                };
            }
        }
    }
    match last {
        Some(last) => Ok(Came::Failed { last }),
        None => Ok(Came::Through),
    }
}

// A step that runs a child. Where the child must commit and did not, the transaction is aborted for it.
#[cycle(run)]
fn child<T: Tx + Send + Drop, R: Threads + Sync>(
    tx: &mut T,
    host: &Host<'_, R>,
    of: &Name,
    body: &Body,
) -> Result<Option<bool>, Short>
    requires runs { Runs (T.view tx.old).client of.now (T.view tx.old).seen }
    requires depth { length of.now < 16 }
    requires fits { PlanFits (T.view tx.old).client.setting (length of.now + 1)
        (numbered body.now).plan }
    requires met { MeetsLink (T.view tx.old) }
    ensures met { MeetsLink (T.view tx.new) }
    ensures joined { HasJoined (T.view tx.old).client (T.view tx.old).seen
        (T.view tx.new).client }
    ensures ok { IfOk result (Stepped (T.view tx.new).client of.now (T.view tx.old).seen
        (T.view tx.new).seen (child_step (numbered body.now))) }
    ensures cut { IfErr result (λ _. (rest : Plan) → CutOff (T.view tx.new).client of.now
        (T.view tx.old).seen (T.view tx.new).seen (child_step (numbered body.now) rest)) }
    ensures room { IfErr result (IsWant (T.view tx.new).seen) }
{
    match tries(tx, host, of, body)? {
        Came::Through => Ok(None),
        Came::Stopped { again } => Ok(Some(again)),
        Came::Failed { last } => {
            if !body.must {
                return Ok(None);
            }
            let again = quit_for(tx, of, &last)?;
            Ok(Some(again))
        }
    }
}

// Does one step.
#[cycle(run)]
fn act<T: Tx + Send + Drop, R: Threads + Sync>(
    tx: &mut T,
    host: &Host<'_, R>,
    of: &Name,
    step: &Step,
) -> Result<Option<bool>, Short>
    requires runs { Runs (T.view tx.old).client of.now (T.view tx.old).seen }
    requires fits { PlanFits (T.view tx.old).client.setting (length of.now)
        (put step.now Plan.done) }
    requires met { MeetsLink (T.view tx.old) }
    ensures met { MeetsLink (T.view tx.new) }
    ensures joined { HasJoined (T.view tx.old).client (T.view tx.old).seen
        (T.view tx.new).client }
    ensures ok { IfOk result (HasActed (T.view tx.new).client of.now (T.view tx.old).seen
        (T.view tx.new).seen (put step.now)) }
    ensures cut { IfErr result (λ _. (rest : Plan) → CutOff (T.view tx.new).client of.now
        (T.view tx.old).seen (T.view tx.new).seen (put step.now rest)) }
    ensures room { IfErr result (IsWant (T.view tx.new).seen) }
{
    match step {
        Step::Read { rec } => manage(tx, of, &Managed::Read { rec: *rec }),
        Step::Set { rec, value } => {
            let what = Managed::Write {
                rec: *rec,
                value: value.val(),
            };
            manage(tx, of, &what)
        }
        Step::Add { rec, value } => change_value(tx, of, *rec, Change::Add(*value)),
        Step::Sub { rec, value } => change_value(tx, of, *rec, Change::Sub(*value)),
        Step::Need { rec, value } => need(tx, of, *rec, *value),
        Step::Reconf { rec, config } => {
            let what = Managed::Reconf {
                rec: *rec,
                config: *config,
            };
            manage(tx, of, &what)
        }
        Step::Child(body) => child(tx, host, of, body),
        Step::Par(bodies) => par(tx, host, of, bodies.as_slice()),
        Step::Abort { levels } => {
            let again = ask(tx, of, *levels)?;
            Ok(Some(again))
        }
        Step::Crash { copy } => {
            tx.crash(*copy);
            Ok(None)
        }
        Step::Kill { session } => {
            mark(tx, of, *session)?;
            Ok(None)
        }
    }
}

// One step. Behind it the transaction looks whether it is killed.
#[cycle(run)]
fn step<T: Tx + Send + Drop, R: Threads + Sync>(
    tx: &mut T,
    host: &Host<'_, R>,
    of: &Name,
    step: &Step,
) -> Result<Option<bool>, Short>
    requires runs { Runs (T.view tx.old).client of.now (T.view tx.old).seen }
    requires fits { PlanFits (T.view tx.old).client.setting (length of.now)
        (put step.now Plan.done) }
    requires met { MeetsLink (T.view tx.old) }
    ensures met { MeetsLink (T.view tx.new) }
    ensures joined { HasJoined (T.view tx.old).client (T.view tx.old).seen
        (T.view tx.new).client }
    ensures ok { IfOk result (Stepped (T.view tx.new).client of.now (T.view tx.old).seen
        (T.view tx.new).seen (put step.now)) }
    ensures cut { IfErr result (λ _. (rest : Plan) → CutOff (T.view tx.new).client of.now
        (T.view tx.old).seen (T.view tx.new).seen (put step.now rest)) }
    ensures room { IfErr result (IsWant (T.view tx.new).seen) }
{
    match act(tx, host, of, step)? {
        Some(again) => Ok(Some(again)),
        None => look(tx, of),
    }
}

/// Runs the steps of a transaction that has started and has done nothing, and ends it. It answers what the transaction
/// came to. The client is told as it is then, with the branches that it has merged. Want of memory or room cuts it off: it has then done the first of its steps.
#[cycle(run)]
pub fn steps<T: Tx + Send + Drop, R: Threads + Sync>(
    tx: &mut T,
    host: &Host<'_, R>,
    of: &Name,
    steps: &[Step],
) -> Result<Finish, Short>
    requires runs { Runs (T.view tx.old).client of.now (T.view tx.old).seen }
    requires fits { PlanFits (T.view tx.old).client.setting (length of.now) (plan_of steps.now) }
    requires met { MeetsLink (T.view tx.old) }
    ensures met { MeetsLink (T.view tx.new) }
    ensures joined { HasJoined (T.view tx.old).client (T.view tx.old).seen
        (T.view tx.new).client }
    ensures ok { IfOk result (Ended (T.view tx.new).client of.now (T.view tx.old).seen
        (T.view tx.new).seen (plan_of steps.now)) }
    ensures cut { IfErr result (λ _. CutOff (T.view tx.new).client of.now
        (T.view tx.old).seen (T.view tx.new).seen (plan_of steps.now)) }
    ensures room { IfErr result (IsWant (T.view tx.new).seen) }
{
    if let Some(again) = look(tx, of)? {
        return Ok(Finish::Stopped { again });
    }
    for s in steps {
        if let Some(again) = step(tx, host, of, s)? {
            return Ok(Finish::Stopped { again });
        }
    }
    commit(tx, of)
}
