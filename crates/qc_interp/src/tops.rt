//! The tops of a session.
ghost use Rattle.std.specs.Prelude.{◌≡◌, ◌∷◌, ◌++◌, List, [], length, map, OnOk, IfOk, IfErr};
ghost use Rattle.qc_event.specs.Wants.{IsWant};
ghost use Rattle.qc_event.specs.Legal.{Legal};
ghost use Rattle.qc_script.specs.Calls.{MeetsLink};
ghost use Rattle.qc_script.specs.Client.{HasJoined};
ghost use Rattle.qc_script.specs.Plan.{Numbered, PlanFits, BodiesFit};
ghost use Rattle.qc_script.specs.Steps.{numbered};
ghost use Rattle.qc_interp.specs.Session.{EndsTops, RanTops, RanInTurn, CutTops};

use crate::body::steps;
use crate::host::Host;
use crate::pause::Pause;
use qc_event::{Name, Short};
use qc_script::{Body, Tx, TxNo};
use std::thread::Threads;

// Runs the tries of a body as tops.
fn top_tries<T: Tx + Send + Drop, R: Threads + Sync>(
    tx: &mut T,
    host: &Host<'_, R>,
    body: &Body,
) -> Result<(), Short>
    requires rootless { (T.view tx.old).client.root ≡ [] }
    requires legal { Legal (T.view tx.old).client.setting (T.view tx.old).seen }
    requires fits { PlanFits (T.view tx.old).client.setting 1 (numbered body.now).plan }
    requires met { MeetsLink (T.view tx.old) }
    ensures met { MeetsLink (T.view tx.new) }
    ensures joined { HasJoined (T.view tx.old).client (T.view tx.old).seen
        (T.view tx.new).client }
    ensures ok { OnOk result (RanTops (T.view tx.new).client (T.view tx.old).seen
        (T.view tx.new).seen (λ rest. numbered body.now ∷ rest)) }
    ensures cut { IfErr result (λ _. (rest : List Numbered) → CutTops (T.view tx.new).client
        (T.view tx.old).seen (T.view tx.new).seen (numbered body.now ∷ rest)) }
    ensures room { IfErr result (IsWant (T.view tx.new).seen) }
{
    let mut pause = Pause::none();
    for _ in 0..body.tries {
        pause.take();
        match tx.begin(&Name::root(), body.number) {
            Ok(name) => {
                if !steps(tx, host, &name, body.steps.as_slice())?.is_again() {
                    return Ok(());
                }
                pause.grow(&name);
            }
            Err(TxNo::Short(short)) => return Err(short),
            Err(_) => return Err(Short::Memory),
        }
    }
    Ok(())
}

/// Runs the tops of these bodies one after another. They are of the client's session and get the next numbers, and nothing
/// is made but of them. The client stands below no transaction, and is told as it is then, with the branches that it has
/// merged. Where all about them is its own, but for their commits, they are tries of the bodies in order,
/// each follows its body and starts once those before it are over, whoever acts does so in turn, and whoever is aborted as
/// another asked is named by a step `abort` to which that one came; where the link is told, its requests meet the fates.
/// Where want of memory or room cuts it off, all of that holds of what was made, as far as it came.
pub fn run_tops<T: Tx + Send + Drop, R: Threads + Sync>(
    tx: &mut T,
    host: &Host<'_, R>,
    bodies: &[Body],
) -> Result<(), Short>
    requires rootless { (T.view tx.old).client.root ≡ [] }
    requires legal { Legal (T.view tx.old).client.setting (T.view tx.old).seen }
    requires fits { BodiesFit (T.view tx.old).client.setting (map numbered bodies.now) }
    requires met { MeetsLink (T.view tx.old) }
    ensures met { MeetsLink (T.view tx.new) }
    ensures joined { HasJoined (T.view tx.old).client (T.view tx.old).seen
        (T.view tx.new).client }
    ensures turns { OnOk result (RanInTurn (T.view tx.new).client (T.view tx.old).seen
        (T.view tx.new).seen) }
    ensures ok { OnOk result (EndsTops (T.view tx.new).client (T.view tx.old).seen
        (T.view tx.new).seen (map numbered bodies.now)) }
    ensures cut { IfErr result (λ _. CutTops (T.view tx.new).client (T.view tx.old).seen
        (T.view tx.new).seen (map numbered bodies.now)) }
    ensures room { IfErr result (IsWant (T.view tx.new).seen) }
{
    for body in bodies {
        top_tries(tx, host, body)?;
    }
    Ok(())
}
