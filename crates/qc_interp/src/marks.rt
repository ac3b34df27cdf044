//! How sessions are marked to be killed, and where a transaction looks whether it is.
ghost use Rattle.std.specs.Prelude.{◌≡◌, ◌<◌, [], length, OnOk, IfOk, IfErr};
ghost use Rattle.qc_event.specs.Wants.{IsWant};
ghost use Rattle.qc_script.specs.Calls.{MeetsLink};
ghost use Rattle.qc_script.specs.Client.{Made};
ghost use Rattle.qc_script.specs.Plan.{Plan};
ghost use Rattle.qc_interp.specs.Running.{Runs, Acted, HasLooked};

use crate::stops::quit;
use qc_event::{Cause, Name, Short};
use qc_script::Tx;

/// Looks whether the transaction that runs is killed, and aborts it then. It answers nothing where the transaction goes on,
/// else whether its body is tried again.
pub(crate) fn look<T: Tx>(tx: &mut T, of: &Name) -> Result<Option<bool>, Short>
    requires runs { Runs (T.view tx.old).client of.now (T.view tx.old).seen }
    requires met { MeetsLink (T.view tx.old) }
    ensures met { MeetsLink (T.view tx.new) }
    ensures client { (T.view tx.new).client ≡ (T.view tx.old).client }
    ensures ok { IfOk result (HasLooked (T.view tx.old).client of.now
        (T.view tx.old).seen (T.view tx.new).seen) }
    ensures cut { IfErr result (λ _. Made (T.view tx.old).client []
        (T.view tx.old).seen (T.view tx.new).seen) }
    ensures room { IfErr result (IsWant (T.view tx.new).seen) }
{
    if tx.killed(of) {
        let again = quit(tx, of, Cause::Killed)?;
        return Ok(Some(again));
    }
    Ok(None)
}

/// Marks a session, so that its transactions up to the top of the one that runs are to be killed.
pub(crate) fn mark<T: Tx>(tx: &mut T, of: &Name, session: u8) -> Result<(), Short>
    requires runs { Runs (T.view tx.old).client of.now (T.view tx.old).seen }
    requires session { session < 16 }
    requires met { MeetsLink (T.view tx.old) }
    ensures met { MeetsLink (T.view tx.new) }
    ensures client { (T.view tx.new).client ≡ (T.view tx.old).client }
    ensures ok { OnOk result (Acted (T.view tx.old).client of.now
        (T.view tx.old).seen (T.view tx.new).seen (Plan.kill_then session)) }
    ensures cut { IfErr result (λ _. Made (T.view tx.old).client []
        (T.view tx.old).seen (T.view tx.new).seen) }
    ensures room { IfErr result (IsWant (T.view tx.new).seen) }
{
    tx.kill(of, session)
}
