//! How a transaction ends.
ghost use Rattle.std.specs.Prelude.{◌≡◌, ◌<◌, [], length, Some, IfOk, IfErr};
ghost use Rattle.qc_event.specs.Wants.{IsWant};
ghost use Rattle.qc_event.specs.declared.event.How.TheVariants.{Abort};
ghost use Rattle.qc_interp.specs.declared.stops.Finish.TheVariants as finish;
ghost use Rattle.qc_script.specs.Calls.{IsGrounded, MeetsLink};
ghost use Rattle.qc_script.specs.Client.{Made};
ghost use Rattle.qc_script.specs.Plan.{Plan};
ghost use Rattle.qc_interp.specs.Asking.{ByItself};
ghost use Rattle.qc_interp.specs.Running.{Runs, Quit, HasFailed, QuitFor, WhyStop, Stopped, Ended, CutOff};
ghost use Rattle.qc_interp.specs.Tries as tries;

use qc_event::{Cause, Name, Short};
use qc_script::{Tx, TxNo};

/// What a transaction came to that ran its steps.
#[derive(Clone, Copy)]
pub enum Finish {
    /// It has committed, or is a ready top.
    Committed,
    /// It has stopped, and its body is to be tried again, or not.
    Stopped { again: bool },
}

impl Finish {
    // Whether the body is to be tried again.
    pub(crate) fn is_again(&self) -> bool
        ensures { result ≡ tries.is_again self.now }
    {
        match self {
            Finish::Committed => false,
            Finish::Stopped { again } => *again,
        }
    }
}

// Whether a body that was aborted so is tried again.
fn is_tried_again(cause: &Cause) -> bool
    ensures { result ≡ tries.is_tried_again (Some (Abort cause.now)) }
{
    match cause {
        Cause::Conflict { .. } | Cause::NoQuorum(_) | Cause::Child(_) => true,
        _ => false,
    }
}

// Aborts the transaction that runs for a cause. It answers whether its body is tried again.
pub(crate) fn quit<T: Tx>(tx: &mut T, of: &Name, cause: Cause) -> Result<bool, Short>
    requires runs { Runs (T.view tx.old).client of.now (T.view tx.old).seen }
    requires grounded { IsGrounded (T.view tx.old).seen of.now cause }
    requires itself { ByItself of.now cause }
    requires met { MeetsLink (T.view tx.old) }
    ensures met { MeetsLink (T.view tx.new) }
    ensures client { (T.view tx.new).client ≡ (T.view tx.old).client }
    ensures ok { IfOk result (Quit (T.view tx.old).client of.now (Abort cause)
        (T.view tx.old).seen (T.view tx.new).seen) }
    ensures cut { IfErr result (λ _. Made (T.view tx.old).client []
        (T.view tx.old).seen (T.view tx.new).seen) }
    ensures room { IfErr result (IsWant (T.view tx.new).seen) }
{
    match tx.abort(of, cause) {
        Ok(()) => Ok(is_tried_again(&cause)),
        Err(why) => match why {
            TxNo::Short(short) => Err(short),
            _ => Ok(false),
        },
    }
}

// Stops the transaction that runs, which a call refused, where it has not ended.
pub(crate) fn stop<T: Tx>(tx: &mut T, of: &Name, why: &TxNo) -> Result<bool, Short>
    requires runs { Runs (T.view tx.old).client of.now (T.view tx.old).seen }
    requires why { WhyStop (T.view tx.old).client (T.view tx.old).seen of.now why.now }
    requires met { MeetsLink (T.view tx.old) }
    ensures met { MeetsLink (T.view tx.new) }
    ensures client { (T.view tx.new).client ≡ (T.view tx.old).client }
    ensures ok { IfOk result (Stopped (T.view tx.old).client of.now why.now (T.view tx.old).seen
        (T.view tx.new).seen) }
    ensures cut { IfErr result (λ _. Made (T.view tx.old).client []
        (T.view tx.old).seen (T.view tx.new).seen) }
    ensures room { IfErr result (IsWant (T.view tx.new).seen) }
{
    match why {
        TxNo::Conflict { copy, holder } => quit(
            tx,
            of,
            Cause::Conflict {
                copy: *copy,
                holder: *holder,
            },
        ),
        TxNo::NoQuorum(lack) => quit(tx, of, Cause::NoQuorum(*lack)),
        TxNo::Last => quit(tx, of, Cause::Last),
        TxNo::Orphan(ancestor) => {
            if ancestor == of {
                return Ok(false);
            }
            quit(tx, of, Cause::Orphan(*ancestor))
        }
        _ => Ok(false),
    }
}

// Aborts the ancestor so many levels up, and with it the transaction.
pub(crate) fn ask<T: Tx>(tx: &mut T, of: &Name, levels: u8) -> Result<bool, Short>
    requires runs { Runs (T.view tx.old).client of.now (T.view tx.old).seen }
    requires within { levels < length of.now }
    requires met { MeetsLink (T.view tx.old) }
    ensures met { MeetsLink (T.view tx.new) }
    ensures client { (T.view tx.new).client ≡ (T.view tx.old).client }
    ensures ok { IfOk result (λ again. (rest : Plan)
        → Ended (T.view tx.old).client of.now (T.view tx.old).seen (T.view tx.new).seen
        (Plan.abort_then levels rest) (finish.Stopped again)) }
    ensures cut { IfErr result (λ _. (rest : Plan) → CutOff (T.view tx.old).client of.now
        (T.view tx.old).seen (T.view tx.new).seen (Plan.abort_then levels rest)) }
    ensures room { IfErr result (IsWant (T.view tx.new).seen) }
{
    if levels == 0 {
        return quit(tx, of, Cause::Asked { by: *of });
    }
    let ancestor = of.ancestor(of.len() - levels as usize);
    match tx.abort(&ancestor, Cause::Asked { by: *of }) {
        Ok(()) => quit(tx, of, Cause::Orphan(ancestor)),
        Err(why) => match why {
            TxNo::Short(short) => Err(short),
            TxNo::Ended => quit(tx, of, Cause::Orphan(ancestor)),
            _ => Ok(false),
        },
    }
}

// Aborts the transaction that runs for a child that was aborted. One that is dead ends as an orphan.
pub(crate) fn quit_for<T: Tx>(tx: &mut T, of: &Name, child: &Name) -> Result<bool, Short>
    requires runs { Runs (T.view tx.old).client of.now (T.view tx.old).seen }
    requires failed { HasFailed (T.view tx.old).client of.now (T.view tx.old).seen child.now }
    requires met { MeetsLink (T.view tx.old) }
    ensures met { MeetsLink (T.view tx.new) }
    ensures client { (T.view tx.new).client ≡ (T.view tx.old).client }
    ensures ok { IfOk result (QuitFor (T.view tx.old).client of.now child.now (T.view tx.old).seen
        (T.view tx.new).seen) }
    ensures cut { IfErr result (λ _. Made (T.view tx.old).client []
        (T.view tx.old).seen (T.view tx.new).seen) }
    ensures room { IfErr result (IsWant (T.view tx.new).seen) }
{
    match tx.abort(of, Cause::Child(*child)) {
        Ok(()) => Ok(true),
        Err(why) => match why {
            TxNo::Short(short) => Err(short),
            TxNo::Orphan(_) => stop(tx, of, &why),
            _ => Ok(false),
        },
    }
}

// Commits the transaction that runs.
pub(crate) fn commit<T: Tx>(tx: &mut T, of: &Name) -> Result<Finish, Short>
    requires runs { Runs (T.view tx.old).client of.now (T.view tx.old).seen }
    requires met { MeetsLink (T.view tx.old) }
    ensures met { MeetsLink (T.view tx.new) }
    ensures client { (T.view tx.new).client ≡ (T.view tx.old).client }
    ensures ok { IfOk result (Ended (T.view tx.old).client of.now (T.view tx.old).seen
        (T.view tx.new).seen Plan.done) }
    ensures cut { IfErr result (λ _. CutOff (T.view tx.old).client of.now
        (T.view tx.old).seen (T.view tx.new).seen Plan.done) }
    ensures room { IfErr result (IsWant (T.view tx.new).seen) }
{
    match tx.commit(of) {
        Ok(()) => Ok(Finish::Committed),
        Err(why) => match why {
            TxNo::Short(short) => Err(short),
            TxNo::Ledger => Ok(Finish::Stopped { again: false }),
            _ => {
                let again = stop(tx, of, &why)?;
                Ok(Finish::Stopped { again })
            }
        },
    }
}
