//! Steps that are managers.
ghost use Rattle.std.specs.Prelude.{◌≡◌, ◌<◌, length, IfOk, IfErr};
ghost use Rattle.qc_config.specs.Val.{Number};
ghost use Rattle.qc_event.specs.Wants.{IsWant};
ghost use Rattle.qc_event.specs.declared.event.Answer.{Answer};
ghost use Rattle.qc_event.specs.declared.event.Kind.TheVariants as kind;
ghost use Rattle.qc_script.specs.Calls.{MeetsLink};
ghost use Rattle.qc_script.specs.Managers.{manager_for};
ghost use Rattle.qc_script.specs.Plan.{Plan, KindFits, manage_then, change_then, need_then};
ghost use Rattle.qc_script.specs.Plan as plans;
ghost use Rattle.qc_interp.specs.Change.{changed};
ghost use Rattle.qc_interp.specs.Running.{Runs, CutOff, Stepped, HasCalled};

use crate::stops::{ask, stop};
use qc_event::{Answer, Name, Short, Val};
use qc_script::{Managed, Tx, TxNo};

/// What a step's manager came to.
pub(crate) enum Called {
    /// It committed with this.
    Answered(Answer),
    /// It gave no answer. The transaction has stopped, and its body is to be tried again, or not.
    Stopped { again: bool },
}

/// How a step changes the number of a record, modulo `2^64`.
#[derive(Clone, Copy)]
pub(crate) enum Change {
    Add(u64),
    Sub(u64),
}

impl Change {
    // The number, changed.
    fn applied(self, value: u64) -> Val
        ensures { result ≡ Number (changed self value) }
    {
        Val::number(match self {
            Change::Add(amount) => value.wrapping_add(amount),
            Change::Sub(amount) => value.wrapping_sub(amount),
        })
    }
}

// The number that a read answered; none where it answered a text.
fn number_in(answer: &Answer) -> Option<u64>
    ensures { result ≡ plans.number_in answer.now }
{
    match answer {
        Answer::Value(value) => value.as_number(),
        _ => None,
    }
}

// Whether a read answered a number that is at least this one.
fn is_enough(least: u64, answer: &Answer) -> bool
    ensures { result ≡ plans.is_enough least answer.now }
{
    match number_in(answer) {
        Some(number) => number >= least,
        None => false,
    }
}

// Has a manager run for a transaction that runs, which stops where it gives no answer.
fn call<T: Tx>(tx: &mut T, of: &Name, what: &Managed) -> Result<Called, Short>
    requires runs { Runs (T.view tx.old).client of.now (T.view tx.old).seen }
    requires fits { KindFits (T.view tx.old).client.setting (manager_for what.now) }
    requires met { MeetsLink (T.view tx.old) }
    ensures met { MeetsLink (T.view tx.new) }
    ensures client { (T.view tx.new).client ≡ (T.view tx.old).client }
    ensures ok { IfOk result (HasCalled (T.view tx.old).client of.now (T.view tx.old).seen
        (T.view tx.new).seen (manager_for what.now)) }
    ensures cut { IfErr result (λ _. (next : Answer → Plan) → CutOff (T.view tx.old).client of.now
        (T.view tx.old).seen (T.view tx.new).seen (Plan.manage_by (manager_for what.now) next)) }
    ensures room { IfErr result (IsWant (T.view tx.new).seen) }
{
    match tx.manage(of, what) {
        Ok(given) => Ok(Called::Answered(given)),
        Err(why) => match why {
            TxNo::Short(short) => Err(short),
            _ => {
                let again = stop(tx, of, &why)?;
                Ok(Called::Stopped { again })
            }
        },
    }
}

/// A step that is a manager. It answers nothing where the transaction goes on, else whether its body is tried again.
pub(crate) fn manage<T: Tx>(tx: &mut T, of: &Name, what: &Managed) -> Result<Option<bool>, Short>
    requires runs { Runs (T.view tx.old).client of.now (T.view tx.old).seen }
    requires fits { KindFits (T.view tx.old).client.setting (manager_for what.now) }
    requires met { MeetsLink (T.view tx.old) }
    ensures met { MeetsLink (T.view tx.new) }
    ensures client { (T.view tx.new).client ≡ (T.view tx.old).client }
    ensures ok { IfOk result (Stepped (T.view tx.old).client of.now (T.view tx.old).seen
        (T.view tx.new).seen (manage_then (manager_for what.now))) }
    ensures cut { IfErr result (λ _. (rest : Plan) → CutOff (T.view tx.old).client of.now
        (T.view tx.old).seen (T.view tx.new).seen (manage_then (manager_for what.now) rest)) }
    ensures room { IfErr result (IsWant (T.view tx.new).seen) }
{
    match call(tx, of, what)? {
        Called::Answered(_) => Ok(None),
        Called::Stopped { again } => Ok(Some(again)),
    }
}

/// A step that reads a record and writes its number changed, and aborts the transaction itself where it has a text.
pub(crate) fn change_value<T: Tx>(
    tx: &mut T,
    of: &Name,
    rec: u8,
    by: Change,
) -> Result<Option<bool>, Short>
    requires runs { Runs (T.view tx.old).client of.now (T.view tx.old).seen }
    requires fits { KindFits (T.view tx.old).client.setting (kind.Read rec) }
    requires met { MeetsLink (T.view tx.old) }
    ensures met { MeetsLink (T.view tx.new) }
    ensures client { (T.view tx.new).client ≡ (T.view tx.old).client }
    ensures ok { IfOk result (Stepped (T.view tx.old).client of.now (T.view tx.old).seen
        (T.view tx.new).seen (change_then rec (changed by))) }
    ensures cut { IfErr result (λ _. (rest : Plan) → CutOff (T.view tx.old).client of.now
        (T.view tx.old).seen (T.view tx.new).seen (change_then rec (changed by) rest)) }
    ensures room { IfErr result (IsWant (T.view tx.new).seen) }
{
    match call(tx, of, &Managed::Read { rec })? {
        Called::Answered(given) => match number_in(&given) {
            Some(old) => {
                let value = by.applied(old);
                manage(tx, of, &Managed::Write { rec, value })
            }
            None => {
                let again = ask(tx, of, 0)?;
                Ok(Some(again))
            }
        },
        Called::Stopped { again } => Ok(Some(again)),
    }
}

/// A step that reads a record, and aborts the transaction itself where it has a text, or a number that is less than this.
pub(crate) fn need<T: Tx>(tx: &mut T, of: &Name, rec: u8, least: u64) -> Result<Option<bool>, Short>
    requires runs { Runs (T.view tx.old).client of.now (T.view tx.old).seen }
    requires fits { KindFits (T.view tx.old).client.setting (kind.Read rec) }
    requires met { MeetsLink (T.view tx.old) }
    ensures met { MeetsLink (T.view tx.new) }
    ensures client { (T.view tx.new).client ≡ (T.view tx.old).client }
    ensures ok { IfOk result (Stepped (T.view tx.old).client of.now (T.view tx.old).seen
        (T.view tx.new).seen (need_then rec least)) }
    ensures cut { IfErr result (λ _. (rest : Plan) → CutOff (T.view tx.old).client of.now
        (T.view tx.old).seen (T.view tx.new).seen (need_then rec least rest)) }
    ensures room { IfErr result (IsWant (T.view tx.new).seen) }
{
    match call(tx, of, &Managed::Read { rec })? {
        Called::Answered(given) => {
            if is_enough(least, &given) {
                return Ok(None);
            }
            let again = ask(tx, of, 0)?;
            Ok(Some(again))
        }
        Called::Stopped { again } => Ok(Some(again)),
    }
}
