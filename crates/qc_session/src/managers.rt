//! The managers that a client runs, from their start to their end.
ghost use Rattle.std.specs.Prelude.{◌≡◌, ◌<◌, List, [], length, IsTrue, IfOk, IfErr, OnOk};
ghost use Rattle.qc_config.specs.declared.tuple.Tuple.{Tuple};
ghost use Rattle.qc_event.specs.Base.{first_of};
ghost use Rattle.qc_event.specs.declared.event.How.TheVariants.{Commit as Commits, Abort as Aborts};
ghost use Rattle.qc_event.specs.History.{children, is_child};
ghost use Rattle.qc_event.specs.Standing.{IsUser, Started};
ghost use Rattle.qc_event.specs.Tables.{setting_of};
ghost use Rattle.qc_managers.specs.Carrying.{HasGrown, IsRunning};
ghost use Rattle.qc_net.specs.Courier.{link_of};
ghost use Rattle.qc_managers.specs.Managed.{IsAnswered, ManagerIsRefused, MayEndFor};
ghost use Rattle.qc_script.specs.Calls.{GaveNone, Ran};
ghost use Rattle.qc_script.specs.Client.{Client};
ghost use Rattle.qc_script.specs.Managers.{manager_for, IsAnswerTo};
ghost use Rattle.qc_script.specs.Plan.{KindFits};
ghost use Rattle.qc_session.specs.Acting.{IsWanting};
ghost use Rattle.qc_session.specs.Clients.{IsFor};
ghost use Rattle.qc_session.specs.Managing.{Closed, Ends, NotClosed};
ghost use Rattle.qc_session.specs.Lines.{HasGoneOn};

use crate::refusals::{orphan_told, short_of, told};
use crate::starts::start_child;
use qc_carry::Line;
use qc_disk::Disk;
use qc_event::{Answer, Cause, Config, Name, Short, Table};
use qc_managers::{Carrier, MgrNo};
use qc_net::Link;
use qc_script::{Managed, TxNo};
use qc_system::Mounting;
use std::sync::Wait;

// A record's first configuration.
fn first_config(table: &Table, rec: u8) -> Config
    requires { rec < length table.now.records }
    ensures { (base : List (List Tuple)) → result ≡ first_of (setting_of table.now base) rec }
{
    table.records.as_slice()[rec as usize].config
}

// The answer or refusal of a manager that has just started, over a carrier. It has not ended yet.
fn ask<C: Carrier>(
    carrier: &mut C,
    table: &Table,
    name: &Name,
    what: &Managed,
) -> Result<Answer, MgrNo>
    requires over { (base : List (List Tuple)) × ((C.view carrier.old).setting
        ≡ setting_of table.now base) }
    requires fits { KindFits (C.view carrier.old).setting (manager_for what.now) }
    requires manager { IsRunning (C.view carrier.old).seat (C.view carrier.old).seen
        name.now (manager_for what.now) }
    requires no_child { children (C.view carrier.old).seen name.now ≡ [] }
    ensures grown { HasGrown (C.view carrier.old).others (λ n. IsTrue (is_child name.now n))
        (C.view carrier.old).seen (C.view carrier.new).seen }
    ensures answered { IfOk result (IsAnswered (C.view carrier.old).setting
        (C.view carrier.old).seat (C.view carrier.new).seen name.now (manager_for what.now)) }
    ensures answers { IfOk result (IsAnswerTo what.now) }
    ensures refused { IfErr result (ManagerIsRefused (C.view carrier.old).setting
        (C.view carrier.old).seat (C.view carrier.new).seen name.now (manager_for what.now)) }
    ensures became { C.became carrier.old carrier.new }
{
    match what {
        Managed::Read { rec } => {
            let first = first_config(table, *rec);
            let value = qc_managers::read(carrier, name, *rec, &first);
            value.map(Answer::Value)
        }
        Managed::Write { rec, value } => {
            let first = first_config(table, *rec);
            let version = qc_managers::write(carrier, name, *rec, &first, *value);
            version.and(Ok(Answer::Nothing))
        }
        Managed::Reconf { rec, config } => {
            let first = first_config(table, *rec);
            let generation = qc_managers::reconfigure(carrier, name, *rec, &first, config);
            generation.map(Answer::Generation)
        }
    }
}

// Aborts a manager of one's own whose accesses have ended. The only errors are want of memory and of room.
fn abort_manager<R: Wait, D: Disk + Drop, L: Link + Drop, N: Mounting>(
    line: &mut Line<'_, R, D, L, N>,
    name: &Name,
    what: &Managed,
    cause: &Cause,
) -> Result<(), Short>
    requires may { MayEndFor (setting_of N.table N.base) line.old.pass.number line.old.pass.seen
        name.now (manager_for what.now) cause.now }
    ensures ok { OnOk result (Ends line.old.pass line.new.pass name.now (Aborts cause.now)) }
    ensures err { IfErr result (IsWanting line.old.pass line.new.pass) }
    ensures went { HasGoneOn (setting_of N.table N.base) line.old.pass line.new.pass
        (L.view (link_of line.old.courier)).plan (L.view (link_of line.new.courier)).plan
        line.old.patience line.new.patience line.old.system line.new.system }
{
    let aborted = line.abort(name, cause);
    match aborted {
        Ok(()) => Ok(()),
        Err(no) => Err(short_of(&no)),
    }
}

// Commits a manager that has its answer. Where an ancestor was aborted meanwhile, it ends as an orphan.
fn commit_manager<R: Wait, D: Disk + Drop, L: Link + Drop, N: Mounting>(
    line: &mut Line<'_, R, D, L, N>,
    name: &Name,
    what: &Managed,
    answer: &Answer,
) -> Result<Answer, TxNo>
    requires answered { IsAnswered (setting_of N.table N.base) line.old.pass.number
        line.old.pass.seen name.now (manager_for what.now) answer.now }
    ensures ok { IfOk result (λ given. (given ≡ answer.now)
        × Ends line.old.pass line.new.pass name.now (Commits given)) }
    ensures err { IfErr result (NotClosed line.old.pass line.new.pass name.now) }
    ensures went { HasGoneOn (setting_of N.table N.base) line.old.pass line.new.pass
        (L.view (link_of line.old.courier)).plan (L.view (link_of line.new.courier)).plan
        line.old.patience line.new.patience line.old.system line.new.system }
{
    let ended = line.end(name, answer);
    match ended {
        Ok(()) => Ok(*answer),
        Err(no) => match orphan_told(&no) {
            Some(ancestor) => match abort_manager(line, name, what, &Cause::Orphan(ancestor)) {
                Ok(()) => Err(TxNo::Orphan(ancestor)),
                Err(short) => Err(TxNo::Short(short)),
            },
            None => Err(TxNo::Short(short_of(&no))),
        },
    }
}

// Ends a manager by what it came to. Where memory or room is wanting it does not end.
fn close<R: Wait, D: Disk + Drop, L: Link + Drop, N: Mounting>(
    line: &mut Line<'_, R, D, L, N>,
    name: &Name,
    what: &Managed,
    came_to: &Result<Answer, MgrNo>,
) -> Result<Answer, TxNo>
    requires answered { IfOk came_to.now (IsAnswered (setting_of N.table N.base)
        line.old.pass.number line.old.pass.seen name.now (manager_for what.now)) }
    requires refused { IfErr came_to.now (ManagerIsRefused (setting_of N.table N.base)
        line.old.pass.number line.old.pass.seen name.now (manager_for what.now)) }
    ensures ok { IfOk result (Closed line.old.pass line.new.pass name.now came_to.now) }
    ensures err { IfErr result (NotClosed line.old.pass line.new.pass name.now) }
    ensures went { HasGoneOn (setting_of N.table N.base) line.old.pass line.new.pass
        (L.view (link_of line.old.courier)).plan (L.view (link_of line.new.courier)).plan
        line.old.patience line.new.patience line.old.system line.new.system }
{
    match came_to {
        Ok(answer) => commit_manager(line, name, what, answer),
        Err(no) => match no.cause() {
            Some(cause) => match abort_manager(line, name, what, &cause) {
                Ok(()) => Err(told(no)),
                Err(short) => Err(TxNo::Short(short)),
            },
            None => { Err(told(no)) }
        },
    }
}

/// Runs a manager for a user transaction, and answers what it committed with.
pub(crate) fn manage<R: Wait, D: Disk + Drop, L: Link + Drop, N: Mounting>(
    line: &mut Line<'_, R, D, L, N>,
    table: &Table,
    of: &Name,
    what: &Managed,
) -> Result<Answer, TxNo>
    requires over { table.now ≡ N.table }
    requires fits { KindFits (setting_of N.table N.base) (manager_for what.now) }
    requires user { Started line.old.pass.seen of.now (λ b. IsUser b.kind) }
    ensures ok { (c : Client) → IsFor (setting_of N.table N.base) line.old.pass line.new.pass c
        → IfOk result (λ given. Ran c of.now (manager_for what.now) (Commits given)
        line.old.pass.seen line.new.pass.seen) }
    ensures answers { IfOk result (IsAnswerTo what.now) }
    ensures err { (c : Client) → IsFor (setting_of N.table N.base) line.old.pass line.new.pass c
        → IfErr result (GaveNone c of.now (manager_for what.now) line.old.pass.seen
        line.new.pass.seen) }
    ensures went { HasGoneOn (setting_of N.table N.base) line.old.pass line.new.pass
        (L.view (link_of line.old.courier)).plan (L.view (link_of line.new.courier)).plan
        line.old.patience line.new.patience line.old.system line.new.system }
{
    let name = match start_child(line, of, what.kind()) {
        Ok(name) => name,
        Err(why) => return Err(why),
    };
    let came_to = ask(line, table, &name, what);
    close(line, &name, what, &came_to)
}
