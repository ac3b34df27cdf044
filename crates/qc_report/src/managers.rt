//! The lines of managers.
ghost use Rattle.std.specs.Prelude.{◌≡◌, ◌++◌, OnOk};
ghost use Rattle.qc_report.specs.Report as spec;

use crate::lack::push_lack;
use crate::page::Page;
use crate::values::push_value;
use qc_event::{Answer, Cause, Lack, Name, Table, Val};
use std::alloc::AllocError;

/// Appends the name of a record, and nothing for a record beyond the table.
fn push_record(page: &mut Page, table: &Table, rec: u8) -> Result<(), AllocError>
    ensures { OnOk result (page.new ≡ page.old ++ spec.record_name table.now rec) }
{
    match table.records.as_slice().get(usize::from(rec)) {
        Some(row) => page.push(row.name.as_bytes()),
        None => Ok(()),
    }
}

/// Appends the line of a read manager that has committed.
pub(crate) fn push_read(
    page: &mut Page,
    table: &Table,
    name: &Name,
    rec: u8,
    answer: &Answer,
) -> Result<(), AllocError>
    ensures { OnOk result
        (page.new ≡ page.old ++ spec.read_line table.now name.now rec answer.now) }
{
    match answer {
        Answer::Value(value) => {
            write!(page, "read {name} ")?;
            push_record(page, table, rec)?;
            write!(page, " ")?;
            push_value(page, value)?;
            write!(page, "\n")
        }
        Answer::Nothing | Answer::Generation(_) | Answer::Reply(_) => Ok(()),
    }
}

/// Appends the line of a write manager that has committed.
pub(crate) fn push_set(
    page: &mut Page,
    table: &Table,
    name: &Name,
    rec: u8,
    value: &Val,
) -> Result<(), AllocError>
    ensures { OnOk result
        (page.new ≡ page.old ++ spec.set_line table.now name.now rec value.now) }
{
    write!(page, "set {name} ")?;
    push_record(page, table, rec)?;
    write!(page, " ")?;
    push_value(page, value)?;
    write!(page, "\n")
}

/// Appends the line of a reconfigure manager that has committed.
pub(crate) fn push_reconf(
    page: &mut Page,
    table: &Table,
    name: &Name,
    rec: u8,
    answer: &Answer,
) -> Result<(), AllocError>
    ensures { OnOk result
        (page.new ≡ page.old ++ spec.reconf_line table.now name.now rec answer.now) }
{
    match answer {
        Answer::Generation(generation) => {
            write!(page, "reconf {name} ")?;
            push_record(page, table, rec)?;
            write!(page, " {generation}\n")
        }
        Answer::Nothing | Answer::Value(_) | Answer::Reply(_) => Ok(()),
    }
}

fn push_conflict(
    page: &mut Page,
    table: &Table,
    name: &Name,
    rec: u8,
    copy: u8,
    holder: &Name,
) -> Result<(), AllocError>
    ensures { OnOk result
        (page.new ≡ page.old ++ spec.conflict_line table.now name.now rec copy holder.now) }
{
    write!(page, "conflict {name} ")?;
    push_record(page, table, rec)?;
    write!(page, " copy {copy} holder {holder}\n")
}

fn push_no_quorum(
    page: &mut Page,
    table: &Table,
    name: &Name,
    rec: u8,
    lack: &Lack,
) -> Result<(), AllocError>
    ensures { OnOk result
        (page.new ≡ page.old ++ spec.no_quorum_line table.now name.now rec lack.now) }
{
    write!(page, "noquorum {name} ")?;
    push_record(page, table, rec)?;
    write!(page, " ")?;
    push_lack(page, lack)?;
    write!(page, "\n")
}

fn push_last(page: &mut Page, table: &Table, name: &Name, rec: u8) -> Result<(), AllocError>
    ensures { OnOk result (page.new ≡ page.old ++ spec.last_line table.now name.now rec) }
{
    write!(page, "last {name} ")?;
    push_record(page, table, rec)?;
    write!(page, "\n")
}

fn push_orphan(
    page: &mut Page,
    table: &Table,
    name: &Name,
    rec: u8,
    ancestor: &Name,
) -> Result<(), AllocError>
    ensures { OnOk result
        (page.new ≡ page.old ++ spec.orphan_line table.now name.now rec ancestor.now) }
{
    write!(page, "orphan {name} ")?;
    push_record(page, table, rec)?;
    write!(page, " {ancestor}\n")
}

/// Appends the line of a manager that was aborted, of which kind it may be; none for a cause for which
/// no manager is aborted.
pub(crate) fn push_failed(
    page: &mut Page,
    table: &Table,
    name: &Name,
    rec: u8,
    cause: &Cause,
) -> Result<(), AllocError>
    ensures { OnOk result
        (page.new ≡ page.old ++ spec.failed_line table.now name.now rec cause.now) }
{
    match cause {
        Cause::Conflict { copy, holder } => push_conflict(page, table, name, rec, *copy, holder),
        Cause::NoQuorum(lack) => push_no_quorum(page, table, name, rec, lack),
        Cause::Last => push_last(page, table, name, rec),
        Cause::Orphan(ancestor) => push_orphan(page, table, name, rec, ancestor),
        Cause::Asked { .. } | Cause::Killed | Cause::Child(_) | Cause::Missed => Ok(()),
    }
}
