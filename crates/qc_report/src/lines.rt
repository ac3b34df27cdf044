//! The lines of a report.
ghost use Rattle.std.specs.Prelude.{◌≡◌, ◌<◌, ◌++◌, [], false, Some, OnOk, length, slice_get};
ghost use Rattle.qc_event.specs.declared.event.Entry.{Entry};
ghost use Rattle.qc_report.specs.Report as spec;
ghost use Rattle.qc_trail.specs.Outline.{outline_of};

use crate::history::History;
use crate::managers::{push_failed, push_read, push_reconf, push_set};
use crate::page::Page;
use crate::values::push_value;
use qc_event::{Answer, Cause, Event, How, Kind, Name, Row, Table, Val};
use qc_trail::Outline;
use std::alloc::AllocError;

fn push_commit(page: &mut Page, name: &Name) -> Result<(), AllocError>
    ensures { OnOk result (page.new ≡ page.old ++ spec.commit_line name.now) }
{
    write!(page, "commit {name}\n")
}

fn push_cause(page: &mut Page, cause: &Cause) -> Result<(), AllocError>
    ensures { OnOk result (page.new ≡ page.old ++ spec.cause_text cause.now) }
{
    match cause {
        Cause::Asked { by } => write!(page, "asked {by}"),
        Cause::Conflict { .. } => write!(page, "conflict"),
        Cause::NoQuorum(_) => write!(page, "noquorum"),
        Cause::Last => write!(page, "last"),
        Cause::Orphan(ancestor) => write!(page, "orphan {ancestor}"),
        Cause::Killed => write!(page, "killed"),
        Cause::Child(child) => write!(page, "child {child}"),
        Cause::Missed => write!(page, "missed"),
    }
}

fn push_abort(page: &mut Page, name: &Name, cause: &Cause) -> Result<(), AllocError>
    ensures { OnOk result (page.new ≡ page.old ++ spec.abort_line name.now cause.now) }
{
    write!(page, "abort {name} ")?;
    push_cause(page, cause)?;
    write!(page, "\n")
}

fn push_committed(
    page: &mut Page,
    table: &Table,
    name: &Name,
    kind: &Kind,
    answer: &Answer,
) -> Result<(), AllocError>
    ensures { OnOk result
        (page.new ≡ page.old ++ spec.committed_line table.now name.now answer.now kind.now) }
{
    match kind {
        Kind::User { .. } => push_commit(page, name),
        Kind::Read { rec } => push_read(page, table, name, *rec, answer),
        Kind::Write { rec, value } => push_set(page, table, name, *rec, value),
        Kind::Reconf { rec, .. } => push_reconf(page, table, name, *rec, answer),
        Kind::Access => Ok(()),
    }
}

fn push_aborted(
    page: &mut Page,
    table: &Table,
    name: &Name,
    kind: &Kind,
    cause: &Cause,
) -> Result<(), AllocError>
    ensures { OnOk result
        (page.new ≡ page.old ++ spec.aborted_line table.now name.now cause.now kind.now) }
{
    match kind {
        Kind::User { .. } => push_abort(page, name, cause),
        Kind::Read { rec } | Kind::Write { rec, .. } | Kind::Reconf { rec, .. } => {
            push_failed(page, table, name, *rec, cause)
        }
        Kind::Access => Ok(()),
    }
}

// Appends the line of an entry of a history.
fn push_event(
    page: &mut Page,
    table: &Table,
    history: &History<'_>,
    event: &Event,
) -> Result<(), AllocError>
    ensures { OnOk result
        (page.new ≡ page.old ++ spec.event_line table.now history.now event.now) }
{
    let Event::End { name, how } = event else {
        return Ok(());
    };
    let Some(kind) = history.kind(name) else {
        return Ok(());
    };
    match how {
        How::Commit(answer) => push_committed(page, table, name, &kind, answer),
        How::Abort(cause) => push_aborted(page, table, name, &kind, cause),
    }
}

// Whether an entry of this may have a line: none has one that is no end, or the end of an access.
fn may_have_line(history: &History<'_>, outline: &Outline) -> bool
    ensures { (table : Table) (event : Event) → outline.now ≡ outline_of event
        → result ≡ false → spec.event_line table history.now event ≡ [] }
{
    match outline {
        Outline::Commit { name } => !history.is_access(name),
        Outline::Abort { name } => !history.is_access(name),
        _ => false,
    }
}

/// Appends the line of the entry at a place of a history, which is of this. It builds the event where that may have a
/// line.
pub(crate) fn push_entry(
    page: &mut Page,
    table: &Table,
    history: &History<'_>,
    at: usize,
    outline: &Outline,
) -> Result<(), AllocError>
    requires within { at < length history.now }
    requires outline { (entry : Entry) → slice_get history.now at ≡ Some entry
        → outline.now ≡ outline_of entry.event }
    ensures { OnOk result ((entry : Entry) → slice_get history.now at ≡ Some entry
        → page.new ≡ page.old ++ spec.event_line table.now history.now entry.event) }
{
    if may_have_line(history, outline) {
        push_event(page, table, history, &history.trail().at(at).event)
    } else {
        Ok(())
    }
}

/// Appends the line of a top in doubt.
pub(crate) fn push_doubt(page: &mut Page, top: &Name) -> Result<(), AllocError>
    ensures { OnOk result (page.new ≡ page.old ++ spec.top_line top.now) }
{
    write!(page, "doubt {top}\n")
}

/// Appends a record with its value at the end.
pub(crate) fn push_final(page: &mut Page, row: &Row, value: &Val) -> Result<(), AllocError>
    ensures { OnOk result (page.new ≡ page.old ++ spec.final_line row.now value.now) }
{
    write!(page, "final ")?;
    page.push(row.name.as_bytes())?;
    write!(page, " ")?;
    push_value(page, value)?;
    write!(page, "\n")
}
