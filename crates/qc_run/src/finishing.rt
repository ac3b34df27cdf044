//! Runs whose session has ended.
ghost use Rattle.std.specs.Prelude.{ℕ, ◌≡◌, ◌≤◌, List, length, reverse, IfOk, OnOk, IsOk, IsErrOf};
ghost use Rattle.qc_codec.specs.Bodies as body;
ghost use Rattle.qc_codec.specs.Fields.{current_format};
ghost use Rattle.qc_event.specs.Base.{IsProper};
ghost use Rattle.qc_event.specs.Legal.{Legal};
ghost use Rattle.qc_event.specs.Tables.{setting_of};
ghost use Rattle.qc_event.specs.declared.short.Short.TheVariants.{Room};
ghost use Rattle.qc_report.specs.LastValues.{values_by_version};
ghost use Rattle.qc_report.specs.Report.{has_doubt};
ghost use Rattle.qc_run.specs.Left as left;
ghost use Rattle.qc_run.specs.Run as terms;

use crate::io::{Sink, write_all};
use crate::status::{ROOM_LINE, Status};
use qc_audit::saved;
use qc_event::{Base, Short, Table, Val};
use qc_report::{History, finals, has_doubt, index_of, report, summary};
use qc_trail::Trail;
use std::alloc::{AllocError, Global};

/// What is written of a history: its report, the summary alone, or all of it, as it is saved.
#[derive(Clone, Copy)]
pub(crate) enum Form {
    Report,
    Summary,
    Trail,
}

// The last values of a history, by versions.
fn last_values(
    alloc: Global,
    table: &Table,
    start: &Base,
    history: &History<'_>,
) -> Result<Vec<Val>, AllocError>
    requires copies { length start.now ≤ 16 }
    requires records { length table.now.records ≤ 64 }
    ensures { IfOk result (λ values. values.items
        ≡ values_by_version start.now (reverse history.now) (length table.now.records)) }
{
    finals(alloc, start, history, table.records.as_slice().len())
}

// What is written of a history that has an index.
fn text_of(
    alloc: Global,
    form: Form,
    table: &Table,
    start: &Base,
    trail: &Trail,
    history: &History<'_>,
) -> Result<Vec<u8>, AllocError>
    requires same { history.now ≡ trail.now }
    requires legal { Legal (setting_of table.now start.now) (reverse trail.now) }
    requires proper { IsProper (setting_of table.now start.now) }
    requires spelled { (body.table current_format).fits table.now }
    requires as_many { length start.now ≡ table.now.copies }
    ensures text { IfOk result
        (λ text. text.items ≡ terms.text_by form table.now start.now trail.now) }
    ensures saved { OnOk result (left.IsSavedBy form table.now start.now trail.now) }
{
    match form {
        Form::Report => {
            let values = last_values(alloc, table, start, history)?;
            report(alloc, table, values.as_slice(), history)
        }
        Form::Summary => {
            let values = last_values(alloc, table, start, history)?;
            summary(alloc, table, values.as_slice(), history)
        }
        Form::Trail => saved(alloc, table, start, trail),
    }
}

/// A text, and whether a top is in doubt.
#[derive(Drop)]
struct Page {
    text: Vec<u8>,
    doubt: bool,
}

// What is written of a history.
fn page_of(
    alloc: Global,
    form: Form,
    table: &Table,
    start: &Base,
    trail: &Trail,
) -> Result<Page, AllocError>
    requires legal { Legal (setting_of table.now start.now) (reverse trail.now) }
    requires proper { IsProper (setting_of table.now start.now) }
    requires spelled { (body.table current_format).fits table.now }
    requires as_many { length start.now ≡ table.now.copies }
    ensures text { IfOk result
        (λ page. page.text.items ≡ terms.text_by form table.now start.now trail.now) }
    ensures saved { OnOk result (left.IsSavedBy form table.now start.now trail.now) }
    ensures doubt { IfOk result (λ page. page.doubt ≡ has_doubt trail.now) }
{
    let index = index_of(alloc, trail)?;
    let history = History::indexed(trail, &index);
    let text = text_of(alloc, form, table, start, trail, &history)?;
    let doubt = has_doubt(&history);
    Ok(Page { text, doubt })
}

// Writes of a session that ran to its end.
fn conclude<K: Sink>(
    alloc: Global,
    form: Form,
    table: &Table,
    start: &Base,
    trail: &Trail,
    sink: &mut K,
) -> Status
    requires legal { Legal (setting_of table.now start.now) (reverse trail.now) }
    requires proper { IsProper (setting_of table.now start.now) }
    requires spelled { (body.table current_format).fits table.now }
    requires as_many { length start.now ≡ table.now.copies }
    ensures answer { left.IsConcluded result }
    ensures saved { terms.IsReported result
        → left.IsSavedBy form table.now start.now trail.now }
    ensures wrote { left.Wrote (K.view sink.old) (K.view sink.new) result
        (terms.text_by form table.now start.now trail.now) }
    ensures doubt { left.TellsDoubt result trail.now }
{
    let Ok(page) = page_of(alloc, form, table, start, trail) else {
        return Status::Memory;
    };
    match write_all(sink, page.text.as_slice()) {
        Ok(()) if page.doubt => Status::InDoubt,
        Ok(()) => Status::Done,
        Err(_) => Status::WriteFault,
    }
}

// Ends a run that stopped since memory ran out or the history is full. To tell of the latter takes no
// memory.
fn halt<K: Sink>(short: Short, sink: &mut K) -> Status
    ensures answer { left.IsHalted short result }
    ensures wrote { (text : List ℕ)
        → left.Wrote (K.view sink.old) (K.view sink.new) result text }
{
    match short {
        Short::Memory => Status::Memory,
        Short::Room => {
            let _ = write_all(sink, ROOM_LINE);
            Status::Room
        }
    }
}

/// Writes of what a session left where it ran to its end, and else tells why it did not.
pub(crate) fn finish<K: Sink>(
    alloc: Global,
    form: Form,
    table: &Table,
    ran: Result<(), Short>,
    start: &Base,
    trail: &Trail,
    sink: &mut K,
) -> Status
    requires legal { Legal (setting_of table.now start.now) (reverse trail.now) }
    requires proper { IsProper (setting_of table.now start.now) }
    requires spelled { (body.table current_format).fits table.now }
    requires as_many { length start.now ≡ table.now.copies }
    ensures answer { left.IsPerformed result }
    ensures saved { terms.IsReported result
        → left.IsSavedBy form table.now start.now trail.now }
    ensures ran { terms.RanToEnd result → IsOk ran }
    ensures room { result ≡ Status.Room → IsErrOf ran Room }
    ensures doubt { left.TellsDoubt result trail.now }
    ensures wrote { left.Wrote (K.view sink.old) (K.view sink.new) result
        (terms.text_by form table.now start.now trail.now) }
{
    match ran {
        Ok(()) => conclude(alloc, form, table, start, trail, sink),
        Err(short) => halt(short, sink),
    }
}
