//! Audits of a trail that the source holds.
ghost use Rattle.std.specs.Prelude.{◌≡◌, ◌+◌, ◌≤◌, ◌++◌, IfOk, OnOk};
ghost use Rattle.std.specs.List.{flat_map};
ghost use Rattle.qc_io.specs.Io.{LosesWithin};
ghost use Rattle.qc_report.specs.Report.{record_name};
ghost use Rattle.qc_run.specs.Audit as words;
ghost use Rattle.qc_run.specs.Auditing as parts;
ghost use Rattle.qc_run.specs.Left as left;

use crate::io::{Sink, Source, Untaken, take_all, write_all};
use crate::ran::Ran;
use crate::refusing::{nothing, refuse, tell};
use crate::status::Status;
use qc_audit::{AuditNo, Verdict, audit};
use qc_event::Table;
use qc_report::{Page, push_value};
use qc_serial::SerialEvent;
use std::alloc::{AllocError, Global};

/// The most bytes of a saved trail.
const MOST_SAVED: usize = 1 << 24;

// Appends the name of a record, and nothing for a record beyond the table.
fn push_record(page: &mut Page, table: &Table, rec: u8) -> Result<(), AllocError>
    ensures { OnOk result (page.new ≡ page.old ++ record_name table.now rec) }
{
    match table.records.as_slice().get(usize::from(rec)) {
        Some(row) => page.push(row.name.as_bytes()),
        None => Ok(()),
    }
}

// Appends the line of an event.
fn push_event(page: &mut Page, table: &Table, event: &SerialEvent) -> Result<(), AllocError>
    ensures { OnOk result (page.new ≡ page.old ++ words.event_line table.now event.now) }
{
    match event {
        SerialEvent::Start(name) => write!(page, "start {name}\n"),
        SerialEvent::Enter(name) => write!(page, "enter {name}\n"),
        SerialEvent::Leave(name) => write!(page, "leave {name}\n"),
        SerialEvent::Skip(name) => write!(page, "skip {name}\n"),
        SerialEvent::Read { name, rec, value } => {
            write!(page, "read {name} ")?;
            push_record(page, table, *rec)?;
            write!(page, " ")?;
            push_value(page, value)?;
            write!(page, "\n")
        }
        SerialEvent::Write { name, rec, value } => {
            write!(page, "write {name} ")?;
            push_record(page, table, *rec)?;
            write!(page, " ")?;
            push_value(page, value)?;
            write!(page, "\n")
        }
    }
}

fn push_events(page: &mut Page, table: &Table, events: &[SerialEvent]) -> Result<(), AllocError>
    ensures { OnOk result
        (page.new ≡ page.old ++ flat_map (words.event_line table.now) events.now) }
{
    for event in events {
        push_event(page, table, event)?;
    }
    Ok(())
}

// What is written of a verdict.
fn text_of(alloc: Global, verdict: &Verdict) -> Result<Vec<u8>, AllocError>
    ensures { IfOk result (λ text. text.items ≡ words.verdict_text verdict.now) }
{
    let mut page = Page::new(alloc);
    match verdict {
        Verdict::Serial {
            table,
            entries,
            events,
        } => {
            let events = events.as_slice();
            let count = events.len();
            write!(page, "legal {entries}\n")?;
            push_events(&mut page, table, events)?;
            write!(page, "serial {count}\n")?;
        }
        Verdict::Illegal { entry } => write!(page, "illegal {entry}\n")?,
        Verdict::Unserial { place } => write!(page, "unserial {place}\n")?,
    }
    Ok(page.into_bytes())
}

fn status_of(verdict: &Verdict) -> Status
    ensures { result ≡ words.status_of verdict.now }
{
    match verdict {
        Verdict::Serial { .. } => Status::Done,
        Verdict::Illegal { entry } => Status::Illegal(*entry),
        Verdict::Unserial { place } => Status::Unserial(*place),
    }
}

// Writes of a verdict, and answers it; or that there was no memory for the text, or that the sink failed.
fn conclude<K: Sink>(alloc: Global, verdict: &Verdict, sink: &mut K) -> Status
    ensures { parts.Concluded (K.view sink.old) (K.view sink.new) verdict.now result }
{
    let Ok(text) = text_of(alloc, verdict) else {
        return Status::Memory;
    };
    match write_all(sink, text.as_slice()) {
        Ok(()) => status_of(verdict),
        Err(_) => Status::WriteFault,
    }
}

// Audits the trail that the bytes are, or refuses them.
fn over<K: Sink>(alloc: Global, bytes: Vec<u8>, sink: &mut K) -> Status
    ensures { parts.IsAuditOf (K.view sink.old) (K.view sink.new) bytes.items result }
{
    if bytes.len() > MOST_SAVED {
        return tell(alloc, Status::Trail, sink);
    }
    match audit(alloc, bytes.as_slice()) {
        Ok(verdict) => conclude(alloc, &verdict, sink),
        Err(AuditNo::Malformed) => tell(alloc, Status::Trail, sink),
        Err(AuditNo::Memory) => Status::Memory,
    }
}

/// Audits the trail that the source holds, and writes the verdict. It begins nothing, and obtains no disk.
pub(crate) fn audit_source<S: Source, K: Sink, D: Drop>(
    alloc: Global,
    source: &mut S,
    sink: &mut K,
) -> Ran<D>
    ensures audited { left.HasAudited (S.view source.old) (S.view source.new)
        (K.view sink.old) (K.view sink.new) result }
    ensures source_faults { (S.view source.old).faults ≤ (S.view source.new).faults }
    ensures source_within { LosesWithin (S.view source.old).left (S.view source.new).left
        (words.most_saved + 1) }
{
    match take_all(alloc, source, MOST_SAVED) {
        Ok(bytes) => {
            let status = over(alloc, bytes, sink);
            nothing(alloc, status, Vec::new(alloc))
        }
        Err(Untaken::Failed) => refuse(alloc, Status::ReadFault, Vec::new(alloc), sink),
        Err(Untaken::Memory) => nothing(alloc, Status::Memory, Vec::new(alloc)),
    }
}
