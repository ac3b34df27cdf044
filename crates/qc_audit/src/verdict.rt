//! The verdict on a saved trail.
ghost use Rattle.std.specs.Prelude.{◌≡◌, ◌^◌, ◌≤◌, [], IfErr, IfOk, IsErrOf, OnOk, length, reverse};
ghost use Rattle.qc_event.specs.declared.table.Table as tables;
ghost use Rattle.qc_event.specs.Base.{IsProper};
ghost use Rattle.qc_event.specs.History.{limit};
ghost use Rattle.qc_event.specs.Legal.{Legal};
ghost use Rattle.qc_event.specs.Tables.{setting_of};
ghost use Rattle.qc_report.specs.LastValues.{values_by_version};
ghost use Rattle.qc_serial.specs.Walk.{walk};
ghost use Rattle.qc_trail_codec.specs.declared.record.SavedTrail as trails;
ghost use Rattle.qc_audit.specs.Illegal.{StopsAt};
ghost use Rattle.qc_audit.specs.Saved.{IsSaved};
ghost use Rattle.qc_audit.specs.Verdicts.{IsTrueOf, Judges, no_of};
ghost use Rattle.qc_audit.specs.declared.verdict.AuditNo.TheVariants as audit_no;

use crate::events::Events;
use crate::illegal::{Stop, firsts_of, look_through};
use crate::reading::{Saved, read_saved};
use crate::walks::serial_order;
use qc_codec::CodecNo;
use qc_config::Val;
use qc_event::{Base, Config, Entry, Table};
use qc_report::{History, finals};
use qc_serial::first_unfound;
use qc_trail_codec::SavedTrail;
use std::alloc::{AllocError, Global};
use thiserror::Error;

/// What an audit finds of a saved trail.
#[derive(Debug, Drop)]
pub enum Verdict {
    /// The entries are a legal history, so many, and the serial machine accepts their order, which is these events.
    Serial {
        table: Table,
        entries: u64,
        events: Events,
    },
    /// The entry at this place, counted from 0, is the first that those before it do not allow.
    Illegal {
        entry: u64,
    },
    /// The entries are a legal history, and the event at this place, counted from 0, is the first of their order that
    /// the serial machine refuses.
    Unserial {
        place: u64,
    },
}

/// Why there is no verdict.
#[derive(Clone, Copy, PartialEq, Eq, Debug, Error)]
pub enum AuditNo {
    /// The bytes are no saved trail.
    #[error("the bytes are no saved trail")]
    Malformed,
    /// There was no memory. It says nothing of the bytes.
    #[error("no memory")]
    Memory,
}

impl From<AllocError> for AuditNo {
    ghost from_gives = { λ _ e. e ≡ audit_no.Memory };

    fn from(_: AllocError) -> Self {
        AuditNo::Memory
    }
}

impl From<CodecNo> for AuditNo {
    ghost from_gives = { λ fault e. e ≡ no_of fault };

    fn from(fault: CodecNo) -> Self {
        match fault {
            CodecNo::Bad => AuditNo::Malformed,
            CodecNo::Memory => AuditNo::Memory,
        }
    }
}

// The serial order of a trail, where it is legal.
fn order_in(alloc: Global, base: &Base, firsts: &[Config], trail: &[Entry]) -> Result<Events, Stop>
    requires proper { IsProper (record { firsts = firsts.now; base = base.now }) }
    requires few { length trail.now ≤ limit }
    ensures order { IfOk result (λ events. events ≡ walk (reverse trail.now) []) }
    ensures legal { OnOk result
        (Legal (record { firsts = firsts.now; base = base.now }) (reverse trail.now)) }
    ensures stop { IfErr result
        (StopsAt (record { firsts = firsts.now; base = base.now }) trail.now) }
{
    let known = look_through(alloc, base, firsts, trail)?;
    Ok(serial_order(alloc, &known, trail)?)
}

// The values with which the serial machine begins.
fn starts_of(alloc: Global, base: &Base, records: usize) -> Result<Vec<Val>, AllocError>
    requires copies { length base.now ≤ 16 }
    requires records { records ≤ 64 }
    ensures { IfOk result (λ values. values.items ≡ values_by_version base.now [] records) }
{
    let none = qc_trail::Trail::new(alloc);
    finals(alloc, base, &History::plain(&none), records)
}

fn judge(alloc: Global, table: Table, trail: &SavedTrail) -> Result<Verdict, AllocError>
    requires proper { IsProper (setting_of table trail.now.base) }
    requires few { length trail.now.entries ≤ limit }
    ensures { IfOk result (IsTrueOf table trail.now) }
{
    let entries = trail.entries.as_slice();
    let firsts = firsts_of(alloc, &table)?;
    let events = match order_in(alloc, &trail.base, firsts.as_slice(), entries) {
        Ok(events) => events,
        Err(Stop::Illegal(entry)) => return Ok(Verdict::Illegal { entry }),
        Err(Stop::Memory) => return Err(AllocError),
    };
    let starts = starts_of(alloc, &trail.base, table.records.as_slice().len())?;
    match first_unfound(alloc, starts.as_slice(), events.as_slice())? {
        Some(place) => Ok(Verdict::Unserial {
            place: place as u64,
        }),
        None => Ok(Verdict::Serial {
            table,
            entries: entries.len() as u64,
            events,
        }),
    }
}

/// The verdict on the saved trail that the bytes are. Malformed comes exactly where they are none, unless there was no
/// memory.
pub fn audit(alloc: Global, bytes: &[u8]) -> Result<Verdict, AuditNo>
    requires { length bytes.now ≤ 2 ^ 24 }
    ensures judged { IfOk result (Judges bytes.now) }
    ensures malformed { IsErrOf result audit_no.Malformed →
        (table : tables.Table) (trail : trails.SavedTrail) → IsSaved table trail bytes.now → ⊥ }
{
    let Saved { table, trail } = read_saved(alloc, bytes)?;
    Ok(judge(alloc, table, &trail)?)
}
