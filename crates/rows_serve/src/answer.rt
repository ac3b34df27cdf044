//! What was answered, as text.

use qc_codec::{BaseRecord, FORMAT, read_base, read_grant};
use qc_event::{Answered, Entry, Event, Grant, Op, Short};
use qc_journal::Body;
use qc_pair::PairNo;
use qc_site::Strange;
use rows_kit::said;
use std::alloc::{AllocError, Global};

/// A line: what was to be done, and what was answered.
pub(crate) fn told(alloc: Global, step: &str, answer: &str) -> Result<String, AllocError> {
    format!(in alloc; "{step}: {answer}")
}

/// What a copy answered a request.
pub(crate) fn served(
    alloc: Global,
    answer: &Result<Answered, Short>,
) -> Result<String, AllocError> {
    match answer {
        Ok(Answered::Granted(tuple)) => {
            let (value, version) = (tuple.value, tuple.version);
            format!(in alloc; "granted {value:?} v{version}")
        }
        Ok(Answered::Blocked(holder)) => format!(in alloc; "blocked by {holder}"),
        Ok(Answered::Dead(ancestor)) => format!(in alloc; "dead below {ancestor}"),
        Ok(Answered::Down) => said(alloc, "unable, down"),
        Ok(Answered::Full) => said(alloc, "unable, full"),
        Ok(Answered::Strange) => said(alloc, "unable, strange"),
        Err(short) => short.to_string(alloc),
    }
}

// A grant: its access, what that did, and the value and version that stand then.
fn grant(alloc: Global, grant: &Grant) -> Result<String, AllocError> {
    let did = match grant.op {
        Op::Get => "got",
        Op::PutData { .. } => "put",
        Op::PutConfig { .. } => "moved",
    };
    let (access, tuple) = (&grant.access, &grant.tuple);
    let (value, version) = (tuple.value, tuple.version);
    format!(in alloc; ", {access} {did} {value:?} v{version}")
}

// The access of a grant; none is a stroke.
fn access(alloc: Global, grant: &Option<Grant>) -> Result<String, AllocError> {
    match grant {
        Some(grant) => grant.access.to_string(alloc),
        None => said(alloc, "-"),
    }
}

// At which record the disk differs from the history, and both accesses.
fn differs(
    alloc: Global,
    index: u64,
    disk: &Option<Grant>,
    desk: &Option<Grant>,
) -> Result<String, AllocError> {
    let disk = access(alloc, disk)?;
    let desk = access(alloc, desk)?;
    format!(in alloc; "at {index} the disk has {disk} and the history {desk}")
}

/// Why a site is strange.
pub(crate) fn strange(alloc: Global, why: &Strange) -> Result<String, AllocError> {
    match why {
        Strange::Broken { place } => format!(in alloc; "broken at {place}"),
        Strange::Grammar { index } => format!(in alloc; "record {index} is no grant"),
        Strange::Short { records, old } => {
            format!(in alloc; "{records} records where {old} were")
        }
        Strange::Differs { index, disk, desk } => differs(alloc, *index, disk, desk),
    }
}

// A base: its number, its epoch, and its tuples.
fn base(alloc: Global, base: &BaseRecord) -> Result<String, AllocError> {
    let (number, epoch) = (base.number, base.epoch);
    let mut text = format!(in alloc; ", base {number} of epoch {epoch}:")?;
    for tuple in base.tuples.as_slice() {
        let (value, version) = (tuple.value, tuple.version);
        let one = format!(in alloc; " {value:?} v{version}")?;
        text.push_str(one.as_str())?;
    }
    Ok(text)
}

// A record behind the first.
fn record(alloc: Global, body: &[u8]) -> Result<String, AllocError> {
    if let Ok(found) = read_base(alloc, body, 1, 2, FORMAT) {
        return base(alloc, &found);
    }
    match read_grant(body, 1, FORMAT) {
        Ok(found) => grant(alloc, &found),
        Err(_) => said(alloc, ", no grant"),
    }
}

/// Why a disk beside an empty spare is not mounted. It alone may fail.
pub(crate) fn refused(alloc: Global, no: &PairNo) -> Result<String, AllocError> {
    match no {
        PairNo::Disk(_) => said(alloc, "the disk failed"),
        PairNo::Image(_) | PairNo::Memory => no.to_string(alloc),
    }
}

/// Which disk is active, where there are two, before what else is told.
pub(crate) fn active(alloc: Global, disk: Option<u8>) -> Result<String, AllocError> {
    match disk {
        Some(disk) => format!(in alloc; "disk {disk} active, "),
        None => said(alloc, ""),
    }
}

/// The records of a copy: how it was made, its base, where it has one, and its grants.
pub(crate) fn records(alloc: Global, bodies: &[Body]) -> Result<String, AllocError> {
    let mut text = bodies.len().to_string(alloc)?;
    text.push_str(" records, made")?;
    for body in bodies.get(1..).unwrap_or(&[]) {
        text.push_str(record(alloc, body)?.as_str())?;
    }
    Ok(text)
}

fn is_granted(entry: &Entry) -> bool {
    matches!(entry.event, Event::Granted { .. })
}

fn is_refused(entry: &Entry) -> bool {
    matches!(entry.event, Event::Refused { .. })
}

fn is_unable(entry: &Entry) -> bool {
    matches!(entry.event, Event::Unable { .. })
}

// How many grants there are, refusals and words of being unable.
fn counts(alloc: Global, entries: &[Entry]) -> Result<String, AllocError> {
    let granted = entries.iter().filter(|entry| is_granted(entry)).count();
    let refused = entries.iter().filter(|entry| is_refused(entry)).count();
    let unable = entries.iter().filter(|entry| is_unable(entry)).count();
    format!(in alloc; "history: {granted} granted, {refused} refused, {unable} unable")
}

/// What copies did in a history: how many grants there are, refusals and words of being unable, and each grant.
pub(crate) fn history(alloc: Global, entries: &[Entry]) -> Result<String, AllocError> {
    let mut text = counts(alloc, entries)?;
    for entry in entries {
        if let Event::Granted { grant: given, .. } = &entry.event {
            text.push_str(grant(alloc, given)?.as_str())?;
        }
    }
    Ok(text)
}
