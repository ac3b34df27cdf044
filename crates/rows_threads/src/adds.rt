//! Sessions that add to one record.

use qc_disk::{MemDisk, MemShop};
use qc_event::{Entry, Event};
use qc_run::NoGate;
use rows_runs::{Outcome, Text, run_text};
use std::alloc::{AllocError, Global};
use std::collections::BTreeSet;
use std::sync::Wait;
use std::thread::Threads;

/// A record at three copies, up to the sessions.
const RECORD: &str = r#"{"copies":3,"records":[
{"name":"x","start":0,"config":{"votes":[1,1,1],"read":2,"write":2}}],"sessions":["#;

/// A session that adds three times.
const SESSION: &str = r#"{"tops":[
{"tries":16,"steps":[["add","x",1]]},
{"tries":16,"steps":[["add","x",1]]},
{"tries":16,"steps":[["add","x",1]]}]}"#;

/// A script of so many sessions.
pub(crate) fn script_of(alloc: Global, sessions: u64) -> Result<String, AllocError> {
    let mut text = Text::new(alloc);
    text.add(RECORD);
    for number in 0..sessions {
        if number > 0 {
            text.add(",");
        }
        text.add(SESSION);
    }
    text.add("]}");
    text.whole()
}

/// The number that stands in a report behind these words.
pub(crate) fn number_behind(text: &str, words: &str) -> Option<u64> {
    let (_, rest) = text.rsplit_once(words)?;
    rest.split_ascii_whitespace().next()?.parse::<u64>().ok()
}

/// Whether a run ended well, and the last value is as great as the number of tops that were committed.
pub(crate) fn agrees(outcome: &Outcome<MemDisk>) -> bool {
    let Ok(text) = std::str::from_utf8(outcome.sink.bytes()) else {
        return false;
    };
    match number_behind(text, "\nfinal x ") {
        Some(last) => {
            outcome.ran.status.code() == 0 && number_behind(text, " committed ") == Some(last)
        }
        None => false,
    }
}

// Whether no access was refused twice, or its copy unable to serve it: each request of these sessions is delivered once.
fn is_refused_once(alloc: Global, entries: &[Entry]) -> Result<bool, AllocError> {
    let mut refused = BTreeSet::new(alloc);
    for entry in entries {
        let access = match &entry.event {
            Event::Refused { access, .. } => Some(*access),
            Event::Unable { name, .. } => Some(*name),
            _ => None,
        };
        let Some(access) = access else {
            continue;
        };
        if !refused.insert(access)? {
            return Ok(false);
        }
    }
    Ok(true)
}

/// How many of so many runs of so many sessions agree, with no request served twice.
pub(crate) fn count_agreed<R: Threads + Wait + Sync>(
    handle: &R,
    alloc: Global,
    sessions: u64,
    runs: u64,
) -> Result<u64, AllocError> {
    let script = script_of(alloc, sessions)?;
    let mut agreed: u64 = 0;
    for _ in 0..runs {
        let mut shop = MemShop::new(Vec::new(alloc), Vec::new(alloc));
        let outcome = run_text(handle, alloc, "", script.as_str(), &mut shop, &NoGate)?;
        let entries = outcome.ran.trail.to_vec(alloc)?;
        if agrees(&outcome) && is_refused_once(alloc, entries.as_slice())? {
            agreed = agreed.saturating_add(1);
        }
    }
    Ok(agreed)
}
