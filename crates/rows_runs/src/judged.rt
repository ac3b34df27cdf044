//! Runs of scripts made from random numbers, before the checker of histories, the audit of their saved trails, and the judge
//! of what follows a script.

use crate::command::{passes_audit, save_trail};
use qc_check::check_by_scans;
use qc_config::Config;
use qc_disk::MemDisk;
use qc_event::{Cause, Entry, Event, How};
use qc_run::{Gate, Ran, Status};
use qc_script::Script;
use rows_judge::{Fault, judge};
use std::alloc::{AllocError, Global};
use std::sync::Wait;
use std::thread::Threads;

/// A script, what came of its run to its end, the entries of its history, and the saved trail.
#[derive(Drop)]
pub struct Judged {
    script: Script,
    ran: Ran<MemDisk>,
    pub entries: Vec<Entry>,
    saved: Vec<u8>,
}

/// Runs a script to its end; nothing where the text is none, or the run ends before.
pub fn run_script<R: Threads + Wait + Sync, G: Gate + Sync>(
    handle: &R,
    alloc: Global,
    options: &str,
    text: &str,
    gate: &G,
) -> Result<Option<Judged>, AllocError> {
    let Ok(script) = Script::read(alloc, text.as_bytes()) else {
        return Ok(None);
    };
    let outcome = save_trail(handle, alloc, options, text, gate)?;
    let saved = outcome.sink.bytes().to_vec(alloc)?;
    let ran = outcome.ran;
    let entries = ran.trail.to_vec(alloc)?;
    Ok(match ran.status {
        Status::Done => Some(Judged {
            script,
            ran,
            entries,
            saved,
        }),
        _ => None,
    })
}

// The first configurations of a script's records.
fn firsts_of(alloc: Global, script: &Script) -> Result<Vec<Config>, AllocError> {
    let mut firsts = Vec::new(alloc);
    for row in script.table.records.as_slice() {
        firsts.push(row.config)?;
    }
    Ok(firsts)
}

/// Whether a transaction of a history was killed.
pub fn has_killed(entries: &[Entry]) -> bool {
    entries.iter().any(|entry| {
        matches!(
            entry.event,
            Event::End {
                how: How::Abort(Cause::Killed),
                ..
            }
        )
    })
}

impl Judged {
    /// The trail that it saved.
    pub fn saved(&self) -> &[u8] {
        self.saved.as_slice()
    }

    /// The disks that it left.
    pub fn disks(&self) -> &[MemDisk] {
        self.ran.disks.as_slice()
    }

    /// Whether the history is legal.
    pub fn is_legal(&self, alloc: Global) -> Result<bool, AllocError> {
        let firsts = firsts_of(alloc, &self.script)?;
        let entries = self.entries.as_slice();
        Ok(check_by_scans(&self.ran.start, firsts.as_slice(), entries).is_ok())
    }

    /// Whether its saved trail is audited as legal, and as accepted by the serial machine.
    pub fn passes_audit<R: Threads + Wait + Sync>(
        &self,
        handle: &R,
        alloc: Global,
    ) -> Result<bool, AllocError> {
        passes_audit(handle, alloc, self.saved.as_slice())
    }

    /// The fault that the judge finds in a trail of the script.
    pub fn fault_of(&self, alloc: Global, trail: &[Entry]) -> Option<Fault> {
        judge(alloc, &self.script, trail).err()
    }

    /// The fault that the judge finds in its own trail.
    pub fn fault(&self, alloc: Global) -> Option<Fault> {
        self.fault_of(alloc, self.entries.as_slice())
    }

    /// Whether a transaction of it was killed.
    pub fn has_killed(&self) -> bool {
        has_killed(self.entries.as_slice())
    }
}
