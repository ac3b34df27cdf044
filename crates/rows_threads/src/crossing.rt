//! Disks at which two sessions, or two branches, meet.

use crate::meeting::Meeting;
use qc_run::Gate;
use rows_watched::Watch;
use std::sync::atomic::{AtomicBool, Ordering};

/// Where the first writes at the first two copies meet, once a session has passed.
#[derive(Drop)]
pub(crate) struct Crossing {
    begun: AtomicBool,
    meeting: Meeting,
    second_waits: bool,
}

impl Crossing {
    /// No session has passed. Where the second waits, it passes only once a write at the first copy waits for its own.
    pub(crate) fn new(second_waits: bool) -> Self {
        Crossing {
            begun: AtomicBool::new(false),
            meeting: Meeting::new(),
            second_waits,
        }
    }

    /// How many of the two writes saw the other.
    pub(crate) fn met(&self) -> &'static str {
        self.meeting.met()
    }
}

impl Gate for Crossing {
    fn starts(&self, session: u8) {
        self.begun.store(true, Ordering::SeqCst);
        if self.second_waits && session == 1 {
            self.meeting.wait_for_the_first();
        }
    }
}

impl Watch for Crossing {
    // Disk 0 is the ledger's; behind it come those of the copies, and from 17 on spares, at which no one meets.
    fn write(&self, which: u8) {
        if self.begun.load(Ordering::SeqCst) && which > 0 {
            self.meeting.come(which - 1);
        }
    }

    fn sync(&self, _which: u8) {}
}
