//! A place where two threads meet.

use qc_run::Gate;
use std::sync::atomic::{AtomicBool, Ordering};
use std::{fmt, thread};

/// How many turns one waits for the other.
const TURNS: u32 = 1_000_000;

/// Which of two has come and not given up, and which saw that the other had come.
#[derive(Drop)]
pub(crate) struct Meeting {
    came: [AtomicBool; 2],
    saw: [AtomicBool; 2],
}

impl Meeting {
    /// Nobody has come.
    pub(crate) fn new() -> Self {
        Meeting {
            came: [AtomicBool::new(false), AtomicBool::new(false)],
            saw: [AtomicBool::new(false), AtomicBool::new(false)],
        }
    }

    /// One of the two comes. The first time it waits until the other has come, or gives up.
    pub(crate) fn come(&self, one: u8) {
        let (one, other) = match one {
            0 => (0, 1),
            1 => (1, 0),
            _ => return,
        };
        if self.came[one].swap(true, Ordering::SeqCst) || self.saw[one].load(Ordering::SeqCst) {
            return;
        }
        for _ in 0..TURNS {
            if self.came[other].load(Ordering::SeqCst) {
                self.saw[one].store(true, Ordering::SeqCst);
                return;
            }
            thread::yield_now();
        }
        self.came[one].store(false, Ordering::SeqCst);
    }

    /// Waits until the first of the two has come, or gives up.
    pub(crate) fn wait_for_the_first(&self) {
        for _ in 0..TURNS {
            if self.came[0].load(Ordering::SeqCst) {
                return;
            }
            thread::yield_now();
        }
    }

    /// How many of the two saw the other.
    pub(crate) fn met(&self) -> &'static str {
        let first = self.saw[0].load(Ordering::SeqCst);
        let second = self.saw[1].load(Ordering::SeqCst);
        match (first, second) {
            (true, true) => "both saw the other",
            (false, false) => "neither saw the other",
            _ => "one saw the other",
        }
    }
}

impl Gate for Meeting {
    fn starts(&self, session: u8) {
        self.come(session);
    }
}
