//! The gate that lets one pass at a time.

use crate::table::{BELLS, Table};
use qc_gate::{Gate, Walker};
use std::alloc::{AllocError, Global};
use std::sync::{Condvar, Mutex, MutexGuard, Wait};
use std::time::Duration;

/// How many milliseconds one waits at once for those who are to come, and how often before it gives up.
const A_WHILE: u64 = 100;

const OFTEN: u32 = 100;

/// A gate that lets one pass at a time: who is next is chosen by a seed among those who wait, once all wait who are to come
/// or go. Who waits sleeps until its bell is rung.
#[derive(Drop)]
pub struct Turns<'a, R> {
    rt: &'a R,
    table: Mutex<Table>,
    bells: Vec<Condvar>,
}

impl<'a, R: Wait> Turns<'a, R> {
    /// The gate of this seed, for one run.
    pub fn new(rt: &'a R, alloc: Global, seed: u64) -> Result<Self, AllocError> {
        let mut bells = Vec::with_capacity(alloc, BELLS)?;
        for _ in 0..BELLS {
            bells.push(Condvar::new())?;
        }
        Ok(Turns {
            rt,
            table: Mutex::new(Table::new(alloc, seed)),
            bells,
        })
    }

    // Rings the bell of who is next.
    fn call(&self, table: &mut Table) {
        if let Some(bell) = table.choose().and_then(|bell| self.bells.get(bell)) {
            bell.notify_all();
        }
    }

    // Waits a while for those who are to come, and gives them up where none did.
    fn await_others<'b>(
        &'b self,
        table: MutexGuard<'b, Table>,
        bell: &Condvar,
    ) -> MutexGuard<'b, Table> {
        let came = table.came();
        let often = if table.missed() { 1 } else { OFTEN };
        let mut table = table;
        for _ in 0..often {
            let seen = bell.notifications();
            drop(table);
            bell.sleep(self.rt, seen, Duration::from_millis(A_WHILE));
            table = self.table.lock(self.rt);
            if !table.lacks() || table.came() != came {
                return table;
            }
        }
        table.give_up();
        self.call(&mut table);
        table
    }

    // One who is told of comes, and sleeps until it is chosen.
    fn take_turn(&self, who: &Walker) {
        let mut table = self.table.lock(self.rt);
        let Some(bell) = table.come(who).and_then(|bell| self.bells.get(bell)) else {
            return;
        };
        self.call(&mut table);
        for _ in self.rt.forever() {
            if table.goes(who) {
                return;
            }
            table = if table.lacks() {
                self.await_others(table, bell)
            } else {
                bell.wait(self.rt, table)
            };
        }
    }
}

impl<'a, R: Wait> Gate for Turns<'a, R> {
    fn opens(&self, sessions: u8) {
        let mut table = self.table.lock(self.rt);
        for session in 0..sessions {
            table.tell(Walker::session(session), None);
        }
    }

    fn pass(&self, who: &Walker) {
        self.take_turn(who);
    }

    fn expects(&self, who: &Walker, branch: &Walker) {
        self.table.lock(self.rt).expect(who, *branch);
    }

    fn returns(&self, who: &Walker, branch: &Walker) {
        let mut table = self.table.lock(self.rt);
        table.forget(branch);
        if table.goes(who) {
            return;
        }
        drop(table);
        self.take_turn(who);
    }

    fn ends(&self, who: &Walker) {
        let mut table = self.table.lock(self.rt);
        table.forget(who);
        self.call(&mut table);
    }
}
