//! The tops of a session.

use crate::deeds::{Deed, Told, top_number};
use crate::fault::Fault;
use qc_script::{Body, Script};

// Which body of a session is due, how often it was tried, and the top before.
#[derive(Drop)]
struct Due<'s> {
    bodies: &'s [Body],
    place: usize,
    used: u32,
    last: Option<Deed>,
}

impl Due<'_> {
    // The top before, where it is to be tried again.
    fn again(&self) -> Option<Deed> {
        let last = self.last?;
        let body = self.bodies.get(self.place)?;
        if self.used < body.tries && last.is_tried_again() {
            Some(last)
        } else {
            None
        }
    }

    // Goes on to the next body, where the top before is not to be tried again.
    fn pass(&mut self) {
        if self.last.is_some() && self.again().is_none() {
            self.place = self.place.saturating_add(1);
            self.used = 0;
            self.last = None;
        }
    }

    // Whether the top before was over when one started.
    fn is_over_by(&self, start: usize) -> bool {
        match &self.last {
            Some(last) => last.is_over_by(start),
            None => true,
        }
    }

    fn last_body(&self) -> Option<(u8, u32)> {
        match &self.last {
            Some(last) => last.body(),
            None => None,
        }
    }

    fn misfit(&self, top: &Deed, before: Option<(u8, u32)>) -> Fault {
        match self.again() {
            Some(last) => Fault::Untried(last.name),
            None if before.is_some() && before == top.body() => Fault::Again(top.name),
            None => Fault::Other(top.name),
        }
    }

    fn take(&mut self, top: &Deed, number: u32) -> Result<(), Fault> {
        if !self.is_over_by(top.start) {
            return Err(Fault::Before(top.name));
        }
        let before = self.last_body();
        self.pass();
        match self.bodies.get(self.place) {
            Some(body) if body.number == number => {
                self.used = self.used.saturating_add(1);
                self.last = Some(*top);
                Ok(())
            }
            _ => Err(self.misfit(top, before)),
        }
    }

    fn finish(&mut self, session: usize) -> Result<(), Fault> {
        self.pass();
        match self.again() {
            Some(last) => Err(Fault::Untried(last.name)),
            None if self.place < self.bodies.len() => Err(Fault::Missing(session)),
            None => Ok(()),
        }
    }
}

fn check_session(told: &Told, session: usize, bodies: &[Body]) -> Result<(), Fault> {
    let mut due = Due {
        bodies,
        place: 0,
        used: 0,
        last: None,
    };
    for top in told.deeds.iter() {
        if top.is_top() {
            if let Some((of, number)) = top.body() {
                if of as usize == session {
                    due.take(top, number)?;
                }
            }
        }
    }
    due.finish(session)
}

// Tops are numbered from 1 on in one epoch, whatever their sessions.
fn check_numbers(told: &Told) -> Result<(), Fault> {
    let mut before: Option<u64> = None;
    for top in told.deeds.iter() {
        if top.is_top() {
            let number = top_number(&top.name);
            let fits = match before {
                None => number % 0x1_0000_0000 == 1,
                Some(before) => number == before.wrapping_add(1),
            };
            if !fits {
                return Err(Fault::Number(top.name));
            }
            before = Some(number);
        }
    }
    Ok(())
}

/// That the tops are numbered in order, and that those of each session are tries of its bodies, in order, each after the
/// one before was over.
pub(crate) fn check_tops(told: &Told, script: &Script) -> Result<(), Fault> {
    check_numbers(told)?;
    let sessions = script.sessions.as_slice();
    for (session, row) in sessions.iter().enumerate() {
        check_session(told, session, row.tops.as_slice())?;
    }
    for top in told.deeds.iter() {
        if let Some((session, _)) = top.body() {
            if session as usize >= sessions.len() {
                return Err(Fault::Other(top.name));
            }
        }
    }
    Ok(())
}
