//! The bodies of a script, found by their numbers, and those that run at once.

use crate::deeds::Deed;
use crate::fault::Fault;
use qc_script::{Body, Script, Step};
use std::alloc::Global;

/// More bodies than a script's text has room for.
const MOST: usize = 1_048_576;

/// All bodies of a script, and the rows of those that run at once.
#[derive(Drop)]
pub(crate) struct Bodies<'s> {
    list: Vec<&'s Body>,
    rows: Vec<&'s [Body]>,
}

/// Whether a row of bodies has the one of this number.
pub(crate) fn has_body(row: &[Body], number: u32) -> bool {
    row.iter().any(|body| body.number == number)
}

impl<'s> Bodies<'s> {
    /// The bodies of a script's sessions, and of their steps.
    pub(crate) fn new(alloc: Global, script: &'s Script) -> Result<Self, Fault> {
        let mut bodies = Bodies {
            list: Vec::new(alloc),
            rows: Vec::new(alloc),
        };
        for session in script.sessions.as_slice() {
            bodies.add_all(session.tops.as_slice())?;
        }
        for place in 0..MOST {
            let Some(body) = bodies.list.get(place).copied() else {
                break;
            };
            bodies.add_below(body)?;
        }
        Ok(bodies)
    }

    fn add_all(&mut self, bodies: &'s [Body]) -> Result<(), Fault> {
        for body in bodies {
            self.list.push(body)?;
        }
        Ok(())
    }

    // The bodies that the steps of one run.
    fn add_below(&mut self, body: &'s Body) -> Result<(), Fault> {
        for step in body.steps.as_slice() {
            match step {
                Step::Child(child) => self.list.push(child)?,
                Step::Par(row) => {
                    self.rows.push(row.as_slice())?;
                    self.add_all(row.as_slice())?;
                }
                _ => {}
            }
        }
        Ok(())
    }

    /// The body that a user transaction runs.
    pub(crate) fn of_deed(&self, deed: &Deed) -> Option<&'s Body> {
        let (_, number) = deed.body()?;
        self.list.iter().copied().find(|body| body.number == number)
    }

    /// The bodies that run at once with that of a user transaction, and it too; none where it runs
    /// alone.
    pub(crate) fn row_of(&self, deed: &Deed) -> Option<&'s [Body]> {
        let (_, number) = deed.body()?;
        self.rows.iter().copied().find(|row| has_body(row, number))
    }
}
