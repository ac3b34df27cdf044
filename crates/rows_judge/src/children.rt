//! The children and the marks of a transaction, one after another.

use crate::causes::same_config;
use crate::deeds::{Deed, Told, number_below};
use crate::fault::Fault;
use crate::halt::Halt;
use crate::marks::is_marked_by_itself;
use qc_event::{Kind, Name, Val};
use qc_script::Body;

/// Which child of a transaction is next, how many of its marks came before, and where it did its last.
#[derive(Clone, Copy)]
pub(crate) struct Children<'t> {
    told: &'t Told,
    of: &'t Deed,
    next: u64,
    marks: usize,
    since: usize,
    step: usize,
}

/// A try of a child: whether it committed, and whether its body is to be tried again where tries are left.
#[derive(Clone, Copy)]
pub(crate) struct Tried {
    pub(crate) name: Name,
    pub(crate) committed: bool,
    pub(crate) again: bool,
}

fn same_kind(one: &Kind, other: &Kind) -> bool {
    match (one, other) {
        (Kind::Read { rec }, Kind::Read { rec: another }) => rec == another,
        (
            Kind::Write { rec, value },
            Kind::Write {
                rec: another,
                value: written,
            },
        ) => rec == another && value == written,
        (
            Kind::Reconf { rec, config },
            Kind::Reconf {
                rec: another,
                config: given,
            },
        ) => rec == another && same_config(config, given),
        _ => false,
    }
}

/// Whether the children of a transaction are numbered from 1 in the order of their starts.
pub(crate) fn check_numbers(told: &Told, of: &Name) -> Result<(), Fault> {
    let mut due: u64 = 1;
    for deed in told.deeds.iter() {
        if let Some(number) = number_below(of, &deed.name) {
            if number != due {
                return Err(Fault::Number(deed.name));
            }
            due = due.wrapping_add(1);
        }
    }
    Ok(())
}

impl<'t> Children<'t> {
    /// The children of one that has done nothing.
    pub(crate) fn new(told: &'t Told, of: &'t Deed) -> Self {
        Children {
            told,
            of,
            next: 1,
            marks: 0,
            since: of.start,
            step: 0,
        }
    }

    /// Whose children they are.
    pub(crate) fn of(&self) -> &'t Deed {
        self.of
    }

    /// What is told of them.
    pub(crate) fn told(&self) -> &'t Told {
        self.told
    }

    /// Goes on to a step.
    pub(crate) fn begin(&mut self, step: usize) {
        self.step = step;
    }

    /// That the step asks for something, and was not begun.
    pub(crate) fn not_begun(&self) -> Halt {
        Halt::NotBegun { step: self.step }
    }

    /// That the step asks that an ancestor be aborted.
    pub(crate) fn asks(&self, levels: u8) -> Halt {
        Halt::Asks {
            step: self.step,
            levels,
        }
    }

    fn next(&self) -> Option<&'t Deed> {
        self.told.child(&self.of.name, self.next)
    }

    // Whether a child is of the body of the one before it.
    fn is_further_try(&self, child: &Deed) -> bool {
        match self.told.child(&self.of.name, self.next.wrapping_sub(1)) {
            Some(before) => child.body().is_some() && child.body() == before.body(),
            None => false,
        }
    }

    // The fault of a child that is not what is due.
    fn misfit(&self, child: &Deed, fault: Fault) -> Fault {
        if self.is_further_try(child) {
            Fault::Again(child.name)
        } else {
            fault
        }
    }

    // The next child starts behind what was done before. Where it ended is told.
    fn pass(&mut self, child: &Deed) -> Result<usize, Fault> {
        let Some(end) = child.end else {
            return Err(Fault::Open(child.name));
        };
        if child.start < self.since {
            return Err(Fault::Turn(self.of.name));
        }
        self.next = self.next.wrapping_add(1);
        Ok(end.at)
    }

    fn take(&mut self, child: &Deed) -> Result<(), Fault> {
        self.since = self.pass(child)?;
        Ok(())
    }

    // The next child, which is a try of this body; nothing where there is no further child.
    fn next_try(&self, body: u32) -> Result<Option<&'t Deed>, Fault> {
        let Some(child) = self.next() else {
            return Ok(None);
        };
        let Some((session, _)) = self.of.body() else {
            return Err(Fault::Other(self.of.name));
        };
        if child.body() != Some((session, body)) {
            return Err(self.misfit(child, Fault::Other(child.name)));
        }
        Ok(Some(child))
    }

    /// What the next child read, which is a manager of this kind, or why the step does not go on: this, where there is no
    /// further child.
    pub(crate) fn take_manager(
        &mut self,
        kind: &Kind,
        missing: Halt,
    ) -> Result<Result<Option<Val>, Halt>, Fault> {
        let Some(child) = self.next() else {
            return Ok(Err(missing));
        };
        if !same_kind(kind, &child.kind) {
            return Err(self.misfit(child, Fault::Other(child.name)));
        }
        self.take(child)?;
        Ok(if child.is_aborted() {
            Err(Halt::Refused(child.name))
        } else {
            Ok(child.value())
        })
    }

    /// The next child, which is a try of this body; nothing where there is no further child.
    pub(crate) fn take_try(&mut self, body: u32) -> Result<Option<Tried>, Fault> {
        let Some(child) = self.next_try(body)? else {
            return Ok(None);
        };
        self.take(child)?;
        Ok(Some(Tried {
            name: child.name,
            committed: !child.is_aborted(),
            again: child.is_tried_again(),
        }))
    }

    /// Whether the next child, which is the first try of this body among branches, was begun.
    pub(crate) fn take_first(&mut self, body: u32) -> Result<bool, Fault> {
        let Some(child) = self.next_try(body)? else {
            return Ok(false);
        };
        self.pass(child)?;
        Ok(true)
    }

    /// The body of the next child, where that is a user transaction.
    pub(crate) fn next_body(&self) -> Option<u32> {
        let (_, number) = self.next()?.body()?;
        Some(number)
    }

    /// The next child, which is a further try of this body among branches: one was due, and the one
    /// before it had ended.
    pub(crate) fn take_further(&mut self, body: &Body) -> Result<(), Fault> {
        let Some(child) = self.next_try(body.number)? else {
            return Ok(());
        };
        let of = &self.of.name;
        let Some(before) = self.told.try_before(of, body.number, child.start) else {
            return Err(Fault::Other(child.name));
        };
        let tries = self.told.tries_before(of, body.number, child.start);
        if !before.is_tried_again() || tries >= body.tries as usize {
            return Err(Fault::Again(child.name));
        }
        if !before.has_ended_by(child.start) {
            return Err(Fault::Turn(*of));
        }
        self.pass(child)?;
        Ok(())
    }

    /// That the branches are waited for.
    pub(crate) fn wait(&mut self) {
        self.since = self.since.max(self.told.last_end(&self.of.name, self.next));
    }

    /// Whether the transaction must be killed if it looks now.
    pub(crate) fn is_marked(&self) -> bool {
        is_marked_by_itself(self.told, self.of, self.since)
    }

    // Where the next mark by the transaction stands that was made before its end, and which session it is of.
    fn next_mark(&self) -> Option<(usize, u8)> {
        let mut before: usize = 0;
        for mark in self.told.marks.iter() {
            if mark.by == self.of.name && !self.of.has_ended_by(mark.at) {
                if before == self.marks {
                    return Some((mark.at, mark.session));
                }
                before = before.wrapping_add(1);
            }
        }
        None
    }

    /// Whether the next mark by the transaction, which is of this session, stands there: after the ends of its children so
    /// far, and before the start of the next.
    pub(crate) fn take_mark(&mut self, session: u8) -> Result<bool, Fault> {
        let Some((at, marked)) = self.next_mark() else {
            return Ok(false);
        };
        let is_late = match self.next() {
            Some(child) => child.start < at,
            None => false,
        };
        if marked != session || at < self.since || is_late {
            return Err(Fault::Mark(self.of.name));
        }
        self.marks = self.marks.wrapping_add(1);
        self.since = at;
        Ok(true)
    }

    /// That no child and no mark is left.
    pub(crate) fn check_none_left(&self) -> Result<(), Fault> {
        if let Some(child) = self.next() {
            return Err(self.misfit(child, Fault::Extra(child.name)));
        }
        if self.next_mark().is_some() {
            return Err(Fault::Mark(self.of.name));
        }
        Ok(())
    }

    /// Whether there is a further child.
    pub(crate) fn has_next(&self) -> bool {
        self.next().is_some()
    }
}
