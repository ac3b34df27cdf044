//! What a trail tells of each user transaction and each manager, and where.

use crate::causes::same_cause;
use crate::fault::Fault;
use qc_event::{Answer, Cause, Entry, Event, How, Kind, Name, Val};
use qc_names::lists::append;
use std::alloc::Global;

/// What one came to: it committed, a read with a value, or it was aborted.
#[derive(Clone, Copy)]
pub(crate) enum Came {
    Committed(Option<Val>),
    Aborted(Cause),
}

/// Where one ended, under which seat, and how.
#[derive(Clone, Copy)]
pub(crate) struct Ended {
    pub(crate) at: usize,
    pub(crate) seat: u32,
    pub(crate) came: Came,
}

/// A user transaction or a manager, and where it started, was ready, was told to be in doubt, and ended.
#[derive(Clone, Copy)]
pub(crate) struct Deed {
    pub(crate) name: Name,
    pub(crate) kind: Kind,
    pub(crate) seat: u32,
    pub(crate) start: usize,
    pub(crate) ready: Option<usize>,
    pub(crate) doubt: Option<usize>,
    pub(crate) end: Option<Ended>,
}

/// A mark, where it stands, and under which seat.
#[derive(Clone, Copy)]
pub(crate) struct Marked {
    pub(crate) at: usize,
    pub(crate) seat: u32,
    pub(crate) by: Name,
    pub(crate) session: u8,
}

/// What a trail tells, in the order of the starts, and of the marks.
#[derive(Drop)]
pub(crate) struct Told {
    pub(crate) deeds: Vec<Deed>,
    pub(crate) marks: Vec<Marked>,
}

/// The number of a name's top; 0 is the root's.
pub(crate) fn top_number(name: &Name) -> u64 {
    name.number(0).unwrap_or(0)
}

/// The number that a child of this parent has; none where it is no child of it.
pub(crate) fn number_below(parent: &Name, child: &Name) -> Option<u64> {
    match child.parent() {
        Some(front) if front == *parent => child.number(parent.len()),
        _ => None,
    }
}

/// Whether one stands strictly below another.
pub(crate) fn is_below(lower: &Name, upper: &Name) -> bool {
    upper.is_ancestor(lower) && upper != lower
}

impl Came {
    // What an end tells.
    fn of(how: &How) -> Self {
        match how {
            How::Commit(Answer::Value(value)) => Came::Committed(Some(*value)),
            How::Commit(_) => Came::Committed(None),
            How::Abort(cause) => Came::Aborted(*cause),
        }
    }

    fn is_for(&self, cause: &Cause) -> bool {
        match self {
            Came::Aborted(given) => same_cause(given, cause),
            Came::Committed(_) => false,
        }
    }

    // The value of a read.
    fn value(&self) -> Option<Val> {
        match self {
            Came::Committed(value) => *value,
            Came::Aborted(_) => None,
        }
    }

    // Whether one that stands below this name asked for it.
    fn is_asked_from_below(&self, name: &Name) -> bool {
        match self {
            Came::Aborted(Cause::Asked { by }) => is_below(by, name),
            _ => false,
        }
    }
}

impl Deed {
    // What a start tells.
    fn new(at: usize, seat: u32, name: Name, kind: Kind) -> Self {
        Deed {
            name,
            kind,
            seat,
            start: at,
            ready: None,
            doubt: None,
            end: None,
        }
    }

    /// Whether it is a top.
    pub(crate) fn is_top(&self) -> bool {
        self.name.len() == 1
    }

    /// Its session and its body, where it is a user transaction.
    pub(crate) fn body(&self) -> Option<(u8, u32)> {
        match self.kind {
            Kind::User { session, body } => Some((session, body)),
            _ => None,
        }
    }

    /// Whether it stands committed, or is ready.
    pub(crate) fn is_through(&self) -> bool {
        match &self.end {
            Some(end) => matches!(end.came, Came::Committed(_)),
            None => self.ready.is_some(),
        }
    }

    /// Whether it ended.
    pub(crate) fn has_ended(&self) -> bool {
        self.end.is_some()
    }

    /// Whether it was aborted.
    pub(crate) fn is_aborted(&self) -> bool {
        match &self.end {
            Some(end) => matches!(end.came, Came::Aborted(_)),
            None => false,
        }
    }

    /// Whether it was aborted for this cause.
    pub(crate) fn is_aborted_for(&self, cause: &Cause) -> bool {
        match &self.end {
            Some(end) => end.came.is_for(cause),
            None => false,
        }
    }

    /// Whether its body is tried again, where tries are left.
    pub(crate) fn is_tried_again(&self) -> bool {
        match &self.end {
            Some(end) => matches!(
                end.came,
                Came::Aborted(Cause::Conflict { .. } | Cause::NoQuorum(_) | Cause::Child(_))
            ),
            None => false,
        }
    }

    /// The value that it read; none where it committed without one, or did not commit.
    pub(crate) fn value(&self) -> Option<Val> {
        match &self.end {
            Some(end) => end.came.value(),
            None => None,
        }
    }

    /// Whether it ended as an orphan.
    pub(crate) fn is_orphan(&self) -> bool {
        match &self.end {
            Some(end) => matches!(end.came, Came::Aborted(Cause::Orphan(_))),
            None => false,
        }
    }

    /// Whether it was aborted as one below it asked.
    pub(crate) fn is_aborted_from_below(&self) -> bool {
        match &self.end {
            Some(end) => end.came.is_asked_from_below(&self.name),
            None => false,
        }
    }

    /// Whether it had ended before a place.
    pub(crate) fn has_ended_by(&self, at: usize) -> bool {
        match &self.end {
            Some(end) => end.at < at,
            None => false,
        }
    }

    /// Whether it had ended, or was ready, before a place.
    pub(crate) fn is_done_by(&self, at: usize) -> bool {
        self.has_ended_by(at) || self.ready.is_some_and(|ready| ready < at)
    }

    /// Whether, as a top, it was over before a place: it had ended, or the ledger was unable to log it.
    pub(crate) fn is_over_by(&self, at: usize) -> bool {
        self.has_ended_by(at) || self.doubt.is_some_and(|doubt| doubt < at)
    }

    fn note_ready(&mut self, at: usize) -> Result<(), Fault> {
        if self.ready.is_some() || self.end.is_some() {
            return Err(Fault::Twice(self.name));
        }
        self.ready = Some(at);
        Ok(())
    }

    fn note_doubt(&mut self, at: usize) {
        if self.doubt.is_none() {
            self.doubt = Some(at);
        }
    }

    fn note_end(&mut self, end: Ended) -> Result<(), Fault> {
        if self.end.is_some() {
            return Err(Fault::Twice(self.name));
        }
        self.end = Some(end);
        Ok(())
    }
}

impl Told {
    /// What is told of a name.
    pub(crate) fn of(&self, name: &Name) -> Option<&Deed> {
        self.deeds.iter().find(|deed| deed.name == *name)
    }

    /// The child of this number.
    pub(crate) fn child(&self, parent: &Name, number: u64) -> Option<&Deed> {
        self.deeds
            .iter()
            .find(|deed| number_below(parent, &deed.name) == Some(number))
    }

    /// Whether one was aborted before a place.
    pub(crate) fn is_aborted_by(&self, name: &Name, at: usize) -> bool {
        match self.of(name) {
            Some(deed) => deed.is_aborted() && deed.has_ended_by(at),
            None => false,
        }
    }

    fn place_of(&self, name: &Name) -> Option<usize> {
        self.deeds.iter().position(|deed| deed.name == *name)
    }

    fn note_start(&mut self, at: usize, seat: u32, name: Name, kind: Kind) -> Result<(), Fault> {
        if self.of(&name).is_some() {
            return Err(Fault::Twice(name));
        }
        append(&mut self.deeds, Deed::new(at, seat, name, kind))?;
        Ok(())
    }

    fn note(&mut self, at: usize, entry: &Entry) -> Result<(), Fault> {
        let seat = entry.seat;
        match entry.event {
            Event::Start { name, kind } if !matches!(kind, Kind::Access) => {
                self.note_start(at, seat, name, kind)?;
            }
            Event::Ready { top } => {
                if let Some(deed) = self.deed_mut(&top) {
                    deed.note_ready(at)?;
                }
            }
            Event::Unable { name, .. } => {
                if let Some(deed) = self.deed_mut(&name) {
                    deed.note_doubt(at);
                }
            }
            Event::End { name, how } => {
                if let Some(deed) = self.deed_mut(&name) {
                    let came = Came::of(&how);
                    deed.note_end(Ended { at, seat, came })?;
                }
            }
            Event::Mark { by, session } => self.marks.push(Marked {
                at,
                seat,
                by,
                session,
            })?,
            _ => {}
        }
        Ok(())
    }

    fn deed_mut(&mut self, name: &Name) -> Option<&mut Deed> {
        let place = self.place_of(name)?;
        self.deeds.get_mut(place)
    }

    /// What a trail tells.
    pub(crate) fn gather(alloc: Global, trail: &[Entry]) -> Result<Self, Fault> {
        let mut told = Told {
            deeds: Vec::new(alloc),
            marks: Vec::new(alloc),
        };
        for (at, entry) in trail.iter().enumerate() {
            told.note(at, entry)?;
        }
        Ok(told)
    }
}
