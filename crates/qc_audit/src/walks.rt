//! What the children of each open transaction did, kept in a list for each, so that each step moves only from a child
//! to its parent.
ghost use Rattle.std.specs.Prelude.{◌≡◌, ◌<◌, ℕ, [], ◌∷◌, ◌++◌, IfOk, OnOk, length, reverse};
ghost use Rattle.qc_event.specs.History.{kind_of};
ghost use Rattle.qc_event.specs.Legal.{Legal};
ghost use Rattle.qc_names.specs.Name as name;
ghost use Rattle.qc_serial.specs.declared.event.SerialEvent.TheVariants as serial;
ghost use Rattle.qc_serial.specs.Walk as words;
ghost use Rattle.qc_audit.specs.Walks as spec;
ghost use Rattle.qc_audit.specs.Walks.{AtSlot, GoesOn, TakesIn, TakesOver, listed};

use crate::events::Events;
use qc_event::{Answer, Entry, Event, How, Kind, Name};
use qc_looks::Indexed;
use qc_scan::{Looks, front};
use qc_serial::SerialEvent;
use std::alloc::{AllocError, Global};
use std::mem;

// The user transaction that an entry starts.
fn started_user(entry: &Entry) -> Option<Name>
    ensures { result ≡ spec.started_user entry.now.event }
{
    match &entry.event {
        Event::Start {
            name,
            kind: Kind::User { .. },
        } => Some(*name),
        _ => None,
    }
}

// What a name was started for.
fn kind_in(known: &Indexed<'_>, n: &Name) -> Option<Kind>
    ensures { result ≡ kind_of known.now.past n.now }
{
    match known.start(n) {
        Some(begun) => Some(begun.kind()),
        None => None,
    }
}

// Where a name's list stands.
fn slot(known: &Indexed<'_>, n: &Name) -> Option<usize>
    ensures { Legal known.now.setting known.now.past → result ≡ spec.slot known.now.past n.now }
{
    if n.is_empty() {
        return Some(0);
    }
    match known.names().place(n) {
        Some(place) => Some(place as usize + 1),
        None => None,
    }
}

// Lets the lists reach as far as a place.
fn reach(alloc: Global, lists: &mut Vec<Vec<SerialEvent>>, at: usize) -> Result<(), AllocError>
    ensures same { (i : ℕ) → listed lists.new.items i ≡ listed lists.old.items i }
    ensures reached { OnOk result (at < length lists.new.items) }
{
    while lists.len() <= at {
        lists.push(Vec::new(alloc))?;
    }
    Ok(())
}

// Takes the list at a place, and leaves an empty one.
fn taken(alloc: Global, lists: &mut Vec<Vec<SerialEvent>>, at: usize) -> Vec<SerialEvent>
    ensures list { result.items ≡ listed lists.old.items at }
    ensures others { (i : ℕ) → (i ≡ at → ⊥) → listed lists.new.items i ≡ listed lists.old.items i }
{
    if at >= lists.len() {
        return Vec::new(alloc);
    }
    mem::replace(&mut lists[at], Vec::new(alloc))
}

// Goes on by what the end of a child adds. Inner is what the child's children did.
fn add_end(
    events: &mut Vec<SerialEvent>,
    inner: &[SerialEvent],
    kind: Option<Kind>,
    c: &Name,
    how: &How,
) -> Result<(), AllocError>
    ensures { OnOk result (events.new.items
        ≡ events.old.items ++ words.ended kind inner.now c.now how.now) }
{
    match &kind {
        Some(Kind::User { .. }) => match how {
            How::Commit(_) => {
                events.push(SerialEvent::Enter(*c))?;
                events.extend_from_slice(inner)?;
                events.push(SerialEvent::Leave(*c))?;
            }
            How::Abort(_) => events.push(SerialEvent::Skip(*c))?,
        },
        Some(Kind::Read { rec }) => {
            if let How::Commit(Answer::Value(value)) = how {
                events.push(SerialEvent::Read {
                    name: *c,
                    rec: *rec,
                    value: *value,
                })?;
            }
        }
        Some(Kind::Write { rec, value }) => {
            if let How::Commit(_) = how {
                events.push(SerialEvent::Write {
                    name: *c,
                    rec: *rec,
                    value: *value,
                })?;
            }
        }
        _ => {}
    }
    Ok(())
}

/// What the children of the root and of each open transaction did, in the order in which they ended.
#[derive(Debug, Drop)]
pub(crate) struct Walks {
    alloc: Global,
    lists: Vec<Vec<SerialEvent>>,
}

impl Walks {
    // The list at a place goes on by an event.
    fn add(&mut self, at: usize, event: SerialEvent) -> Result<(), AllocError>
        ensures { OnOk result
            (GoesOn self.old.lists.items self.new.lists.items at (event ∷ [])) }
    {
        reach(self.alloc, &mut self.lists, at)?;
        self.lists[at].push(event)?;
        Ok(())
    }

    // The list at a place takes over that of a child, by how the child ended.
    fn take_over(
        &mut self,
        own: usize,
        at: usize,
        kind: Option<Kind>,
        c: &Name,
        how: &How,
    ) -> Result<(), AllocError>
        ensures { OnOk result (TakesOver self.old.lists.items self.new.lists.items own at
            (words.ended kind (listed self.old.lists.items own) c.now how.now)) }
    {
        let inner = taken(self.alloc, &mut self.lists, own);
        reach(self.alloc, &mut self.lists, at)?;
        add_end(&mut self.lists[at], inner.as_slice(), kind, c, how)
    }

    fn start(&mut self, known: &Indexed<'_>, c: &Name) -> Result<(), AllocError>
        ensures { OnOk result (AtSlot known.now (name.front c.now) (λ at.
            GoesOn self.old.lists.items self.new.lists.items at (serial.Start c.now ∷ []))) }
    {
        match slot(known, &front(c)) {
            Some(at) => self.add(at, SerialEvent::Start(*c)),
            None => Ok(()),
        }
    }

    fn end(&mut self, known: &Indexed<'_>, c: &Name, how: &How) -> Result<(), AllocError>
        ensures { OnOk result (AtSlot known.now (name.front c.now) (λ at.
            AtSlot known.now c.now (λ own.
            TakesOver self.old.lists.items self.new.lists.items own at
            (words.ended (kind_of known.now.past c.now) (listed self.old.lists.items own)
            c.now how.now)))) }
    {
        let Some(at) = slot(known, &front(c)) else {
            return Ok(());
        };
        let Some(own) = slot(known, c) else {
            return Ok(());
        };
        self.take_over(own, at, kind_in(known, c), c, how)
    }

    // Takes in an entry of a history whose names are all known.
    fn take_in(&mut self, known: &Indexed<'_>, entry: &Entry) -> Result<(), AllocError>
        ensures { OnOk result (TakesIn known.now entry.now self.old self.new) }
    {
        if let Some(c) = started_user(entry) {
            return self.start(known, &c);
        }
        let Event::End { name, how } = &entry.event else {
            return Ok(());
        };
        self.end(known, name, how)
    }
}

/// What the root's children did in a legal history, in the order in which they ended. It goes over the entries once.
pub(crate) fn serial_order(
    alloc: Global,
    known: &Indexed<'_>,
    trail: &[Entry],
) -> Result<Events, AllocError>
    requires whole { known.now.past ≡ reverse trail.now }
    requires legal { Legal known.now.setting known.now.past }
    ensures { IfOk result (λ events. events ≡ words.walk (reverse trail.now) []) }
{
    let mut walks = Walks {
        alloc,
        lists: Vec::new(alloc),
    };
    for entry in trail {
        walks.take_in(known, entry)?;
    }
    let order = taken(alloc, &mut walks.lists, 0);
    Ok(Events::new(order))
}
