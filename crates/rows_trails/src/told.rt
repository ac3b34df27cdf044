//! What a question is answered, and its text.
use qc_check::Illegal;
use qc_event::{Answered, Kind, Name, Outcome, Tuple, Val};
use qc_moss::{Holder, Test};
use qc_serial::SerialEvent;
use rows_text::{KindText, TupleText};
use std::fmt;

/// What a question is answered.
#[derive(Drop)]
pub enum TrailTold {
    Truth(bool),
    Count(usize),
    Name(Option<Name>),
    Outcome(Outcome),
    Kind(Option<Kind>),
    Tuple(Option<Tuple>),
    /// The place of an entry.
    Place(Option<u32>),
    /// How many looks were answered, and whether two answer them alike.
    Looks(usize, bool),
    Verdict(Option<Illegal>),
    Order(Vec<SerialEvent>),
    Values(Vec<Val>),
    /// The serial machine does not allow the event at this place.
    NotAllowed(usize),
    /// What a copy answers a request, what it answers the same request again, and how many grants it has then.
    Served(Answered, Answered, usize),
    Test(Test),
    Holders(Vec<Holder>),
}

#[derive(Clone, Copy)]
struct EventText(SerialEvent);

impl fmt::Display for EventText {
    fn fmt<W: fmt::Write>(&self, f: &mut fmt::Formatter<W>) -> fmt::Result {
        match self.0 {
            SerialEvent::Start(name) => write!(f, "start {name}"),
            SerialEvent::Enter(name) => write!(f, "enter {name}"),
            SerialEvent::Read { name, rec, value } => { write!(f, "read {name} {rec} {value:?}") }
            SerialEvent::Write { name, rec, value } => { write!(f, "write {name} {rec} {value:?}") }
            SerialEvent::Leave(name) => write!(f, "leave {name}"),
            SerialEvent::Skip(name) => write!(f, "skip {name}"),
        }
    }
}

#[derive(Clone, Copy)]
struct AnsweredText(Answered);

impl fmt::Display for AnsweredText {
    fn fmt<W: fmt::Write>(&self, f: &mut fmt::Formatter<W>) -> fmt::Result {
        match self.0 {
            Answered::Granted(tuple) => {
                let tuple = TupleText(tuple);
                write!(f, "granted {tuple}")
            }
            Answered::Blocked(name) => write!(f, "blocked by {name}"),
            Answered::Dead(name) => write!(f, "dead by {name}"),
            Answered::Down => write!(f, "down"),
            Answered::Full => write!(f, "full"),
            Answered::Strange => write!(f, "strange"),
        }
    }
}

fn write_order<W: fmt::Write>(f: &mut fmt::Formatter<W>, events: &[SerialEvent]) -> fmt::Result {
    if events.is_empty() {
        return write!(f, "none");
    }
    for (place, event) in events.iter().enumerate() {
        let comma = if place == 0 { "" } else { ", " };
        let event = EventText(*event);
        write!(f, "{comma}{event}")?;
    }
    Ok(())
}

fn write_values<W: fmt::Write>(f: &mut fmt::Formatter<W>, values: &[Val]) -> fmt::Result {
    write!(f, "values")?;
    for value in values {
        write!(f, " {value:?}")?;
    }
    Ok(())
}

fn write_holders<W: fmt::Write>(f: &mut fmt::Formatter<W>, holders: &[Holder]) -> fmt::Result {
    if holders.is_empty() {
        return write!(f, "none");
    }
    for (place, holder) in holders.iter().enumerate() {
        let comma = if place == 0 { "" } else { ", " };
        let (first, at) = (holder.first, holder.at);
        write!(f, "{comma}{first} at {at}")?;
    }
    Ok(())
}

fn write_served<W: fmt::Write>(
    f: &mut fmt::Formatter<W>,
    first: Answered,
    second: Answered,
    grants: usize,
) -> fmt::Result {
    let (first, second) = (AnsweredText(first), AnsweredText(second));
    write!(f, "{first}, again {second}, grants {grants}")
}

fn write_verdict<W: fmt::Write>(
    f: &mut fmt::Formatter<W>,
    verdict: &Option<Illegal>,
) -> fmt::Result {
    match verdict {
        Some(Illegal { place, rule }) => write!(f, "entry {place}: {rule:?}"),
        None => write!(f, "legal"),
    }
}

fn write_name<W: fmt::Write>(f: &mut fmt::Formatter<W>, name: &Option<Name>) -> fmt::Result {
    match name {
        Some(name) => write!(f, "{name}"),
        None => write!(f, "none"),
    }
}

fn write_kind<W: fmt::Write>(f: &mut fmt::Formatter<W>, kind: &Option<Kind>) -> fmt::Result {
    match kind {
        Some(kind) => {
            let kind = KindText(*kind);
            write!(f, "{kind}")
        }
        None => write!(f, "none"),
    }
}

fn write_tuple<W: fmt::Write>(f: &mut fmt::Formatter<W>, tuple: &Option<Tuple>) -> fmt::Result {
    match tuple {
        Some(tuple) => {
            let tuple = TupleText(*tuple);
            write!(f, "{tuple}")
        }
        None => write!(f, "none"),
    }
}

fn write_place<W: fmt::Write>(f: &mut fmt::Formatter<W>, place: Option<u32>) -> fmt::Result {
    match place {
        Some(place) => write!(f, "entry {place}"),
        None => write!(f, "none"),
    }
}

impl fmt::Display for TrailTold {
    fn fmt<W: fmt::Write>(&self, f: &mut fmt::Formatter<W>) -> fmt::Result {
        match self {
            TrailTold::Truth(true) => write!(f, "yes"),
            TrailTold::Truth(false) => write!(f, "no"),
            TrailTold::Count(count) => write!(f, "{count}"),
            TrailTold::Name(name) => write_name(f, name),
            TrailTold::Outcome(outcome) => write!(f, "{outcome:?}"),
            TrailTold::Kind(kind) => write_kind(f, kind),
            TrailTold::Tuple(tuple) => write_tuple(f, tuple),
            TrailTold::Place(place) => write_place(f, *place),
            TrailTold::Looks(looks, true) => write!(f, "{looks}, alike"),
            TrailTold::Looks(looks, false) => write!(f, "{looks}, not alike"),
            TrailTold::Verdict(verdict) => write_verdict(f, verdict),
            TrailTold::Order(events) => write_order(f, events.as_slice()),
            TrailTold::Values(values) => write_values(f, values.as_slice()),
            TrailTold::NotAllowed(place) => write!(f, "event {place} is not allowed"),
            TrailTold::Served(first, second, grants) => write_served(f, *first, *second, *grants),
            TrailTold::Test(Test::Free) => write!(f, "free"),
            TrailTold::Test(Test::Held(first)) => write!(f, "held by {first}"),
            TrailTold::Holders(holders) => write_holders(f, holders.as_slice()),
        }
    }
}
