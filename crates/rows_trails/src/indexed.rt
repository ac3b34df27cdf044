//! Questions to an index of the history, beside a scan of it.
ghost use Rattle.std.specs.Prelude.{◌<◌, IsTrue, length};
ghost use Rattle.qc_names.specs.Name.{longest};

use crate::told::TrailTold;
use crate::wrong::Wrong;
use qc_event::{Entry, Event, Name, dead, outcome};
use qc_history::Index;
use qc_trail::Trail;
use rows_text::Words;
use std::alloc::Global;

// The trail of a history.
fn trail_of(alloc: Global, h: &[Entry]) -> Result<Trail, Wrong> {
    let mut trail = Trail::new(alloc);
    for entry in h {
        trail.push(entry, None)?;
    }
    Ok(trail)
}

// The index of a history.
fn index_of(alloc: Global, h: &[Entry]) -> Result<Index, Wrong> {
    Ok(qc_report::index_of(alloc, &trail_of(alloc, h)?)?)
}

// What was looked up, and whether a scan and an index answered it alike.
#[derive(Drop)]
struct Compared {
    count: usize,
    alike: bool,
}

impl Compared {
    fn note(&mut self, alike: bool) {
        self.count = self.count.saturating_add(1);
        self.alike = self.alike && alike;
    }

    // How a name stands, and by whom it is dead.
    fn compare(&mut self, h: &[Entry], index: &Index, name: &Name) {
        self.note(outcome(h, name) == index.outcome(name));
        self.note(dead(h, name) == index.dead(name));
    }

    fn compare_all(&mut self, h: &[Entry], index: &Index) {
        for entry in h {
            if let Event::Start { name, .. } = &entry.event {
                self.compare(h, index, name);
            }
        }
    }
}

/// The history entry by entry, and after each how every name stands that has started: how many entries and looks
/// that are, and whether a scan and an index answer them alike.
pub fn looks(alloc: Global, h: &[Entry]) -> Result<TrailTold, Wrong> {
    let mut looks = Compared {
        count: h.len(),
        alike: true,
    };
    for place in 0..h.len() {
        let past = &h[..place + 1];
        looks.compare_all(past, &index_of(alloc, past)?);
    }
    let Compared { count, alike } = looks;
    Ok(TrailTold::Looks(count, alike))
}

// Whether a name is below a top, or one, and can have children.
fn may_have_children(name: &Name) -> bool
    ensures above { IsTrue result → 0 < length name.now }
    ensures room { IsTrue result → length name.now < longest }
{
    0 < name.len() && name.len() < 18
}

/// What the index tells of a name.
pub fn told(
    alloc: Global,
    h: &[Entry],
    word: &str,
    words: &mut Words<'_>,
) -> Result<TrailTold, Wrong> {
    let index = index_of(alloc, h)?;
    let name = words.name()?;
    if !may_have_children(&name) {
        return Err(Wrong::Place);
    }
    match word {
        "indexed_kind" => Ok(TrailTold::Kind(index.kind(&trail_of(alloc, h)?, &name))),
        "start" => Ok(TrailTold::Place(index.start(&name))),
        "end" => Ok(TrailTold::Place(index.end(&name))),
        "ready" => Ok(TrailTold::Place(index.ready(&name))),
        "is_ready" => Ok(TrailTold::Truth(index.is_ready(&name))),
        "children" => Ok(TrailTold::Count(index.children(&name))),
        _ => Ok(TrailTold::Name(index.open_child(&name))),
    }
}

/// How many tops have started.
pub fn tops(alloc: Global, h: &[Entry]) -> Result<TrailTold, Wrong> {
    Ok(TrailTold::Count(index_of(alloc, h)?.tops()))
}
