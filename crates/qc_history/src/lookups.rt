//! What else an index tells of a name.
ghost use Rattle.std.specs.Prelude.{◌≡◌, ◌<◌, None, MatchOption, length, reverse};
ghost use Rattle.std.specs.Option.{option_map};
ghost use Rattle.qc_names.specs.Name.{longest};
ghost use Rattle.qc_event.specs.Base.{Setting};
ghost use Rattle.qc_event.specs.History as history;
ghost use Rattle.qc_event.specs.Legal.{Legal};
ghost use Rattle.qc_event.specs.Standing.{open_child};
ghost use Rattle.qc_history.specs.Index.{IsOf};
ghost use Rattle.qc_history.specs.Looking.{is_of_access};
ghost use Rattle.qc_history.specs.Places.{IsWhere, place, spot_of};
ghost use Rattle.qc_history.specs.Spots as spots;
ghost use Rattle.qc_history.specs.Standing.{OfEach};

use crate::index::Index;
use crate::nodes::Node;
use qc_event::{Entry, Event, Kind, Name};
use qc_trail::{Outline, Trail};

// What a name was started for, where the entry is its start.
fn kind_in(entry: &Entry, n: &Name) -> Option<Kind>
    ensures { result ≡ option_map (λ begun. begun.kind)
        (history.start_in n.now entry.now.seat entry.now.event) }
{
    if let Event::Start { name, kind } = &entry.event {
        if name == n {
            return Some(*kind);
        }
    }
    None
}

impl Index {
    // The node of a name.
    fn node_of(&self, name: &Name) -> Option<&Node>
        ensures { OfEach (IsOf self.now) (λ past. MatchOption result (place past name.now ≡ None)
            (λ node. spots.spot node.now ≡ spot_of past name.now)) }
    {
        match self.place(name) {
            Some(at) => Some(self.at(at)),
            None => None,
        }
    }

    /// The place of a name's start among the entries, counted from 0.
    pub fn start(&self, name: &Name) -> Option<u32>
        ensures { OfEach (IsOf self.now)
            (λ past. IsWhere (λ e. history.start_in name.now e.seat e.event) past result) }
    {
        match self.node_of(name) {
            Some(node) => Some(node.start()),
            None => None,
        }
    }

    /// The place of a name's end among the entries, counted from 0.
    pub fn end(&self, name: &Name) -> Option<u32>
        ensures { OfEach (IsOf self.now)
            (λ past. IsWhere (λ e. history.end_in name.now e.event) past result) }
    {
        match self.node_of(name) {
            Some(node) => node.end(),
            None => None,
        }
    }

    /// The place of a name's ready entry among the entries, counted from 0.
    pub fn ready(&self, name: &Name) -> Option<u32>
        ensures { OfEach (IsOf self.now)
            (λ past. IsWhere (λ e. history.ready_in name.now e.event) past result) }
    {
        match self.node_of(name) {
            Some(node) => node.ready(),
            None => None,
        }
    }

    /// Whether a name is ready.
    pub fn is_ready(&self, name: &Name) -> bool
        ensures { OfEach (IsOf self.now) (λ past. result ≡ history.is_ready past name.now) }
    {
        self.ready(name).is_some()
    }

    /// What a name was started for, read from the entries of the history, the oldest first.
    pub fn kind(&self, entries: &Trail, name: &Name) -> Option<Kind>
        ensures { (setting : Setting) → IsOf self.now (reverse entries.now) →
            Legal setting (reverse entries.now) →
            result ≡ history.kind_of (reverse entries.now) name.now }
    {
        let Some(at) = self.start(name) else {
            return None;
        };
        match entries.get(at as usize) {
            Some(entry) => kind_in(&entry, name),
            None => None,
        }
    }

    /// Whether a name was started as an access. It builds no event.
    pub fn is_access(&self, entries: &Trail, name: &Name) -> bool
        ensures { (setting : Setting) → IsOf self.now (reverse entries.now) →
            Legal setting (reverse entries.now) →
            result ≡ is_of_access (history.kind_of (reverse entries.now) name.now) }
    {
        match self.start(name) {
            Some(at) if (at as usize) < entries.len() => {
                matches!(entries.outline(at as usize), Outline::StartAccess { .. })
            }
            _ => false,
        }
    }

    /// How many children of a name have started. Of the root `tops` tells it.
    pub fn children(&self, name: &Name) -> usize
        requires { 0 < length name.now }
        ensures { OfEach (IsOf self.now)
            (λ past. result ≡ length (history.children past name.now)) }
    {
        match self.node_of(name) {
            Some(node) => node.children().len(),
            None => 0,
        }
    }

    /// The first started child of a name that has no end, where there is one. It reads each child up to that.
    pub fn open_child(&self, name: &Name) -> Option<Name>
        requires below_a_top { 0 < length name.now }
        requires room { length name.now < longest }
        ensures { OfEach (IsOf self.now) (λ past. result ≡ open_child past name.now) }
    {
        let Some(at) = self.place(name) else {
            return None;
        };
        let children = self.at(at).children();
        for k in 0..children.len() {
            if self.at(children[k]).end().is_none() {
                return Some(name.child(k as u32 + 1));
            }
        }
        None
    }
}
