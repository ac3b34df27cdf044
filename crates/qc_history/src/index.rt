//! An index of a history.
ghost use Rattle.std.specs.Prelude.{◌≡◌, ◌≤◌, ◌<◌, ◌+◌, ◌-◌, ℕ, ◌∷◌, [], Some, None, slice_get, OnOk, OnErr, length};
ghost use Rattle.qc_event.specs.Dead as dead_words;
ghost use Rattle.qc_event.specs.History.{limit, children};
ghost use Rattle.qc_event.specs.declared.event.Entry.{Entry};
ghost use Rattle.qc_event.specs.declared.event.Event.TheVariants as event;
ghost use Rattle.qc_event.specs.declared.event.How.{How};
ghost use Rattle.qc_event.specs.declared.event.Kind.{Kind};
ghost use Rattle.qc_history.specs.Index.{IsOf, no_index};
ghost use Rattle.qc_history.specs.Places.{place};
ghost use Rattle.qc_history.specs.Spots as spots;
ghost use Rattle.qc_history.specs.Standing.{OfEach, Grows};
ghost use Rattle.qc_trail.specs.Outline.{outline_of};

use crate::nodes::{Node, Nodes};
use crate::steps::Steps;
use qc_event::{Entry, Name, Outcome};
use qc_trail::Outline;
use std::alloc::{AllocError, Global};
use std::collections::BTreeMap;
use std::marker::{Brand, Model};
use std::sync::ledger::{Blank, Ledger};

/// An index of a history: it answers how names stand there, and keeps no entries. Whatever the length of the
/// history, a name is found in a step for each of its numbers, after its top in a map of the tops; an entry is
/// taken in as fast.
#[derive(Debug, Drop)]
pub struct Index {
    alloc: Global,
    tops: BTreeMap<u64, u32>,
    nodes: Nodes,
    count: u32,
}

impl Model for Index {
    ghost use Rattle.std.specs.Prelude.{◌≤◌, length};
    ghost use Rattle.qc_history.specs.Index.{Shape, AreInside};

    ghost Value = { Shape };

    ghost view = { λ i. record { tops = i.tops.entries; spots = i.nodes; count = i.count } };

    ghost invariant = { λ i. record {
      inside : AreInside i.tops.entries i.nodes;
      bounded : length i.nodes ≤ i.count;
    } };
}

impl Index {
    /// The index of no entries. It takes no memory.
    pub fn new(alloc: Global) -> Self
        ensures { result ≡ no_index }
    {
        Index {
            alloc,
            tops: BTreeMap::new(alloc),
            nodes: Nodes::new(alloc),
            count: 0,
        }
    }

    /// How many tops have started.
    pub fn tops(&self) -> usize
        ensures { OfEach (IsOf self.now) (λ past. result ≡ length (children past [])) }
    {
        self.tops.len()
    }

    // The place of a name's node, by the numbers of the name.
    fn find<L: Ledger>(&self, name: &Name, steps: &mut Steps<L>) -> Option<u32>
        ensures place { OfEach (IsOf self.now) (λ past. result ≡ place past name.now) }
        ensures within { (at : ℕ) → result ≡ Some at → at < length self.now.spots }
        ensures named { (at : ℕ) → result ≡ Some at → 0 < length name.now }
        ensures cost { steps.new ≤ steps.old + (length name.now - 1) }
    {
        let Some(top) = name.number(0) else {
            return None;
        };
        let Some(first) = self.tops.get(&top) else {
            return None;
        };
        let mut at = *first;
        for k in 1..name.len() {
            let number = name.number(k).unwrap_or(0);
            let Some(next) = self.nodes.node(at, steps).child(number) else {
                return None;
            };
            at = next;
        }
        Some(at)
    }

    /// How a name stands, in at most as many steps as it has numbers.
    pub fn outcome_in<L: Ledger>(&self, name: &Name, steps: &mut Steps<L>) -> Outcome
        ensures outcome { OfEach (IsOf self.now)
            (λ past. result ≡ dead_words.outcome past name.now) }
        ensures cost { steps.new ≤ steps.old + length name.now }
    {
        match self.find(name, steps) {
            Some(at) => self.nodes.node(at, steps).outcome(),
            None => Outcome::Live,
        }
    }

    /// The shortest aborted ancestor of a name, in at most as many steps as it has numbers.
    pub fn dead_in<L: Ledger>(&self, name: &Name, steps: &mut Steps<L>) -> Option<Name>
        ensures dead { OfEach (IsOf self.now) (λ past. result ≡ dead_words.dead past name.now) }
        ensures cost { steps.new ≤ steps.old + length name.now }
    {
        let Some(top) = name.number(0) else {
            return None;
        };
        let Some(first) = self.tops.get(&top) else {
            return None;
        };
        let mut at = *first;
        for k in 1..name.len() {
            let node = self.nodes.node(at, steps);
            if node.outcome().is_aborted() {
                return Some(name.ancestor(k));
            }
            let number = name.number(k).unwrap_or(0);
            let Some(next) = node.child(number) else {
                return None;
            };
            at = next;
        }
        if self.nodes.node(at, steps).outcome().is_aborted() {
            return Some(*name);
        }
        None
    }

    /// How a name stands.
    pub fn outcome(&self, name: &Name) -> Outcome
        ensures { OfEach (IsOf self.now) (λ past. result ≡ dead_words.outcome past name.now) }
    {
        uncounted_outcome::<Brand>(self, name, Blank::new(1))
    }

    /// The shortest aborted ancestor of a name.
    pub fn dead(&self, name: &Name) -> Option<Name>
        ensures { OfEach (IsOf self.now) (λ past. result ≡ dead_words.dead past name.now) }
    {
        uncounted_dead::<Brand>(self, name, Blank::new(1))
    }

    /// The place of a name among the started names, in order of their starts, counted from 0.
    pub fn place(&self, name: &Name) -> Option<u32>
        ensures place { OfEach (IsOf self.now) (λ past. result ≡ place past name.now) }
        ensures within { (at : ℕ) → result ≡ Some at → at < length self.now.spots }
    {
        uncounted_find::<Brand>(self, name, Blank::new(1))
    }

    // The node at a place.
    pub(crate) fn at(&self, at: u32) -> &Node
        requires { at < length self.now.spots }
        ensures node { slice_get self.now.spots at ≡ Some (spots.spot result.now) }
        ensures within { spots.AreWithin self.now.spots }
        ensures fewer { spots.AreFewer self.now.spots }
        ensures bounded { length self.now.spots ≤ limit }
    {
        let _count = self.count;
        uncounted_node::<Brand>(&self.nodes, at, Blank::new(1))
    }

    fn add(&mut self, name: &Name) -> Result<(), AllocError>
        requires { self.old.count < limit }
        ensures ok { OnOk result ((e : Entry) (kind : Kind) →
            e.event ≡ event.Start name.now kind → Grows (IsOf self.old) (IsOf self.new) e) }
        ensures count { OnOk result (self.new.count ≡ self.old.count + 1) }
        ensures err { OnErr result (self.new ≡ self.old) }
    {
        let start = self.count;
        let Some(number) = name.number(0) else {
            self.count += 1;
            return Ok(());
        };
        if name.len() == 1 {
            self.nodes
                .add_top(self.alloc, &mut self.tops, number, start)?;
            self.count += 1;
            return Ok(());
        }
        let Some(parent) = self.place(&name.ancestor(name.len() - 1)) else {
            self.count += 1;
            return Ok(());
        };
        self.nodes.add_child(self.alloc, parent, start)?;
        self.count += 1;
        Ok(())
    }

    fn close(&mut self, name: &Name, outcome: Outcome)
        requires { self.old.count < limit }
        ensures count { self.new.count ≡ self.old.count + 1 }
        ensures index { (e : Entry) (how : How) → e.event ≡ event.End name.now how →
            outcome ≡ dead_words.outcome_of (Some how) → Grows (IsOf self.old) (IsOf self.new) e }
    {
        if let Some(at) = self.place(name) {
            self.nodes.set_end(at, outcome, self.count);
        }
        self.count += 1;
    }

    fn make_ready(&mut self, top: &Name)
        requires { self.old.count < limit }
        ensures count { self.new.count ≡ self.old.count + 1 }
        ensures index { (e : Entry) → e.event ≡ event.Ready top.now →
            Grows (IsOf self.old) (IsOf self.new) e }
    {
        if let Some(at) = self.place(top) {
            self.nodes.set_ready(at, self.count);
        }
        self.count += 1;
    }

    /// Takes in an entry that may come next, by what it is of. An error leaves all as it was.
    pub fn take_in(&mut self, outline: &Outline) -> Result<(), AllocError>
        requires { self.old.count < limit }
        ensures ok { OnOk result ((e : Entry) → outline.now ≡ outline_of e.event →
            Grows (IsOf self.old) (IsOf self.new) e) }
        ensures count { OnOk result (self.new.count ≡ self.old.count + 1) }
        ensures err { OnErr result (self.new ≡ self.old) }
    {
        match outline {
            Outline::Start { name } => self.add(name)?,
            Outline::StartAccess { name } => self.add(name)?,
            Outline::Commit { name } => self.close(name, Outcome::Committed),
            Outline::Abort { name } => self.close(name, Outcome::Aborted),
            Outline::Ready { top } => self.make_ready(top),
            Outline::Put | Outline::Other => self.count += 1,
        }
        Ok(())
    }

    /// Takes in an entry that may come next. An error leaves all as it was.
    pub fn push(&mut self, entry: &Entry) -> Result<(), AllocError>
        requires { self.old.count < limit }
        ensures ok { OnOk result (Grows (IsOf self.old) (IsOf self.new) entry.now) }
        ensures count { OnOk result (self.new.count ≡ self.old.count + 1) }
        ensures err { OnErr result (self.new ≡ self.old) }
    {
        self.take_in(&Outline::of(&entry.event))
    }
}

fn uncounted_node<L: Ledger>(nodes: &Nodes, at: u32, blank: Blank) -> &Node
    requires name { blank.name ≡ L.name }
    requires parts { blank.parts ≡ L.parts }
    requires some { 0 < blank.parts }
    requires within { at < length nodes.now }
    ensures node { slice_get nodes.now at ≡ Some (spots.spot result.now) }
    ensures within { spots.AreWithin nodes.now }
    ensures fewer { spots.AreFewer nodes.now }
{
    nodes.node(at, &mut Steps::<L>::none(blank))
}

fn uncounted_find<L: Ledger>(index: &Index, name: &Name, blank: Blank) -> Option<u32>
    requires name { blank.name ≡ L.name }
    requires parts { blank.parts ≡ L.parts }
    requires some { 0 < blank.parts }
    ensures place { OfEach (IsOf index.now) (λ past. result ≡ place past name.now) }
    ensures within { (at : ℕ) → result ≡ Some at → at < length index.now.spots }
{
    index.find(name, &mut Steps::<L>::none(blank))
}

fn uncounted_outcome<L: Ledger>(index: &Index, name: &Name, blank: Blank) -> Outcome
    requires name { blank.name ≡ L.name }
    requires parts { blank.parts ≡ L.parts }
    requires some { 0 < blank.parts }
    ensures { OfEach (IsOf index.now) (λ past. result ≡ dead_words.outcome past name.now) }
{
    index.outcome_in(name, &mut Steps::<L>::none(blank))
}

fn uncounted_dead<L: Ledger>(index: &Index, name: &Name, blank: Blank) -> Option<Name>
    requires name { blank.name ≡ L.name }
    requires parts { blank.parts ≡ L.parts }
    requires some { 0 < blank.parts }
    ensures { OfEach (IsOf index.now) (λ past. result ≡ dead_words.dead past name.now) }
{
    index.dead_in(name, &mut Steps::<L>::none(blank))
}
