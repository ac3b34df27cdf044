//! What an index keeps of each name.
ghost use Rattle.std.specs.Prelude.{◌≡◌, ◌+◌, ◌<◌, ◌≤◌, ◌^◌, [], ◌∷◌, ◌++◌, None, Some, OnOk, OnErr, length, slice_get, slice_set};
ghost use Rattle.std.specs.Ordering.{nat_cmp};
ghost use Rattle.std.specs.BTreeMap.{Updates, IsUnchanged, btree_map_len, get};
ghost use Rattle.qc_history.specs.Spots as spots;

use crate::steps::Steps;
use qc_event::Outcome;
use std::alloc::{AllocError, Global};
use std::collections::BTreeMap;
use std::marker::Model;
use std::sync::ledger::Ledger;

/// What is known of a started name: how it stands, the places of its start, its end and its ready entry
/// among the entries, and the places of its children's nodes, in order of their starts.
#[derive(Debug, Drop)]
pub struct Node {
    start: u32,
    outcome: Outcome,
    end: Option<u32>,
    ready: Option<u32>,
    children: Vec<u32>,
}

impl Node {
    // A node of a name that starts now.
    fn new(alloc: Global, start: u32) -> Self
        ensures { spots.spot result ≡ spots.new_spot (Some start) }
    {
        Node {
            start,
            outcome: Outcome::Live,
            end: None,
            ready: None,
            children: Vec::new(alloc),
        }
    }

    /// The place of its start among the entries.
    pub fn start(&self) -> u32
        ensures { Some result ≡ (spots.spot self.now).start }
    {
        self.start
    }

    /// How the name stands.
    pub fn outcome(&self) -> Outcome
        ensures { result ≡ (spots.spot self.now).outcome }
    {
        self.outcome
    }

    /// The place of its end among the entries.
    pub fn end(&self) -> Option<u32>
        ensures { result ≡ (spots.spot self.now).end }
    {
        self.end
    }

    /// The place of its ready entry among the entries.
    pub fn ready(&self) -> Option<u32>
        ensures { result ≡ (spots.spot self.now).ready }
    {
        self.ready
    }

    /// The places of its children's nodes.
    pub fn children(&self) -> &[u32]
        ensures { result.now ≡ (spots.spot self.now).children }
    {
        self.children.as_slice()
    }

    /// The place of the child with a number.
    pub fn child(&self, number: u64) -> Option<u32>
        ensures { result ≡ spots.child_at (spots.spot self.now).children number }
    {
        if number == 0 {
            return None;
        }
        self.children.get((number - 1) as usize).copied()
    }

    // One child more.
    fn adopt(&mut self, child: u32) -> Result<(), AllocError>
        ensures ok { OnOk result
            (spots.spot self.new ≡ spots.with_child child (spots.spot self.old)) }
        ensures err { OnErr result (spots.spot self.new ≡ spots.spot self.old) }
    {
        self.children.push(child)?;
        Ok(())
    }

    fn close(&mut self, outcome: Outcome, place: u32)
        ensures { spots.spot self.new ≡ spots.with_end outcome place (spots.spot self.old) }
    {
        self.outcome = outcome;
        self.end = Some(place);
    }

    fn make_ready(&mut self, place: u32)
        ensures { spots.spot self.new ≡ spots.with_ready place (spots.spot self.old) }
    {
        self.ready = Some(place);
    }
}

fn add_top(
    alloc: Global,
    list: &mut Vec<Node>,
    tops: &mut BTreeMap<u64, u32>,
    number: u64,
    start: u32,
) -> Result<(), AllocError>
    requires { length list.old.items < 2 ^ 32 }
    ensures added { OnOk result (spots.spots list.new.items
        ≡ spots.spots list.old.items ++ spots.new_spot (Some start) ∷ []) }
    ensures top { OnOk result
        (Updates nat_cmp tops.old tops.new number (Some (length list.old.items))) }
    ensures count { get nat_cmp tops.old number ≡ None → OnOk result
        (btree_map_len tops.new ≡ btree_map_len tops.old + 1) }
    ensures err { OnErr result (spots.spots list.new.items ≡ spots.spots list.old.items) }
    ensures err_tops { OnErr result (IsUnchanged tops.old tops.new) }
{
    list.reserve(1)?;
    tops.insert(number, list.len() as u32)?;
    list.push_reserved(Node::new(alloc, start));
    Ok(())
}

fn add_child(alloc: Global, list: &mut Vec<Node>, parent: u32, start: u32) -> Result<(), AllocError>
    requires within { parent < length list.old.items }
    requires room { length list.old.items < 2 ^ 32 }
    ensures added { OnOk result (spots.spots list.new.items
        ≡ spots.changed (spots.spots list.old.items) parent (spots.with_child (length list.old.items))
        ++ spots.new_spot (Some start) ∷ []) }
    ensures err { OnErr result (spots.spots list.new.items ≡ spots.spots list.old.items) }
{
    list.reserve(1)?;
    let at = list.len() as u32;
    list[parent as usize].adopt(at)?;
    list.push_reserved(Node::new(alloc, start));
    Ok(())
}

fn set_end(list: &mut Vec<Node>, at: u32, outcome: Outcome, place: u32)
    requires { at < length list.old.items }
    ensures { spots.spots list.new.items
        ≡ spots.changed (spots.spots list.old.items) at (spots.with_end outcome place) }
{
    list[at as usize].close(outcome, place);
}

fn set_ready(list: &mut Vec<Node>, at: u32, place: u32)
    requires { at < length list.old.items }
    ensures { spots.spots list.new.items
        ≡ spots.changed (spots.spots list.old.items) at (spots.with_ready place) }
{
    list[at as usize].make_ready(place);
}

/// The nodes, in order of the starts of their names.
#[derive(Debug, Drop)]
pub struct Nodes {
    list: Vec<Node>,
}

impl Model for Nodes {
    ghost use Rattle.std.specs.Prelude.{List};
    ghost use Rattle.qc_history.specs.Spots.{Spot, spots, AreWithin, AreFewer};

    ghost Value = { List Spot };

    ghost view = { λ n. spots n.list.items };

    ghost invariant = { λ n. record {
      within : AreWithin (spots n.list.items);
      fewer : AreFewer (spots n.list.items);
    } };
}

impl Nodes {
    /// No nodes. It takes no memory.
    pub fn new(alloc: Global) -> Self
        ensures { result ≡ [] }
    {
        Nodes {
            list: Vec::new(alloc),
        }
    }

    /// How many there are.
    pub fn len(&self) -> usize
        ensures { result ≡ length self.now }
    {
        self.list.len()
    }

    /// Reads a node, in one step.
    pub fn node<L: Ledger>(&self, at: u32, steps: &mut Steps<L>) -> &Node
        requires { at < length self.now }
        ensures node { slice_get self.now at ≡ Some (spots.spot result.now) }
        ensures within { spots.AreWithin self.now }
        ensures fewer { spots.AreFewer self.now }
        ensures step { steps.new ≡ steps.old + 1 }
    {
        steps.tick();
        &self.list[at as usize]
    }

    /// A node more, of a new top with a number. An error leaves all as it was.
    pub(crate) fn add_top(
        &mut self,
        alloc: Global,
        tops: &mut BTreeMap<u64, u32>,
        number: u64,
        start: u32,
    ) -> Result<(), AllocError>
        requires { length self.old < 2 ^ 32 }
        ensures added { OnOk result (self.new ≡ self.old ++ spots.new_spot (Some start) ∷ []) }
        ensures top { OnOk result
            (Updates nat_cmp tops.old tops.new number (Some (length self.old))) }
        ensures count { get nat_cmp tops.old number ≡ None → OnOk result
            (btree_map_len tops.new ≡ btree_map_len tops.old + 1) }
        ensures err { OnErr result (self.new ≡ self.old) }
        ensures err_tops { OnErr result (IsUnchanged tops.old tops.new) }
    {
        add_top(alloc, &mut self.list, tops, number, start)
    }

    /// A node more, of the next child of a name. An error leaves all as it was.
    pub(crate) fn add_child(
        &mut self,
        alloc: Global,
        parent: u32,
        start: u32,
    ) -> Result<(), AllocError>
        requires within { parent < length self.old }
        requires room { length self.old < 2 ^ 32 }
        ensures added { OnOk result
            (self.new ≡ spots.changed self.old parent (spots.with_child (length self.old))
            ++ spots.new_spot (Some start) ∷ []) }
        ensures err { OnErr result (self.new ≡ self.old) }
    {
        add_child(alloc, &mut self.list, parent, start)
    }

    /// Notes the end of a name.
    pub(crate) fn set_end(&mut self, at: u32, outcome: Outcome, place: u32)
        requires { at < length self.old }
        ensures { self.new ≡ spots.changed self.old at (spots.with_end outcome place) }
    {
        set_end(&mut self.list, at, outcome, place);
    }

    /// Notes that a name is ready.
    pub(crate) fn set_ready(&mut self, at: u32, place: u32)
        requires { at < length self.old }
        ensures { self.new ≡ spots.changed self.old at (spots.with_ready place) }
    {
        set_ready(&mut self.list, at, place);
    }
}
