//! What a history tells of names and records, by going over its entries.
ghost use Rattle.std.specs.Prelude.{◌≡◌, reverse};
ghost use Rattle.qc_event.specs.Base as base_words;
ghost use Rattle.qc_event.specs.Clear as clear_words;
ghost use Rattle.qc_event.specs.Dead as spec;
ghost use Rattle.qc_event.specs.History.{kind_of};
ghost use Rattle.qc_event.specs.Seen as seen_words;

use crate::base::Base;
use crate::event::{Entry, Event, Grant, How, Kind, Outcome};
use qc_config::{Op, Tuple};
use qc_names::Name;

/// What a name was started for in a history, the oldest entry first. It takes no memory.
pub fn kind(h: &[Entry], n: &Name) -> Option<Kind>
    ensures { result ≡ kind_of (reverse h.now) n.now }
{
    for e in h {
        if let Event::Start { name, kind } = &e.event {
            if name == n {
                return Some(*kind);
            }
        }
    }
    None
}

/// How a transaction stands in a history, the oldest entry first. It takes no memory.
pub fn outcome(h: &[Entry], n: &Name) -> Outcome
    ensures { result ≡ spec.outcome (reverse h.now) n.now }
{
    for e in h {
        if let Event::End { name, how } = &e.event {
            if name == n {
                return match how {
                    How::Commit(_) => Outcome::Committed,
                    How::Abort(_) => Outcome::Aborted,
                };
            }
        }
    }
    Outcome::Live
}

/// The shortest aborted ancestor, where there is one: then the name is dead. It takes no memory.
pub fn dead(h: &[Entry], n: &Name) -> Option<Name>
    ensures { result ≡ spec.dead (reverse h.now) n.now }
{
    for k in 0..n.len() + 1 {
        let ancestor = n.ancestor(k);
        if outcome(h, &ancestor).is_aborted() {
            return Some(ancestor);
        }
    }
    None
}

/// Whether an earlier access is clear for another: it is dead, or each of its ancestors that is none of
/// the other's is committed. It takes no memory.
pub fn clear(h: &[Entry], b: &Name, a: &Name) -> bool
    ensures { result ≡ clear_words.clear (reverse h.now) b.now a.now }
{
    if dead(h, b).is_some() {
        return true;
    }
    for k in 0..b.len() + 1 {
        let ancestor = b.ancestor(k);
        if !ancestor.is_ancestor(a) && !outcome(h, &ancestor).is_committed() {
            return false;
        }
    }
    true
}

/// What a copy holds of a record: its start tuple, changed by each put granted there that is not dead, in
/// order. It takes no memory.
pub fn seen(h: &[Entry], base: &Base, copy: u8, rec: u8) -> Tuple
    requires within { base_words.IsWithin base.now copy rec }
    ensures { result ≡ seen_words.seen base.now (reverse h.now) copy rec }
{
    let mut tuple = base.at(copy, rec);
    for e in h {
        if let Event::Granted { copy: c, grant } = &e.event {
            if *c == copy && grant.rec == rec && dead(h, &grant.access).is_none() {
                tuple = tuple.after(&grant.op);
            }
        }
    }
    tuple
}

fn conflict(a: &Op, b: &Op) -> bool
    ensures { result ≡ clear_words.conflict a.now b.now }
{
    !(matches!(a, Op::Get) && matches!(b, Op::Get))
}

fn is_in_way(h: &[Entry], rec: u8, op: &Op, access: &Name, grant: &Grant) -> bool
    ensures { result ≡ seen_words.is_in_way (reverse h.now) rec op.now access.now grant.now }
{
    grant.rec == rec && conflict(&grant.op, op) && !clear(h, &grant.access, access)
}

/// The access of the first grant at a copy and record that conflicts with an access's operation and is
/// not clear for it. It takes no memory.
pub fn holder(h: &[Entry], copy: u8, rec: u8, op: &Op, access: &Name) -> Option<Name>
    ensures { result ≡ seen_words.holder (reverse h.now) copy rec op.now access.now }
{
    for e in h {
        if let Event::Granted { copy: c, grant } = &e.event {
            if *c == copy && is_in_way(h, rec, op, access, grant) {
                return Some(grant.access);
            }
        }
    }
    None
}
