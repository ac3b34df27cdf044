//! The last values, by the versions of the tuples.
ghost use Rattle.std.specs.Prelude.{◌≡◌, ◌<◌, ◌≤◌, ◌&&◌, ◌++◌, ◌∷◌, [], ℕ, List, Some, length, map, not, reverse, slice_get, IfOk};
ghost use Rattle.std.specs.List.{range_with_len};
ghost use Rattle.qc_config.specs.declared.tuple.Tuple.{Tuple};
ghost use Rattle.qc_event.specs.Clear.{is_get};
ghost use Rattle.qc_event.specs.declared.event.Entry.{Entry};
ghost use Rattle.qc_event.specs.Sound.{column};
ghost use Rattle.qc_refine.specs.Final as spec;
ghost use Rattle.qc_report.specs.LastValues as last;

use crate::history::History;
use qc_event::{Base, Event, Grant, Name, Op, Tuple, Val};
use qc_trail::Outline;
use std::alloc::{AllocError, Global};
use std::marker::Model;

/// The greatest version among tuples, and its value.
#[derive(Clone, Copy)]
struct Best {
    version: u64,
    value: Val,
}

impl Model for Best {
    ghost use Rattle.qc_event.specs.Manager as words;

    ghost Value = { words.Greatest };

    ghost view = { λ b. record { version = b.version; value = b.value } };

    ghost inverse = { λ v. record { version = v.version; value = v.value } };
}

impl Best {
    /// The version and the value of a tuple.
    fn of(tuple: &Tuple) -> Self
        ensures { result ≡ last.best tuple.now }
    {
        Best {
            version: tuple.version,
            value: tuple.value,
        }
    }

    fn value(&self) -> Val
        ensures { result ≡ self.now.value }
    {
        self.value
    }
}

/// Whether a tuple has a greater version than the best of others. It has where there are no others.
fn is_greater(best: Option<Best>, tuple: &Tuple) -> bool
    ensures { result ≡ last.is_greater best tuple.now }
{
    match best {
        Some(best) => best.version < tuple.version,
        None => true,
    }
}

/// The best of others and one more tuple.
fn raised(best: Option<Best>, tuple: &Tuple) -> Option<Best>
    ensures { result ≡ last.raised best tuple.now }
{
    match best {
        Some(best) if best.version >= tuple.version => Some(best),
        _ => Some(Best {
            version: tuple.version,
            value: tuple.value,
        }),
    }
}

/// Whether each ancestor of an access but the root is committed, itself too.
fn is_for_good(history: &History<'_>, access: &Name) -> bool
    ensures { result ≡ spec.is_for_good (reverse history.now) access.now }
{
    for len in 1..access.len() + 1 {
        if !history.outcome(&access.ancestor(len)).is_committed() {
            return false;
        }
    }
    true
}

/// Whether a grant left a greater version than the best, for good. The history is asked last.
fn raises(best: Option<Best>, history: &History<'_>, grant: &Grant) -> bool
    ensures { result ≡ (not (is_get grant.now.op) && last.is_greater best grant.now.tuple
        && spec.is_for_good (reverse history.now) grant.now.access) }
{
    !matches!(grant.op, Op::Get)
        && is_greater(best, &grant.tuple)
        && is_for_good(history, &grant.access)
}

/// Takes in what an entry left for good.
fn take_in(bests: &mut Vec<Option<Best>>, history: &History<'_>, event: &Event)
    ensures best { (tuples : ℕ → List Tuple) → last.AreBest tuples bests.old.items
        → last.AreBest (last.with_put (reverse history.now) event.now tuples) bests.new.items }
    ensures len { length bests.new.items ≡ length bests.old.items }
{
    let Event::Granted { grant, .. } = event else {
        return;
    };
    let rec = usize::from(grant.rec);
    if rec < bests.len() && raises(bests[rec], history, grant) {
        bests[rec] = Some(Best::of(&grant.tuple));
    }
}

/// Takes in what the entry at a place of the history left for good. It builds the event of a put alone.
fn take_in_at(bests: &mut Vec<Option<Best>>, history: &History<'_>, at: usize)
    requires { at < length history.now }
    ensures best { (entry : Entry) → slice_get history.now at ≡ Some entry
        → (tuples : ℕ → List Tuple) → last.AreBest tuples bests.old.items
        → last.AreBest (last.with_put (reverse history.now) entry.event tuples)
        bests.new.items }
    ensures len { length bests.new.items ≡ length bests.old.items }
{
    let trail = history.trail();
    if let Outline::Put = trail.outline(at) {
        take_in(bests, history, &trail.at(at).event);
    }
}

/// The best of the tuples with which the copies of a record start.
fn start_best(base: &Base, rec: u8) -> Option<Best>
    requires { length base.now ≤ 16 }
    ensures { result ≡ last.best_of (column base.now rec) }
{
    let mut best = None;
    for copy in 0..base.copies() as u8 {
        best = raised(best, &base.tuple(copy, rec));
    }
    best
}

/// The best of the tuples with which the copies start, record by record.
fn start_bests(alloc: Global, base: &Base, records: usize) -> Result<Vec<Option<Best>>, AllocError>
    requires copies { length base.now ≤ 16 }
    requires records { records ≤ 64 }
    ensures { IfOk result (λ bests. bests.items
        ≡ map (λ rec. last.best_of (column base.now rec)) (range_with_len 0 records)) }
{
    let mut bests = Vec::new(alloc);
    for rec in 0..records as u8 {
        bests.push(start_best(base, rec))?;
    }
    Ok(bests)
}

/// The value of the best; the number 0 where there is none.
fn value_of(best: Option<Best>) -> Val
    ensures { result ≡ last.value_of best }
{
    match best {
        Some(best) => best.value(),
        None => Val::number(0),
    }
}

/// The values of the best, record by record.
fn values_of(alloc: Global, bests: &[Option<Best>]) -> Result<Vec<Val>, AllocError>
    ensures { IfOk result (λ values. values.items ≡ map last.value_of bests.now) }
{
    bests.iter().map(|best| value_of(*best)).collect(alloc)
}

/// The last value of each record: that of the greatest version among the start tuples and
/// the granted puts whose every ancestor but the root is committed. Of equals it is the first, start
/// tuples by copy before puts in their order. It goes over the entries once, and asks the history for each
/// ancestor of a put whose version is greater than the best so far.
pub fn finals(
    alloc: Global,
    base: &Base,
    history: &History<'_>,
    records: usize,
) -> Result<Vec<Val>, AllocError>
    requires copies { length base.now ≤ 16 }
    requires records { records ≤ 64 }
    ensures { IfOk result
        (λ values. values.items ≡ last.values_by_version base.now (reverse history.now) records) }
{
    let mut bests = start_bests(alloc, base, records)?;
    let trail = history.trail();
    for at in 0..trail.len() {
        take_in_at(&mut bests, history, at);
    }
    values_of(alloc, bests.as_slice())
}
