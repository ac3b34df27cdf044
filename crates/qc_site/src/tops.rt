//! Logged tops, found by their numbers.
ghost use Rattle.std.specs.Prelude.{◌≡◌, IfOk, IfSome};
ghost use Rattle.std.specs.List.{list_any};
ghost use Rattle.qc_codec.specs.Restored as kept;
ghost use Rattle.qc_names.specs.Name as name;
ghost use Rattle.qc_site.specs.Places.{ArePlaces};

use qc_codec::Logged;
use qc_event::Name;
use std::alloc::{AllocError, Global};
use std::collections::BTreeMap;

/// Where the logged top of each number stands; nothing where two are the same, as no ledger tells them.
pub(crate) type Places = Option<BTreeMap<u64, usize>>;

// Whether one of the names is above an access.
fn are_above(names: &[Name], access: &Name) -> bool
    ensures { result ≡ list_any (λ n. name.is_ancestor n access.now) names.now }
{
    for name in names {
        if name.is_ancestor(access) {
            return true;
        }
    }
    false
}

// Whether a logged top is above an access, and none of those listed is.
fn keeps(logged: &Logged, access: &Name) -> bool
    ensures { result ≡ kept.keeps access.now logged.now }
{
    logged.top.is_ancestor(access) && !are_above(logged.aborted.as_slice(), access)
}

// Whether a logged top keeps what an access did, by a look at each.
fn is_kept_by_one(tops: &[Logged], access: &Name) -> bool
    ensures { result ≡ kept.is_kept tops.now access.now }
{
    for logged in tops {
        if keeps(logged, access) {
            return true;
        }
    }
    false
}

// Whether a logged top keeps what an access did, by the place of its number.
fn is_kept_at(tops: &[Logged], places: &BTreeMap<u64, usize>, access: &Name) -> bool
    requires { ArePlaces places.now tops.now }
    ensures { result ≡ kept.is_kept tops.now access.now }
{
    let Some(number) = access.number(0) else {
        return false;
    };
    match places.get(&number) {
        Some(place) => keeps(&tops[*place], access),
        None => false,
    }
}

/// The places of logged tops.
pub(crate) fn places_of(alloc: Global, tops: &[Logged]) -> Result<Places, AllocError>
    ensures { IfOk result (λ places. IfSome places (λ p. ArePlaces p tops.now)) }
{
    let mut places = BTreeMap::new(alloc);
    for index in 0..tops.len() {
        let top = &tops[index].top;
        let (1, Some(number)) = (top.len(), top.number(0)) else {
            return Ok(None);
        };
        if places.insert(number, index)?.is_some() {
            return Ok(None);
        }
    }
    Ok(Some(places))
}

/// Whether a logged top keeps what an access did.
pub(crate) fn is_kept(tops: &[Logged], places: &Places, access: &Name) -> bool
    requires { IfSome places.now (λ p. ArePlaces p tops.now) }
    ensures { result ≡ kept.is_kept tops.now access.now }
{
    match places {
        Some(places) => is_kept_at(tops, places, access),
        None => is_kept_by_one(tops, access),
    }
}
