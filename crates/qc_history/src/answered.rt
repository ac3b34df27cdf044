//! What copies answered to accesses.
ghost use Rattle.std.specs.Prelude.{◌≡◌, option_and_then};
ghost use Rattle.qc_history.specs.Grants as grants;
ghost use Rattle.qc_history.specs.Grants.{given_of, tuple_at};
ghost use Rattle.qc_history.specs.Refusals as refusals;

use qc_event::{Entry, Event, Name, Refusal, Tuple};

/// Whom the entry refuses.
pub(crate) fn refused_name(entry: &Entry) -> Option<Name>
    ensures { result ≡ refusals.refused_name entry.now.event }
{
    match &entry.event {
        Event::Refused { access, .. } => Some(*access),
        _ => None,
    }
}

/// The refusal, where the entry is one.
pub(crate) fn refusal_of(entry: &Entry) -> Option<Refusal>
    ensures { result ≡ refusals.refusal_of entry.now.event }
{
    match &entry.event {
        Event::Refused { refusal, .. } => Some(*refusal),
        _ => None,
    }
}

/// Whom the entry grants.
pub(crate) fn granted_name(entry: &Entry) -> Option<Name>
    ensures { result ≡ grants.granted_name entry.now.event }
{
    match &entry.event {
        Event::Granted { grant, .. } => Some(grant.access),
        _ => None,
    }
}

/// The tuple that a copy grants, where the entry is its grant.
pub(crate) fn tuple_of(entry: &Entry, copy: u8) -> Option<Tuple>
    ensures { result ≡ option_and_then (tuple_at copy) (given_of entry.now.event) }
{
    match &entry.event {
        Event::Granted { copy: giver, grant } if *giver == copy => Some(grant.tuple),
        _ => None,
    }
}
