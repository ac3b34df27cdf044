//! Whom an entry is about.
ghost use Rattle.std.specs.Prelude.{◌≡◌};
ghost use Rattle.qc_history.specs.Grants as grants;
ghost use Rattle.qc_looks.specs.Subjects as words;

use qc_event::{Entry, Event, Name, Why};

/// Who asks by the entry.
pub(crate) fn asked_name(entry: &Entry) -> Option<Name>
    ensures { result ≡ words.asked_name entry.now.event }
{
    match &entry.event {
        Event::Ask(ask) => Some(ask.access),
        _ => None,
    }
}

/// Whom the entry gives up.
pub(crate) fn gone_name(entry: &Entry) -> Option<Name>
    ensures { result ≡ words.gone_name entry.now.event }
{
    match &entry.event {
        Event::Gone { access, .. } => Some(*access),
        _ => None,
    }
}

/// Whom the entry grants.
pub(crate) fn granted_name(entry: &Entry) -> Option<Name>
    ensures { result ≡ grants.granted_name entry.now.event }
{
    match &entry.event {
        Event::Granted { grant, .. } => Some(grant.access),
        _ => None,
    }
}

/// Who could not be served for this reason, by the entry.
pub(crate) fn unable_name(entry: &Entry, why: Why) -> Option<Name>
    ensures { result ≡ words.unable_name why entry.now.event }
{
    match &entry.event {
        Event::Unable { name, why: told } if why == *told => Some(*name),
        _ => None,
    }
}
