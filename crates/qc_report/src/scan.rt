//! Slow scans of a trail, for one that has no index.
ghost use Rattle.std.specs.Prelude.{◌≡◌, reverse};
ghost use Rattle.qc_event.specs.Dead as spec;
ghost use Rattle.qc_event.specs.History.{kind_of};
ghost use Rattle.qc_history.specs.Looking.{is_of_access};

use qc_event::{Event, How, Kind, Name, Outcome};
use qc_trail::Trail;

/// What a name was started for. It takes no memory.
pub(crate) fn kind(trail: &Trail, n: &Name) -> Option<Kind>
    ensures { result ≡ kind_of (reverse trail.now) n.now }
{
    for at in 0..trail.len() {
        let entry = trail.at(at);
        if let Event::Start { name, kind } = &entry.event {
            if name == n {
                return Some(*kind);
            }
        }
    }
    None
}

/// Whether a name was started as an access. It takes no memory.
pub(crate) fn is_access(trail: &Trail, n: &Name) -> bool
    ensures { result ≡ is_of_access (kind_of (reverse trail.now) n.now) }
{
    matches!(kind(trail, n), Some(Kind::Access))
}

/// How a transaction stands. It takes no memory.
pub(crate) fn outcome(trail: &Trail, n: &Name) -> Outcome
    ensures { result ≡ spec.outcome (reverse trail.now) n.now }
{
    for at in 0..trail.len() {
        let entry = trail.at(at);
        if let Event::End { name, how } = &entry.event {
            if name == n {
                return match how {
                    How::Commit(_) => Outcome::Committed,
                    How::Abort(_) => Outcome::Aborted,
                };
            }
        }
    }
    Outcome::Live
}
