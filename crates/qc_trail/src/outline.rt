//! What an entry is of, without its values.
ghost use Rattle.std.specs.Prelude.{◌≡◌};
ghost use Rattle.qc_trail.specs.Outline.{kind_outline, outline_of};

use qc_event::{Event, How, Kind, Name, Op};

/// What an entry is of, without its values: some 150 bytes, where an event takes more than 2,000.
#[derive(Clone, Copy, Debug)]
pub enum Outline {
    /// A user transaction or a manager starts.
    Start { name: Name },
    /// An access starts.
    StartAccess { name: Name },
    /// A copy grants a put.
    Put,
    /// A top is ready.
    Ready { top: Name },
    /// A transaction commits.
    Commit { name: Name },
    /// A transaction is aborted.
    Abort { name: Name },
    /// What else happens to accesses and at copies.
    Other,
}

// The outline of a start.
fn start_of(name: &Name, kind: &Kind) -> Outline
    ensures { result ≡ kind_outline name.now kind.now }
{
    match kind {
        Kind::Access => Outline::StartAccess { name: *name },
        _ => Outline::Start { name: *name },
    }
}

impl Outline {
    /// The outline of an event.
    pub fn of(event: &Event) -> Self
        ensures { result ≡ outline_of event.now }
    {
        match event {
            Event::Start { name, kind } => start_of(name, kind),
            Event::Granted { grant, .. } => match grant.op {
                Op::Get => Outline::Other,
                Op::PutData { .. } | Op::PutConfig { .. } => Outline::Put,
            },
            Event::Ready { top } => Outline::Ready { top: *top },
            Event::End { name, how } => match how {
                How::Commit(_) => Outline::Commit { name: *name },
                How::Abort(_) => Outline::Abort { name: *name },
            },
            _ => Outline::Other,
        }
    }
}
