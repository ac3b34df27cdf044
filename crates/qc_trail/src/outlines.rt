//! What entries in brief are of.
ghost use Rattle.std.specs.Prelude.{◌≡◌};
ghost use Rattle.qc_trail.specs.Outline.{outline_of};
ghost use Rattle.qc_trail.specs.Told.{IsWithin, event_told};

use crate::brief::{Brief, BriefOp};
use crate::lists::Lists;
use crate::outline::Outline;

impl Lists {
    /// What the event is of that one in brief tells.
    pub(crate) fn outline(&self, brief: &Brief) -> Outline
        requires { IsWithin self.now brief.now }
        ensures { result ≡ outline_of (event_told self.now brief.now) }
    {
        match brief {
            Brief::StartUser { name, .. }
            | Brief::StartRead { name, .. }
            | Brief::StartNumber { name, .. }
            | Brief::StartText { name, .. } => Outline::Start {
                name: self.name(*name),
            },
            Brief::StartAccess { name } => Outline::StartAccess {
                name: self.name(*name),
            },
            Brief::Grant { op, .. } => match op {
                BriefOp::Get => Outline::Other,
                BriefOp::PutData { .. } | BriefOp::PutConfig { .. } => Outline::Put,
            },
            Brief::Ready { top } => Outline::Ready {
                top: self.name(*top),
            },
            Brief::Commit { name }
            | Brief::CommitNumber { name, .. }
            | Brief::CommitText { name, .. }
            | Brief::CommitReply { name, .. } => Outline::Commit {
                name: self.name(*name),
            },
            Brief::AskGet { .. } | Brief::AskNumber { .. } | Brief::AskText { .. } => {
                Outline::Other
            }
            Brief::Rare { at } => self.rares.outline(*at),
        }
    }
}
