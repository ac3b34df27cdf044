//! Who comes to a gate.
ghost use Rattle.std.specs.Prelude.{◌≡◌, []};

use qc_names::Name;

/// A session, or a branch of a step that runs bodies at once. What it is named by goes by its script and by what ran
/// before, never by threads: of a session it is its number, of a branch the transaction below which it stands, and how many
/// branches were made before by who made it.
#[derive(Debug, Clone, Copy, PartialEq, Eq)]
pub struct Walker {
    /// The transaction below which it stands, for a session the root.
    pub below: Name,
    /// Its number among those.
    pub place: u32,
}

impl Walker {
    /// The session with this number.
    pub fn session(number: u8) -> Self
        ensures root { result.below ≡ [] }
        ensures number { result.place ≡ number }
    {
        Walker {
            below: Name::root(),
            place: number as u32,
        }
    }
}
