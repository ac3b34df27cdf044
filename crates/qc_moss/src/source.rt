//! What tells how names stand.
ghost use Rattle.std.specs.Prelude.{◌≡◌};
ghost use Rattle.qc_event.specs.Dead as dead_words;
ghost use Rattle.qc_event.specs.History.{Past};

use qc_event::Outcome;
use qc_names::Name;

/// What tells how names stand in a history, which need not be a legal one. It only tells: what takes in entries
/// too, and tells of legal histories alone, can be lent as one.
pub trait Source {
    /// Whether it tells of a history.
    ghost tells: { Self → Past → Type 0 };

    /// How a name stands.
    fn outcome(&self, name: &Name) -> Outcome
        ensures { (past : Past) → tells self.now past → result ≡ dead_words.outcome past name.now };

    /// The shortest aborted ancestor of a name.
    fn dead(&self, name: &Name) -> Option<Name>
        ensures { (past : Past) → tells self.now past → result ≡ dead_words.dead past name.now };
}
