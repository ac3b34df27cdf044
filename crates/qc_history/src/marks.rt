//! How far the sessions are marked.
ghost use Rattle.std.specs.Prelude.{◌≡◌, ℕ, ◌≤◌, [], ◌∷◌, ◌||◌, Some, nat_le};
ghost use Rattle.qc_event.specs.History.{Past};
ghost use Rattle.qc_event.specs.Users as users;
ghost use Rattle.qc_event.specs.Users.{is_marked};
ghost use Rattle.qc_history.specs.Standing.{OfEach};
ghost use Rattle.qc_history.specs.Marks.{AreMarks, reaches};

use qc_event::{Entry, Event, Name};

/// How many sessions may be marked.
const SESSIONS: usize = 16;

// By whom which session is marked, where the entry is a mark.
fn mark_of(entry: &Entry) -> Option<(Name, u8)>
    ensures { result ≡ users.mark_of entry.now.event }
{
    match &entry.event {
        Event::Mark { by, session } => Some((*by, *session)),
        _ => None,
    }
}

// The number of a name's top.
fn top_number(name: &Name) -> u64
    ensures { result ≡ users.top_number name.now }
{
    match name.number(0) {
        Some(number) => number,
        None => 0,
    }
}

// The greater of a number and what there was.
fn greater(old: Option<u64>, number: u64) -> u64
    ensures { (k : ℕ) → reaches (Some result) k ≡ (nat_le k number || reaches old k) }
{
    match old {
        Some(greatest) if greatest > number => greatest,
        _ => number,
    }
}

/// For each session that may be marked, the greatest number of a top that marked it.
#[derive(Debug, Drop)]
pub struct Marks {
    greatest: [Option<u64>; SESSIONS],
}

impl Marks {
    /// No marks.
    pub(crate) fn new() -> Self
        ensures { AreMarks result [] }
    {
        Marks {
            greatest: [None; SESSIONS],
        }
    }

    /// Takes in an entry.
    pub(crate) fn push(&mut self, entry: &Entry)
        ensures { (past : Past) → AreMarks self.old past →
            AreMarks self.new (entry.now ∷ past) }
    {
        let Some((by, session)) = mark_of(entry) else {
            return;
        };
        let at = session as usize;
        if at < SESSIONS {
            self.greatest[at] = Some(greater(self.greatest[at], top_number(&by)));
        }
    }

    /// Whether a session is marked by a top with at least the number of a name's top.
    pub(crate) fn reach(&self, session: u8, name: &Name) -> bool
        ensures { OfEach (AreMarks self.now)
            (λ past. result ≡ is_marked past session (users.top_number name.now)) }
    {
        let at = session as usize;
        if at >= SESSIONS {
            return false;
        }
        match self.greatest[at] {
            Some(greatest) => top_number(name) <= greatest,
            None => false,
        }
    }
}
