//! What a history is asked for.
ghost use Rattle.std.specs.Prelude.{◌≡◌, ◌↔◌, ◌<◌, IsTrue, MatchOption, Some, is_none, length, slice_get};
ghost use Rattle.qc_event.specs.Base.{Setting};
ghost use Rattle.qc_event.specs.Dead as dead_words;
ghost use Rattle.qc_event.specs.History as words;
ghost use Rattle.qc_event.specs.History.{Past};
ghost use Rattle.qc_event.specs.Requests as requests;
ghost use Rattle.qc_event.specs.Seen as seen_words;
ghost use Rattle.qc_event.specs.Standing as standing;
ghost use Rattle.qc_event.specs.Users as users;

use crate::scan::{Begun, Given, Request};
use qc_event::{Ask, Cause, How, Name, Refusal, Tuple, Why};

/// What tells of a history: of its names, of what managers asked, and of what copies hold.
pub trait Looks {
    /// The history, its latest entry first.
    ghost past: { Self → Past };

    /// From what the history starts.
    ghost setting: { Self → Setting };

    /// The start of a name.
    fn start(&self, n: &Name) -> Option<Begun>
        ensures { result ≡ words.start (past self.now) n.now };

    /// How a name ended.
    fn end(&self, n: &Name) -> Option<How>
        ensures { result ≡ words.end (past self.now) n.now };

    /// Whether a name is ready.
    fn is_ready(&self, n: &Name) -> bool
        ensures { result ≡ words.is_ready (past self.now) n.now };

    /// The shortest aborted ancestor of a name.
    fn dead(&self, n: &Name) -> Option<Name>
        ensures { result ≡ dead_words.dead (past self.now) n.now };

    /// How many children of a name have started.
    fn children(&self, n: &Name) -> usize
        ensures { result ≡ length (words.children (past self.now) n.now) };

    /// Whether each started child of a name has its end.
    fn children_ended(&self, n: &Name) -> bool
        ensures { result ≡ is_none (standing.open_child (past self.now) n.now) };

    /// Whether a manager child of a transaction was aborted with a cause.
    fn is_child_aborted(&self, n: &Name, cause: &Cause) -> bool
        ensures { IsTrue result ↔ users.ChildAborted (past self.now) n.now cause.now };

    /// Whether a mark of a session stands, by a transaction whose top has at least a number.
    fn is_marked(&self, session: u8, number: u64) -> bool
        ensures { result ≡ users.is_marked (past self.now) session number };

    /// The request of an access.
    fn asked(&self, access: &Name) -> Option<Request>
        ensures { result ≡ words.asked (past self.now) access.now };

    /// Why an access first got no answer.
    fn gone(&self, access: &Name) -> Option<Why>
        ensures { result ≡ words.gone (past self.now) access.now };

    /// The grant of an access.
    fn granted(&self, access: &Name) -> Option<Given>
        ensures { result ≡ words.granted (past self.now) access.now };

    /// The first refusal of an access.
    fn refused(&self, access: &Name) -> Option<Refusal>
        ensures { result ≡ words.refused (past self.now) access.now };

    /// Whether an entry tells that a name could not be served, for this reason.
    fn was_unable(&self, n: &Name, why: Why) -> bool
        ensures { result ≡ requests.was_unable (past self.now) n.now why };

    /// How often a manager's accesses asked.
    fn asks(&self, m: &Name) -> usize
        ensures { result ≡ length (words.asks (past self.now) m.now) };

    /// A request of a manager's accesses, by its place among them, counted from 0.
    fn ask(&self, m: &Name, k: usize) -> Ask
        requires { k < length (words.asks (past self.now) m.now) }
        ensures { slice_get (words.asks (past self.now) m.now) k ≡ Some result };

    /// The access of the first grant at a copy that is in a request's way.
    fn holder(&mut self, ask: &Ask) -> Option<Name>
        requires asked { MatchOption (words.asked (past self.old) ask.now.access) ⊥
            (λ a. a.ask ≡ ask.now) }
        ensures holder { result ≡ seen_words.holder (past self.old) ask.now.copy ask.now.rec
            ask.now.op ask.now.access }
        ensures past { past self.new ≡ past self.old }
        ensures setting { setting self.new ≡ setting self.old };

    /// What a copy holds of the record of a request.
    fn held(&mut self, ask: &Ask) -> Tuple
        requires asked { MatchOption (words.asked (past self.old) ask.now.access) ⊥
            (λ a. a.ask ≡ ask.now) }
        ensures held { result
            ≡ seen_words.seen (setting self.old).base (past self.old) ask.now.copy ask.now.rec }
        ensures past { past self.new ≡ past self.old }
        ensures setting { setting self.new ≡ setting self.old };
}
