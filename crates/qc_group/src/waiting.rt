//! A ready top that waits to be logged.
ghost use Rattle.std.specs.Prelude.{◌≡◌, IsTrue, false, length};
ghost use Rattle.qc_event.specs.History.{is_ready};
ghost use Rattle.qc_event.specs.Listed.{listed};
ghost use Rattle.qc_desk.specs.Rules as rules_of_desk;

use qc_desk::{Desk, Pass, Store};
use qc_event::Name;

/// A ready top, the names that are listed of it, and a note that has seen that it is ready.
#[derive(Drop)]
pub struct Waiting<N: Store> {
    pub top: Name,
    pub aborted: Vec<Name>,
    pub pass: Pass<N>,
    ghost note: { pass.live ≡ false },
    ghost is_top: { length top ≡ 1 },
    ghost ready: { IsTrue (is_ready pass.seen top) },
    ghost listed: { aborted.items ≡ listed pass.seen top },
}

impl<N: Store> Waiting<N> {
    /// A top that the pass saw to be ready, with the names that are listed of it. Its note has seen what the pass has.
    /// It takes no memory.
    pub fn new(desk: &Desk<N>, pass: &mut Pass<N>, top: Name, aborted: Vec<Name>) -> Waiting<N>
        requires is_top { length top ≡ 1 }
        requires ready { IsTrue (is_ready pass.old.seen top) }
        requires listed { aborted.items ≡ listed pass.old.seen top }
        ensures top { result.top ≡ top }
        ensures aborted { result.aborted.items ≡ aborted.items }
        ensures note { result.pass ≡ rules_of_desk.note pass.old.seen }
        ensures same { pass.new ≡ pass.old }
    {
        Waiting {
            top,
            aborted,
            pass: desk.note(pass),
        }
    }
}
