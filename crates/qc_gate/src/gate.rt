//! The gate that sessions and branches pass.

use crate::walker::Walker;

/// What sessions and branches pass, one call after another, in threads each in its own. A gate may hold them up, and
/// changes nothing of what they do; where a method is not told, it does nothing. Of sessions that run in order none is told
/// by `opens`: nobody else comes while one of them waits.
pub trait Gate {
    /// So many sessions, numbered from 0 on, are about to run in threads. None of them has come yet.
    fn opens(&self, _sessions: u8) {}

    /// A session starts, before its first top.
    fn starts(&self, _session: u8) {}

    /// One passes, before each step, each begin and each end that it asks for.
    fn pass(&self, _who: &Walker) {}

    /// One made a branch, and begins its first transaction for it. The branch comes later, by its first `pass` or by its
    /// `ends`, and who made it waits from then on; where none of its branches is to come, they are told as `returns`.
    fn expects(&self, _who: &Walker, _branch: &Walker) {}

    /// One that made a branch goes on without it: it came and ended, or it never comes.
    fn returns(&self, _who: &Walker, _branch: &Walker) {}

    /// One has ended: it passes no more. Each session that is told by `opens` ends once, also where memory was wanting for
    /// its start; and so does each branch that comes.
    fn ends(&self, _who: &Walker) {}
}

/// A gate that is open.
#[derive(Debug, Clone, Copy)]
pub struct NoGate;

impl Gate for NoGate {}
