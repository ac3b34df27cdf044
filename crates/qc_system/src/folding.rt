//! How the pairs of a store are folded, one after another.
ghost use Rattle.std.specs.Prelude.{◌≡◌, ◌≢◌, ◌↔◌, ◌&&◌, not, true, false};

use qc_desk::{Pass, Store};

/// What became of the fold of a pair.
#[derive(Clone, Copy)]
pub(crate) enum Outcome {
    Folded,
    /// It was refused, or a top had no end.
    Refused,
    /// Memory was wanting.
    Wanting,
}

/// How far the folds of a store's pairs have come.
#[derive(Drop)]
pub(crate) struct Folding<N: Store> {
    /// A note of what was seen before the first.
    pub(crate) since: Pass<N>,
    /// Whether there are any: each top has its end, and the ledger is up.
    pub(crate) may: bool,
    /// Whether each pair up to now was folded.
    pub(crate) whole: bool,
    /// Whether memory was wanting.
    pub(crate) wanting: bool,
    ghost begun: { whole ≡ true → may ≡ true },
}

impl<N: Store> Folding<N> {
    /// None was folded up to now. A ledger that is down where each top has its end is so for want of memory: a top that
    /// it was unable to log has none.
    pub(crate) fn new(since: Pass<N>, ended: bool, is_up: bool) -> Self
        ensures since { result.since ≡ since }
        ensures whole { result.whole ≡ (ended && is_up) }
        ensures wanting { result.wanting ≡ (ended && not is_up) }
    {
        let may = ended && is_up;
        Folding {
            since,
            may,
            whole: may,
            wanting: ended && !is_up,
        }
    }

    /// One more pair was folded, or not.
    pub(crate) fn note(&mut self, outcome: Outcome)
        ensures since { self.new.since ≡ self.old.since }
        ensures may { self.new.may ≡ self.old.may }
        ensures whole { self.new.whole ≡ true
            ↔ ((self.old.whole ≡ true) × (outcome ≡ Outcome.Folded)) }
        ensures wanting { self.new.wanting ≡ false
            ↔ ((self.old.wanting ≡ false) × (outcome ≢ Outcome.Wanting)) }
    {
        match outcome {
            Outcome::Folded => {}
            Outcome::Refused => self.whole = false,
            Outcome::Wanting => {
                self.whole = false;
                self.wanting = true;
            }
        }
    }
}
