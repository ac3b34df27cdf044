//! What a case stands on.
ghost use Rattle.std.specs.Prelude.{IsSome};
ghost use Rattle.qc_journal.specs.Journal.{in_hand};

use qc_disk::HomeDisk;
use qc_journal::Journal;

/// A journal with a body in hand.
#[derive(Drop)]
pub(crate) struct Held {
    pub(crate) journal: Journal<HomeDisk>,
    ghost held: { IsSome (in_hand journal) },
}

/// What a case stands on.
#[derive(Drop)]
pub(crate) enum State {
    Nothing,
    Disk(HomeDisk),
    Journal(Journal<HomeDisk>),
    Held(Held),
}

impl State {
    /// The disk below it: a journal ends.
    pub(crate) fn into_disk(self) -> Option<HomeDisk> {
        match self {
            State::Nothing => None,
            State::Disk(disk) => Some(disk),
            State::Journal(journal) => Some(journal.into_disk()),
            State::Held(held) => Some(held.journal.into_disk()),
        }
    }
}
