//! One who comes to the gate.
ghost use Rattle.std.specs.Prelude.{◌≡◌, ◌↔◌, IsTrue};
ghost use Rattle.qc_turns.specs.declared.place.Place.TheVariants as place;

use crate::place::Place;
use qc_gate::Walker;

/// Who comes, who made it, where it stands, and the bell that is rung for it.
#[derive(Clone, Copy)]
pub(crate) struct Row {
    pub who: Walker,
    /// Of a branch, who made it.
    pub maker: Option<Walker>,
    pub place: Place,
    pub bell: usize,
}

impl Row {
    /// Whether it waits to be chosen.
    pub(crate) fn waits(&self) -> bool
        ensures { IsTrue result ↔ (self.now.place ≡ place.Waiting) }
    {
        match self.place {
            Place::Waiting => true,
            Place::Coming | Place::Out => false,
        }
    }

    /// Whether it is to come.
    pub(crate) fn is_to_come(&self) -> bool
        ensures { IsTrue result ↔ (self.now.place ≡ place.Coming) }
    {
        match self.place {
            Place::Coming => true,
            Place::Waiting | Place::Out => false,
        }
    }

    /// Whether it is a branch of this one.
    pub(crate) fn is_made_by(&self, who: &Walker) -> bool {
        self.maker.as_ref() == Some(who)
    }
}
