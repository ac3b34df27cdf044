//! Who stands where, and who goes.
ghost use Rattle.std.specs.Prelude.{◌≡◌, true, false, None, IfSome, IsSome};
ghost use Rattle.qc_turns.specs.Choosing.{AllCame};

use crate::choice::{next, someone_is_to_come};
use crate::draw::drawn;
use crate::place::Place;
use crate::row::Row;
use qc_gate::Walker;
use std::alloc::Global;

/// How many bells there are.
pub(crate) const BELLS: usize = 32;

/// All who are to come or have come and have not ended, in the order in which they were told of, and the one of them who
/// goes. That order goes by the turns so far, so the next choice does.
#[derive(Drop)]
pub(crate) struct Table {
    seed: u64,
    /// How many were chosen.
    turns: u64,
    /// How many came.
    came: u64,
    /// How many were told of.
    told: usize,
    /// Someone did not come in time, so no one is waited for any more.
    missed: bool,
    going: Option<Walker>,
    rows: Vec<Row>,
}

impl Table {
    /// No one is told of.
    pub(crate) fn new(alloc: Global, seed: u64) -> Self
        ensures none { result.going ≡ None }
    {
        Table {
            seed,
            turns: 0,
            came: 0,
            told: 0,
            missed: false,
            going: None,
            rows: Vec::new(alloc),
        }
    }

    /// How many came.
    pub(crate) fn came(&self) -> u64
        ensures { result ≡ self.now.came }
    {
        self.came
    }

    /// Whether someone did not come in time.
    pub(crate) fn missed(&self) -> bool
        ensures { result ≡ self.now.missed }
    {
        self.missed
    }

    fn find(&self, who: &Walker) -> Option<usize> {
        self.rows.iter().position(|row| row.who == *who)
    }

    /// One is to come. Where memory is wanting for it, it passes untold.
    pub(crate) fn tell(&mut self, who: Walker, maker: Option<Walker>)
        ensures going { self.new.going ≡ self.old.going }
    {
        let row = Row {
            who,
            maker,
            place: Place::Coming,
            bell: self.told % BELLS,
        };
        if self.rows.push(row).is_ok() {
            self.told = self.told.wrapping_add(1);
        }
    }

    /// A branch is to come, of one who is told of.
    pub(crate) fn expect(&mut self, who: &Walker, branch: Walker)
        ensures going { self.new.going ≡ self.old.going }
    {
        if self.find(who).is_some() {
            self.tell(branch, Some(*who));
        }
    }

    /// One comes, and waits. Who made it goes no more from then on. It answers the bell, where it is told of.
    pub(crate) fn come(&mut self, who: &Walker) -> Option<usize>
        ensures untold { result ≡ None → self.new ≡ self.old }
    {
        let at = self.find(who)?;
        let row = self.rows.get_mut(at)?;
        row.place = Place::Waiting;
        let (bell, maker) = (row.bell, row.maker);
        self.came = self.came.wrapping_add(1);
        if self.goes(who) || (maker.is_some() && self.going == maker) {
            self.going = None;
        }
        Some(bell)
    }

    /// Whether one goes.
    pub(crate) fn goes(&self, who: &Walker) -> bool {
        self.going.as_ref() == Some(who)
    }

    /// One is told of no more. Who is out for the last of its branches is to come back.
    pub(crate) fn forget(&mut self, who: &Walker) {
        if self.goes(who) {
            self.going = None;
        }
        let Some(at) = self.find(who) else {
            return;
        };
        let Some(maker) = self.rows.get(at).and_then(|row| row.maker) else {
            self.drop_at(at);
            return;
        };
        self.drop_at(at);
        if !self.goes(&maker) && !self.rows.iter().any(|row| row.is_made_by(&maker)) {
            self.call_back(&maker);
        }
    }

    fn drop_at(&mut self, at: usize)
        ensures going { self.new.going ≡ self.old.going }
    {
        if at < self.rows.len() {
            self.rows.remove(at);
        }
    }

    // One who is out is to come back.
    fn call_back(&mut self, who: &Walker)
        ensures going { self.new.going ≡ self.old.going }
    {
        if let Some(row) = self.find(who).and_then(|at| self.rows.get_mut(at)) {
            row.place = Place::Coming;
        }
    }

    /// Whether no one goes, since someone is to come.
    pub(crate) fn lacks(&self) -> bool
        ensures { result ≡ false → self.now.going ≡ None → self.now.missed ≡ false
            → AllCame self.now.rows.items }
    {
        if self.missed || self.going.is_some() {
            return false;
        }
        someone_is_to_come(self.rows.as_slice())
    }

    /// No one waits any more for those who are to come.
    pub(crate) fn give_up(&mut self)
        ensures { self.new ≡ record self.old { missed = true } }
    {
        self.missed = true;
    }

    /// Where no one goes, nor is waited for, chooses one of those who wait, and answers its bell.
    pub(crate) fn choose(&mut self) -> Option<usize>
        ensures one { IfSome result (λ _. (self.old.going ≡ None) × IsSome self.new.going) }
        ensures came { IfSome result (λ _. self.old.missed ≡ false
            → AllCame self.old.rows.items) }
        ensures none { result ≡ None → self.new ≡ self.old }
    {
        if self.going.is_some() || self.lacks() {
            return None;
        }
        let at = next(self.rows.as_slice(), drawn(self.seed, self.turns))?;
        let row = self.rows.get_mut(at)?;
        row.place = Place::Out;
        let (who, bell) = (row.who, row.bell);
        self.going = Some(who);
        self.turns = self.turns.wrapping_add(1);
        Some(bell)
    }
}
