//! A caller's token.
ghost use Rattle.std.specs.Prelude.{◌≡◌};
ghost use Rattle.qc_event.specs.Tables.{setting_of};
ghost use Rattle.qc_desk.specs.Known.{IsKnown};

use crate::store::Store;
use crate::view::View;
use atomic_table::Seat;
use qc_event::Entry;
use std::marker::{Model, PhantomData};

/// A caller's token. Contracts see its number, what it has seen, its own entries, the numbers that were split from
/// it and are not yet joined back, and the numbers and entries of those that were joined into it.
#[derive(Drop)]
pub struct Pass<N: Store> {
    pub(crate) number: u32,
    pub(crate) count: u32,
    pub(crate) seat: Seat<Entry, View>,
    pub(crate) of: PhantomData<N>,
}

impl<N: Store> Model for Pass<N> {
    ghost use Rattle.std.specs.Prelude.{◌≡◌, [], true, false, None};
    ghost use Rattle.qc_event.specs.Tables.{setting_of};
    ghost use Rattle.qc_desk.specs.declared.view.View.{View};
    ghost use Rattle.qc_desk.specs.Rules.{IsAtRest};

    ghost Value = { View };

    ghost view = { λ p. p.seat.me.0 };

    ghost invariant = { λ p. (p.seat.table_id ≡ N.desk) × (p.seat.me.1 ≡ [])
        × (p.number ≡ p.seat.me.0.number) × (p.count ≡ p.seat.me.0.count)
        × IsAtRest (setting_of N.table N.base) p.seat.me.0 };
}

impl<N: Store> Pass<N> {
    /// Its number.
    pub fn number(&self) -> u32
        ensures { result ≡ self.now.number }
    {
        self.number
    }

    /// What every pass keeps, for who was handed one: each call of the desk tells it of the passes that it leaves.
    pub fn known(&self)
        ensures { IsKnown (setting_of N.table N.base) self.now }
    {
        let _ = &self.number;
    }
}
