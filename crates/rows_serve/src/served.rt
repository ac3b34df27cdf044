//! What a run is over.
ghost use Rattle.std.specs.Prelude.{◌≡◌, true};
ghost use Rattle.qc_event.specs.Seats.{ledger_seat};

use crate::folds::Folds;
use qc_codec::Logged;
use qc_desk::{Pass, Store};
use qc_disk::HomeDisk;
use qc_site::Site;

/// The ledger's pass, the site of the copy, what its journal is folded into, and the tops that committed.
#[derive(Drop)]
pub struct Served<N: Store> {
    pub ledger: Pass<N>,
    pub site: Site<HomeDisk, N, 0>,
    pub folds: Folds,
    pub logged: Vec<Logged>,
    ghost live: { ledger.live ≡ true },
    ghost number: { ledger.number ≡ ledger_seat },
}
