//! A mounted ledger.
ghost use Rattle.std.specs.Prelude.{◌≡◌, ℕ, List, [], None, true};
ghost use Rattle.qc_event.specs.Seats.{ledger_seat};
ghost use Rattle.qc_journal.specs.Journal.{disk_of, IsDown, IsUp, Keeps};

use crate::ledger::Ledger;
use crate::shelf::Shelf;
use qc_desk::{Pass, Store};
use qc_disk::Disk;
use qc_journal::{Body, Journal};
use std::alloc::Global;

/// A ledger that was mounted: its journal, which is up, and the bodies of its records.
#[derive(Drop)]
pub struct Book<D: Disk> {
    pub(crate) alloc: Global,
    pub(crate) journal: Journal<D>,
    pub(crate) bodies: Vec<Body>,
    ghost up: { IsDown journal → ⊥ },
}

impl<D: Disk> Book<D> {
    ghost use Rattle.qc_journal.specs.Image.{bodies_of};
    ghost use Rattle.qc_ledger.specs.Mounted.{journal_of, records_of};
    ghost use Rattle.qc_ledger.specs.Shelf.{journal_in, top_in};
    ghost use Rattle.qc_ledger.specs.Entered.{tops_of, KeepsLogged};
    ghost use Rattle.qc_ledger.specs.Since.{TopsGrow};

    /// The bodies of its records, the one that says how it was made and this mounting's epoch among them.
    pub fn records(&self) -> &[Body]
        ensures { bodies_of result.now ≡ records_of self.now }
    {
        self.bodies.as_slice()
    }

    /// Opens it for tops to be logged.
    pub fn open(self) -> Shelf<D>
        ensures up { IsUp (journal_in result) }
        ensures none { top_in result ≡ None }
        ensures journal { journal_in result ≡ journal_of self }
    {
        Shelf {
            alloc: self.alloc,
            journal: self.journal,
            hand: None,
        }
    }

    /// The ledger of a desk, which a pass with the ledger's number enters that has no pass out and none joined.
    pub fn enter<N: Store>(self, pass: Pass<N>) -> Ledger<D, N>
        requires ledger { (pass.live ≡ true) × (pass.number ≡ ledger_seat) × (pass.out ≡ []) }
        requires none { pass.kin ≡ [] }
        ensures journal { journal_in result.shelf ≡ journal_of self }
        ensures none { top_in result.shelf ≡ None }
        ensures pass { result.pass ≡ pass }
        ensures over { (told : List ℕ → List (List ℕ)) → pass.mine ≡ []
            → Keeps (journal_of self) (records_of self)
            → KeepsLogged told (records_of self) result.shelf (tops_of result.pass.mine) }
        ensures grown { (told : List ℕ → List (List ℕ)) (since : ℕ)
            → since ≡ (D.view (disk_of (journal_of self))).moment
            → Keeps (journal_of self) (records_of self)
            → TopsGrow told (records_of self) since result.shelf result.pass.seen }
    {
        pass.known();
        Ledger {
            shelf: self.open(),
            pass,
        }
    }

    /// The disk.
    pub fn into_disk(self) -> D
        ensures { result ≡ disk_of (journal_of self) }
    {
        self.journal.into_disk()
    }
}
