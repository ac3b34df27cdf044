//! A copy that was mounted.
ghost use Rattle.std.specs.Prelude.{◌≡◌, ◌≤◌, ◌<◌, ℕ, [], true, false, None, length, slice_index_or, is_some};
ghost use Rattle.qc_event.specs.Seats.{copy_seat};
ghost use Rattle.qc_event.specs.Tables.{setting_of};
ghost use Rattle.qc_journal.specs.Journal.{disk_of, IsDown, Keeps};
ghost use Rattle.qc_site.specs.Log.{log_journal};

use crate::beginning::Beginning;
use crate::log::GrantLog;
use crate::replica::Replica;
use crate::site::Site;
use qc_config::Tuple;
use qc_desk::{Pass, Store};
use qc_disk::Disk;
use qc_journal::{Body, Journal};
use std::alloc::Global;

/// A copy that was mounted: its number, of so many copies, its journal, which is up, the bodies of its records, and what
/// it starts with.
#[derive(Drop)]
pub struct Mounted<D: Disk> {
    pub(crate) alloc: Global,
    pub(crate) copy: u8,
    pub(crate) copies: u8,
    pub(crate) journal: Journal<D>,
    pub(crate) bodies: Vec<Body>,
    pub(crate) start: Beginning,
    ghost up: { IsDown journal → ⊥ },
    ghost few: { copies ≤ 16 },
}

impl<D: Disk> Mounted<D> {
    ghost use Rattle.qc_journal.specs.Image.{bodies_of};
    ghost use Rattle.qc_site.specs.Mounted.{copies_of, copy_of, journal_of, records_of};
    ghost use Rattle.qc_site.specs.Since.{GrantsGrow};
    ghost use Rattle.qc_site.specs.Sites.{KeepsGranted};
    ghost use Rattle.qc_site.specs.Start.{start_of};

    /// The bodies of its records, the one that says how it was made first.
    pub fn records(&self) -> &[Body]
        ensures { bodies_of result.now ≡ records_of self.now }
    {
        self.bodies.as_slice()
    }

    /// The tuples with which the copy starts, one for each record.
    pub fn start(&self) -> &[Tuple]
        ensures { result.now ≡ start_of self.now }
    {
        self.start.tuples()
    }

    /// The site of a desk, which a pass with the copy's number enters that has entered nothing and has no pass out and none joined. Where each image has the
    /// records, it keeps what the copy granted in this run, which is nothing.
    pub fn enter<N: Store, const C: u8>(self, pass: Pass<N>) -> Site<D, N, C>
        requires copy { copy_of self ≡ C }
        requires small { C < 16 }
        requires copies { copies_of self ≡ length N.base }
        requires pass { (pass.live ≡ true) × (pass.number ≡ copy_seat C) }
        requires fresh { (pass.mine ≡ []) × (pass.out ≡ []) }
        requires none_joined { pass.kin ≡ [] }
        requires start { start_of self ≡ slice_index_or N.base C [] }
        ensures up { result.replica.up ≡ true }
        ensures none { result.replica.hand ≡ None }
        ensures pass { result.replica.pass ≡ pass }
        ensures strange { is_some result.strange ≡ false }
        ensures journal { log_journal result.log ≡ journal_of self }
        ensures over { Keeps (journal_of self) (records_of self)
            → KeepsGranted C (records_of self) result.log result.replica }
        ensures grown { (since : ℕ) → since ≡ (D.view (disk_of (journal_of self))).moment
            → Keeps (journal_of self) (records_of self)
            → GrantsGrow (setting_of N.table N.base) C (records_of self) since result.log
            result.replica.pass.seen }
    {
        let (start, locks) = self.start.into_parts();
        pass.known();
        Site {
            alloc: self.alloc,
            log: GrantLog {
                alloc: self.alloc,
                journal: self.journal,
                copies: self.copies,
                earlier: self.bodies.as_slice().len(),
            },
            replica: Replica::new(pass, start, locks),
            strange: None,
        }
    }

    /// The disk.
    pub fn into_disk(self) -> D
        ensures { result ≡ disk_of (journal_of self) }
    {
        self.journal.into_disk()
    }
}
