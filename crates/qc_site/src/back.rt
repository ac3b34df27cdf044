//! Reading a copy's disk back.
ghost use Rattle.std.specs.Prelude.{◌≡◌, ◌≤◌, ◌++◌, List, ℕ, IfOk, IfErr, IfSome, OnOk, OnErr, IsErrOf, None, Ok, true};
ghost use Rattle.qc_journal.specs.Image.{bodies_of};
ghost use Rattle.qc_journal.specs.Journal.{disk_of, limit_of, IsUp, Keeps};
ghost use Rattle.qc_ledger.specs.Runs.{Costs, CostsOnce, Falls, Leaves};
ghost use Rattle.qc_site.specs.Back.{back_no, IsAnswer, IsLeft, Says};
ghost use Rattle.qc_site.specs.declared.back.BackNo.TheVariants.{Memory};

use crate::compare::{compare, grant_at, grants_in};
use qc_disk::Disk;
use qc_event::Grant;
use qc_journal::{Body, Fault, Journal};
use std::alloc::{AllocError, Global};
use thiserror::Error;

/// How a copy's disk differs from what the copy granted.
#[derive(Clone, Copy, Debug, Error)]
pub enum Strange {
    /// The record whose gate is open at this place does not stand there whole.
    #[error("broken at {place}")]
    Broken {
        place: u64,
    },
    /// The record of this index, counted from 0 in the whole journal, is no grant.
    #[error("record {index} grammar")]
    Grammar {
        index: u64,
    },
    /// There are fewer records than there were before this run.
    #[error("{records} records of {old}")]
    Short {
        records: u64,
        old: u64,
    },
    /// At this index of the records of this run the disk has another grant than the history, or one of them has none.
    #[error("at grant {index} the disk and the history differ")]
    Differs {
        index: u64,
        disk: Option<Grant>,
        desk: Option<Grant>,
    },
}

/// Why a copy's disk was not read back.
#[derive(Clone, Copy, Debug, Error)]
pub enum BackNo {
    /// The disk failed. Its count of faults says that it was the disk.
    #[error("the disk failed")]
    Disk,
    /// It does not say what the copy granted.
    #[error("{0}")]
    Strange(Strange),
    /// There was no memory.
    #[error("no memory")]
    Memory,
}

impl From<AllocError> for BackNo {
    ghost from_gives = { λ _ e. e ≡ Memory };

    fn from(_: AllocError) -> Self {
        BackNo::Memory
    }
}

// What the records that were found say.
fn said(
    alloc: Global,
    copies: u8,
    old: usize,
    given: &[Grant],
    hand: &Option<Grant>,
    found: &[Body],
) -> Result<bool, BackNo>
    requires { copies ≤ 16 }
    ensures says { Says copies old given.now hand.now (bodies_of found.now) result }
    ensures no_disk { IsErrOf result BackNo.Disk → ⊥ }
{
    if found.len() < old {
        return Err(BackNo::Strange(Strange::Short {
            records: found.len() as u64,
            old: old as u64,
        }));
    }
    let rest = found.split_at(old).1;
    let grants = match grants_in(alloc, copies, rest)? {
        Ok(grants) => grants,
        Err(index) => {
            let index = (old + index) as u64;
            return Err(BackNo::Strange(Strange::Grammar { index }));
        }
    };
    match compare(&grants, given, hand) {
        Ok(stands) => Ok(stands),
        Err(index) => Err(BackNo::Strange(Strange::Differs {
            index: index as u64,
            disk: grant_at(&grants, index),
            desk: grant_at(given, index),
        })),
    }
}

// What a fault of the journal is to a reading back.
fn back_no(fault: Fault) -> BackNo
    ensures { result ≡ back_no fault }
{
    match fault {
        Fault::Disk | Fault::Full { .. } => BackNo::Disk,
        Fault::Broken { place } => BackNo::Strange(Strange::Broken { place }),
        Fault::Memory => BackNo::Memory,
    }
}

/// Reads a copy's disk back, with one reading of all its bytes. Behind so many older records must stand what the copy
/// granted in this run, or that and the grant in hand; the answer tells whether that one stands. What the disk has in
/// place of it is told as strange, and the journal is up then too; after another error it is down.
pub fn read_back<D: Disk>(
    alloc: Global,
    journal: &mut Journal<D>,
    copies: u8,
    old: usize,
    given: &[Grant],
    hand: &Option<Grant>,
) -> Result<bool, BackNo>
    requires { copies ≤ 16 }

    // Where the disk tells its bytes, the answer is the one that they give.
    ensures says { IfSome (D.view (disk_of journal.old)).content
        (IsAnswer copies old given.now hand.now result) }
    ensures up { OnOk result (IsUp journal.new) }
    ensures hand { result ≡ Ok true → hand.now ≡ None → ⊥ }
    ensures limit { limit_of journal.new ≡ limit_of journal.old }
    ensures content { (D.view (disk_of journal.new)).content
        ≡ (D.view (disk_of journal.old)).content }

    // Each image goes on to have the records that were found: those that were kept, and maybe what was in hand.
    ensures keeps { IfOk result (λ stands. (bodies : List (List ℕ)) → Keeps journal.old bodies
        → (left : IsLeft journal.old journal.new bodies)
        × Says copies old given.now hand.now left.found (Ok stands)) }
    ensures kept { OnErr result ((bodies : List (List ℕ)) → Keeps journal.old bodies
        → IsLeft journal.old journal.new bodies) }

    ensures any_moment { Leaves journal.old journal.new (D.view (disk_of journal.old)).may_leave }
    ensures falls { Falls journal.old journal.new }
    ensures cause { Costs journal.old journal.new (IsErrOf result BackNo.Disk) }
    ensures counts_once { CostsOnce journal.old journal.new (IsErrOf result BackNo.Disk) }
{
    match journal.reread() {
        Ok(found) => said(alloc, copies, old, given, hand, &found),
        Err(fault) => Err(back_no(fault)),
    }
}
