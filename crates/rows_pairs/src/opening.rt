//! Opening a pair.
ghost use Rattle.std.specs.Prelude.{◌≡◌, ◌<◌, ◌≤◌, All};
ghost use Rattle.qc_codec.specs.Fields as field;
ghost use Rattle.qc_codec.specs.Fields.{current};
ghost use Rattle.qc_journal.specs.Journal.{IsUp};
ghost use Rattle.qc_pair.specs.Fold.{copies_in, other_in};
ghost use Rattle.qc_pair.specs.Pair.{other_of};

use crate::answer::{opened, put_lengths};
use crate::wish::Wish;
use qc_config::Tuple;
use qc_disk::Disk;
use qc_journal::{Body, Journal};
use qc_pair::{Fold, Kind, Pair, open};
use rows_kit::Step;
use std::alloc::{AllocError, Global};

/// The limit of each journal.
const LIMIT: u64 = 999;

// The kind that a word names.
fn kind_of(word: &str) -> Kind {
    if word == "copy" {
        Kind::Copy
    } else {
        Kind::Ledger
    }
}

// Folds these tuples into the other journal.
fn put_fold<D: Disk + Drop>(
    alloc: Global,
    text: &mut String,
    fold: &mut Fold<D>,
    tuples: Vec<Tuple>,
) -> Result<(), AllocError>
    requires up { IsUp (other_in fold.old) }
    requires fit { All (field.tuple (current (copies_in fold.old))).fits tuples.items }
{
    match fold.fold(alloc, tuples) {
        Ok(()) => text.push_str("; folded"),
        Err(fault) => {
            text.push_str("; ")?;
            text.push_str(fault.to_string(alloc)?.as_str())
        }
    }
}

// Renews a pair that was opened, and tells how it stands then: what came, and both disks.
fn renewed<D: Disk + Drop>(
    alloc: Global,
    mut text: String,
    journal: Journal<D>,
    fold: Fold<D>,
    who: u8,
    wish: (u32, Vec<Tuple>),
) -> Result<(String, [D; 2]), AllocError>
    requires few { who ≤ 16 }
    requires up { IsUp (other_in fold) }
    requires fit { All (field.tuple (current (copies_in fold))).fits wish.1.items }
{
    let made = vec![in alloc; 7]?;
    let (epoch, tuples) = wish;
    let (journal, fold) = match fold.renew(alloc, journal, made, epoch, tuples) {
        Ok((journal, bodies, fold)) => {
            let (active, other) = (fold.active_disk(who), fold.disk(who));
            text.push_str("; renewed, ")?;
            text.push_str(opened(alloc, active, other, fold.next(), &bodies)?.as_str())?;
            (journal, fold)
        }
        Err((journal, fold, fault)) => {
            text.push_str("; ")?;
            text.push_str(fault.to_string(alloc)?.as_str())?;
            (journal, fold)
        }
    };
    let (disk, spare) = fold.into_disks(journal.into_disk());
    Ok((text, [disk, spare]))
}

// Tells of a pair that was opened, and folds or renews where a step says so: what came, and both disks.
fn told<D: Disk + Drop>(
    alloc: Global,
    pair: Pair<D>,
    who: u8,
    bodies: &[Body],
    step: &Step<'_>,
    wish: Wish,
) -> Result<(String, [D; 2]), AllocError>
    requires few { who ≤ 16 }
    requires up { IsUp (other_of pair) }
    requires fit { All (field.tuple (current wish.copies)).fits wish.tuples.items }
{
    let active = pair.active_disk(who);
    let (journal, mut fold) = pair.into_fold(wish.made, wish.epoch, wish.copies);
    let mut text = opened(alloc, active, fold.disk(who), fold.next(), bodies)?;
    if step.name == "renew" {
        return renewed(alloc, text, journal, fold, who, (wish.epoch, wish.tuples));
    }
    if step.name == "fold" {
        put_fold(alloc, &mut text, &mut fold, wish.tuples)?;
    }
    let (disk, spare) = fold.into_disks(journal.into_disk());
    Ok((text, [disk, spare]))
}

// Opens a pair, and folds where a step says so: what came, and both disks.
fn tried<D: Disk + Drop>(
    alloc: Global,
    disk: D,
    spare: D,
    who: u8,
    step: &Step<'_>,
    wish: Wish,
) -> Result<(String, [D; 2]), AllocError>
    requires few { who ≤ 16 }
    requires fit { All (field.tuple (current wish.copies)).fits wish.tuples.items }
{
    match open(alloc, disk, spare, who, kind_of(step.word(1)), LIMIT) {
        Ok((pair, bodies)) => told(alloc, pair, who, &bodies, step, wish),
        Err((disk, spare, no)) => Ok((no.to_string(alloc)?, [disk, spare])),
    }
}

/// What came of a step on a pair, with the length of both disks, and the disks.
pub(crate) fn pair_step<D: Disk + Drop>(
    alloc: Global,
    disk: D,
    spare: D,
    who: u8,
    step: &Step<'_>,
    wish: Wish,
) -> Result<(String, [D; 2]), AllocError>
    requires few { who ≤ 16 }
    requires fit { All (field.tuple (current wish.copies)).fits wish.tuples.items }
{
    let (mut text, mut disks) = tried(alloc, disk, spare, who, step, wish)?;
    put_lengths(alloc, &mut text, &mut disks)?;
    Ok((text, disks))
}
