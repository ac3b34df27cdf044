//! The one copy of the store, mounted; and with which tuples it may start.
ghost use Rattle.std.specs.Prelude.{◌↔◌, ◌≡◌, [], ◌∷◌, IfOk, IfSome, IsTrue};
ghost use Rattle.qc_codec.specs.Bodies as body;
ghost use Rattle.qc_codec.specs.Fields.{current_format};
ghost use Rattle.qc_codec.specs.declared.record.Made.{Made};
ghost use Rattle.qc_site.specs.Mounted.{copies_of, copy_of};
ghost use Rattle.rows_serve.specs.TwoRecords as words;

use crate::answer::refused;
use crate::disks::Disks;
use crate::folds::{Folds, Ready};
use qc_codec::{Logged, Made, Names, Past, Tops};
use qc_config::{Config, Tuple};
use qc_disk::{HomeDisk, MemDisk};
use qc_event::{Base, Table};
use qc_site::{Mounted, mount_pair};
use rows_kit::{made_of, said};
use std::alloc::{AllocError, Global};

/// How the copy's disk was made: one copy, with the record `x`, which starts with 5, and `y`, which starts with 7.
const MADE: &str = "010201010201780000000000000000050101000100010179000000000000000007010100010001";

/// What a ledger told of so many epochs, with these tops.
pub(crate) fn past_of(alloc: Global, epoch: u32, logged: &[Logged]) -> Result<Past, AllocError> {
    let mut tops = Vec::new(alloc);
    for top in logged {
        tops.push(Logged {
            top: top.top,
            aborted: Names::new(top.aborted.as_slice().to_vec(alloc)?),
        })?;
    }
    Ok(Past {
        epoch,
        base: None,
        tops: Tops::new(tops),
    })
}

// How the copy's disk was made, where it is of one copy.
fn one_copy(alloc: Global) -> Result<Option<Made>, AllocError>
    ensures proper { IfOk result (λ made. IfSome made
        (λ m. (body.table current_format).fits m.table)) }
    ensures one { IfOk result (λ made. IfSome made (λ m. m.table.copies ≡ 1)) }
{
    match made_of(alloc, MADE)? {
        Some(made) if made.table.copies == 1 => Ok(Some(made)),
        _ => Ok(None),
    }
}

// Mounts both, with what the one that is read is folded into.
fn both(
    alloc: Global,
    own: HomeDisk,
    spare: HomeDisk,
    table: &Table,
    past: &Past,
    limit: u64,
) -> Result<Result<(Mounted<HomeDisk>, Folds), (Disks, String)>, AllocError>
    requires proper { (body.table current_format).fits table.now }
    requires one { table.now.copies ≡ 1 }
    ensures { IfOk result (λ r. IfOk r (λ m. (copy_of m.0 ≡ 0) × (copies_of m.0 ≡ 1))) }
{
    let epoch = past.epoch.saturating_add(1);
    match mount_pair(alloc, 0, own, spare, table, past, epoch, limit) {
        Ok((copy, fold)) => Ok(Ok((copy, Folds::Ready(Ready { fold })))),
        Err((own, spare, no)) => {
            let disks = Disks {
                own,
                spare: Some(spare),
            };
            Ok(Err((disks, no.to_string(alloc)?)))
        }
    }
}

// Mounts the disk beside an empty spare, which is dropped.
fn alone(
    alloc: Global,
    own: HomeDisk,
    table: &Table,
    past: &Past,
    limit: u64,
) -> Result<Result<(Mounted<HomeDisk>, Folds), (Disks, String)>, AllocError>
    requires proper { (body.table current_format).fits table.now }
    requires one { table.now.copies ≡ 1 }
    ensures { IfOk result (λ r. IfOk r (λ m. (copy_of m.0 ≡ 0) × (copies_of m.0 ≡ 1))) }
{
    let spare = HomeDisk::Memory(MemDisk::new(Vec::new(alloc), Vec::new(alloc)));
    let epoch = past.epoch.saturating_add(1);
    match mount_pair(alloc, 0, own, spare, table, past, epoch, limit) {
        Ok((copy, _)) => Ok(Ok((copy, Folds::NoSpare))),
        Err((own, _, no)) => Ok(Err((Disks { own, spare: None }, refused(alloc, &no)?))),
    }
}

/// Mounts the copy behind what a ledger told, and its spare too, where it has one. A refusal hands the disks back, with
/// its text.
pub(crate) fn mounted(
    alloc: Global,
    disks: Disks,
    past: &Past,
    limit: u64,
) -> Result<Result<(Mounted<HomeDisk>, Folds), (Disks, String)>, AllocError>
    ensures { IfOk result (λ r. IfOk r (λ m. (copy_of m.0 ≡ 0) × (copies_of m.0 ≡ 1))) }
{
    let Some(made) = one_copy(alloc)? else {
        return Ok(Err((disks, said(alloc, "no table")?)));
    };
    let Disks { own, spare } = disks;
    match spare {
        Some(spare) => both(alloc, own, spare, &made.table, past, limit),
        None => alone(alloc, own, &made.table, past, limit),
    }
}

// The configuration of both records: the one copy has the one vote.
fn one_vote() -> Option<Config>
    ensures { IfSome result (λ c. c ≡ words.config) }
{
    match Config::new(&[1], 1, 1) {
        Ok(config) => Some(config),
        Err(_) => None,
    }
}

// Whether two configurations are the same.
fn is_same(a: &Config, b: &Config) -> bool
    ensures { IsTrue result ↔ (a.now ≡ b.now) }
{
    *a == *b
}

// Whether these are tuples of both records, each with that configuration.
fn is_row(start: &[Tuple], config: &Config) -> bool
    requires { config.now ≡ words.config }
    ensures { IsTrue result → words.IsRow start.now }
{
    match start {
        [x, y] => is_same(&x.config, config) && is_same(&y.config, config),
        _ => false,
    }
}

/// Whether these are tuples of both records, each with the one vote.
pub(crate) fn is_ours(start: &[Tuple]) -> bool
    ensures { IsTrue result → words.IsRow start.now }
{
    match one_vote() {
        Some(config) => is_row(start, &config),
        None => false,
    }
}

/// The start tuples of the one copy.
pub(crate) fn base_of(alloc: Global, start: &[Tuple]) -> Result<Base, AllocError>
    ensures { IfOk result (λ base. base ≡ start.now ∷ []) }
{
    let mut rows = Vec::new(alloc);
    rows.push(start.to_vec(alloc)?)?;
    Ok(Base::new(rows))
}
