//! What a session starts from: a desk over the tuples that the copies restored.
ghost use Rattle.std.specs.Prelude.{◌≡◌, ◌≤◌, All, map, IfOk};
ghost use Rattle.qc_ledger.specs.Mounted as book;
ghost use Rattle.qc_site.specs.Mounted.{records_of};
ghost use Rattle.qc_site.specs.Start.{start_of};
ghost use Rattle.qc_site.specs.Image.{AreBytes};

use qc_config::Tuple;
use qc_desk::Blank;
use qc_disk::Disk;
use qc_event::Base;
use qc_site::are_bytes;
use qc_system::CopyPair;
use std::alloc::{AllocError, Global};

// The tuples with which each copy starts, in order.
fn rows_of<D: Disk>(alloc: Global, copies: &[CopyPair<D>]) -> Result<Vec<Vec<Tuple>>, AllocError>
    ensures { IfOk result (λ rows. map (λ row. row.items) rows.items
        ≡ map (λ pair. start_of pair.copy) copies.now) }
{
    let mut rows = Vec::new(alloc);
    for copy in copies {
        rows.push(copy.copy.start().to_vec(alloc)?)?;
    }
    Ok(rows)
}

/// A desk for a mounting's epoch, without a name, over the tuples with which the copies start.
pub(crate) fn blank_over<D: Disk>(
    alloc: Global,
    copies: &[CopyPair<D>],
    epoch: u32,
) -> Result<Blank, AllocError>
    requires { 1 ≤ epoch }
    ensures base { IfOk result (λ blank. blank.base ≡ map (λ pair. start_of pair.copy) copies.now) }
    ensures epoch { IfOk result (λ blank. blank.epoch ≡ epoch) }
{
    Blank::new(alloc, Base::new(rows_of(alloc, copies)?), epoch)
}

/// The records of each copy are of bytes. It does nothing else.
pub(crate) fn copies_are_of_bytes<D: Disk>(copies: &[CopyPair<D>])
    ensures { All (λ pair. AreBytes (records_of pair.copy)) copies.now }
{
    for copy in copies {
        are_bytes(copy.copy.records());
    }
}
