//! Mounting a store.
ghost use Rattle.qc_codec.specs.Bodies as body;
ghost use Rattle.qc_codec.specs.Fields.{current_format};
ghost use Rattle.qc_codec.specs.declared.record.Made.{Made};

use crate::answer::{failed, store};
use qc_codec::Made;
use qc_disk::{Disk, Shop};
use qc_opening::{MountNo, Parts, mount_disks, obtain_all};
use rows_kit::said;
use std::alloc::{AllocError, Global};

// The disks of a store: those of all pairs, and then their spares.
fn disks_of<D: Disk + Drop>(alloc: Global, parts: Parts<D>) -> Result<Vec<D>, AllocError> {
    let Parts { ledger, copies, .. } = parts;
    let (disk, spare) = ledger.into_disks();
    let (mut disks, mut spares) = (Vec::new(alloc), Vec::new(alloc));
    disks.push(disk)?;
    spares.push(spare)?;
    for copy in copies {
        let (disk, spare) = copy.into_disks();
        disks.push(disk)?;
        spares.push(spare)?;
    }
    for spare in spares {
        disks.push(spare)?;
    }
    Ok(disks)
}

// Obtains the disks of a store, and mounts it over the table of a made record.
fn mount<D: Disk + Send, H: Shop<D = D>>(
    alloc: Global,
    shop: &mut H,
    place: &str,
    made: &Made,
    limit: u64,
) -> Result<Parts<D>, MountNo<D>>
    requires { (body.table current_format).fits made.now.table }
{
    let disks = obtain_all(alloc, shop, place, made.table.copies)?;
    mount_disks(alloc, disks, &made.table, limit)
}

/// Mounts a store over the table of a made record: what came, and the disks.
pub(crate) fn mounted<D: Disk + Send + Drop, H: Shop<D = D>>(
    alloc: Global,
    shop: &mut H,
    place: &str,
    made: &Made,
    limit: u64,
) -> Result<(String, Vec<D>), AllocError>
    requires { (body.table current_format).fits made.now.table }
{
    match mount(alloc, shop, place, made, limit) {
        Ok(parts) => {
            let text = store(alloc, &parts)?;
            Ok((text, disks_of(alloc, parts)?))
        }
        Err(MountNo::Disk { which, disks }) => Ok((failed(alloc, which)?, disks)),
        Err(MountNo::Image { fault, disks }) => Ok((fault.to_string(alloc)?, disks)),
        Err(MountNo::Memory { disks }) => Ok((said(alloc, "no memory")?, disks)),
    }
}

/// What came, and the length of each disk; `?` where it fails again.
pub(crate) fn with_lengths<D: Disk>(
    alloc: Global,
    mut text: String,
    disks: &mut [D],
) -> Result<String, AllocError> {
    text.push_str("; back")?;
    for disk in disks {
        text.push(' ')?;
        match disk.len() {
            Ok(length) => text.push_str(length.to_string(alloc)?.as_str())?,
            Err(_) => text.push('?')?,
        }
    }
    Ok(text)
}
