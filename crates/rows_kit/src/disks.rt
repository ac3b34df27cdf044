//! Steps on a disk in memory.

use crate::step::{Step, bytes};
use crate::text::{hex, said};
use qc_disk::MemDisk;
use std::alloc::{AllocError, Global};

/// A disk of these bytes, which fails at the calls that a step says.
pub fn with_fails(alloc: Global, bytes: Vec<u8>, step: &Step<'_>) -> Result<MemDisk, AllocError> {
    let fails = step.fails(alloc, 0)?;
    Ok(MemDisk::new(bytes, fails))
}

/// Makes a step on a disk, and tells what it answered. Where it changes the bytes or the calls that fail, the disk is a
/// new one.
pub fn on_disk(
    alloc: Global,
    disk: MemDisk,
    step: &Step<'_>,
) -> Result<(MemDisk, String), AllocError> {
    let mut there = disk.bytes().to_vec(alloc)?;
    match step.name {
        "calls" => {
            let calls = disk.calls().to_string(alloc)?;
            return Ok((disk, calls));
        }
        "bytes" => return Ok((disk, hex(alloc, &there)?)),
        "fail" => return Ok((with_fails(alloc, there, step)?, said(alloc, "ok")?)),
        "cut" => there.truncate(step.number(0) as usize),
        "add" => there.extend_from_slice(&bytes(alloc, step.word(0))?)?,
        _ => return Ok((disk, said(alloc, "no such step here")?)),
    }
    let disk = MemDisk::new(there, Vec::new(alloc));
    Ok((disk, said(alloc, "ok")?))
}
