//! Steps on a disk, by code that knows of no disk in particular.

use crate::answer::Answer;
use crate::word::bytes;
use qc_disk::{Disk, DiskNo, HomeDisk, MemDisk};
use rows_kit::Step;
use std::alloc::{AllocError, Global};
use std::iter;

// Writes at a place, or at the end where that is behind it.
fn write<D: Disk>(disk: &mut D, at: u64, bytes: &[u8]) -> Result<(), DiskNo> {
    let end = disk.len()?;
    disk.write_at(at.min(end), bytes)
}

// Cuts to a length, where there are more bytes.
fn cut<D: Disk>(disk: &mut D, to: u64) -> Result<(), DiskNo> {
    let end = disk.len()?;
    disk.cut(to.min(end))
}

// Reads the bytes from a place on.
fn read_from<D: Disk>(alloc: Global, disk: &mut D, at: u64) -> Result<Vec<u8>, DiskNo> {
    let end = disk.len()?;
    let at = at.min(end);
    let mut bytes: Vec<u8> = iter::repeat_n(0, (end - at) as usize).collect(alloc)?;
    disk.read(at, &mut bytes)?;
    Ok(bytes)
}

// Writes the bytes that a word says.
fn put<D: Disk>(alloc: Global, disk: &mut D, at: u64, word: &str) -> Result<Answer, AllocError> {
    let bytes = bytes(alloc, word)?;
    Ok(Answer::done(write(disk, at, &bytes)))
}

// The calls of a disk.
fn on_calls<D: Disk>(alloc: Global, disk: &mut D, step: &Step<'_>) -> Result<Answer, AllocError> {
    Ok(match step.name {
        "len" => Answer::number(disk.len()),
        "add" => return put(alloc, disk, u64::MAX, step.word(0)),
        "write" => return put(alloc, disk, step.number(0), step.word(1)),
        "cut" => Answer::done(cut(disk, step.number(0))),
        "read" => Answer::bytes(read_from(alloc, disk, step.number(0))),
        "sync" => Answer::done(disk.sync()),
        _ => Answer::Unknown,
    })
}

// What a crash just before a call may leave.
fn images(alloc: Global, disk: &MemDisk, call: u64) -> Result<Answer, AllocError> {
    let call = call.min(disk.calls().saturating_add(1));
    let synced = disk.image_at(alloc, call, false)?;
    let there = disk.image_at(alloc, call, true)?;
    Ok(Answer::Images(synced, there))
}

// What a disk in memory records.
fn on_record(alloc: Global, disk: &MemDisk, step: &Step<'_>) -> Result<Answer, AllocError> {
    match step.name {
        "bytes" => Ok(Answer::Bytes(disk.bytes().to_vec(alloc)?)),
        "calls" => Ok(Answer::Number(disk.calls())),
        _ => images(alloc, disk, step.number(0)),
    }
}

/// Makes a step on a disk, if it is one.
pub(crate) fn step(
    alloc: Global,
    disk: &mut HomeDisk,
    step: &Step<'_>,
) -> Result<Answer, AllocError> {
    match step.name {
        "bytes" | "calls" | "image" => match disk {
            HomeDisk::Memory(disk) => on_record(alloc, disk, step),
            HomeDisk::File(_) => Ok(Answer::Unknown),
        },
        _ => on_calls(alloc, disk, step),
    }
}
