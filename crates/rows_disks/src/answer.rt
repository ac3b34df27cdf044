//! What a step answered, and its text.

use qc_disk::DiskNo;
use qc_journal::{Body, Fault};
use rows_kit::{hex, put_hex, records, said};
use std::alloc::{AllocError, Global};

/// What a step answered.
#[derive(Drop)]
pub(crate) enum Answer {
    Done,
    Number(u64),
    Truth(bool),
    Bytes(Vec<u8>),
    /// What was synced last, and what is there.
    Images(Vec<u8>, Vec<u8>),
    Records(Vec<Body>),
    Disk(DiskNo),
    Journal(Fault),
    NoFile,
    Down,
    Unknown,
}

impl Answer {
    /// What a call of a disk answered that gives nothing.
    pub(crate) fn done(answer: Result<(), DiskNo>) -> Self {
        match answer {
            Ok(()) => Answer::Done,
            Err(no) => Answer::Disk(no),
        }
    }

    /// What a call of a disk answered that gives a number.
    pub(crate) fn number(answer: Result<u64, DiskNo>) -> Self {
        match answer {
            Ok(number) => Answer::Number(number),
            Err(no) => Answer::Disk(no),
        }
    }

    /// What a call of a disk answered that gives bytes.
    pub(crate) fn bytes(answer: Result<Vec<u8>, DiskNo>) -> Self {
        match answer {
            Ok(bytes) => Answer::Bytes(bytes),
            Err(no) => Answer::Disk(no),
        }
    }

    /// Its text, with bytes in hex.
    pub(crate) fn text(&self, alloc: Global) -> Result<String, AllocError> {
        match self {
            Answer::Done => said(alloc, "ok"),
            Answer::Number(number) => number.to_string(alloc),
            Answer::Truth(truth) => truth.to_string(alloc),
            Answer::Bytes(bytes) => hex(alloc, bytes),
            Answer::Images(synced, there) => images(alloc, synced, there),
            Answer::Records(bodies) => records(alloc, bodies),
            Answer::Disk(no) => no.to_string(alloc),
            Answer::Journal(fault) => fault.to_string(alloc),
            Answer::NoFile => said(alloc, "no such file"),
            Answer::Down => said(alloc, "it is down"),
            Answer::Unknown => said(alloc, "no such step here"),
        }
    }
}

fn images(alloc: Global, synced: &[u8], there: &[u8]) -> Result<String, AllocError> {
    let mut text = hex(alloc, synced)?;
    text.push_str(" or ")?;
    put_hex(alloc, &mut text, there)?;
    Ok(text)
}
