//! A transfer in which a request for memory is refused.

use crate::transfer::told_of_transfer;
use std::alloc::Global;
use std::io;
use std::sync::Wait;
use std::thread::Threads;

/// How many requests for memory are made before a transfer, the number of the one that is refused, counted from the
/// process's first on, and the options of the transfer.
#[derive(Clone, Copy)]
pub(crate) struct Refusal<'a> {
    before: u64,
    number: u64,
    options: &'a str,
}

impl<'a> Refusal<'a> {
    /// That of which a line tells behind `memory`.
    pub(crate) fn of(line: &'a str) -> Option<Self> {
        let (before, rest) = line.strip_prefix("memory ")?.split_once(' ')?;
        let (number, options) = rest.split_once(' ')?;
        Some(Refusal {
            before: before.parse::<u64>().ok()?,
            number: number.parse::<u64>().ok()?,
            options,
        })
    }
}

// Makes requests for memory, and tells whether all were granted.
fn are_granted(alloc: Global, requests: u64) -> bool {
    let mut granted = true;
    for _ in 0..requests {
        let mut bytes = Vec::new(alloc);
        granted &= bytes.push(0_u8).is_ok();
    }
    granted
}

/// Makes the requests before, a transfer, and as many requests as reach the one that is refused, wherever it is. Tells
/// what came of the transfer, and whether the refused one was none of those before and behind.
pub(crate) fn print_refusal<R: Threads + Wait + Sync>(
    handle: &R,
    rt: &HostRuntime,
    alloc: Global,
    refusal: Refusal<'_>,
) -> io::Result<()> {
    let before = are_granted(alloc, refusal.before);
    let told = told_of_transfer(handle, alloc, refusal.options);
    let behind = are_granted(alloc, refusal.number);
    let word = if before && behind { "met" } else { "not met" };
    match told {
        Ok(text) => println!(rt; "{word}: {text}"),
        Err(_) => println!(rt; "{word}: not told"),
    }
}
