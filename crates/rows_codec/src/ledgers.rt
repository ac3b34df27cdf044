//! Records of the ledger.
ghost use Rattle.qc_codec.specs.Bodies as body;

use crate::mades::print_made;
use crate::{Answer, bytes_of, print_bytes, print_fault};
use qc_codec::{LedgerRecord, Names, read_ledger, write_ledger, write_made_anew};
use qc_event::Name;
use rows_text::Words;
use std::alloc::{AllocError, Global};
use std::io;

fn print_top(rt: &HostRuntime, top: &Name, aborted: &Names) -> io::Result<()> {
    print!(rt; "top {top}")?;
    for name in aborted.as_slice() {
        print!(rt; " aborted {name}")?;
    }
    println!(rt;)
}

fn print_record(rt: &HostRuntime, logged: &LedgerRecord) -> io::Result<()> {
    match logged {
        LedgerRecord::Made(made) => print_made(rt, made),
        LedgerRecord::Epoch(epoch) => println!(rt; "epoch {epoch}"),
        LedgerRecord::Top { top, aborted } => print_top(rt, top, aborted),
    }
}

// The bytes of a record in the current format.
fn bytes_again(alloc: Global, logged: &LedgerRecord) -> Result<Vec<u8>, AllocError>
    requires { body.ledger.fits logged.now }
{
    match logged {
        LedgerRecord::Made(made) => write_made_anew(alloc, made),
        LedgerRecord::Epoch(_) => write_ledger(alloc, logged),
        LedgerRecord::Top { .. } => write_ledger(alloc, logged),
    }
}

fn print_both(rt: &HostRuntime, alloc: Global, logged: &LedgerRecord) -> io::Result<()>
    requires { body.ledger.fits logged.now }
{
    print_record(rt, logged)?;
    let again = bytes_again(alloc, logged)?;
    print_bytes(rt, alloc, &again)
}

fn show(rt: &HostRuntime, alloc: Global, bytes: &[u8]) -> io::Result<()> {
    match read_ledger(alloc, bytes) {
        Ok(logged) => print_both(rt, alloc, &logged),
        Err(fault) => print_fault(rt, fault),
    }
}

/// `ledger BYTES`.
pub(crate) fn ledger(rt: &HostRuntime, alloc: Global, mut words: Words<'_>) -> Answer {
    let bytes = bytes_of(alloc, &mut words)?;
    words.end()?;
    Ok(show(rt, alloc, &bytes))
}
