//! Made records.
ghost use Rattle.qc_codec.specs.Bodies as body;

use crate::{Answer, bytes_of, print_bytes, print_fault};
use qc_codec::{Made, read_made, write_made_anew};
use qc_event::Row;
use rows_text::{ConfigText, Words};
use std::alloc::Global;
use std::{io, str};

fn print_row(rt: &HostRuntime, row: &Row) -> io::Result<()> {
    let name = str::from_utf8(row.name.as_bytes()).unwrap_or("no text");
    let (start, config) = (row.start, ConfigText(row.config));
    print!(rt; "; {name} {start:?} {config}")
}

/// Prints what a made record says.
pub(crate) fn print_made(rt: &HostRuntime, made: &Made) -> io::Result<()> {
    let (who, copies) = (made.who, made.table.copies);
    print!(rt; "made of disk {who}, copies {copies}")?;
    for row in made.table.records.as_slice() {
        print_row(rt, row)?;
    }
    println!(rt;)
}

fn print_both(rt: &HostRuntime, alloc: Global, made: &Made) -> io::Result<()>
    requires { body.made.fits made.now }
{
    print_made(rt, made)?;
    let again = write_made_anew(alloc, made)?;
    print_bytes(rt, alloc, &again)
}

fn show(rt: &HostRuntime, alloc: Global, bytes: &[u8]) -> io::Result<()> {
    match read_made(alloc, bytes) {
        Ok(made) => print_both(rt, alloc, &made),
        Err(fault) => print_fault(rt, fault),
    }
}

/// `made BYTES`.
pub(crate) fn made(rt: &HostRuntime, alloc: Global, mut words: Words<'_>) -> Answer {
    let bytes = bytes_of(alloc, &mut words)?;
    words.end()?;
    Ok(show(rt, alloc, &bytes))
}
