//! Base records.
ghost use Rattle.std.specs.Prelude.{◌≤◌};

use crate::{Answer, bytes_of, print_fault};
use qc_codec::{BaseRecord, read_base};
use rows_text::{BadLine, TupleText, Words};
use std::alloc::Global;
use std::io;

fn print_one(rt: &HostRuntime, base: &BaseRecord) -> io::Result<()> {
    print!(rt; "fold {} of epoch {}", base.number, base.epoch)?;
    for tuple in base.tuples.as_slice() {
        let tuple = TupleText(*tuple);
        print!(rt; "; {tuple}")?;
    }
    println!(rt;)
}

fn show(
    rt: &HostRuntime,
    alloc: Global,
    copies: u8,
    records: u8,
    format: u8,
    bytes: &[u8],
) -> io::Result<()>
    requires { copies ≤ 16 }
{
    match read_base(alloc, bytes, copies, records, format) {
        Ok(base) => print_one(rt, &base),
        Err(fault) => print_fault(rt, fault),
    }
}

/// `base COPIES RECORDS FORMAT BYTES`. It is not written again.
pub(crate) fn base(rt: &HostRuntime, alloc: Global, mut words: Words<'_>) -> Answer {
    let copies = words.number()?;
    let records = words.number()?;
    let format = words.number()?;
    if copies > 16 || format == 0 || format > 2 {
        return Err(BadLine::Number);
    }
    let bytes = bytes_of(alloc, &mut words)?;
    words.end()?;
    Ok(show(rt, alloc, copies, records, format, &bytes))
}
