//! Grants.
ghost use Rattle.std.specs.Prelude.{◌≤◌};
ghost use Rattle.qc_codec.specs.Bodies as body;
ghost use Rattle.qc_codec.specs.Fields.{current, layout};

use crate::{Answer, bytes_of, print_bytes, print_fault};
use qc_codec::{read_grant, write_grant};
use qc_config::Op;
use qc_event::Grant;
use rows_text::{BadLine, ConfigText, TupleText, Words};
use std::alloc::Global;
use std::io;

/// Prints an operation.
pub(crate) fn print_op(rt: &HostRuntime, op: &Op) -> io::Result<()> {
    match *op {
        Op::Get => print!(rt; "get"),
        Op::PutData { version, value } => print!(rt; "put {version} {value:?}"),
        Op::PutConfig { generation, config } => {
            let config = ConfigText(config);
            print!(rt; "configure {generation} {config}")
        }
    }
}

fn print_both(rt: &HostRuntime, alloc: Global, copies: u8, grant: &Grant) -> io::Result<()>
    requires copies { copies ≤ 16 }
    requires fits { (body.grant (current copies)).fits grant.now }
{
    let (access, rec, tuple) = (grant.access, grant.rec, TupleText(grant.tuple));
    print!(rt; "{access} record {rec} ")?;
    print_op(rt, &grant.op)?;
    println!(rt; " leaves {tuple}")?;
    let again = write_grant(alloc, grant, copies)?;
    print_bytes(rt, alloc, &again)
}

fn show(rt: &HostRuntime, alloc: Global, copies: u8, format: u8, bytes: &[u8]) -> io::Result<()>
    requires { copies ≤ 16 }
{
    match read_grant(bytes, copies, format) {
        Ok(grant) => print_both(rt, alloc, copies, &grant),
        Err(fault) => print_fault(rt, fault),
    }
}

/// `grant COPIES FORMAT BYTES`.
pub(crate) fn grant(rt: &HostRuntime, alloc: Global, mut words: Words<'_>) -> Answer {
    let copies = words.number()?;
    let format = words.number()?;
    if copies > 16 || format == 0 || format > 2 {
        return Err(BadLine::Number);
    }
    let bytes = bytes_of(alloc, &mut words)?;
    words.end()?;
    Ok(show(rt, alloc, copies, format, &bytes))
}
