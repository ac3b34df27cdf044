//! Saved trails.
ghost use Rattle.std.specs.Prelude.{◌≡◌, length, IfOk};
ghost use Rattle.std.specs.List.{All};
ghost use Rattle.qc_event.specs.Base.{IsProperBase};
ghost use Rattle.qc_trail_codec.specs.Saving.{CanBeSaved, records_of};

use crate::events::print_entry;
use crate::{Answer, bytes_of, print_bytes, print_fault};
use qc_event::{Base, Entry};
use qc_trail::Trail;
use qc_trail_codec::{SavedTrail, read_trail, write_trail};
use rows_text::{BadLine, TupleText, Words};
use std::alloc::{AllocError, Global};
use std::io;

fn print_base(rt: &HostRuntime, base: &Base) -> io::Result<()> {
    let copies = base.copies();
    print!(rt; "trail over {copies}")?;
    for copy in 0..copies.min(16) as u8 {
        for tuple in base.row(copy) {
            let tuple = TupleText(*tuple);
            print!(rt; "; copy {copy} {tuple}")?;
        }
    }
    println!(rt;)
}

fn trail_of(alloc: Global, entries: &[Entry]) -> Result<Trail, AllocError>
    ensures { IfOk result (λ trail. trail ≡ entries.now) }
{
    let mut trail = Trail::new(alloc);
    for entry in entries {
        trail.push(entry, None)?;
    }
    Ok(trail)
}

fn print_both(rt: &HostRuntime, alloc: Global, saved: &SavedTrail) -> io::Result<()>
    requires base { IsProperBase (records_of saved.now.base) saved.now.base }
    requires entries { All (CanBeSaved (length saved.now.base)) saved.now.entries }
{
    print_base(rt, &saved.base)?;
    let entries = saved.entries.as_slice();
    for entry in entries {
        print_entry(rt, entry)?;
    }
    let trail = trail_of(alloc, entries)?;
    let again = write_trail(alloc, &saved.base, &trail)?;
    print_bytes(rt, alloc, &again)
}

fn show(rt: &HostRuntime, alloc: Global, format: u8, bytes: &[u8]) -> io::Result<()> {
    match read_trail(alloc, bytes, format) {
        Ok(saved) => print_both(rt, alloc, &saved),
        Err(fault) => print_fault(rt, fault),
    }
}

/// `trail FORMAT BYTES`. It is written again in the current format.
pub(crate) fn trail(rt: &HostRuntime, alloc: Global, mut words: Words<'_>) -> Answer {
    let format = words.number()?;
    if format == 0 || format > 2 {
        return Err(BadLine::Number);
    }
    let bytes = bytes_of(alloc, &mut words)?;
    words.end()?;
    Ok(show(rt, alloc, format, &bytes))
}
