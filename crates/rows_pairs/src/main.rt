//! Rows of pairs that are opened. Each line is a case: steps with `;` between, each printed with what it answered. A line
//! that begins with `#`, or an empty one, is printed as it is.
//!
//! A case has two disks in memory, which are empty at first: 0 is the disk, and 1 its spare. BODY is a record's body in
//! hex.
//! - `image N BODY ..`: disk N is a journal of these records.
//! - `bytes N HEX`: disk N has these bytes.
//! - `fail N CALL done CALL not ..`: disk N fails at these calls, its work done or not.
//! - `open WHO KIND`: opens the pair of disk WHO, of the kind `ledger` or `copy`, and tells which disk is active, which is
//!   not, the number of the next fold and the records, or why it is refused; and the length of both disks behind it.
//! - `fold WHO KIND MADE EPOCH COPIES TUPLE ..`: opens it so, folds into the other journal a base of this epoch behind the
//!   body MADE, of a store of so many copies, and tells how that went. TUPLE is `VERSION,VALUE,GENERATION,READ,WRITE,VOTES`
//!   with votes as `1,1`.
//! - `renew WHO KIND MADE EPOCH COPIES TUPLE ..`: opens it so, folds likewise and exchanges both journals, and tells how
//!   they stand then.
//! - `disks`: the bytes of each disk.
//!
//! The disks that come back are those of the case then.
#![tactic(auto)]

mod answer;
mod case;
mod opening;
mod tuple;
mod wish;

use case::PairCase;
use rows_kit::{is_title, print_steps};
use std::io;

fn main(rt: HostRuntime) -> io::Result<()> {
    let alloc = rt.alloc();
    for line in rt.lines(alloc) {
        let line = line?;
        if is_title(line.as_str()) {
            println!(rt; "{line}")?;
        } else {
            print_steps(&rt, &mut PairCase::new(alloc), line.as_str())?;
        }
    }
    Ok(())
}
