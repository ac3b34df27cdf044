//! Rows of stores that are mounted. Each line is a case: steps with `;` between, each printed with what it answered. A
//! line that begins with `#`, or an empty one, is printed as it is.
//!
//! A case has disks in memory, which are empty at first; disk 17 + N is the spare of disk N. BODY is a record's body in
//! hex.
//! - `image N BODY ..`: disk N is a journal of these records.
//! - `bytes N HEX`: disk N has these bytes.
//! - `fail N CALL done CALL not ..`: disk N fails at these calls, its work done or not.
//! - `shop N ..`: the shop fails at these numbers.
//! - `mount LIMIT MADE`: mounts the store over the table of which MADE, a body, tells, from a shop of the disks. The disks
//!   that come back are those of the case then.
//! - `disks`: the number and the bytes of each disk.
//! - `folder NAME`, `remove NAME`: makes or removes a folder.
//! - `home PLACE LIMIT MADE`: mounts a store from the real shop; a stroke is no place.
#![tactic(auto)]

mod answer;
mod case;
mod mounting;

use case::StoreCase;
use rows_kit::{is_title, print_steps};
use std::io;

fn main(rt: HostRuntime) -> io::Result<()> {
    let alloc = rt.alloc();
    for line in rt.lines(alloc) {
        let line = line?;
        if is_title(line.as_str()) {
            println!(rt; "{line}")?;
        } else {
            print_steps(&rt, &mut StoreCase::new(rt, alloc), line.as_str())?;
        }
    }
    Ok(())
}
