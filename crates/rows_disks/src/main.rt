//! Rows of disks and journals. Each line is a case: steps with `;` between, each printed with what it answered.
//! A line that begins with `#`, or an empty one, is printed as it is.
//!
//! A step stands on the one before. BYTES are text, hex behind `0x`, or `-` for none, and are printed in hex.
//! - `mem BYTES CALL done CALL not ..`: a disk in memory, which fails at these calls, its work done or not.
//! - `shop N BYTES ..`, `obtain N`: a shop in memory, which fails at one number, and a disk from it.
//! - `home N PLACE`: a disk from the real shop. `beside N PLACE`: another, which is let go of at once. `folder NAME`,
//!   `remove NAME`, `file PATH`: around it.
//! - `len`, `add BYTES`, `write AT BYTES`, `cut TO`, `read AT`, `sync`: calls of a disk, of any kind.
//! - `bytes`, `calls`, `image CALL`: of a disk in memory. `image` tells what was synced before a call, and what was there.
//! - `mount LIMIT`, `append BYTES`, `close`, `reopen`, `reread`, `up`: of a journal. A step on its disk ends it.
#![tactic(auto)]

mod answer;
mod case;
mod device;
mod records;
mod state;
mod word;

use case::DiskCase;
use rows_kit::{is_title, print_steps};
use std::io;

fn main(rt: HostRuntime) -> io::Result<()> {
    let alloc = rt.alloc();
    for line in rt.lines(alloc) {
        let line = line?;
        if is_title(line.as_str()) {
            println!(rt; "{line}")?;
        } else {
            print_steps(&rt, &mut DiskCase::new(rt, alloc), line.as_str())?;
        }
    }
    Ok(())
}
