//! Rows of copies that are mounted. Each line is a case: steps with `;` between, each printed with what it answered. A
//! line that begins with `#`, or an empty one, is printed as it is.
//!
//! A step stands on the one before. BODY is a record's body in hex.
//! - `mem CALL done CALL not ..`: an empty disk in memory, which fails at these calls, its work done or not.
//! - `image BODY ..`: a disk in memory with a journal of these records.
//! - `cut N`, `add HEX`, `fail CALL done ..`, `bytes`, `calls`: of a disk. They make a new disk of its bytes.
//! - `mount LIMIT MADE EPOCH TOP ..`: mounts the copy of which MADE tells, over the table of which it tells, behind a
//!   ledger with this last epoch and these tops; MADE and each TOP are bodies. It has an empty spare, which is dropped.
//! - `records`, `start`: of a mounted copy.
//! - `back MADE OLD HAND GRANT ..`: mounts a journal on a disk, and reads it back: behind so many older records stand
//!   these grants, and maybe the one in hand; `-` is none.
#![tactic(auto)]

mod answer;
mod back;
mod case;
mod site;
mod state;

use case::SiteCase;
use rows_kit::{is_title, print_steps};
use std::io;

fn main(rt: HostRuntime) -> io::Result<()> {
    let alloc = rt.alloc();
    for line in rt.lines(alloc) {
        let line = line?;
        if is_title(line.as_str()) {
            println!(rt; "{line}")?;
        } else {
            print_steps(&rt, &mut SiteCase::new(alloc), line.as_str())?;
        }
    }
    Ok(())
}
