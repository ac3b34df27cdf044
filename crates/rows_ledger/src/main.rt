//! Rows of ledgers. Each line is a case: steps with `;` between, each printed with what it answered. A line that
//! begins with `#`, or an empty one, is printed as it is.
//!
//! A step stands on the one before. BODY is a record's body in hex, and TABLE is `x0` or `x1`: one copy with the
//! record `x`, which starts with 0 or 1.
//! - `mem CALL done CALL not ..`: an empty disk in memory, which fails at these calls, its work done or not.
//! - `image BODY ..`: a disk in memory with a journal of these records.
//! - `spare CALL done CALL not ..`: an empty spare in memory beside the disk. `other`: both change places.
//! - `cut N`, `add HEX`, `fail CALL done ..`: of the disk, which is a new one of its bytes then. `bytes`, `calls`: of the
//!   disk, and behind a stroke of its spare, where it has one.
//! - `mount LIMIT TABLE`: mounts a ledger beside an empty spare, which is dropped. `records`: of one that is mounted.
//! - `pair LIMIT TABLE`: mounts a ledger from the active one of the disk and its spare, and tells which it is.
//! - `desk BODY ..`: of one that is mounted. Over a desk of its own, tops are started and made ready in turn, and each is
//!   logged by its record. Among them `revive` revives the ledger, and `fold` folds it into the other one of its pair,
//!   where it is up and no fold of this mounting was refused. Its disks stay.
//! - `open`: opens it. `log BODY`, `let`, `revive`, `hand`, `up`: of one that is open.
#![tactic(auto)]

mod answer;
mod case;
mod desk;
mod fold;
mod folds;
mod ledger;
mod state;

use case::LedgerCase;
use rows_kit::{is_title, print_steps};
use std::io;

fn main(rt: HostRuntime) -> io::Result<()> {
    let alloc = rt.alloc();
    for line in rt.lines(alloc) {
        let line = line?;
        if is_title(line.as_str()) {
            println!(rt; "{line}")?;
        } else {
            print_steps(&rt, &mut LedgerCase::new(&rt, alloc), line.as_str())?;
        }
    }
    Ok(())
}
