//! Rows of a site over a desk. Each line is a case: steps with `;` between, each printed with what it answered. A line
//! that begins with `#`, or an empty one, is printed as it is.
//!
//! A step stands on the one before. The store has one copy, with the records `x`, which starts with 5, and `y`, which
//! starts with 7.
//! - `mem CALL done CALL not ..`: an empty disk in memory, which fails at these calls, its work done or not.
//! - `file FOLDER`: the disk of the copy in a folder. `folder NAME`, `remove NAME`: makes or removes a folder.
//! - `spare CALL done CALL not ..`: an empty spare in memory beside the disk. What is told of the disk is told of the
//!   spare too then, behind a stroke.
//! - `calls`: of a disk in memory, how many were made. `bytes`: what is there. `lose`: it has then what was synced last,
//!   as after a crash.
//! - `records`: what stands in the journal of the disk, or of the active one of both: its base, where it has one, with its
//!   number, its epoch and its tuples, and each grant with its tuple.
//! - `run LIMIT, WORD, WORD ..`: mounts the copy, by the active one where there are two, behind a ledger that told the
//!   epochs of the runs before and the tops that committed in them. Its site then serves a client over a desk of their
//!   own. The words, with `,` between, are printed in turn with what they answered; behind them what stands in the
//!   history: how many grants, refusals and words of being unable, and each grant with its tuple. The disks stay.
//!
//! The words of a run:
//! - `set RECORD VALUE`: a new top, whose manager sets a record. Its first access asks for the tuple.
//! - `child RECORD VALUE`: the same below the user transaction of the client's request, by a child of it.
//! - `put`: that access takes its reply, and the next puts the value. `done`: that one takes its own, and the manager
//!   commits.
//! - `again`: the client's request once more.
//! - `commit`, `abort`: the user transaction of the client's request commits, a top by the ledger's word, or is aborted.
//! - `swap`: the client goes on with the request before, of whose manager it knows no more.
//! - `fold`: folds what the copy holds into the other disk, where each top has ended and no fold of this run was refused.
//! - `crash`, `revive`, `up`, `strange`: of the site.
//! - `spoil FOLDER PLACE HEX`: writes bytes into the file of the copy's disk, beside the site.
#![tactic(auto)]

mod answer;
mod case;
mod client;
mod commit;
mod disks;
mod fold;
mod folds;
mod run;
mod serve;
mod served;
mod start;
mod words;

use case::Case;
use rows_kit::is_title;
use std::io;
use std::sync::Wait;

// Makes the steps of a case, and prints what each answered.
fn print_case<R: Wait>(
    handle: &R,
    rt: &HostRuntime,
    case: &mut Case,
    line: &str,
) -> io::Result<()> {
    for text in line.split(';') {
        for told in case.step(handle, text.trim_ascii())? {
            println!(rt; "{told}")?;
        }
    }
    Ok(())
}

fn main(rt: HostRuntime) -> io::Result<()> {
    let alloc = rt.alloc();
    for line in rt.lines(alloc) {
        let line = line?;
        if is_title(line.as_str()) {
            println!(rt; "{line}")?;
        } else {
            print_case(&rt, &rt, &mut Case::new(rt, alloc), line.as_str())?;
        }
    }
    Ok(())
}
