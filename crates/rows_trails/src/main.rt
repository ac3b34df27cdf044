//! Answers questions about histories, and prints what they are answered.
//!
//! A case begins with a title, a line with `#`. Lines that set it up follow: `copies 1`, a line for each
//! record with its name, its start value and its first configuration (`record x 0 1 r1 w1`), where a copy
//! starts otherwise `starts COPY RECORD TUPLE`, the entries of a history, and events of the serial machine
//! (`event start 1/1`). `copy COPY` makes a copy of the case's own, to which `grant ACCESS RECORD OPERATION` and
//! `settle NAME OUTCOME` give locks and settle them.
//!
//! Each other line is a question, which is printed with its answer. Edits may stand before it, each ended by a
//! semicolon, as in `without 3; audit`: they change the history for this question alone. Entries are counted
//! from 0. A line that is neither is printed with what is wrong.
#![tactic(auto)]

mod case;
mod copies;
mod edit;
mod histories;
mod indexed;
mod locks;
mod orders;
mod question;
mod setting;
mod sources;
mod told;
mod wrong;

use case::Case;
use question::answer;
use setting::Setting;
use std::io;
use told::TrailTold;
use wrong::Wrong;

// Takes a line that sets up the case, or answers a question. A line that begins with a digit is an entry.
fn take(case: &mut Case, line: &str) -> Result<Option<TrailTold>, Wrong> {
    if line.starts_with(|c: char| c.is_ascii_digit()) {
        case.add(line)?;
        return Ok(None);
    }
    match Setting::of(case.alloc, line)? {
        Some(setting) => {
            case.set(setting)?;
            Ok(None)
        }
        None => Ok(Some(answer(case, line)?)),
    }
}

fn print_taken(rt: &HostRuntime, case: &mut Case, line: &str) -> io::Result<()> {
    match take(case, line) {
        Ok(None) => Ok(()),
        Ok(Some(told)) => println!(rt; "{line}: {told}"),
        Err(wrong) => println!(rt; "{line}: wrong, {wrong}"),
    }
}

fn main(rt: HostRuntime) -> io::Result<()> {
    let alloc = rt.alloc();
    let mut case = Case::new(alloc)?;
    for line in rt.lines(alloc) {
        let line = line?;
        let line = line.as_str();
        if line.starts_with('#') {
            case = Case::new(alloc)?;
        }
        if line.is_empty() || line.starts_with('#') {
            println!(rt; "{line}")?;
        } else {
            print_taken(&rt, &mut case, line)?;
        }
    }
    Ok(())
}
