//! Rows of a group of ready tops. Each case is a line with the most that are drawn: `draw`: three tops are offered, and
//! drawn for a fourth one; `ended`: the ledger has committed the first of them by then; `own`: they are drawn for the
//! second; `twice`: the first is offered again behind the others. Then the tops that were drawn are printed, and those
//! that are drawn next for the fourth one. `threads N`: one thread offers N tops as another draws; then is printed how
//! many were drawn there and behind it. Other lines are printed as they are.
#![tactic(auto)]

mod cases;
mod scene;
mod threads;

use cases::{Case, Told, run_case};
use qc_event::Name;
use std::alloc::Global;
use std::io;
use std::sync::Wait;
use std::thread::Threads;
use threads::run_threads;

// The count behind a word, where the line has both.
fn count_behind(line: &str, word: &str) -> Option<usize> {
    match line.strip_prefix(word)?.parse::<usize>() {
        Ok(count) => Some(count),
        Err(_) => None,
    }
}

// The case of a line, and how many are drawn at most.
fn case_of(line: &str) -> Option<(Case, usize)> {
    if let Some(most) = count_behind(line, "draw ") {
        return Some((Case::Plain, most));
    }
    if let Some(most) = count_behind(line, "ended ") {
        return Some((Case::Ended, most));
    }
    if let Some(most) = count_behind(line, "own ") {
        return Some((Case::Own, most));
    }
    Some((Case::Twice, count_behind(line, "twice ")?))
}

fn tell_tops(rt: HostRuntime, line: &str, when: &str, tops: &[Name]) -> io::Result<()> {
    if tops.is_empty() {
        println!(rt; "{line}: {when} none")?;
    }
    for top in tops {
        println!(rt; "{line}: {when} {top}")?;
    }
    Ok(())
}

fn tell(rt: HostRuntime, line: &str, told: &Told) -> io::Result<()> {
    tell_tops(rt, line, "drawn", told.drawn.as_slice())?;
    tell_tops(rt, line, "next", told.next.as_slice())
}

fn play_threads<R: Threads + Wait + Sync>(
    rt: HostRuntime,
    threads: &R,
    alloc: Global,
    line: &str,
) -> io::Result<bool> {
    let Some(tops) = count_behind(line, "threads ") else {
        return Ok(false);
    };
    match run_threads(threads, alloc, tops) {
        Ok(drawn) => println!(rt; "{line}: {drawn} drawn")?,
        Err(why) => println!(rt; "{line}: {why}")?,
    }
    Ok(true)
}

fn main(rt: HostRuntime) -> io::Result<()> {
    let alloc = rt.alloc();
    for line in rt.lines(alloc) {
        let line = line?;
        if play_threads(rt, &rt, alloc, line.as_str())? {
            continue;
        }
        match case_of(line.as_str()) {
            Some((case, most)) => match run_case(&rt, alloc, case, most) {
                Ok(told) => tell(rt, line.as_str(), &told)?,
                Err(why) => println!(rt; "{line}: {why}")?,
            },
            None => println!(rt; "{line}")?,
        }
    }
    Ok(())
}
