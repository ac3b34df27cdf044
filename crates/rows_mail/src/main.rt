//! Rows of a mail. A copy that is down has its server in a thread of its own, over a queue from one session. `down`:
//! the session delivers two requests and says the word to stop; then what they were answered is printed, and how many
//! requests the server took. `looks`: the session sends a request, and then does nothing but look into its reply
//! queue, at most 1,000,000 times, each time letting others go first; then whether a reply came is printed, and the
//! same number. Other lines are printed as they are.
#![tactic(auto)]

ghost use Rattle.std.specs.Prelude.{◌≡◌, IfSome};

mod downs;
mod mails;
mod requests;

use mails::{Seen, Told, play};
use qc_event::Answered;
use requests::one_copy;
use rows_request::one_vote;
use std::alloc::Global;
use std::io;
use std::sync::Wait;
use std::thread::Threads;

// An answer in one word.
fn word_of(answer: &Answered) -> &'static str {
    match answer {
        Answered::Granted(_) => "granted",
        Answered::Blocked(_) => "blocked",
        Answered::Dead(_) => "dead",
        Answered::Down => "down",
        Answered::Full => "full",
        Answered::Strange => "strange",
    }
}

fn tell(rt: HostRuntime, line: &str, told: &Told) -> io::Result<()> {
    let taken = told.taken;
    match &told.seen {
        Ok(Seen::Answers(one, two)) => {
            let one = word_of(one);
            let two = word_of(two);
            println!(rt; "{line}: answered {one}, {two}; taken {taken}")
        }
        Ok(Seen::Reply(true)) => println!(rt; "{line}: a reply came; taken {taken}"),
        Ok(Seen::Reply(false)) => println!(rt; "{line}: no reply came; taken {taken}"),
        Err(why) => println!(rt; "{line}: {why}; taken {taken}"),
    }
}

// Runs the case, and tells what came of it.
fn play_case<R: Threads + Wait + Sync>(
    rt: HostRuntime,
    threads: &R,
    alloc: Global,
    line: &str,
    looks: bool,
) -> io::Result<()> {
    let Some(config) = one_vote() else {
        return Ok(());
    };
    let blank = one_copy(alloc, &config)?;
    match play(threads, alloc, blank, looks)? {
        Some(told) => tell(rt, line, &told),
        None => println!(rt; "{line}: no session"),
    }
}

fn main(rt: HostRuntime) -> io::Result<()> {
    let alloc = rt.alloc();
    for line in rt.lines(alloc) {
        let line = line?;
        match line.as_str() {
            "down" => play_case(rt, &rt, alloc, "down", false)?,
            "looks" => play_case(rt, &rt, alloc, "looks", true)?,
            other => println!(rt; "{other}")?,
        }
    }
    Ok(())
}
