//! Asks names, configurations, collections, couriers and boards what each line of the input says, and prints what they
//! answer. Blank lines and titles, which begin with `#`, are printed as they are.
#![tactic(auto)]

mod boards;
mod collecting;
mod configs;
mod couriers;
mod names;

use collecting::Collecting;
use rows_text::{BadLine, Words};
use std::alloc::Global;
use std::io;

/// What a line answers: the text, or why it says nothing.
type Answer = Result<io::Result<()>, BadLine>;

// Answers a line by its first word.
fn answer(rt: &HostRuntime, alloc: Global, collecting: &mut Collecting, line: &str) -> Answer {
    let mut words = Words::new(line);
    match words.word()? {
        "name" => names::name(rt, words),
        "ancestor" => names::ancestor(rt, words),
        "meet" => names::meet(rt, words),
        "config" => configs::config(rt, words),
        "holds" => configs::holds(rt, words),
        "after" => configs::after(rt, words),
        "board" => boards::board(rt, alloc, words),
        "courier" => couriers::courier(rt, alloc, words),
        "link" => couriers::link(rt, alloc, words),
        word => collecting.answer(rt, word, words),
    }
}

fn print_answer(
    rt: &HostRuntime,
    alloc: Global,
    collecting: &mut Collecting,
    line: &str,
) -> io::Result<()> {
    if line.is_empty() || line.starts_with('#') {
        return println!(rt; "{line}");
    }
    match answer(rt, alloc, collecting, line) {
        Ok(printed) => printed,
        Err(bad) => println!(rt; "{bad}: {line}"),
    }
}

fn main(rt: HostRuntime) -> io::Result<()> {
    let alloc = rt.alloc();
    let mut collecting = Collecting::Nothing;
    for line in rt.lines(alloc) {
        print_answer(&rt, alloc, &mut collecting, line?.as_str())?;
    }
    Ok(())
}
