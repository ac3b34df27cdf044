//! How transactions ended.
use qc_event::{Answer, Cause, How};
use rows_text::{LackText, TupleText};
use std::io;

fn print_answer(rt: &HostRuntime, answer: &Answer) -> io::Result<()> {
    match *answer {
        Answer::Nothing => println!(rt; "nothing"),
        Answer::Value(value) => println!(rt; "value {value:?}"),
        Answer::Generation(generation) => println!(rt; "generation {generation}"),
        Answer::Reply(tuple) => {
            let tuple = TupleText(tuple);
            println!(rt; "reply {tuple}")
        }
    }
}

fn print_cause(rt: &HostRuntime, cause: &Cause) -> io::Result<()> {
    match cause {
        Cause::Asked { by } => println!(rt; "asked {by}"),
        Cause::Conflict { copy, holder } => println!(rt; "conflict copy {copy} holder {holder}"),
        Cause::NoQuorum(lack) => {
            let lack = LackText(*lack);
            println!(rt; "noquorum {lack}")
        }
        Cause::Last => println!(rt; "last"),
        Cause::Orphan(ancestor) => println!(rt; "orphan {ancestor}"),
        Cause::Killed => println!(rt; "killed"),
        Cause::Child(child) => println!(rt; "child {child}"),
        Cause::Missed => println!(rt; "missed"),
    }
}

/// Prints how a transaction ended.
pub(crate) fn print_how(rt: &HostRuntime, how: &How) -> io::Result<()> {
    match how {
        How::Commit(answer) => {
            print!(rt; "commit ")?;
            print_answer(rt, answer)
        }
        How::Abort(cause) => {
            print!(rt; "abort ")?;
            print_cause(rt, cause)
        }
    }
}
