//! Entries.
use crate::ends::print_how;
use crate::grants::print_op;
use qc_event::{Ask, Entry, Event, Grant, Refusal};
use rows_text::{KindText, TupleText};
use std::io;

fn print_ask(rt: &HostRuntime, ask: &Ask) -> io::Result<()> {
    print!(rt; "ask {} copy {} record {} ", ask.access, ask.copy, ask.rec)?;
    print_op(rt, &ask.op)?;
    println!(rt;)
}

fn print_grant(rt: &HostRuntime, copy: u8, grant: &Grant) -> io::Result<()> {
    print!(rt;
        "granted {} copy {copy} record {} ",
        grant.access, grant.rec
    )?;
    print_op(rt, &grant.op)?;
    let tuple = TupleText(grant.tuple);
    println!(rt; " leaves {tuple}")
}

fn print_refusal(rt: &HostRuntime, refusal: &Refusal) -> io::Result<()> {
    match refusal {
        Refusal::Blocked(holder) => println!(rt; "blocked {holder}"),
        Refusal::Dead(ancestor) => println!(rt; "dead {ancestor}"),
    }
}

fn print_event(rt: &HostRuntime, event: &Event) -> io::Result<()> {
    match event {
        Event::Start { name, kind } => {
            let kind = KindText(*kind);
            println!(rt; "start {name} {kind}")
        }
        Event::Ask(ask) => print_ask(rt, ask),
        Event::Gone { access, why } => println!(rt; "gone {access} {why:?}"),
        Event::Granted { copy, grant } => print_grant(rt, *copy, grant),
        Event::Refused {
            access,
            copy,
            refusal,
        } => {
            print!(rt; "refused {access} copy {copy} ")?;
            print_refusal(rt, refusal)
        }
        Event::Ready { top } => println!(rt; "ready {top}"),
        Event::End { name, how } => {
            print!(rt; "end {name} ")?;
            print_how(rt, how)
        }
        Event::Unable { name, why } => println!(rt; "unable {name} {why:?}"),
        Event::Mark { by, session } => println!(rt; "mark {by} session {session}"),
    }
}

/// Prints an entry.
pub(crate) fn print_entry(rt: &HostRuntime, entry: &Entry) -> io::Result<()> {
    let seat = entry.seat;
    print!(rt; "  {seat} ")?;
    print_event(rt, &entry.event)
}
