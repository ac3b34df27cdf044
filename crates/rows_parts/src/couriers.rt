//! What is asked of couriers and links.
ghost use Rattle.std.specs.Prelude.{◌≤◌, IfOk};

use crate::Answer;
use qc_config::{Config, Op, Tuple, Val};
use qc_event::{Answered, Ask, Name, Short};
use qc_net::{Courier, Fate, Link, PlanLink, Port, Sent};
use rows_text::{BadLine, Words};
use std::alloc::{AllocError, Global};
use std::io;

/// A port that grants reads, with the number of the delivery as version, and calls all else dead. It has room for
/// so many deliveries.
#[derive(Drop)]
struct Counting {
    deliveries: u64,
    room: u64,
}

impl Port for Counting {
    ghost use Rattle.std.specs.Prelude.{◌≤◌, None};

    ghost view = { λ port. record {
      may = λ ask. Unit {0};
      gave = λ ask answer. Unit {0};
      made = None;
      full = port.room ≤ port.deliveries;
    } };

    ghost became = { λ before now. Unit {0} };

    fn deliver(&mut self, ask: &Ask) -> Result<Answered, Short> {
        if self.deliveries >= self.room {
            return Err(Short::Room);
        }
        self.deliveries += 1;
        Ok(match ask.op {
            Op::Get => Answered::Granted(Tuple {
                version: self.deliveries,
                value: Val::number(0),
                generation: 0,
                config: Config::none(),
            }),
            _ => Answered::Dead(ask.access),
        })
    }

    ghost became_itself = { λ port. tt };

    ghost became_by_both = { λ a b c to then. tt };
}

fn fates_of(alloc: Global, letters: &str) -> Result<Vec<Fate>, AllocError> {
    let mut fates = Vec::new(alloc);
    for letter in letters.bytes() {
        fates.push(match letter {
            b'a' => Fate::LoseAsk,
            b'r' => Fate::LoseReply,
            b'h' => Fate::Hold,
            b't' => Fate::Twice,
            _ => Fate::Deliver,
        })?;
    }
    Ok(fates)
}

fn hold_of(words: &mut Words<'_>) -> Result<u64, BadLine>
    ensures { IfOk result (λ hold. 1 ≤ hold) }
{
    let hold = words.number::<u64>()?;
    if hold >= 1 {
        Ok(hold)
    } else {
        Err(BadLine::Number)
    }
}

fn ask_of(op: Op) -> Ask {
    Ask {
        access: Name::top(1),
        copy: 0,
        rec: 0,
        op,
    }
}

// Sends a read, or a put, and prints what the sender sees: the number of the delivery that answered, or why none did.
fn print_sending(
    rt: &HostRuntime,
    courier: &mut Courier<PlanLink>,
    port: &mut Counting,
    op: Op,
    patience: u32,
) -> io::Result<()> {
    match courier.send(&ask_of(op), port, patience) {
        Ok(Sent::Answer(Answered::Granted(tuple))) => print!(rt; " {}", tuple.version),
        Ok(Sent::Answer(_)) => print!(rt; " dead"),
        Ok(Sent::Lost) => print!(rt; " lost"),
        Ok(Sent::Late) => print!(rt; " late"),
        Err(short) => print!(rt; " {short}"),
    }
}

fn print_sendings(
    rt: &HostRuntime,
    mut courier: Courier<PlanLink>,
    mut port: Counting,
    patience: u32,
    letters: &str,
) -> io::Result<()> {
    print!(rt; "sent")?;
    for letter in letters.bytes() {
        let put = Op::PutData {
            version: 1,
            value: Val::number(1),
        };
        let op = if letter == b'p' { put } else { Op::Get };
        print_sending(rt, &mut courier, &mut port, op, patience)?;
    }
    println!(rt; ", {} deliveries", port.deliveries)
}

// How many deliveries a port has room for, where the line says so.
fn room_of(words: &mut Words<'_>) -> Result<u64, BadLine> {
    match words.number::<u64>() {
        Err(BadLine::Ends) => Ok(u64::MAX),
        room => room,
    }
}

/// `courier FATES HOLD PATIENCE SENDINGS [ROOM]`: a letter for each sending, `g` a read and `p` a put. Fates `-` are
/// none.
pub(crate) fn courier(rt: &HostRuntime, alloc: Global, mut words: Words<'_>) -> Answer {
    let letters = words.word()?;
    let hold = hold_of(&mut words)?;
    let patience = words.number::<u32>()?;
    let sendings = words.word()?;
    let port = Counting {
        deliveries: 0,
        room: room_of(&mut words)?,
    };
    let letters = if letters == "-" { "" } else { letters };
    let fates = match fates_of(alloc, letters) {
        Ok(fates) => fates,
        Err(AllocError) => return Ok(println!(rt; "no memory")),
    };
    let courier = Courier::new(alloc, PlanLink::new(fates, hold));
    Ok(print_sendings(rt, courier, port, patience, sendings))
}

fn print_due(rt: &HostRuntime, link: &mut PlanLink, held: usize) -> io::Result<()> {
    match link.due(held) {
        Some(place) => print!(rt; " due {place}"),
        None => print!(rt; " none due"),
    }
}

fn print_turn(rt: &HostRuntime, link: &mut PlanLink) -> io::Result<()> {
    let fate = link.fate(0);
    print!(rt; " {fate:?}")?;
    print_due(rt, link, 3)
}

fn print_link(rt: &HostRuntime, mut link: PlanLink) -> io::Result<()> {
    print!(rt; "link")?;
    print_turn(rt, &mut link)?;
    let mut fresh = link.fresh()?;
    print_turn(rt, &mut link)?;
    print!(rt; ", fresh")?;
    print_turn(rt, &mut fresh)?;
    print_due(rt, &mut fresh, 0)?;
    println!(rt;)
}

/// `link FATES HOLD`: two turns of a link, each a fate and a due step with three requests held, and a turn of a link
/// that was made of it between them.
pub(crate) fn link(rt: &HostRuntime, alloc: Global, mut words: Words<'_>) -> Answer {
    let letters = words.word()?;
    let hold = hold_of(&mut words)?;
    match fates_of(alloc, letters) {
        Ok(fates) => Ok(print_link(rt, PlanLink::new(fates, hold))),
        Err(AllocError) => Ok(println!(rt; "no memory")),
    }
}
