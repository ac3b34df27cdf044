//! What is asked of a manager's collection and its puts.
ghost use Rattle.std.specs.Prelude.{◌<◌, IfOk};

use crate::Answer;
use qc_event::{Phase, Why};
use qc_managers::{Gather, Next, Puts, Shortage};
use rows_text::{BadLine, ConfigText, LackText, Words};
use std::io;

/// What a manager does now: `gather C` begins a collection over a first configuration, `puts PHASE C` begins
/// puts; `reply`, `miss` and `blocked` tell what became of the request to a copy.
#[derive(Drop)]
pub(crate) enum Collecting {
    Nothing,
    Gather(Gather),
    Puts(Puts),
}

fn copy_of(words: &mut Words<'_>) -> Result<u8, BadLine>
    ensures { IfOk result (λ copy. copy < 16) }
{
    let copy = words.number::<u8>()?;
    if copy < 16 {
        Ok(copy)
    } else {
        Err(BadLine::Number)
    }
}

fn why_of(words: &mut Words<'_>) -> Result<Why, BadLine> {
    match words.word()? {
        "lost" => Ok(Why::Lost),
        "late" => Ok(Why::Late),
        "down" => Ok(Why::Down),
        "full" => Ok(Why::Full),
        "strange" => Ok(Why::Strange),
        _ => Err(BadLine::Word),
    }
}

fn phase_of(words: &mut Words<'_>) -> Result<Phase, BadLine> {
    match words.word()? {
        "values" => Ok(Phase::Values),
        "configs" => Ok(Phase::Configs),
        _ => Err(BadLine::Word),
    }
}

fn print_next(rt: &HostRuntime, next: Next, shortage: &Shortage) -> io::Result<()> {
    match next {
        Next::Enough => println!(rt; "enough"),
        Next::Copy(copy) => println!(rt; "copy {copy}"),
        Next::Short => match shortage {
            Shortage::Conflict { copy, holder } => {
                println!(rt; "short, blocked at {copy} by {holder}")
            }
            Shortage::NoQuorum(lack) => {
                let lack = LackText(*lack);
                println!(rt; "short in {lack}")
            }
        },
    }
}

fn print_gathered(rt: &HostRuntime, gather: &Gather) -> io::Result<()> {
    let (version, value) = gather.greatest();
    let (generation, config) = gather.newest();
    let newest = ConfigText(config);
    print!(rt; "version {version} value {value:?}, generation {generation} {newest}; ")?;
    print_next(rt, gather.next(), &gather.lack())
}

// What became of a request in a collection.
fn hear(gather: &mut Gather, word: &str, mut words: Words<'_>) -> Result<(), BadLine> {
    let copy = copy_of(&mut words)?;
    match word {
        "reply" => {
            let tuple = words.tuple()?;
            gather.add(copy, &tuple);
        }
        "miss" => {
            let why = why_of(&mut words)?;
            gather.miss(copy, why);
        }
        "blocked" => {
            let holder = words.name()?;
            gather.blocked(copy, &holder);
        }
        _ => return Err(BadLine::Word),
    }
    Ok(())
}

// What became of a put.
fn hear_put(puts: &mut Puts, word: &str, mut words: Words<'_>) -> Result<(), BadLine> {
    let copy = copy_of(&mut words)?;
    match word {
        "reply" => puts.add(copy),
        "miss" => {
            let why = why_of(&mut words)?;
            puts.miss(copy, why);
        }
        "blocked" => {
            let holder = words.name()?;
            puts.blocked(copy, &holder);
        }
        _ => return Err(BadLine::Word),
    }
    Ok(())
}

impl Collecting {
    /// Does what a line says, and prints what the manager does next.
    pub(crate) fn answer(&mut self, rt: &HostRuntime, word: &str, mut words: Words<'_>) -> Answer {
        match word {
            "gather" => *self = Collecting::Gather(Gather::new(&words.config()?)),
            "puts" => {
                let phase = phase_of(&mut words)?;
                *self = Collecting::Puts(Puts::new(&words.config()?, phase));
            }
            _ => self.hear(word, words)?,
        }
        Ok(self.print(rt))
    }

    fn hear(&mut self, word: &str, words: Words<'_>) -> Result<(), BadLine> {
        match self {
            Collecting::Nothing => Err(BadLine::Word),
            Collecting::Gather(gather) => hear(gather, word, words),
            Collecting::Puts(puts) => hear_put(puts, word, words),
        }
    }

    fn print(&self, rt: &HostRuntime) -> io::Result<()> {
        match self {
            Collecting::Nothing => Ok(()),
            Collecting::Gather(gather) => print_gathered(rt, gather),
            Collecting::Puts(puts) => print_next(rt, puts.next(), &puts.lack()),
        }
    }
}
