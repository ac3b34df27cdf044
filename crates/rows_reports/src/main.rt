//! Prints the reports of histories that no run makes today. A history is a row of entries, one a line, over one copy of
//! one record `x` that starts with value 7; `report` prints its report so far, with the last value by versions,
//! `summary` the end of that alone, and an empty line begins the next history. Titles begin with `#`.
#![tactic(auto)]

ghost use Rattle.std.specs.Prelude.{◌≡◌, length, IfOk};

use qc_event::{Base, Config, Entry, Label, Row, Rows, Table, Tuple, Val};
use qc_report::{History, finals, report, summary};
use qc_trail::Trail;
use rows_text::{Log, append_line};
use std::alloc::{AllocError, Global};
use std::io;

/// The value with which the record starts.
const START: u64 = 7;

fn table_of(alloc: Global, config: Config) -> Result<Table, AllocError> {
    let row = Row {
        name: Label::new(alloc, b"x")?,
        start: Val::number(START),
        config,
    };
    Ok(Table {
        copies: 1,
        records: Rows::new(vec![in alloc; row]?),
    })
}

fn base_of(alloc: Global, config: Config) -> Result<Base, AllocError>
    ensures { IfOk result (λ base. length base ≡ 1) }
{
    let first = Tuple {
        version: 0,
        value: Val::number(START),
        generation: 0,
        config,
    };
    let row = vec![in alloc; first]?;
    Ok(Base::new(vec![in alloc; row]?))
}

/// What is asked for of a history.
#[derive(Clone, Copy)]
enum Wanted {
    Report,
    Summary,
}

impl Wanted {
    // What a line asks for.
    fn of(line: &str) -> Option<Self> {
        match line {
            "report" => Some(Wanted::Report),
            "summary" => Some(Wanted::Summary),
            _ => None,
        }
    }
}

fn trail_of(alloc: Global, entries: &[Entry]) -> Result<Trail, AllocError> {
    let mut trail = Trail::new(alloc);
    for entry in entries {
        trail.push(entry, None)?;
    }
    Ok(trail)
}

fn text_of(
    alloc: Global,
    config: Config,
    entries: &[Entry],
    wanted: Wanted,
) -> Result<Vec<u8>, AllocError> {
    let table = table_of(alloc, config)?;
    let base = base_of(alloc, config)?;
    let trail = trail_of(alloc, entries)?;
    let history = History::plain(&trail);
    let values = finals(alloc, &base, &history, 1)?;
    match wanted {
        Wanted::Report => report(alloc, &table, values.as_slice(), &history),
        Wanted::Summary => summary(alloc, &table, values.as_slice(), &history),
    }
}

fn print_text(
    rt: &HostRuntime,
    alloc: Global,
    config: Config,
    entries: &[Entry],
    wanted: Wanted,
) -> io::Result<()> {
    let text = text_of(alloc, config, entries, wanted)?;
    match std::str::from_utf8(text.as_slice()) {
        Ok(text) => print!(rt; "{text}"),
        Err(_) => println!(rt; "no text"),
    }
}

// Does what a line says, and prints what it answers.
fn answer(
    rt: &HostRuntime,
    alloc: Global,
    config: Config,
    log: &mut Log,
    line: &str,
) -> io::Result<()> {
    if let Some(wanted) = Wanted::of(line) {
        return print_text(rt, alloc, config, log.as_slice(), wanted);
    }
    if line.is_empty() {
        *log = Log::new(alloc);
    }
    if line.is_empty() || line.starts_with('#') {
        return println!(rt; "{line}");
    }
    match append_line(log, line) {
        Ok(()) => Ok(()),
        Err(bad) => println!(rt; "{bad}: {line}"),
    }
}

fn main(rt: HostRuntime) -> io::Result<()> {
    let alloc = rt.alloc();
    let Ok(config) = Config::new(&[1], 1, 1) else {
        return Ok(());
    };
    let mut log = Log::new(alloc);
    for line in rt.lines(alloc) {
        answer(&rt, alloc, config, &mut log, line?.as_str())?;
    }
    Ok(())
}
