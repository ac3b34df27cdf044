//! The script that is made of a number. Each function gives what the definition of its name says, or
//! the want of memory.
ghost use Rattle.std.specs.Prelude.{◌≡◌, ◌+◌, ◌<◌, ◌≤◌, ◌++◌, [], ◌∷◌, map, IfOk, OnOk};
ghost use Rattle.std.specs.List.{range_with_len};
ghost use Rattle.qc_script.specs.MadePlan as spec;
ghost use Rattle.qc_script.specs.Reading.{IsProper};
ghost use Rattle.qc_script.specs.Steps.{numbered, put, plan_of_session, plan_of_script};

use crate::script::{Body, Script, Session, Step};
use qc_event::{Config, Label, Row, Rows, Table, Val};
use qc_net::Fate;
use std::alloc::{AllocError, Global};

fn one_each() -> Config
    ensures { result ≡ spec.one_each }
{
    match Config::new(&[1, 1, 1, 1, 1], 3, 3) {
        Ok(config) => config,
        Err(_) => unreachable!(),
    }
}

fn two_each() -> Config
    ensures { result ≡ spec.two_each }
{
    match Config::new(&[2, 2, 2, 2, 2], 6, 5) {
        Ok(config) => config,
        Err(_) => unreachable!(),
    }
}

fn made_row(alloc: Global, rec: u8) -> Result<Row, AllocError>
    ensures { IfOk result (λ row. row ≡ spec.made_row rec) }
{
    let name = format!(in alloc; "r{rec}")?;
    Ok(Row {
        name: Label::new(alloc, name.as_bytes())?,
        start: Val::number(0),
        config: one_each(),
    })
}

fn made_rows(alloc: Global) -> Result<Vec<Row>, AllocError>
    ensures { IfOk result (λ rows. rows.items ≡ map spec.made_row (range_with_len 0 8)) }
{
    let mut rows = Vec::new(alloc);
    for rec in 0..8 {
        let row = made_row(alloc, rec)?;
        rows.push(row)?;
    }
    Ok(rows)
}

fn record_at(place: u32) -> u8
    ensures { result ≡ spec.record_at place }
{
    (place % 8) as u8
}

fn amount_at(seed: u64, place: u32) -> u64
    ensures { result ≡ spec.amount_at seed place }
{
    (seed % 10 + u64::from(place)) % 10 + 1
}

fn at_once(place: u32) -> bool
    ensures { result ≡ spec.at_once place }
{
    place % 10 == 4
}

// Two bodies for each top before this one, and a third for each of them that runs children at once.
fn number_at(place: u32) -> u32
    requires { place < 400 }
    ensures number { result ≡ spec.number_at place }
    ensures few { result < 1000 }
{
    2 * place + (place + 5) / 10
}

fn made_body(number: u32, steps: Vec<Step>) -> Body
    ensures { numbered result ≡ spec.made_body number (map put steps.items) }
{
    Body {
        number,
        tries: 1,
        must: false,
        steps,
    }
}

// A body of one step.
fn body_of_one(alloc: Global, number: u32, step: Step) -> Result<Body, AllocError>
    ensures { IfOk result (λ b. numbered b ≡ spec.made_body number (put step ∷ [])) }
{
    let steps = vec![in alloc; step]?;
    Ok(made_body(number, steps))
}

fn adding_at(alloc: Global, seed: u64, place: u32) -> Result<Body, AllocError>
    requires { place < 400 }
    ensures { IfOk result (λ b. numbered b ≡ spec.adding_at seed place) }
{
    let step = Step::Add {
        rec: record_at(place),
        value: amount_at(seed, place),
    };
    body_of_one(alloc, number_at(place) + 1, step)
}

fn reading_at(alloc: Global, place: u32) -> Result<Body, AllocError>
    requires { place < 400 }
    ensures { IfOk result (λ b. numbered b ≡ spec.reading_at place) }
{
    let step = Step::Read {
        rec: record_at(place + 1),
    };
    body_of_one(alloc, number_at(place) + 2, step)
}

fn children_at(alloc: Global, seed: u64, place: u32) -> Result<Step, AllocError>
    requires { place < 400 }
    ensures { IfOk result (λ step. put step ≡ spec.children_at seed place) }
{
    let adding = adding_at(alloc, seed, place)?;
    if !at_once(place) {
        return Ok(Step::Child(adding));
    }
    let reading = reading_at(alloc, place)?;
    let bodies = vec![in alloc; adding, reading]?;
    Ok(Step::Par(bodies))
}

fn push(steps: &mut Vec<Step>, step: Step) -> Result<(), AllocError>
    ensures { OnOk result (map put steps.new.items ≡ map put steps.old.items ++ put step ∷ []) }
{
    steps.push(step)?;
    Ok(())
}

// This step only where it is so.
fn push_where(steps: &mut Vec<Step>, so: bool, step: Step) -> Result<(), AllocError>
    ensures { OnOk result (map put steps.new.items
        ≡ map put steps.old.items ++ spec.only_where so (put step)) }
{
    if so { push(steps, step) } else { Ok(()) }
}

fn steps_at(alloc: Global, seed: u64, place: u32) -> Result<Vec<Step>, AllocError>
    requires { place < 400 }
    ensures { IfOk result (λ steps. map put steps.items ≡ spec.steps_at seed place) }
{
    let rec = record_at(place);
    let children = children_at(alloc, seed, place)?;
    let reconf = Step::Reconf {
        rec,
        config: two_each(),
    };
    let mut steps = Vec::new(alloc);
    push_where(&mut steps, place == 200, Step::Crash { copy: 2 })?;
    push_where(&mut steps, place == 100 || place == 301, reconf)?;
    push(&mut steps, children)?;
    push(&mut steps, Step::Read { rec })?;
    push_where(&mut steps, place % 10 == 9, Step::Abort { levels: 0 })?;
    Ok(steps)
}

fn top_at(alloc: Global, seed: u64, place: u32) -> Result<Body, AllocError>
    requires { place < 400 }
    ensures { IfOk result (λ top. numbered top ≡ spec.top_at seed place) }
{
    let steps = steps_at(alloc, seed, place)?;
    Ok(made_body(number_at(place), steps))
}

// A hundred tops from this place on.
fn tops_from(alloc: Global, seed: u64, first: u32) -> Result<Vec<Body>, AllocError>
    requires { first ≤ 300 }
    ensures { IfOk result (λ tops. map numbered tops.items
        ≡ map (spec.top_at seed) (range_with_len first 100)) }
{
    let mut tops = Vec::new(alloc);
    for place in first..first + 100 {
        let top = top_at(alloc, seed, place)?;
        tops.push(top)?;
    }
    Ok(tops)
}

fn made_fates(alloc: Global) -> Result<Vec<Fate>, AllocError>
    ensures { IfOk result (λ fates. fates.items ≡ spec.made_fates) }
{
    let fates = vec![in alloc;
        Fate::Deliver,
        Fate::Deliver,
        Fate::Hold,
        Fate::LoseAsk,
        Fate::Twice,
        Fate::LoseReply,
        Fate::Deliver,
    ]?;
    Ok(fates)
}

fn made_session(alloc: Global, seed: u64, session: u32) -> Result<Session, AllocError>
    requires { session < 4 }
    ensures { IfOk result (λ s. plan_of_session s ≡ spec.made_session seed session) }
{
    Ok(Session {
        fates: made_fates(alloc)?,
        hold: 2,
        tops: tops_from(alloc, seed, 100 * session)?,
    })
}

fn made_sessions(alloc: Global, seed: u64) -> Result<Vec<Session>, AllocError>
    ensures { IfOk result (λ sessions. map plan_of_session sessions.items
        ≡ map (spec.made_session seed) (range_with_len 0 4)) }
{
    let mut sessions = Vec::new(alloc);
    for session in 0..4 {
        let made = made_session(alloc, seed, session)?;
        sessions.push(made)?;
    }
    Ok(sessions)
}

impl Script {
    /// The script that is made of a number: four sessions of a hundred tops each, over eight records
    /// at five copies. Its bodies are numbered as those of a text. It is a large script to try a store
    /// with, whose end is known.
    pub fn made(alloc: Global, seed: u64) -> Result<Script, AllocError>
        ensures made { IfOk result (λ s. plan_of_script s ≡ spec.made_plan seed) }
        ensures proper { IfOk result (λ s. IsProper (plan_of_script s)) }
    {
        let records = Rows::new(made_rows(alloc)?);
        let table = Table { copies: 5, records };
        let sessions = made_sessions(alloc, seed)?;
        Ok(Script {
            table,
            patience: 4,
            sessions,
        })
    }
}
