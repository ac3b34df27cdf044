//! Rows of a desk. `tops N`: two clients start and abort N tops each, in threads of their own. `copy`: a copy refuses a
//! request and grants another, and the ledger commits a top. Then what stands in the history is printed, and whether it
//! is legal. `looks`: a client marks the session of a top, aborts the top's child and makes the top ready; then what the
//! desk tells is printed. `refusals`: a client is refused to make a top ready, and to abort a child and a top; then why
//! is printed. `overtaken`: a client's top is aborted by another between a copy's consultation and its grant; then what
//! the client learns is printed. `compared`: a copy grants three requests; then what the desk answers of these grants in
//! order, and with two exchanged, is printed, and what the copy holds. Other lines are printed as they are.
#![tactic(auto)]

ghost use Rattle.std.specs.Prelude.{◌≡◌, IfSome};
ghost use Rattle.rows_request.specs.OneCopy as words;

mod clients;
mod compared;
mod looks;
mod overtaken;
mod refusals;
mod scene;

use clients::run;
use compared::{Compared, run_compared};
use looks::{Told, run_looks};
use overtaken::{Overtaken, run_overtaken};
use qc_check::check_by_scans;
use qc_config::{Config, Tuple};
use qc_desk::DeskNo;
use qc_event::{Base, Entry, Event, Grant, Kind};
use refusals::{Refusals, run_refusals};
use rows_request::one_vote;
use scene::play_scene;
use std::alloc::Global;
use std::io;
use std::sync::Wait;

fn is_top(entry: &Entry) -> bool {
    match entry.event {
        Event::Start {
            kind: Kind::User { .. },
            ..
        } => true,
        _ => false,
    }
}

fn is_end(entry: &Entry) -> bool {
    matches!(entry.event, Event::End { .. })
}

fn is_answer(entry: &Entry) -> bool {
    matches!(entry.event, Event::Granted { .. } | Event::Refused { .. })
}

// How many tops each client starts, where the line says so.
fn tops_of(line: &str) -> Option<u32> {
    match line.strip_prefix("tops ")?.parse::<u32>() {
        Ok(tops) => Some(tops),
        Err(_) => None,
    }
}

// The configuration of a copy's record, where the line says so.
fn config_of(line: &str) -> Option<Config>
    ensures { IfSome result (λ c. c ≡ words.config) }
{
    if line == "copy" { one_vote() } else { None }
}

fn tell(
    rt: HostRuntime,
    line: &str,
    base: &Base,
    firsts: &[Config],
    entries: &[Entry],
) -> io::Result<()> {
    let started = entries.iter().filter(|entry| is_top(entry)).count();
    let ended = entries.iter().filter(|entry| is_end(entry)).count();
    let answers = entries.iter().filter(|entry| is_answer(entry)).count();
    let word = match check_by_scans(base, firsts, entries) {
        Ok(()) => "legal",
        Err(_) => "not legal",
    };
    let all = entries.len();
    println!(rt; "{line}: {started} tops, {ended} ended, {answers} answers, {all} entries, {word}")
}

fn tell_looks(rt: HostRuntime, told: &Told) -> io::Result<()> {
    let Told {
        settled,
        marked,
        refused,
        matches,
        ..
    } = told;
    println!(rt;
        "looks: settled {settled}, marked {marked}, refused {refused}, matches {matches}"
    )?;
    for name in &told.listed {
        println!(rt; "looks: listed {name}")?;
    }
    Ok(())
}

fn tell_call(rt: HostRuntime, call: &str, why: &Option<DeskNo>) -> io::Result<()> {
    match why {
        Some(why) => println!(rt; "{call}: {why}"),
        None => println!(rt; "{call}: done"),
    }
}

fn tell_refusals(rt: HostRuntime, refusals: &Refusals) -> io::Result<()> {
    tell_call(rt, "refusals: to make the top ready", &refusals.open)?;
    tell_call(rt, "refusals: to abort the child again", &refusals.ended)?;
    tell_call(rt, "refusals: to abort the top", &refusals.ready)
}

fn tell_overtaken(rt: HostRuntime, overtaken: &Overtaken) -> io::Result<()> {
    println!(rt; "overtaken: the grant was appended")?;
    match &overtaken.dead {
        Some(ancestor) => println!(rt; "overtaken: the access is dead, by {ancestor}")?,
        None => println!(rt; "overtaken: the access lives")?,
    }
    tell_call(rt, "overtaken: to take the reply", &overtaken.refused)
}

fn tell_difference(
    rt: HostRuntime,
    given: &str,
    difference: &Option<(usize, Grant)>,
) -> io::Result<()> {
    match difference {
        Some((index, grant)) => {
            let access = grant.access;
            println!(rt; "compared: {given}: at {index} stands the grant of {access}")
        }
        None => println!(rt; "compared: {given}: none differs"),
    }
}

// A tuple, where there is one.
fn tell_tuple(rt: HostRuntime, what: &str, tuple: Option<&Tuple>) -> io::Result<()> {
    match tuple {
        Some(tuple) => {
            let (version, value) = (tuple.version, tuple.value);
            println!(rt; "compared: {what}: value {value:?} version {version}")
        }
        None => println!(rt; "compared: {what}: none"),
    }
}

fn play_overtaken<R: Wait>(
    rt: HostRuntime,
    wait: &R,
    alloc: Global,
    config: &Config,
) -> io::Result<()>
    requires { config.now ≡ words.config }
{
    match run_overtaken(wait, alloc, config) {
        Ok(Some(overtaken)) => tell_overtaken(rt, &overtaken),
        Ok(None) => println!(rt; "overtaken: the request was not free"),
        Err(why) => println!(rt; "overtaken: {why}"),
    }
}

fn play_compared<R: Wait>(
    rt: HostRuntime,
    wait: &R,
    alloc: Global,
    config: &Config,
) -> io::Result<()>
    requires { config.now ≡ words.config }
{
    match run_compared(wait, alloc, config) {
        Ok(
            Some(
                Compared {
                    in_order,
                    exchanged,
                    here,
                    elsewhere,
                    held,
                },
            ),
        ) => {
            tell_difference(rt, "in order", &in_order)?;
            tell_difference(rt, "with two exchanged", &exchanged)?;
            tell_tuple(rt, "granted first", here.as_ref())?;
            tell_tuple(rt, "granted first at copy 1", elsewhere.as_ref())?;
            tell_tuple(rt, "held of x", held.as_slice().first())
        }
        Ok(None) => println!(rt; "compared: a request was not free"),
        Err(why) => println!(rt; "compared: {why}"),
    }
}

// Runs the case of one copy at a desk that is not closed, where the line names one, and tells whether it does.
fn play_copy<R: Wait>(rt: HostRuntime, wait: &R, alloc: Global, line: &str) -> io::Result<bool> {
    let Some(config) = one_vote() else {
        return Ok(false);
    };
    match line {
        "overtaken" => play_overtaken(rt, wait, alloc, &config)?,
        "compared" => play_compared(rt, wait, alloc, &config)?,
        _ => return Ok(false),
    }
    Ok(true)
}

// Runs the case at a desk that is not closed, where the line names one, and tells whether it does.
fn play_open<R: Wait>(rt: HostRuntime, wait: &R, alloc: Global, line: &str) -> io::Result<bool> {
    match line {
        "looks" => match run_looks(wait, alloc) {
            Ok(told) => tell_looks(rt, &told)?,
            Err(why) => println!(rt; "looks: {why}")?,
        },
        "refusals" => match run_refusals(wait, alloc) {
            Ok(refusals) => tell_refusals(rt, &refusals)?,
            Err(why) => println!(rt; "refusals: {why}")?,
        },
        _ => return play_copy(rt, wait, alloc, line),
    }
    Ok(true)
}

fn main(rt: HostRuntime) -> io::Result<()> {
    let alloc = rt.alloc();
    for line in rt.lines(alloc) {
        let line = line?;
        if play_open(rt, &rt, alloc, line.as_str())? {
            continue;
        }
        if let Some(tops) = tops_of(line.as_str()) {
            let (base, trail) = run(&rt, alloc, tops)?;
            let entries = trail.to_vec(alloc)?;
            tell(rt, line.as_str(), &base, &[], entries.as_slice())?;
            continue;
        }
        match config_of(line.as_str()) {
            Some(config) => {
                let (base, trail) = play_scene(&rt, alloc, &config)?;
                let entries = trail.to_vec(alloc)?;
                tell(rt, line.as_str(), &base, &[config], entries.as_slice())?;
            }
            None => println!(rt; "{line}")?,
        }
    }
    Ok(())
}
