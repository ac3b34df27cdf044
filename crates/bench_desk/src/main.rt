//! The program `bench_desk`: how long one pass of a desk takes to start so many tops, to abort each, and to ask each
//! for its end. Each line of its standard input is such a number.
#![tactic(auto)]

mod measure;
mod tops;

use measure::{Times, Trouble, measured};
use std::io;
use std::process::ExitCode;
use std::time::Duration;

fn whole_micros(time: Duration) -> u64 {
    u64::try_from(time.as_micros()).unwrap_or(u64::MAX)
}

fn print_times(rt: &HostRuntime, times: &Times) -> io::Result<()> {
    let started = whole_micros(times.started);
    let aborted = whole_micros(times.aborted);
    let asked = whole_micros(times.asked);
    println!(rt; "started {started} us")?;
    println!(rt; "aborted {aborted} us")?;
    println!(rt; "asked {asked} us")
}

fn number_of(line: &str) -> Result<u32, Trouble> {
    match line.parse::<u32>() {
        Ok(number) => Ok(number),
        Err(_) => Err(Trouble::Number),
    }
}

// Prints what came of a line, and gives the status.
fn told(rt: &HostRuntime, measured: &Result<Times, Trouble>) -> io::Result<u8> {
    match measured {
        Ok(times) => {
            print_times(rt, times)?;
            Ok(0)
        }
        Err(Trouble::Number) => {
            println!(rt; "bench_desk: no number of tops")?;
            Ok(3)
        }
        Err(Trouble::Desk) => {
            println!(rt; "bench_desk: the desk told something else")?;
            Ok(1)
        }
        Err(Trouble::Memory) => Ok(9),
        Err(Trouble::Clock) => Ok(4),
    }
}

fn main(rt: HostRuntime) -> ExitCode {
    let alloc = rt.alloc();
    for line in rt.lines(alloc) {
        let Ok(line) = line else {
            // The input could not be read.
            return ExitCode::from(5);
        };
        let measured = match number_of(line.as_str()) {
            Ok(tops) => measured(&rt, alloc, tops),
            Err(trouble) => Err(trouble),
        };
        // The output could not be written.
        let status = told(&rt, &measured).unwrap_or(5);
        if status != 0 {
            return ExitCode::from(status);
        }
    }
    ExitCode::from(0)
}
