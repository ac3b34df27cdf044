//! Cases, each a line with steps.

use crate::step::Step;
use std::alloc::AllocError;
use std::io;

/// What a case stands on, step by step.
pub trait Case {
    /// Makes a step, and tells what it answered.
    fn step(&mut self, step: &Step<'_>) -> Result<String, AllocError>;
}

/// Whether a line is no case: it is empty, or begins with `#`.
pub fn is_title(line: &str) -> bool {
    line.is_empty() || line.starts_with('#')
}

/// Makes the steps of a line, with `;` between, and prints each with what it answered.
pub fn print_steps<C: Case>(rt: &HostRuntime, case: &mut C, line: &str) -> io::Result<()> {
    for text in line.split(';') {
        let text = text.trim_ascii();
        let answer = case.step(&Step::of(rt.alloc(), text)?)?;
        println!(rt; "{text}: {answer}")?;
    }
    Ok(())
}
