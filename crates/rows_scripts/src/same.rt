//! Whether a script made of a number is the one that a text is.

use qc_script::{BadScript, Script};
use std::alloc::Global;
use std::io;

// Whether it is, by what is printed of both.
fn is_text(alloc: Global, number: u64, text: &str) -> Result<bool, BadScript> {
    let read = Script::read(alloc, text.as_bytes())?;
    let made = Script::made(alloc, number)?;
    let read = format!(in alloc; "{read:?}")?;
    let made = format!(in alloc; "{made:?}")?;
    Ok(read.as_str() == made.as_str())
}

/// Prints whether the script made of the first word's number is the one that the text behind it is.
pub(crate) fn print_same(rt: &HostRuntime, alloc: Global, line: &str) -> io::Result<()> {
    let Some((number, text)) = line.split_once(' ') else {
        return println!(rt; "no text: {line}");
    };
    let Ok(number) = number.parse::<u64>() else {
        return println!(rt; "no number: {number}");
    };
    match is_text(alloc, number, text) {
        Ok(same) => println!(rt; "text {number}: {same}"),
        Err(why) => println!(rt; "text {number}: {why:?}"),
    }
}
