//! What is asked of names.
use crate::Answer;
use qc_event::Name;
use rows_text::Words;
use std::io;

fn print_numbers(rt: &HostRuntime, name: &Name) -> io::Result<()> {
    print!(rt; ", numbers")?;
    for at in 0..=name.len() {
        match name.number(at) {
            Some(number) => print!(rt; " {number}")?,
            None => println!(rt;)?,
        }
    }
    Ok(())
}

fn print_name(rt: &HostRuntime, name: &Name) -> io::Result<()> {
    print!(rt; "{name}: ")?;
    match name.parent() {
        Some(parent) => print!(rt; "parent {parent}")?,
        None => print!(rt; "no parent")?,
    }
    print_numbers(rt, name)
}

/// `name N`: the name as it is printed, its parent, and its numbers.
pub(crate) fn name(rt: &HostRuntime, mut words: Words<'_>) -> Answer {
    let name = words.name()?;
    Ok(print_name(rt, &name))
}

/// `ancestor A B`: whether A is an ancestor of B.
pub(crate) fn ancestor(rt: &HostRuntime, mut words: Words<'_>) -> Answer {
    let above = words.name()?;
    let below = words.name()?;
    Ok(println!(rt; "{}", above.is_ancestor(&below)))
}

/// `meet A B`: their longest common ancestor.
pub(crate) fn meet(rt: &HostRuntime, mut words: Words<'_>) -> Answer {
    let one = words.name()?;
    let other = words.name()?;
    let shared = one.meet(&other);
    Ok(println!(rt; "{shared}"))
}
