//! What is asked of configurations and tuples.
use crate::Answer;
use qc_config::{Config, Copies};
use rows_text::{BadLine, TupleText, Words};
use std::io;

/// The copies of the words that are left.
fn copies_of(mut words: Words<'_>) -> Result<Copies, BadLine> {
    let mut copies = Copies::none();
    for _ in 0..16 {
        match words.number::<u8>() {
            Ok(copy) if copy < 16 => copies = copies.with(copy),
            Ok(_) => return Err(BadLine::Number),
            Err(_) => return Ok(copies),
        }
    }
    Ok(copies)
}

fn print_config(rt: &HostRuntime, config: &Config) -> io::Result<()> {
    let (count, total) = (config.count(), config.total());
    let (read, write) = (config.read(), config.write());
    let legal = config.is_legal();
    println!(rt; "{count} copies, {total} votes, read {read}, write {write}, legal {legal}")
}

/// `config C`: what the configuration counts, or why it is none.
pub(crate) fn config(rt: &HostRuntime, mut words: Words<'_>) -> Answer {
    let config = words.config()?;
    Ok(print_config(rt, &config))
}

/// `holds C COPY ..`: whether these copies hold a read quorum, and whether a write quorum.
pub(crate) fn holds(rt: &HostRuntime, mut words: Words<'_>) -> Answer {
    let config = words.config()?;
    let copies = copies_of(words)?;
    let (read, write) = (config.has_read(copies), config.has_write(copies));
    Ok(println!(rt; "read {read}, write {write}"))
}

/// `after TUPLE OPERATION`: the tuple that the operation leaves.
pub(crate) fn after(rt: &HostRuntime, mut words: Words<'_>) -> Answer {
    let tuple = words.tuple()?;
    let op = words.op()?;
    let left = TupleText(tuple.after(&op));
    Ok(println!(rt; "{left}"))
}
