//! Tuples as words.
ghost use Rattle.std.specs.Prelude.{ℕ, ◌≤◌, ◌<◌, ◌^◌, length, IfOk, IfSome, IsTrue, All};
ghost use Rattle.qc_codec.specs.Fields as field;
ghost use Rattle.qc_codec.specs.Fields.{current};
ghost use Rattle.qc_config.specs.Config.{votes_of};

use qc_config::{Config, Tuple, Val};
use std::alloc::{AllocError, Global};

// Votes as `1,1`, and how many there are; none where they are too many or no numbers.
fn votes(text: &str) -> Option<([u8; 16], usize)>
    ensures { IfSome result (λ votes. votes.1 ≤ 16) }
{
    let mut votes = [0; 16];
    let mut count = 0;
    for number in text.split(',') {
        if count >= votes.len() {
            return None;
        }
        votes[count] = number.parse().ok()?;
        count += 1;
    }
    Some((votes, count))
}

// The tuple that a word is; none where it is none.
fn tuple(word: &str) -> Option<Tuple> {
    let (version, rest) = word.split_once(',')?;
    let (value, rest) = rest.split_once(',')?;
    let (generation, rest) = rest.split_once(',')?;
    let (read, rest) = rest.split_once(',')?;
    let (write, rest) = rest.split_once(',')?;
    let (votes, count) = votes(rest)?;
    let (read, write) = (read.parse().ok()?, write.parse().ok()?);
    Some(Tuple {
        version: version.parse().ok()?,
        value: Val::number(value.parse().ok()?),
        generation: generation.parse().ok()?,
        config: Config::new(&votes[..count], read, write).ok()?,
    })
}

// The votes and thresholds of a configuration are in range. Each vote is read, since its range is known only then.
fn config_in_range(config: &Config)
    ensures votes { (c : ℕ) → c < length config.now.votes → votes_of config.now c < 256 }
    ensures read { config.now.read < 2 ^ 16 }
    ensures write { config.now.write < 2 ^ 16 }
{
    let (_read, _write) = (config.read(), config.write());
    for copy in 0..config.count() {
        let _votes = config.votes(copy as u8);
    }
}

// Whether a tuple may stand in a base of a store of so many copies.
fn may_stand(tuple: &Tuple, copies: u8) -> bool
    ensures { IsTrue result → (field.tuple (current copies)).fits tuple.now }
{
    if copies == 0 || tuple.config.count() != usize::from(copies) {
        return false;
    }
    config_in_range(&tuple.config);
    let _value = tuple.value.as_number();
    let (_version, _generation) = (tuple.version, tuple.generation);
    true
}

/// The tuples that words are, each of a store of so many copies; none where one of them is none.
pub(crate) fn tuples(
    alloc: Global,
    copies: u8,
    words: &[&str],
) -> Result<Option<Vec<Tuple>>, AllocError>
    ensures { IfOk result (λ tuples. IfSome tuples (λ t.
        All (field.tuple (current copies)).fits t.items)) }
{
    let mut tuples = Vec::new(alloc);
    for word in words {
        match tuple(word) {
            Some(tuple) if may_stand(&tuple, copies) => tuples.push(tuple)?,
            _ => return Ok(None),
        }
    }
    Ok(Some(tuples))
}
