//! Values, configurations, tuples and operations in words.
ghost use Rattle.std.specs.Prelude.{◌≤◌, IfOk};

use crate::words::{BadLine, Words, number_of};
use qc_event::{Config, Op, Tuple, Val};

fn threshold_of(text: &str, letter: char) -> Result<u64, BadLine> {
    number_of(text.strip_prefix(letter).ok_or(BadLine::Word)?)
}

// Votes as `2,1,1`, and how many there are.
fn votes_of(text: &str) -> Result<([u8; 16], usize), BadLine>
    ensures { IfOk result (λ votes. votes.1 ≤ 16) }
{
    let mut votes = [0; 16];
    let mut count = 0;
    for number in text.split(',') {
        if count >= votes.len() {
            return Err(BadLine::Number);
        }
        votes[count] = number_of(number)?;
        count += 1;
    }
    Ok((votes, count))
}

impl Words<'_> {
    /// A value, which is a number.
    pub fn value(&mut self) -> Result<Val, BadLine> {
        Ok(Val::number(self.number()?))
    }

    /// A configuration, as `1,1,1 r2 w2`; `none` is the one without votes.
    pub fn config(&mut self) -> Result<Config, BadLine> {
        let text = self.word()?;
        if text == "none" {
            return Ok(Config::none());
        }
        let (votes, count) = votes_of(text)?;
        let read = threshold_of(self.word()?, 'r')?;
        let write = threshold_of(self.word()?, 'w')?;
        Config::new(&votes[..count], read, write).map_err(BadLine::Config)
    }

    /// A tuple: its version, value, generation and configuration.
    pub fn tuple(&mut self) -> Result<Tuple, BadLine> {
        Ok(Tuple {
            version: self.number()?,
            value: self.value()?,
            generation: self.number()?,
            config: self.config()?,
        })
    }

    /// An operation: `get`, `put VERSION VALUE` or `configure GENERATION CONFIGURATION`.
    pub fn op(&mut self) -> Result<Op, BadLine> {
        match self.word()? {
            "get" => Ok(Op::Get),
            "put" => Ok(Op::PutData {
                version: self.number()?,
                value: self.value()?,
            }),
            "configure" => Ok(Op::PutConfig {
                generation: self.number()?,
                config: self.config()?,
            }),
            _ => Err(BadLine::Word),
        }
    }
}
