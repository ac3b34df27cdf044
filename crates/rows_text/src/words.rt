//! The words of a line, one after another.
use qc_event::{BadConfig, Name, top_name};
use qc_names::LONGEST;
use std::num::ParseIntError;
use std::str::{FromStr, SplitWhitespace};
use thiserror::Error;

/// Why words do not say what they are to say.
#[derive(Clone, Copy, Debug, Error)]
pub enum BadLine {
    /// The line ends where more is wanted.
    #[error("the line ends early")]
    Ends,
    /// A word is none of those that may stand there.
    #[error("a word that may not stand there")]
    Word,
    /// A word is no number, or one beyond the limit there.
    #[error("no number, or one beyond its limit")]
    Number,
    /// A word is no name of a transaction.
    #[error("no name")]
    Name,
    /// Votes and thresholds are no configuration.
    #[error("no configuration: {0}")]
    Config(BadConfig),
    /// There was no memory, or no room, for an entry. It says nothing of the words.
    #[error("no memory")]
    Memory,
    /// Words are left where the line is to end.
    #[error("words after the end")]
    More,
}

/// The words of a line that are still to be read.
#[derive(Drop)]
pub struct Words<'a> {
    rest: SplitWhitespace<'a>,
}

impl<'a> Words<'a> {
    /// The words of a line.
    pub fn new(line: &'a str) -> Self {
        Words {
            rest: line.split_whitespace(),
        }
    }

    /// The next word.
    pub fn word(&mut self) -> Result<&'a str, BadLine> {
        self.rest.next().ok_or(BadLine::Ends)
    }

    /// Passes over a word that must stand next.
    pub fn expect(&mut self, wanted: &str) -> Result<(), BadLine> {
        if self.word()? == wanted {
            Ok(())
        } else {
            Err(BadLine::Word)
        }
    }

    /// The next word, a number.
    pub fn number<N: FromStr<Err = ParseIntError>>(&mut self) -> Result<N, BadLine> {
        number_of(self.word()?)
    }

    /// The next word, a name as `1/3.2.1` or `root`.
    pub fn name(&mut self) -> Result<Name, BadLine> {
        name_of(self.word()?)
    }

    /// Ends the line.
    pub fn end(mut self) -> Result<(), BadLine> {
        match self.rest.next() {
            Some(_) => Err(BadLine::More),
            None => Ok(()),
        }
    }
}

/// The number that a text spells.
pub(crate) fn number_of<N: FromStr<Err = ParseIntError>>(text: &str) -> Result<N, BadLine> {
    match text.parse() {
        Ok(number) => Ok(number),
        Err(_) => Err(BadLine::Number),
    }
}

fn top_of(epoch: &str, number: &str) -> Result<Name, BadLine> {
    let epoch = number_of::<u32>(epoch)?;
    let number = number_of::<u32>(number)?;
    Ok(top_name(epoch, number))
}

fn child_of(parent: &Name, number: &str) -> Result<Name, BadLine> {
    let number = number_of(number)?;
    if parent.is_empty() || parent.len() >= LONGEST {
        return Err(BadLine::Name);
    }
    Ok(parent.child(number))
}

fn name_of(text: &str) -> Result<Name, BadLine> {
    if text == "root" {
        return Ok(Name::root());
    }
    let (epoch, numbers) = text.split_once('/').ok_or(BadLine::Name)?;
    let mut numbers = numbers.split('.');
    let mut name = top_of(epoch, numbers.next().ok_or(BadLine::Name)?)?;
    for number in numbers {
        name = child_of(&name, number)?;
    }
    Ok(name)
}
