//! The words of a step.

use qc_disk::FailAt;
use std::alloc::{AllocError, Global};

/// A step: its name, and the words behind it.
#[derive(Drop)]
pub struct Step<'a> {
    pub name: &'a str,
    pub words: Vec<&'a str>,
}

impl<'a> Step<'a> {
    /// The step that a text is.
    pub fn of(alloc: Global, text: &'a str) -> Result<Self, AllocError> {
        let mut words = text.split_ascii_whitespace();
        let name = words.next().unwrap_or("");
        Ok(Step {
            name,
            words: words.collect(alloc)?,
        })
    }

    /// The word at a place behind the name; none is empty.
    pub fn word(&self, at: usize) -> &'a str {
        self.words.get(at).copied().unwrap_or("")
    }

    /// The words from a place behind the name on.
    pub fn words_from(&self, at: usize) -> &[&'a str] {
        let words = self.words.as_slice();
        &words[at.min(words.len())..]
    }

    /// The number that the word at a place says.
    pub fn number(&self, at: usize) -> u64 {
        number(self.word(at))
    }

    /// Which disk the first word says; all beyond 255 are one.
    pub fn which(&self) -> u8 {
        small(self.word(0))
    }

    /// The calls that fail, by the words from a place on: each a number, and `done` or `not`.
    pub fn fails(&self, alloc: Global, at: usize) -> Result<Vec<FailAt>, AllocError> {
        let mut fails = Vec::new(alloc);
        for pair in self.words_from(at).chunks_exact(2) {
            if let [call, done] = pair {
                fails.push(FailAt {
                    call: number(call),
                    done: *done == "done",
                })?;
            }
        }
        Ok(fails)
    }

    /// The numbers that the words say; all beyond 255 are one.
    pub fn numbers(&self, alloc: Global) -> Result<Vec<u8>, AllocError> {
        let mut numbers = Vec::new(alloc);
        for word in &self.words {
            numbers.push(small(word))?;
        }
        Ok(numbers)
    }
}

// A number; what is none is taken for the greatest.
fn number(word: &str) -> u64 {
    word.parse::<u64>().unwrap_or(u64::MAX)
}

fn small(word: &str) -> u8 {
    u8::try_from(number(word)).unwrap_or(u8::MAX)
}

/// Bytes in hex; what is none has no bytes.
pub fn bytes(alloc: Global, word: &str) -> Result<Vec<u8>, AllocError> {
    match hex::decode(alloc, word) {
        Ok(bytes) => Ok(bytes),
        Err(_) => Ok(Vec::new(alloc)),
    }
}
