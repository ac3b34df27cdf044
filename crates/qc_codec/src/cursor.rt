//! Fields at the front of bytes.
ghost use Rattle.std.specs.Prelude.{◌≡◌, ◌+◌, ◌<◌, ◌≤◌, length, IfErr};
ghost use Rattle.qc_names.specs.Name.{longest};
ghost use Rattle.qc_codec.specs.Form.{byte, times_taken};
ghost use Rattle.qc_codec.specs.Lists.{continued};
ghost use Rattle.qc_codec.specs.Fields as field;
ghost use Rattle.qc_codec.specs.Fields.{layout};
ghost use Rattle.qc_codec.specs.Gives.{Takes, Reads};
ghost use Rattle.qc_codec.specs.declared.fault.CodecNo.TheVariants.{Bad};

use crate::fault::CodecNo;
use qc_config::{Config, Tuple, Val};
use qc_names::{LONGEST, Name};

/// The first number past the half of a top's number that counts tops.
const EPOCH: u64 = 0x1_0000_0000;

/// Bytes that are taken from the front. Behind a refusal nothing is known of them.
#[derive(Debug, Drop)]
pub struct Cursor<'a> {
    pub rest: &'a [u8],
}

impl<'a> Cursor<'a> {
    /// The next byte.
    pub fn byte(&mut self) -> Result<u8, CodecNo>
        ensures taken { Reads byte result self.old self.new }
        ensures only_bad { IfErr result (λ e. e ≡ Bad) }
    {
        match self.rest {
            [] => Err(CodecNo::Bad),
            [first, rest @ ..] => {
                self.rest = rest;
                Ok(*first)
            }
        }
    }

    /// A number of two bytes, the higher first.
    #[tactic(auto, unfolding(crate::specs::Fields::half))]
    pub fn half(&mut self) -> Result<u16, CodecNo>
        ensures taken { Reads field.half result self.old self.new }
        ensures only_bad { IfErr result (λ e. e ≡ Bad) }
    {
        if self.rest.len() < 2 {
            return Err(CodecNo::Bad);
        }
        let (front, rest) = self.rest.split_at(2);
        self.rest = rest;
        Ok(u16::from_be_bytes([front[0], front[1]]))
    }

    /// A number of four bytes, the highest first.
    #[tactic(auto, unfolding(crate::specs::Fields::word))]
    pub fn word(&mut self) -> Result<u32, CodecNo>
        ensures taken { Reads field.word result self.old self.new }
        ensures only_bad { IfErr result (λ e. e ≡ Bad) }
    {
        if self.rest.len() < 4 {
            return Err(CodecNo::Bad);
        }
        let (front, rest) = self.rest.split_at(4);
        self.rest = rest;
        Ok(u32::from_be_bytes([front[0], front[1], front[2], front[3]]))
    }

    /// A number of eight bytes, the highest first.
    #[tactic(auto, unfolding(crate::specs::Fields::long))]
    pub fn long(&mut self) -> Result<u64, CodecNo>
        ensures taken { Reads field.long result self.old self.new }
        ensures only_bad { IfErr result (λ e. e ≡ Bad) }
    {
        if self.rest.len() < 8 {
            return Err(CodecNo::Bad);
        }
        let (front, rest) = self.rest.split_at(8);
        self.rest = rest;
        Ok(u64::from_be_bytes([
            front[0], front[1], front[2], front[3], front[4], front[5], front[6], front[7],
        ]))
    }

    /// A number that is not 0.
    pub(crate) fn some_number(&mut self) -> Result<u32, CodecNo>
        ensures taken { Reads field.some_number result self.old self.new }
        ensures only_bad { IfErr result (λ e. e ≡ Bad) }
    {
        let number = self.word()?;
        if number == 0 {
            return Err(CodecNo::Bad);
        }
        Ok(number)
    }

    /// The number of a top.
    pub(crate) fn top_number(&mut self) -> Result<u64, CodecNo>
        ensures taken { Reads field.top_number result self.old self.new }
        ensures only_bad { IfErr result (λ e. e ≡ Bad) }
    {
        let top = self.long()?;
        if top / EPOCH == 0 || top % EPOCH == 0 {
            return Err(CodecNo::Bad);
        }
        Ok(top)
    }

    // The further numbers of a name, so many.
    fn steps(&mut self, first: &Name, more: u8) -> Result<Name, CodecNo>
        requires some { 0 < length first.now }
        requires room { length first.now + more ≤ longest }
        ensures taken { Takes result self.new.rest.now
            (continued first.now (times_taken more field.some_number self.old.rest.now)) }
        ensures only_bad { IfErr result (λ e. e ≡ Bad) }
    {
        let mut name = *first;
        for _ in 0..more {
            let number = self.some_number()?;
            name = name.child(number);
        }
        Ok(name)
    }

    /// A name of at least so many numbers.
    #[tactic(auto, unfolding(crate::specs::Fields::name))]
    pub fn name(&mut self, least: u8) -> Result<Name, CodecNo>
        ensures taken { Reads (field.name least) result self.old self.new }
        ensures only_bad { IfErr result (λ e. e ≡ Bad) }
    {
        let count = self.byte()?;
        if count == 0 || count < least || usize::from(count) > LONGEST {
            return Err(CodecNo::Bad);
        }
        let top = self.top_number()?;
        self.steps(&Name::top(top), count - 1)
    }

    // A value that is a number.
    #[tactic(auto, unfolding(crate::specs::Fields::number_datum))]
    fn number(&mut self) -> Result<Val, CodecNo>
        ensures taken { Reads field.number_datum result self.old self.new }
        ensures only_bad { IfErr result (λ e. e ≡ Bad) }
    {
        Ok(Val::number(self.long()?))
    }

    // A value that is a text.
    #[tactic(auto, unfolding(crate::specs::Fields::text_datum))]
    fn text(&mut self) -> Result<Val, CodecNo>
        ensures taken { Reads field.text_datum result self.old self.new }
        ensures only_bad { IfErr result (λ e. e ≡ Bad) }
    {
        let count = usize::from(self.half()?);
        if self.rest.len() < count {
            return Err(CodecNo::Bad);
        }
        let (text, rest) = self.rest.split_at(count);
        self.rest = rest;
        match Val::text(text) {
            Some(value) => Ok(value),
            None => Err(CodecNo::Bad),
        }
    }

    /// A value of a format.
    #[tactic(auto, unfolding(crate::specs::Fields::datum))]
    pub fn value(&mut self, format: u8) -> Result<Val, CodecNo>
        ensures taken { Reads (field.datum format) result self.old self.new }
        ensures only_bad { IfErr result (λ e. e ≡ Bad) }
    {
        if format == 1 {
            return self.number();
        }
        match self.byte()? {
            0 => self.number(),
            1 => self.text(),
            _ => Err(CodecNo::Bad),
        }
    }

    /// A legal configuration for so many copies.
    #[tactic(auto, unfolding(crate::specs::Fields::config))]
    pub fn config(&mut self, copies: u8, format: u8) -> Result<Config, CodecNo>
        requires { copies ≤ 16 }
        ensures taken { Reads (field.config (layout copies format)) result self.old self.new }
        ensures only_bad { IfErr result (λ e. e ≡ Bad) }
    {
        let count = self.byte()?;
        if count != copies || self.rest.len() < copies as usize {
            return Err(CodecNo::Bad);
        }
        let (votes, rest) = self.rest.split_at(copies as usize);
        self.rest = rest;
        let read = self.half()?;
        let write = self.half()?;
        match Config::new(votes, u64::from(read), u64::from(write)) {
            Ok(config) => Ok(config),
            Err(_) => Err(CodecNo::Bad),
        }
    }

    /// A tuple, with a legal configuration for so many copies.
    #[tactic(auto, unfolding(crate::specs::Fields::tuple))]
    pub fn tuple(&mut self, copies: u8, format: u8) -> Result<Tuple, CodecNo>
        requires { copies ≤ 16 }
        ensures taken { Reads (field.tuple (layout copies format)) result self.old self.new }
        ensures only_bad { IfErr result (λ e. e ≡ Bad) }
    {
        let version = self.long()?;
        let value = self.value(format)?;
        let generation = self.long()?;
        let config = self.config(copies, format)?;
        Ok(Tuple {
            version,
            value,
            generation,
            config,
        })
    }
}
