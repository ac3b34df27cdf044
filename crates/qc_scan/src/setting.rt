use qc_event::{Base, Config, Tuple};
use std::marker::Model;

/// What a run starts from: the tuples of each copy, and each record's first configuration.
#[derive(Debug, Drop)]
pub struct Setting<'a> {
    base: &'a Base,
    firsts: &'a [Config],
}

impl<'a> Model for Setting<'a> {
    ghost use Rattle.qc_event.specs.Base as words;

    ghost Value = { words.Setting };

    ghost view = { λ s. record { firsts = s.firsts.now; base = s.base.now } };
}

impl<'a> Setting<'a> {
    ghost use Rattle.std.specs.Prelude.{◌≡◌, length};
    ghost use Rattle.qc_event.specs.Base as words;

    /// The setting of a base and first configurations.
    pub fn new(base: &'a Base, firsts: &'a [Config]) -> Self
        ensures { result ≡ record { firsts = firsts.now; base = base.now } }
    {
        Setting { base, firsts }
    }

    /// How many copies there are.
    pub fn copies(&self) -> usize
        ensures { result ≡ length self.now.base }
    {
        self.base.copies()
    }

    /// How many records there are.
    pub fn records(&self) -> usize
        ensures { result ≡ length self.now.firsts }
    {
        self.firsts.len()
    }

    /// The tuple with which a copy starts a record; one of version 0 without votes where there is none.
    pub fn tuple(&self, copy: u8, rec: u8) -> Tuple
        ensures { result ≡ words.start_tuple self.now.base copy rec }
    {
        self.base.tuple(copy, rec)
    }

    /// A record's first configuration; one without votes where there is none.
    pub fn first(&self, rec: u8) -> Config
        ensures { result ≡ words.first_of self.now rec }
    {
        match self.firsts.get(rec as usize) {
            Some(first) => *first,
            None => Config::none(),
        }
    }
}
