//! Who was asked in a phase, and what became of it.
ghost use Rattle.std.specs.Prelude.{◌≡◌, ◌<◌, ◌≤◌, length, List, [], ◌∷◌, ◌++◌};
ghost use Rattle.qc_config.specs.declared.tuple.Tuple.{Tuple};
ghost use Rattle.qc_event.specs.Manager.{Replied, Missing, BlockedBy};
ghost use Rattle.qc_managers.specs.Told.{Told, replied_in, next_in};
ghost use Rattle.qc_managers.specs.Heard.{heard, next_of, shortage_in};

use crate::next::Next;
use crate::shortage::Shortage;
use qc_config::{Config, Copies};
use qc_event::{Lack, Name, Phase, Why};

/// What is kept of each copy that was asked in a phase, whatever it replied.
#[derive(Clone, Copy, Debug)]
pub struct Heard {
    asked: Copies,
    replied: Copies,
    missing: [Option<Why>; 16],
    blocked: Option<(u8, Name)>,
}

impl Heard {
    /// Nothing was asked.
    pub fn new() -> Self
        ensures { result ≡ heard [] }
    {
        Heard {
            asked: Copies::none(),
            replied: Copies::none(),
            missing: [None; 16],
            blocked: None,
        }
    }

    /// A copy replied.
    pub fn add(&mut self, copy: u8)
        requires { copy < 16 }
        ensures { (tuple : Tuple) (told : List Told) → self.old ≡ heard told
            → self.new ≡ heard (told ++ record { copy = copy; result = Replied tuple } ∷ []) }
    {
        self.asked = self.asked.with(copy);
        self.replied = self.replied.with(copy);
    }

    /// A copy named the holder in the way there. The first such is kept.
    pub fn blocked(&mut self, copy: u8, holder: &Name)
        requires { copy < 16 }
        ensures { (told : List Told) → self.old ≡ heard told
            → self.new ≡ heard (told
            ++ record { copy = copy; result = BlockedBy holder.now } ∷ []) }
    {
        self.asked = self.asked.with(copy);
        if self.blocked.is_none() {
            self.blocked = Some((copy, *holder));
        }
    }

    /// A copy gave no answer. The reason is kept where it is the first word of the copy.
    pub fn miss(&mut self, copy: u8, why: Why)
        requires { copy < 16 }
        ensures { (told : List Told) → self.old ≡ heard told
            → self.new ≡ heard (told ++ record { copy = copy; result = Missing why } ∷ []) }
    {
        let was_asked = self.asked.has(copy);
        self.asked = self.asked.with(copy);
        if !was_asked {
            self.missing[copy as usize] = Some(why);
        }
    }

    /// The copies that replied.
    pub fn replied(&self) -> Copies
        ensures { (told : List Told) → self.now ≡ heard told → result ≡ replied_in told }
    {
        self.replied
    }

    fn unasked(&self, config: &Config) -> Option<u8>
        ensures next { (told : List Told) → self.now ≡ heard told
            → result ≡ next_in config.now told }
        ensures within { length config.now.votes ≤ 16 }
    {
        for copy in 0..config.count() as u8 {
            if config.votes(copy) > 0 && !self.asked.has(copy) {
                return Some(copy);
            }
        }
        None
    }

    /// What is done next, by the configuration that counts and whether its quorum replied. Where that is
    /// short, the configuration is of no more than sixteen copies.
    pub fn next(&self, config: &Config, enough: bool) -> Next
        ensures next { (told : List Told) → self.now ≡ heard told
            → result ≡ next_of enough config.now told }
        ensures within { result ≡ Next.Short → length config.now.votes ≤ 16 }
    {
        if enough {
            return Next::Enough;
        }
        match self.unasked(config) {
            Some(copy) => Next::Copy(copy),
            None => Next::Short,
        }
    }

    /// Why the phase fails.
    pub fn lack(&self, phase: Phase) -> Shortage
        ensures { (told : List Told) → self.now ≡ heard told → result ≡ shortage_in phase told }
    {
        match self.blocked {
            Some((copy, holder)) => Shortage::Conflict { copy, holder },
            None => Shortage::NoQuorum(Lack {
                phase,
                replied: self.replied,
                missing: self.missing,
            }),
        }
    }
}
