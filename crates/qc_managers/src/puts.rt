//! Puts, up to a write quorum.
ghost use Rattle.std.specs.Prelude.{◌≡◌, ◌<◌, ◌≤◌, length, List, [], ◌∷◌, ◌++◌};
ghost use Rattle.qc_config.specs.Config.{Voting, holds_write};
ghost use Rattle.qc_config.specs.declared.tuple.Tuple.{Tuple};
ghost use Rattle.qc_event.specs.Manager.{Replied, Missing, BlockedBy};
ghost use Rattle.qc_managers.specs.Told.{Told, replied_in};
ghost use Rattle.qc_managers.specs.Heard.{next_of, shortage_in};
ghost use Rattle.qc_managers.specs.Gathered.{put};

use crate::heard::Heard;
use crate::next::Next;
use crate::shortage::Shortage;
use qc_config::Config;
use qc_event::{Name, Phase, Why};
use std::marker::Model;

/// One phase of puts of a manager: who replied, and the configuration whose write quorum is needed.
#[derive(Debug, Drop)]
pub struct Puts {
    heard: Heard,
    config: Config,
    phase: Phase,
}

impl Model for Puts {
    ghost use Rattle.qc_managers.specs.Gathered.{Putting};

    ghost Value = { Putting };

    ghost view = { λ p. record { heard = p.heard; config = p.config; phase = p.phase } };
}

impl Puts {
    /// Nothing put yet.
    pub fn new(config: &Config, phase: Phase) -> Self
        ensures { result ≡ put config.now phase [] }
    {
        Puts {
            heard: Heard::new(),
            config: *config,
            phase,
        }
    }

    /// What is done next: enough where the copies that replied hold a write quorum, else the least
    /// copy with votes that was not asked. Where it is short, the configuration is of no more than sixteen
    /// copies.
    pub fn next(&self) -> Next
        ensures next { (config : Voting) (phase : Phase) (told : List Told)
            → self.now ≡ put config phase told
            → result ≡ next_of (holds_write config (replied_in told)) config told }
        ensures within { result ≡ Next.Short → length self.now.config.votes ≤ 16 }
    {
        let enough = self.config.has_write(self.heard.replied());
        self.heard.next(&self.config, enough)
    }

    /// A copy replied. Its tuple does not count.
    pub fn add(&mut self, copy: u8)
        requires { copy < 16 }
        ensures { (tuple : Tuple) (config : Voting) (phase : Phase) (told : List Told)
            → self.old ≡ put config phase told
            → self.new ≡ put config phase (told
            ++ record { copy = copy; result = Replied tuple } ∷ []) }
    {
        self.heard.add(copy);
    }

    /// A copy named the holder in the way there.
    pub fn blocked(&mut self, copy: u8, holder: &Name)
        requires { copy < 16 }
        ensures { (config : Voting) (phase : Phase) (told : List Told)
            → self.old ≡ put config phase told
            → self.new ≡ put config phase (told
            ++ record { copy = copy; result = BlockedBy holder.now } ∷ []) }
    {
        self.heard.blocked(copy, holder);
    }

    /// A copy gave no answer, for this reason.
    pub fn miss(&mut self, copy: u8, why: Why)
        requires { copy < 16 }
        ensures { (config : Voting) (phase : Phase) (told : List Told)
            → self.old ≡ put config phase told
            → self.new ≡ put config phase (told
            ++ record { copy = copy; result = Missing why } ∷ []) }
    {
        self.heard.miss(copy, why);
    }

    /// Why the phase fails, where it is short.
    pub fn lack(&self) -> Shortage
        ensures { (config : Voting) (phase : Phase) (told : List Told)
            → self.now ≡ put config phase told → result ≡ shortage_in phase told }
    {
        self.heard.lack(self.phase)
    }
}
