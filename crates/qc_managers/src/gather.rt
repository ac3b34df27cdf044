//! A collection, up to a read quorum of the newest configuration.
ghost use Rattle.std.specs.Prelude.{◌≡◌, ◌<◌, ◌≤◌, length, List, [], ◌∷◌, ◌++◌, option_map};
ghost use Rattle.qc_config.specs.Config.{Voting, holds_read};
ghost use Rattle.qc_event.specs.Manager.{Replied, Missing, BlockedBy};
ghost use Rattle.qc_managers.specs.Told.{Told, newest_in, greatest_in, replied_in};
ghost use Rattle.qc_managers.specs.Heard.{next_of, shortage_in};
ghost use Rattle.qc_managers.specs.Gathered.{gathered, kept, raised};

use crate::heard::Heard;
use crate::next::Next;
use crate::shortage::Shortage;
use qc_config::{Config, Tuple, Val};
use qc_event::{Name, Phase, Why};
use std::marker::Model;

/// What a manager has collected: who replied, the newest configuration, and the value of the greatest
/// version (Gifford).
#[derive(Debug, Drop)]
pub struct Gather {
    heard: Heard,
    generation: u64,
    config: Config,
    greatest: Option<(u64, Val)>,
}

impl Model for Gather {
    ghost use Rattle.std.specs.Prelude.{option_map};
    ghost use Rattle.qc_managers.specs.Gathered.{Gathered, kept};

    ghost Value = { Gathered };

    ghost view = { λ g. record { heard = g.heard; newest = record { generation = g.generation; config = g.config }; greatest = option_map kept g.greatest } };
}

fn greater(best: Option<(u64, Val)>, tuple: &Tuple) -> (u64, Val)
    ensures { kept result ≡ raised (option_map kept best) tuple.now }
{
    match best {
        Some((version, value)) if version >= tuple.version => (version, value),
        _ => (tuple.version, tuple.value),
    }
}

impl Gather {
    /// Nothing collected: the newest configuration is the record's first one, of generation 0.
    pub fn new(first: &Config) -> Self
        ensures { result ≡ gathered first.now [] }
    {
        Gather {
            heard: Heard::new(),
            generation: 0,
            config: *first,
            greatest: None,
        }
    }

    /// What is done next: enough where the copies that replied hold a read quorum of the newest
    /// configuration, else the least copy with votes there that was not asked. Where it is short, that
    /// configuration is of no more than sixteen copies.
    pub fn next(&self) -> Next
        ensures next { (first : Voting) (told : List Told) → self.now ≡ gathered first told
            → result ≡ next_of (holds_read (newest_in first told).config (replied_in told))
            (newest_in first told).config told }
        ensures within { result ≡ Next.Short → length self.now.newest.config.votes ≤ 16 }
    {
        let enough = self.config.has_read(self.heard.replied());
        self.heard.next(&self.config, enough)
    }

    /// A copy replied with its tuple. A configuration and a value that were there before stay where
    /// theirs are of the same generation and version.
    pub fn add(&mut self, copy: u8, tuple: &Tuple)
        requires { copy < 16 }
        ensures { (first : Voting) (told : List Told) → self.old ≡ gathered first told
            → self.new ≡ gathered first (told
            ++ record { copy = copy; result = Replied tuple.now } ∷ []) }
    {
        self.heard.add(copy);
        self.greatest = Some(greater(self.greatest, tuple));
        if self.generation < tuple.generation {
            self.generation = tuple.generation;
            self.config = tuple.config;
        }
    }

    /// A copy named the holder in the way there.
    pub fn blocked(&mut self, copy: u8, holder: &Name)
        requires { copy < 16 }
        ensures { (first : Voting) (told : List Told) → self.old ≡ gathered first told
            → self.new ≡ gathered first (told
            ++ record { copy = copy; result = BlockedBy holder.now } ∷ []) }
    {
        self.heard.blocked(copy, holder);
    }

    /// A copy gave no answer, for this reason.
    pub fn miss(&mut self, copy: u8, why: Why)
        requires { copy < 16 }
        ensures { (first : Voting) (told : List Told) → self.old ≡ gathered first told
            → self.new ≡ gathered first (told
            ++ record { copy = copy; result = Missing why } ∷ []) }
    {
        self.heard.miss(copy, why);
    }

    /// The newest configuration, after its generation.
    pub fn newest(&self) -> (u64, Config)
        ensures generation { (first : Voting) (told : List Told) → self.now ≡ gathered first told
            → result.0 ≡ (newest_in first told).generation }
        ensures config { (first : Voting) (told : List Told) → self.now ≡ gathered first told
            → result.1 ≡ (newest_in first told).config }
    {
        (self.generation, self.config)
    }

    /// The value of the greatest version, after that version. The number 0 with version 0 where nothing replied.
    pub fn greatest(&self) -> (u64, Val)
        ensures version { (first : Voting) (told : List Told) → self.now ≡ gathered first told
            → result.0 ≡ (greatest_in told).version }
        ensures value { (first : Voting) (told : List Told) → self.now ≡ gathered first told
            → result.1 ≡ (greatest_in told).value }
    {
        match self.greatest {
            Some(found) => found,
            None => (0, Val::number(0)),
        }
    }

    /// Why the collection fails, where it is short.
    pub fn lack(&self) -> Shortage
        ensures { (first : Voting) (told : List Told) → self.now ≡ gathered first told
            → result ≡ shortage_in Phase.Collect told }
    {
        self.heard.lack(Phase::Collect)
    }
}
