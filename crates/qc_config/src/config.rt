//! Votes and quorums.
ghost use Rattle.std.specs.Prelude.{◌==◌, ◌&&◌, ◌≡◌, ◌≤◌, ◌<◌, ◌↔◌, IsTrue, IfOk, IfErr, length, sum, Some, None};
ghost use Rattle.std.proofs.Common.{rules};
ghost use Rattle.std.specs.Cmp.Lexicographic.{pointwise};
ghost use Rattle.std.specs.Cmp.Rules.{comparing};
ghost use Rattle.qc_config.specs.Copies as copies;
ghost use Rattle.qc_config.specs.Config as config;

use crate::copies::Copies;
use std::fmt;
use std::marker::Model;
use thiserror::Error;

/// Why votes and thresholds are no configuration.
#[derive(Clone, Copy, PartialEq, Eq, Debug, Error)]
pub enum BadConfig {
    /// There are no votes at all: the list is empty.
    #[error("no copy has a number of votes")]
    Empty,
    /// The total of the votes is 0.
    #[error("the total of the votes is 0")]
    Votes,
    /// The read threshold is 0 or above the total.
    #[error("the read threshold is 0 or above the total")]
    Read,
    /// The write threshold is 0 or above the total.
    #[error("the write threshold is 0 or above the total")]
    Write,
    /// The thresholds together do not pass the total, so quorums need not meet.
    #[error("a read and a write quorum need not meet")]
    NoOverlap,
}

/// The votes of the copies, and how many votes a reader and a writer need (Gifford's weighted voting).
#[derive(Clone, Copy)]
pub struct Config {
    votes: [u8; 16],
    count: u8,
    read: u16,
    write: u16,
}

impl Model for Config {
    ghost use Rattle.std.specs.Prelude.{◌≡◌, ℕ, ◌-◌, ◌≤◌, List, ◌++◌, length, take, drop, replicate};
    ghost use Rattle.qc_config.specs.Padded.{front_padded, front_length};
    ghost use Rattle.qc_config.specs.Config.{Voting, IsEmptyOrFaultless};

    ghost Value = { Voting };

    ghost view = { λ c. record { votes = take c.count c.votes; read = c.read; write = c.write } };

    ghost invariant = { λ c. (c.count ≤ 16) × (length c.votes ≡ 16) × (drop c.count c.votes ≡ replicate (16 - c.count) 0)
        × IsEmptyOrFaultless (record { votes = take c.count c.votes; read = c.read; write = c.write }) };

    ghost inverse = { λ v. record { votes = v.votes ++ replicate (16 - length v.votes) 0; count = length v.votes; read = v.read; write = v.write } };

    ghost inverse_ok = { λ a h. λ i. record { votes = front_padded 16 a.count a.votes h.0 h.1 h.2 i; count = front_length 16 a.count a.votes h.0 h.1 i; read = a.read; write = a.write } };
}

impl PartialEq for Config {
    ghost eq = { λ a b. pointwise ◌==◌ a.votes b.votes && (a.read == b.read) && (a.write == b.write) };

    ghost laws = { Prim.search (comparing, rules) };

    fn eq(&self, other: &Self) -> bool {
        self.votes[..self.count()] == other.votes[..other.count()]
            && self.read == other.read
            && self.write == other.write
    }
}

impl Eq for Config {
    ghost laws = { Prim.search (comparing, rules) };
}

impl fmt::Debug for Config {
    fn fmt<W: fmt::Write>(&self, f: &mut fmt::Formatter<W>) -> fmt::Result {
        f.debug_struct("Config")
            .field("votes", &&self.votes[..self.count()])
            .field("read", &self.read)
            .field("write", &self.write)
            .finish()
    }
}

fn total_of(votes: &[u8]) -> u16
    requires { length votes.now ≤ 16 }
    ensures { result ≡ sum votes.now }
{
    votes.iter().map(|v| u16::from(*v)).sum()
}

impl Config {
    /// No votes and no thresholds, which is no legal configuration.
    pub fn none() -> Self
        ensures { result ≡ config.no_config }
    {
        Config {
            votes: [0; 16],
            count: 0,
            read: 0,
            write: 0,
        }
    }

    /// A configuration of these votes, one number for each copy. Each refusal comes where its rule
    /// is the first that is broken.
    pub fn new(votes: &[u8], read: u64, write: u64) -> Result<Self, BadConfig>
        requires { length votes.now ≤ 16 }
        ensures refused { IfErr result (λ e. config.fault votes.now read write ≡ Some e) }
        ensures made { IfOk result (λ c. c
            ≡ record { votes = votes.now; read = read; write = write }) }
        ensures legal { IfOk result (λ c. config.IsLegal c) }
        ensures faultless { IfOk result (λ c. config.fault votes.now read write ≡ None) }
    {
        if votes.is_empty() {
            return Err(BadConfig::Empty);
        }
        let total = total_of(votes);
        if total == 0 {
            return Err(BadConfig::Votes);
        }
        let possible = u64::from(total);
        if read == 0 || read > possible {
            return Err(BadConfig::Read);
        }
        if write == 0 || write > possible {
            return Err(BadConfig::Write);
        }
        if read + write <= possible {
            return Err(BadConfig::NoOverlap);
        }
        let mut kept = [0; 16];
        kept[..votes.len()].copy_from_slice(votes);
        Ok(Config {
            votes: kept,
            count: votes.len() as u8,
            read: read as u16,
            write: write as u16,
        })
    }

    /// Whether the votes and thresholds are those of a legal configuration.
    pub fn is_legal(&self) -> bool
        ensures { IsTrue result ↔ config.IsLegal self.now }
    {
        let total = u32::from(self.total());
        let read = u32::from(self.read);
        let write = u32::from(self.write);
        let possible = 0 < read && read <= total && 0 < write && write <= total;
        total > 0 && possible && total < read + write
    }

    /// How many copies the list of votes is for.
    pub fn count(&self) -> usize
        ensures count { result ≡ length self.now.votes }
        ensures bounded { length self.now.votes ≤ 16 }

        // Votes that were refused make no configuration.
        ensures faultless { config.IsEmptyOrFaultless self.now }
    {
        self.count as usize
    }

    /// The votes of a copy, none past the list.
    pub fn votes(&self, c: u8) -> u8
        requires { c < 16 }
        ensures { result ≡ config.votes_of self.now c }
    {
        if c < self.count {
            self.votes[c as usize]
        } else {
            0
        }
    }

    /// All votes together.
    pub fn total(&self) -> u16
        ensures { result ≡ sum self.now.votes }
    {
        total_of(&self.votes[..self.count()])
    }

    /// How many votes a reader needs.
    pub fn read(&self) -> u16
        ensures { result ≡ self.now.read }
    {
        self.read
    }

    /// How many votes a writer needs.
    pub fn write(&self) -> u16
        ensures { result ≡ self.now.write }
    {
        self.write
    }

    #[tactic(auto, using(crate::proofs::Weights::weights))]
    fn weight(&self, copies: Copies) -> u16
        ensures { result ≡ config.weight self.now.votes copies }
    {
        let votes = &self.votes[..self.count()];
        let mut weight = 0;
        for (c, v) in votes.iter().enumerate() {
            if copies.has(c as u8) {
                weight += u16::from(*v);
            }
        }
        weight
    }

    /// Whether the copies hold a read quorum.
    pub fn has_read(&self, copies: Copies) -> bool
        ensures { IsTrue result ↔ IsTrue (config.holds_read self.now copies) }
    {
        self.weight(copies) >= self.read
    }

    /// Whether the copies hold a write quorum.
    pub fn has_write(&self, copies: Copies) -> bool
        ensures { IsTrue result ↔ IsTrue (config.holds_write self.now copies) }
    {
        self.weight(copies) >= self.write
    }

    /// A copy that a read quorum and a write quorum share.
    pub fn shared(&self, readers: Copies, writers: Copies) -> u8
        requires legal { config.IsLegal self.now }
        requires read { IsTrue (config.holds_read self.now readers) }
        requires write { IsTrue (config.holds_write self.now writers) }
        ensures in_range { result < length self.now.votes }
        ensures reads { IsTrue (copies.has readers result) }
        ensures writes { IsTrue (copies.has writers result) }
    {
        for c in 0..self.count {
            if readers.has(c as u8) && writers.has(c as u8) {
                return c as u8;
            }
        }
        unreachable!()
    }
}
