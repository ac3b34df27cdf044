//! What a manager does next (Gifford's votes and versions). None of these calls takes memory.
ghost use Rattle.std.specs.Prelude.{◌≡◌, ◌↔◌, ◌<◌, ◌-◌, ◌^◌, [], ◌∷◌, IsTrue, true, find, not};
ghost use Rattle.qc_scan.specs.Raised as raised;
ghost use Rattle.qc_event.specs.Manager as words;

use crate::asks::{ask_at, is_get, replied, reply, waiting};
use crate::looks::Looks;
use crate::standing::is_manager;
use qc_event::{Ask, Config, Kind, Name, Op, Phase, Tuple, Val};
use std::marker::Model;

/// A configuration and its generation.
#[derive(Clone, Copy, Debug)]
pub struct NewestConfig {
    generation: u64,
    config: Config,
}

impl Model for NewestConfig {
    ghost use Rattle.qc_event.specs.Manager as words;

    ghost Value = { words.Newest };

    ghost view = { λ n. record { generation = n.generation; config = n.config } };

    ghost inverse = { λ v. record { generation = v.generation; config = v.config } };
}

impl NewestConfig {
    ghost use Rattle.std.specs.Prelude.{◌≡◌};
    ghost use Rattle.qc_event.specs.Manager as words;

    /// The generation.
    pub fn generation(&self) -> u64
        ensures { result ≡ self.now.generation }
    {
        self.generation
    }

    fn newer(self, tuple: &Tuple) -> Self
        ensures { result ≡ words.newer self tuple.now }
    {
        if self.generation < tuple.generation {
            NewestConfig {
                generation: tuple.generation,
                config: tuple.config,
            }
        } else {
            self
        }
    }
}

/// A value and its version.
#[derive(Clone, Copy, Debug)]
pub struct GreatestValue {
    version: u64,
    value: Val,
}

impl Model for GreatestValue {
    ghost use Rattle.qc_event.specs.Manager as words;

    ghost Value = { words.Greatest };

    ghost view = { λ g. record { version = g.version; value = g.value } };

    ghost inverse = { λ v. record { version = v.version; value = v.value } };
}

impl GreatestValue {
    ghost use Rattle.std.specs.Prelude.{◌≡◌};

    /// The value.
    pub fn value(&self) -> Val
        ensures { result ≡ self.now.value }
    {
        self.value
    }
}

fn raised(best: Option<GreatestValue>, tuple: &Tuple) -> Option<GreatestValue>
    ensures { result ≡ raised.raised best tuple.now }
{
    match best {
        Some(best) if best.version >= tuple.version => Some(best),
        _ => Some(GreatestValue {
            version: tuple.version,
            value: tuple.value,
        }),
    }
}

/// A manager's newest configuration: that of the greatest generation among the record's first one, of
/// generation 0, and those replied; the earliest of equals.
pub fn newest<H: Looks>(h: &H, first: &Config, m: &Name) -> NewestConfig
    ensures { result ≡ words.newest (H.past h.now) first.now m.now }
{
    let mut best = NewestConfig {
        generation: 0,
        config: *first,
    };
    for k in 0..h.asks(m) {
        if let Some(tuple) = reply_to(h, &h.ask(m, k)) {
            best = best.newer(&tuple);
        }
    }
    best
}

/// A manager's value of the greatest version among those replied; the earliest of equals, and 0 of
/// version 0 where there are none.
pub fn greatest<H: Looks>(h: &H, m: &Name) -> GreatestValue
    ensures { result ≡ words.greatest (H.past h.now) m.now }
{
    let mut best = None;
    for k in 0..h.asks(m) {
        if let Some(tuple) = reply_to(h, &h.ask(m, k)) {
            best = raised(best, &tuple);
        }
    }
    best.unwrap_or(GreatestValue {
        version: 0,
        value: Val::number(0),
    })
}

fn reply_to<H: Looks>(h: &H, ask: &Ask) -> Option<Tuple>
    ensures { result ≡ raised.reply_to (H.past h.now) ask.now }
{
    if is_get(&ask.op) {
        reply(h, &ask.access)
    } else {
        None
    }
}

/// A stage of a manager: its phase, the configuration that counts there, what is asked, and whether a
/// write quorum is needed and not a read quorum.
#[derive(Clone, Copy, Debug)]
pub struct Stage {
    phase: Phase,
    config: Config,
    op: Op,
    writes: bool,
}

impl Model for Stage {
    ghost use Rattle.qc_event.specs.Manager as words;

    ghost Value = { words.Stage };

    ghost view = { λ s. record { phase = s.phase; config = s.config; op = s.op; writes = s.writes } };

    ghost inverse = { λ v. record { phase = v.phase; config = v.config; op = v.op; writes = v.writes } };
}

impl Stage {
    ghost use Rattle.std.specs.Prelude.{◌≡◌};
    ghost use Rattle.qc_event.specs.Manager as words;

    /// The phase.
    pub fn phase(&self) -> Phase
        ensures { result ≡ self.now.phase }
    {
        self.phase
    }

    /// The configuration that counts.
    pub fn config(&self) -> Config
        ensures { result ≡ self.now.config }
    {
        self.config
    }

    /// What is asked.
    pub fn op(&self) -> Op
        ensures { result ≡ self.now.op }
    {
        self.op
    }

    fn collecting(now: &NewestConfig) -> Self
        ensures { result ≡ words.collecting now.now }
    {
        Stage {
            phase: Phase::Collect,
            config: now.config,
            op: Op::Get,
            writes: false,
        }
    }

    fn writing(phase: Phase, config: Config, op: Op) -> Self
        ensures { result ≡ record { phase = phase; config = config; op = op; writes = true } }
    {
        Stage {
            phase,
            config,
            op,
            writes: true,
        }
    }
}

fn is_enough<H: Looks>(h: &H, m: &Name, stage: &Stage) -> bool
    ensures { result ≡ words.is_enough (H.past h.now) m.now stage.now }
{
    let copies = replied(h, m, stage.phase);
    if stage.writes {
        stage.config.has_write(copies)
    } else {
        stage.config.has_read(copies)
    }
}

fn is_last(kind: &Kind, now: &NewestConfig, found: &GreatestValue) -> bool
    ensures { result ≡ words.is_last kind.now now.now found.now }
{
    match kind {
        Kind::Write { .. } => found.version == u64::MAX,
        Kind::Reconf { .. } => now.generation == u64::MAX,
        _ => false,
    }
}

/// Whether a manager is at its last number: it has collected enough, and the number to raise is the last.
pub fn at_last_number<H: Looks>(h: &H, first: &Config, m: &Name, kind: &Kind) -> bool
    ensures { result ≡ words.at_last_number (H.past h.now) first.now m.now kind.now }
{
    let now = newest(h, first, m);
    is_enough(h, m, &Stage::collecting(&now)) && is_last(kind, &now, &greatest(h, m))
}

fn if_short<H: Looks>(h: &H, m: &Name, stage: Stage) -> Option<Stage>
    ensures { result ≡ find (λ s. not (words.is_enough (H.past h.now) m.now s)) (stage ∷ []) }
{
    if is_enough(h, m, &stage) {
        None
    } else {
        Some(stage)
    }
}

// The stage after the collection at which a reconfiguring manager is, if it is at one.
fn reconfiguring_stage<H: Looks>(
    h: &H,
    m: &Name,
    config: &Config,
    now: &NewestConfig,
    found: &GreatestValue,
) -> Option<Stage>
    requires { now.now.generation < 2 ^ 64 - 1 }
    ensures { result ≡ find (λ s. not (words.is_enough (H.past h.now) m.now s))
        (raised.later_stages config.now now.now found.now) }
{
    let same = Op::PutData {
        version: found.version,
        value: found.value,
    };
    let next = Op::PutConfig {
        generation: now.generation + 1,
        config: *config,
    };
    let values = Stage::writing(Phase::Values, *config, same);
    let configs = Stage::writing(Phase::Configs, now.config, next);
    if_short(h, m, values).or(if_short(h, m, configs))
}

/// The stage at which a manager is: the first that is not enough, and none at its last number.
pub fn current_stage<H: Looks>(h: &H, first: &Config, m: &Name, kind: &Kind) -> Option<Stage>
    ensures { result ≡ words.stage (H.past h.now) first.now m.now kind.now }
{
    let now = newest(h, first, m);
    let found = greatest(h, m);
    let collecting = Stage::collecting(&now);
    if !is_enough(h, m, &collecting) {
        return if is_manager(kind) {
            Some(collecting)
        } else {
            None
        };
    }
    if is_last(kind, &now, &found) {
        return None;
    }
    match kind {
        Kind::Write { rec: _, value } => {
            let op = Op::PutData {
                version: found.version + 1,
                value: *value,
            };
            if_short(h, m, Stage::writing(Phase::Values, now.config, op))
        }
        Kind::Reconf { rec: _, config } => reconfiguring_stage(h, m, config, &now, &found),
        _ => None,
    }
}

/// Whether a manager is complete: each of its stages is enough, and it is not at its last number.
pub fn is_complete<H: Looks>(h: &H, first: &Config, m: &Name, kind: &Kind) -> bool
    ensures { result ≡ words.is_complete (H.past h.now) first.now m.now kind.now }
{
    !at_last_number(h, first, m, kind) && current_stage(h, first, m, kind).is_none()
}

/// The copy that is asked next: the least with votes that was not asked in the stage.
pub fn next_copy<H: Looks>(h: &H, m: &Name, stage: &Stage) -> Option<u8>
    ensures { result ≡ words.next_copy (H.past h.now) m.now stage.now }
{
    for copy in 0..16 {
        if stage.config.votes(copy) > 0 && ask_at(h, m, stage.phase, copy).is_none() {
            return Some(copy);
        }
    }
    None
}

/// Whether a manager has failed at its stage: no copy is left to ask, and no access that was asked is open.
pub fn has_failed<H: Looks>(h: &H, m: &Name, stage: &Stage) -> bool
    ensures { IsTrue result ↔ words.HasFailed (H.past h.now) m.now stage.now }
{
    next_copy(h, m, stage).is_none() && waiting(h, m).is_none()
}

/// The record that a manager serves, and 0 of what is none.
pub fn record_of(kind: &Kind) -> u8
    ensures { result ≡ words.record_of kind.now }
{
    match kind {
        Kind::Read { rec } | Kind::Write { rec, .. } | Kind::Reconf { rec, .. } => *rec,
        Kind::User { .. } | Kind::Access => 0,
    }
}
