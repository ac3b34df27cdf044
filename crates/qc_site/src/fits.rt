//! Why what a copy grants, and what it holds, fits the form in which it is written.
ghost use Rattle.std.specs.Prelude.{ℕ, ◌≡◌, ◌<◌, ◌^◌, [], All, length, slice_index, slice_index_or};
ghost use Rattle.qc_config.specs.Config.{votes_of};
ghost use Rattle.qc_config.specs.Tuple.{after};
ghost use Rattle.qc_event.specs.Base.{IsProper};
ghost use Rattle.qc_event.specs.Legal.{Legal};
ghost use Rattle.qc_event.specs.Seen.{seen};
ghost use Rattle.qc_event.specs.Tables.{setting_of};
ghost use Rattle.qc_event.specs.Grants.{grant_with};
ghost use Rattle.qc_desk.specs.Consulting.{HasAsked};
ghost use Rattle.qc_desk.specs.Held.{held_row};
ghost use Rattle.qc_codec.specs.Bodies as body;
ghost use Rattle.qc_codec.specs.Fields as field;
ghost use Rattle.qc_codec.specs.Fields.{current};

use qc_config::{Config, Tuple};
use qc_desk::{Pass, Store};
use qc_event::{Ask, Name};

// The numbers of a name are in range.
fn name_in_range(name: &Name)
    ensures first { slice_index name.now 0 < 2 ^ 64 }
    ensures rest { (k : ℕ) → 0 < k → slice_index name.now k < 2 ^ 32 }
{
    let (_top, _rest) = (name.number(0), name.rest());
}

// The votes and thresholds of a configuration are in range. Each vote is read, since its range is known only then.
fn config_in_range(config: &Config)
    ensures votes { (c : ℕ) → c < length config.now.votes → votes_of config.now c < 256 }
    ensures read { config.now.read < 2 ^ 16 }
    ensures write { config.now.write < 2 ^ 16 }
{
    let (_read, _write) = (config.read(), config.write());
    for copy in 0..config.count() {
        let _votes = config.votes(copy as u8);
    }
}

/// What was asked, granted with the tuple that the copy has after it, fits the form in which grants are written. This
/// reads, and does nothing else.
pub(crate) fn known_to_fit<N: Store>(pass: &Pass<N>, copies: u8, ask: &Ask, tuple: &Tuple)
    requires proper { IsProper (setting_of N.table N.base) }
    requires legal { Legal (setting_of N.table N.base) pass.now.seen }
    requires copies { copies ≡ length N.base }
    requires asked { HasAsked pass.now.seen ask.now }
    requires tuple { tuple.now ≡ after (seen N.base pass.now.seen ask.now.copy ask.now.rec)
        ask.now.op }
    ensures fits { (body.grant (current copies)).fits (grant_with ask.now tuple.now) }
{
    name_in_range(&ask.access);
    config_in_range(&tuple.config);
    let _rec = ask.rec;
    let (_version, _generation) = (tuple.version, tuple.generation);
    let _value = tuple.value.as_number();
}

/// What a copy holds of each record, by what a pass has seen, fits the form in which a base has it. This reads each tuple,
/// and does nothing else.
pub(crate) fn held_to_fit<N: Store>(pass: &Pass<N>, copy: u8, held: &[Tuple])
    requires proper { IsProper (setting_of N.table N.base) }
    requires legal { Legal (setting_of N.table N.base) pass.now.seen }
    requires held { held.now ≡ held_row (slice_index_or N.base copy []) pass.now.seen copy }
    ensures fits { All (field.tuple (current (length N.base))).fits held.now }
{
    for tuple in held {
        config_in_range(&tuple.config);
        let (_version, _generation) = (tuple.version, tuple.generation);
        let _value = tuple.value.as_number();
    }
}
