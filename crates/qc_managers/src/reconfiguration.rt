//! Changing a record's configuration.
ghost use Rattle.std.specs.Prelude.{◌≡◌, ◌≤◌, ◌+◌, [], IsTrue, IfOk, IfErr};
ghost use Rattle.qc_config.specs.Config.{holds_write};
ghost use Rattle.qc_event.specs.Base.{first_of};
ghost use Rattle.qc_event.specs.declared.event.Answer.TheVariants as answer;
ghost use Rattle.qc_event.specs.declared.event.Kind.TheVariants as kind;
ghost use Rattle.qc_event.specs.declared.event.Phase.TheVariants.{Values, Configs};
ghost use Rattle.qc_event.specs.History.{children, is_child};
ghost use Rattle.qc_event.specs.Manager.{newest, replied};
ghost use Rattle.qc_managers.specs.Carrying.{own_entries, IsRunning, HasGrown};
ghost use Rattle.qc_managers.specs.Going.{HasMade};
ghost use Rattle.qc_managers.specs.Managed.{IsAnswered, ManagerIsRefused};
ghost use Rattle.qc_managers.specs.Undisturbed.{IsUndisturbed, IsShortage};

use crate::carrier::Carrier;
use crate::collection::collect;
use crate::no::MgrNo;
use crate::placing::put;
use qc_config::{Config, Op};
use qc_event::{Name, Phase};

/// Changes a record's configuration, for a manager that was started to change it to `new` and has asked
/// nothing. It collects at a read quorum of the newest configuration. It then puts the value that it found,
/// with its version as it is, to a write quorum of the new configuration: so whoever learns of that one finds
/// the value at each of its read quorums (Gifford). Last it puts the new configuration, with the generation
/// after the newest, to a write quorum of the configuration that was newest: whoever collects by that one
/// learns of the new one, which need not stand at the new copies (Goldman and Lynch).
///
/// It answers the new generation, and the manager may then commit with it. Where the newest generation is
/// `2^64 - 1` it answers `Last`, and has put nothing. After an error the manager may end for the error's
/// cause, where it has one; what it asked stands. Where nothing disturbed the manager, only memory or room in the
/// history can be short.
pub fn reconfigure<C: Carrier>(
    carrier: &mut C,
    manager: &Name,
    rec: u8,
    first: &Config,
    new: &Config,
) -> Result<u64, MgrNo>
    requires manager { IsRunning (C.view carrier.old).seat (C.view carrier.old).seen manager.now
        (kind.Reconf rec new.now) }
    requires no_child { children (C.view carrier.old).seen manager.now ≡ [] }
    requires first { first.now ≡ first_of (C.view carrier.old).setting rec }
    ensures setting { (C.view carrier.new).setting ≡ (C.view carrier.old).setting }
    ensures seat { (C.view carrier.new).seat ≡ (C.view carrier.old).seat }
    ensures others { (C.view carrier.new).others ≡ (C.view carrier.old).others }
    ensures grown { HasGrown (C.view carrier.old).others (λ n. IsTrue (is_child manager.now n))
        (C.view carrier.old).seen (C.view carrier.new).seen }
    ensures own { HasMade manager.now (own_entries (C.view carrier.old))
        (own_entries (C.view carrier.new)) }
    ensures answered { IfOk result (λ generation. IsAnswered (C.view carrier.old).setting
        (C.view carrier.old).seat (C.view carrier.new).seen manager.now (kind.Reconf rec new.now)
        (answer.Generation generation)) }
    ensures generation { IfOk result (λ generation. generation ≡ (newest (C.view carrier.new).seen
        first.now manager.now).generation + 1) }
    ensures value_moved { IfOk result (λ _. IsTrue (holds_write new.now (replied
        (C.view carrier.new).seen manager.now Values))) }
    ensures config_moved { IfOk result (λ _. IsTrue (holds_write (newest (C.view carrier.new).seen
        first.now manager.now).config (replied (C.view carrier.new).seen manager.now Configs))) }
    ensures refused { IfErr result (ManagerIsRefused (C.view carrier.old).setting
        (C.view carrier.old).seat (C.view carrier.new).seen manager.now (kind.Reconf rec new.now)) }
    ensures complete { IfErr result (λ why. IsUndisturbed (C.view carrier.old).setting
        (C.view carrier.new).seen manager.now (kind.Reconf rec new.now)
        (C.view carrier.old).troubles (C.view carrier.new).troubles → IsShortage why) }
    ensures became { C.became carrier.old carrier.new }
    ensures later { (C.view carrier.old).troubles ≤ (C.view carrier.new).troubles }
{
    let gather = collect(carrier, manager, rec, first)?;
    let (generation, old) = gather.newest();
    if generation == u64::MAX {
        return Err(MgrNo::Last);
    }
    let (version, value) = gather.greatest();
    let put_value = Op::PutData { version, value };
    put(carrier, manager, rec, new, Phase::Values, &put_value)?;
    let next = generation + 1;
    let put_config = Op::PutConfig {
        generation: next,
        config: *new,
    };
    put(carrier, manager, rec, &old, Phase::Configs, &put_config)?;
    Ok(next)
}
