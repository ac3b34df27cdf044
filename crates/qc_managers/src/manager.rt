//! Reading and writing a record.
ghost use Rattle.std.specs.Prelude.{◌≡◌, ◌≤◌, ◌+◌, [], IsTrue, IfOk, IfErr};
ghost use Rattle.qc_event.specs.Base.{first_of};
ghost use Rattle.qc_event.specs.declared.event.Answer.TheVariants as answer;
ghost use Rattle.qc_event.specs.declared.event.Kind.TheVariants as kind;
ghost use Rattle.qc_event.specs.History.{children, is_child};
ghost use Rattle.qc_event.specs.Manager.{greatest};
ghost use Rattle.qc_managers.specs.Carrying.{own_entries, IsRunning, HasGrown};
ghost use Rattle.qc_managers.specs.Going.{HasMade};
ghost use Rattle.qc_managers.specs.Managed.{IsAnswered, ManagerIsRefused};
ghost use Rattle.qc_managers.specs.Undisturbed.{IsUndisturbed, IsShortage};

use crate::carrier::Carrier;
use crate::collection::collect;
use crate::no::MgrNo;
use crate::placing::put;
use qc_config::{Config, Op, Val};
use qc_event::{Name, Phase};

/// Reads a record, for a manager that was started to read it and has asked nothing: the value of the
/// greatest version at a read quorum of the newest configuration (Gifford). The manager may then commit with
/// it. After an error the manager may end for the error's cause, where it has one; what it asked stands.
/// Where nothing disturbed the manager, only memory or room in the history can be short.
pub fn read<C: Carrier>(
    carrier: &mut C,
    manager: &Name,
    rec: u8,
    first: &Config,
) -> Result<Val, MgrNo>
    requires manager { IsRunning (C.view carrier.old).seat (C.view carrier.old).seen manager.now
        (kind.Read rec) }
    requires no_child { children (C.view carrier.old).seen manager.now ≡ [] }
    requires first { first.now ≡ first_of (C.view carrier.old).setting rec }
    ensures setting { (C.view carrier.new).setting ≡ (C.view carrier.old).setting }
    ensures seat { (C.view carrier.new).seat ≡ (C.view carrier.old).seat }
    ensures others { (C.view carrier.new).others ≡ (C.view carrier.old).others }
    ensures grown { HasGrown (C.view carrier.old).others (λ n. IsTrue (is_child manager.now n))
        (C.view carrier.old).seen (C.view carrier.new).seen }
    ensures own { HasMade manager.now (own_entries (C.view carrier.old))
        (own_entries (C.view carrier.new)) }
    ensures answered { IfOk result (λ value. IsAnswered (C.view carrier.old).setting
        (C.view carrier.old).seat (C.view carrier.new).seen manager.now (kind.Read rec)
        (answer.Value value)) }
    ensures refused { IfErr result (ManagerIsRefused (C.view carrier.old).setting
        (C.view carrier.old).seat (C.view carrier.new).seen manager.now (kind.Read rec)) }
    ensures complete { IfErr result (λ why. IsUndisturbed (C.view carrier.old).setting
        (C.view carrier.new).seen manager.now (kind.Read rec) (C.view carrier.old).troubles
        (C.view carrier.new).troubles → IsShortage why) }
    ensures became { C.became carrier.old carrier.new }
    ensures later { (C.view carrier.old).troubles ≤ (C.view carrier.new).troubles }
{
    let gather = collect(carrier, manager, rec, first)?;
    let (_, value) = gather.greatest();
    Ok(value)
}

/// Writes a value to a record, for a manager that was started to write it and has asked nothing: it puts
/// the value, with the version after the greatest at a read quorum, to a write quorum of the newest
/// configuration (Gifford). It answers that version, and the manager may then commit. After an error the
/// manager may end for the error's cause, where it has one; what it asked stands. Where nothing disturbed the
/// manager, only memory or room in the history can be short.
pub fn write<C: Carrier>(
    carrier: &mut C,
    manager: &Name,
    rec: u8,
    first: &Config,
    value: Val,
) -> Result<u64, MgrNo>
    requires manager { IsRunning (C.view carrier.old).seat (C.view carrier.old).seen manager.now
        (kind.Write rec value) }
    requires no_child { children (C.view carrier.old).seen manager.now ≡ [] }
    requires first { first.now ≡ first_of (C.view carrier.old).setting rec }
    ensures setting { (C.view carrier.new).setting ≡ (C.view carrier.old).setting }
    ensures seat { (C.view carrier.new).seat ≡ (C.view carrier.old).seat }
    ensures others { (C.view carrier.new).others ≡ (C.view carrier.old).others }
    ensures grown { HasGrown (C.view carrier.old).others (λ n. IsTrue (is_child manager.now n))
        (C.view carrier.old).seen (C.view carrier.new).seen }
    ensures own { HasMade manager.now (own_entries (C.view carrier.old))
        (own_entries (C.view carrier.new)) }
    ensures answered { IfOk result (λ version. IsAnswered (C.view carrier.old).setting
        (C.view carrier.old).seat (C.view carrier.new).seen manager.now (kind.Write rec value)
        answer.Nothing) }
    ensures version { IfOk result (λ version. version ≡ (greatest (C.view carrier.new).seen
        manager.now).version + 1) }
    ensures refused { IfErr result (ManagerIsRefused (C.view carrier.old).setting
        (C.view carrier.old).seat (C.view carrier.new).seen manager.now (kind.Write rec value)) }
    ensures complete { IfErr result (λ why. IsUndisturbed (C.view carrier.old).setting
        (C.view carrier.new).seen manager.now (kind.Write rec value) (C.view carrier.old).troubles
        (C.view carrier.new).troubles → IsShortage why) }
    ensures became { C.became carrier.old carrier.new }
    ensures later { (C.view carrier.old).troubles ≤ (C.view carrier.new).troubles }
{
    let gather = collect(carrier, manager, rec, first)?;
    let (greatest, _) = gather.greatest();
    if greatest == u64::MAX {
        return Err(MgrNo::Last);
    }
    let (_, config) = gather.newest();
    let version = greatest + 1;
    put(
        carrier,
        manager,
        rec,
        &config,
        Phase::Values,
        &Op::PutData { version, value },
    )?;
    Ok(version)
}
