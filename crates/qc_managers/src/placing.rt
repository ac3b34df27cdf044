//! One phase of a manager's puts.
ghost use Rattle.std.specs.Prelude.{◌≡◌, ◌<◌, OnOk, IfErr, List, [], ◌∷◌, ◌++◌};
ghost use Rattle.qc_config.specs.Config.{Voting};
ghost use Rattle.qc_event.specs.declared.event.Kind.{Kind};
ghost use Rattle.qc_event.specs.declared.event.Phase.{Phase};
ghost use Rattle.qc_managers.specs.Carrying.{became};
ghost use Rattle.qc_managers.specs.Gathered as gathered_words;
ghost use Rattle.qc_managers.specs.Told.{Told};
ghost use Rattle.qc_managers.specs.Going.{MayPut, HasServed, HasPut, putting};
ghost use Rattle.qc_managers.specs.Managed.{ManagerIsRefused};
ghost use Rattle.qc_managers.specs.Undisturbed.{IsUndisturbed, IsShortage};

use crate::carrier::{Carried, Carrier};
use crate::next::Next;
use crate::no::MgrNo;
use crate::puts::Puts;
use crate::request::request;
use qc_config::{Config, Op};
use qc_event::{Name, Phase};

fn hear(puts: &mut Puts, copy: u8, carried: &Carried)
    requires { copy < 16 }
    ensures { (config : Voting) (phase : Phase) (told : List Told)
        → puts.old ≡ gathered_words.put config phase told
        → puts.new ≡ gathered_words.put config phase
        (told ++ record { copy = copy; result = became carried.now } ∷ []) }
{
    match *carried {
        Carried::Reply(_) => puts.add(copy),
        Carried::Blocked(holder) => puts.blocked(copy, &holder),
        Carried::Gone(why) => puts.miss(copy, why),
    }
}

/// Puts to copies for a manager, the least first, until those that replied hold a write quorum of a
/// configuration (Gifford). The manager has collected, and has come to the stage at which it asks for this, in
/// this phase. After an error the manager may end for the error's cause, where it has one; what it asked
/// stands. Where nothing disturbed it, only memory or room in the history can be short.
pub fn put<C: Carrier>(
    carrier: &mut C,
    manager: &Name,
    rec: u8,
    config: &Config,
    phase: Phase,
    op: &Op,
) -> Result<(), MgrNo>
    ghost kind: { Kind }
    requires { MayPut (C.view carrier.old).setting (C.view carrier.old).seat
        (C.view carrier.old).seen manager.now kind rec (putting config.now phase op.now) }
    ensures served { HasServed manager.now (C.view carrier.old) (C.view carrier.new) }
    ensures put { OnOk result (HasPut (C.view carrier.old).seat (C.view carrier.old).seen
        (C.view carrier.new).seen manager.now kind (putting config.now phase op.now)) }
    ensures refused { IfErr result (ManagerIsRefused (C.view carrier.old).setting
        (C.view carrier.old).seat (C.view carrier.new).seen manager.now kind) }
    ensures complete { IfErr result (λ why. IsUndisturbed (C.view carrier.old).setting
        (C.view carrier.new).seen manager.now kind (C.view carrier.old).troubles
        (C.view carrier.new).troubles → IsShortage why) }
    ensures became { C.became carrier.old carrier.new }
{
    let mut puts = Puts::new(config, phase);
    loop {
        match puts.next() {
            Next::Enough => return Ok(()),
            Next::Short => return Err(MgrNo::from(puts.lack())),
            Next::Copy(copy) => {
                let carried = request(carrier, manager, copy, rec, *op)?;
                hear(&mut puts, copy, &carried);
            }
        }
    }
}
