//! The collection of a manager.
ghost use Rattle.std.specs.Prelude.{◌≡◌, ◌<◌, IfOk, IfErr, List, [], ◌∷◌, ◌++◌};
ghost use Rattle.qc_config.specs.Config.{Voting};
ghost use Rattle.qc_event.specs.declared.event.Kind.{Kind};
ghost use Rattle.qc_managers.specs.Carrying.{became};
ghost use Rattle.qc_managers.specs.Gathered.{gathered};
ghost use Rattle.qc_managers.specs.Told.{Told};
ghost use Rattle.qc_managers.specs.Going.{MayCollect, HasServed, HasCollected};
ghost use Rattle.qc_managers.specs.Managed.{ManagerIsRefused};
ghost use Rattle.qc_managers.specs.Undisturbed.{IsUndisturbed, IsShortage};

use crate::carrier::{Carried, Carrier};
use crate::gather::Gather;
use crate::next::Next;
use crate::no::MgrNo;
use crate::request::request;
use qc_config::{Config, Op};
use qc_event::Name;

fn hear(gather: &mut Gather, copy: u8, carried: &Carried)
    requires { copy < 16 }
    ensures { (first : Voting) (told : List Told) → gather.old ≡ gathered first told
        → gather.new ≡ gathered first (told
        ++ record { copy = copy; result = became carried.now } ∷ []) }
{
    match *carried {
        Carried::Reply(tuple) => gather.add(copy, &tuple),
        Carried::Blocked(holder) => gather.blocked(copy, &holder),
        Carried::Gone(why) => gather.miss(copy, why),
    }
}

/// Reads copies for a manager, the least first, until those that replied hold a read quorum of the newest
/// configuration, which may change with each reply (Gifford). It answers what was gathered. The manager is one
/// that has asked for nothing yet, and `first` is its record's first configuration. After an error the manager
/// may end for the error's cause, where it has one; what it asked stands. Where nothing disturbed it, only
/// memory or room in the history can be short.
pub fn collect<C: Carrier>(
    carrier: &mut C,
    manager: &Name,
    rec: u8,
    first: &Config,
) -> Result<Gather, MgrNo>
    ghost kind: { Kind }
    requires { MayCollect (C.view carrier.old).setting (C.view carrier.old).seat
        (C.view carrier.old).seen manager.now kind rec first.now }
    ensures served { HasServed manager.now (C.view carrier.old) (C.view carrier.new) }
    ensures collected { IfOk result (HasCollected (C.view carrier.old).seat
        (C.view carrier.old).seen (C.view carrier.new).seen manager.now kind first.now) }
    ensures refused { IfErr result (ManagerIsRefused (C.view carrier.old).setting
        (C.view carrier.old).seat (C.view carrier.new).seen manager.now kind) }
    ensures complete { IfErr result (λ why. IsUndisturbed (C.view carrier.old).setting
        (C.view carrier.new).seen manager.now kind (C.view carrier.old).troubles
        (C.view carrier.new).troubles → IsShortage why) }
    ensures became { C.became carrier.old carrier.new }
{
    let mut gather = Gather::new(first);
    loop {
        match gather.next() {
            Next::Enough => return Ok(gather),
            Next::Short => return Err(MgrNo::from(gather.lack())),
            Next::Copy(copy) => {
                let carried = request(carrier, manager, copy, rec, Op::Get)?;
                hear(&mut gather, copy, &carried);
            }
        }
    }
}
