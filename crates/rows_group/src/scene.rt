//! Tops that become ready and are offered.
ghost use Rattle.std.specs.Prelude.{◌≡◌, [], true};
ghost use Rattle.qc_event.specs.Seats.{ledger_seat};
ghost use Rattle.qc_desk.specs.Rules.{IsClient};

use qc_desk::{Desk, DeskNo, Pass, Store};
use qc_event::{Name, Short};
use qc_group::{Group, Waiting};
use std::sync::Wait;

/// What a desk tells of want of memory.
pub(crate) const NO_MEMORY: DeskNo = DeskNo::Short(Short::Memory);

/// A top is started and made ready.
pub(crate) fn ready_top<N: Store, R: Wait>(
    rt: &R,
    desk: &Desk<N>,
    pass: &mut Pass<N>,
) -> Result<Waiting<N>, DeskNo>
    requires client { IsClient pass.old }
    ensures same { (pass.new.live ≡ pass.old.live) × (pass.new.number ≡ pass.old.number) }
{
    let top = desk.start_top(rt, pass, 0, 0)?;
    pass.known();
    let listed = desk.ready(rt, pass, &top)?;
    Ok(Waiting::new(desk, pass, top, listed))
}

/// Two offers of one top.
pub(crate) fn twice<N: Store>(
    desk: &Desk<N>,
    item: Waiting<N>,
) -> Result<(Waiting<N>, Waiting<N>), DeskNo> {
    let Waiting {
        top,
        aborted,
        mut pass,
        ..
    } = item;
    let Ok(same) = aborted.clone() else {
        return Err(NO_MEMORY);
    };
    let again = Waiting::new(desk, &mut pass, top, same);
    Ok((Waiting { top, aborted, pass }, again))
}

/// Offers a top.
pub(crate) fn offer<N: Store, R: Wait>(
    rt: &R,
    group: &Group<N>,
    item: Waiting<N>,
) -> Result<(), DeskNo> {
    match group.offer(rt, item) {
        Ok(()) => Ok(()),
        Err(_) => Err(NO_MEMORY),
    }
}

/// A top is started, made ready and offered.
pub(crate) fn offer_next<N: Store, R: Wait>(
    rt: &R,
    desk: &Desk<N>,
    pass: &mut Pass<N>,
    group: &Group<N>,
) -> Result<Name, DeskNo>
    requires client { IsClient pass.old }
    ensures same { (pass.new.live ≡ pass.old.live) × (pass.new.number ≡ pass.old.number) }
{
    let item = ready_top(rt, desk, pass)?;
    let top = item.top;
    offer(rt, group, item)?;
    Ok(top)
}

/// The ledger commits a ready top, its first one.
pub(crate) fn commit<N: Store, R: Wait>(
    rt: &R,
    desk: &Desk<N>,
    ledger: &mut Pass<N>,
    item: Waiting<N>,
) -> Result<(), DeskNo>
    requires ledger { (ledger.old.live ≡ true) × (ledger.old.number ≡ ledger_seat)
        × (ledger.old.mine ≡ []) }
{
    let Waiting { top, mut pass, .. } = item;
    desk.finish(rt, ledger, &mut pass, &top)?;
    Ok(())
}
