//! Many tops at a desk, by one pass.
ghost use Rattle.std.specs.Prelude.{◌≡◌, [], ◌∷◌, ◌++◌, OnOk, OnErr, IfOk};
ghost use Rattle.qc_desk.specs.Rules.{IsClient};
ghost use Rattle.bench_desk.specs.Tops.{AreStarted};

use qc_desk::{Desk, DeskNo, Pass, Store};
use qc_event::{Cause, Name, Short};
use qc_names::lists::append;
use std::alloc::{AllocError, Global};
use std::sync::Wait;

fn start_one<N: Store, R: Wait>(
    rt: &R,
    desk: &Desk<N>,
    pass: &mut Pass<N>,
    tops: &mut Vec<Name>,
) -> Result<(), DeskNo>
    requires client { IsClient pass.old }
    requires started { AreStarted pass.old.seen tops.old.items }
    ensures client { OnOk result (IsClient pass.new) }
    ensures started { OnOk result (AreStarted pass.new.seen tops.new.items) }
{
    let top = desk.start_top(rt, pass, 0, 0)?;
    pass.known();
    match append(tops, top) {
        Ok(()) => Ok(()),
        Err(AllocError) => Err(DeskNo::Short(Short::Memory)),
    }
}

/// Starts so many tops.
pub(crate) fn start_all<N: Store, R: Wait>(
    rt: &R,
    alloc: Global,
    desk: &Desk<N>,
    pass: &mut Pass<N>,
    tops: u32,
) -> Result<Vec<Name>, DeskNo>
    requires client { IsClient pass.old }
    ensures client { OnOk result (IsClient pass.new) }
    ensures started { IfOk result (λ names. AreStarted pass.new.seen names.items) }
{
    let mut names = Vec::new(alloc);
    for _ in 0..tops {
        start_one(rt, desk, pass, &mut names)?;
    }
    Ok(names)
}

fn abort_one<N: Store, R: Wait>(
    rt: &R,
    desk: &Desk<N>,
    pass: &mut Pass<N>,
    tops: &[Name],
    at: usize,
) -> Result<(), DeskNo>
    requires client { IsClient pass.old }
    requires started { AreStarted pass.old.seen tops.now }
    ensures client { OnOk result (IsClient pass.new) }
    ensures started { OnOk result (AreStarted pass.new.seen tops.now) }
{
    match tops.get(at) {
        Some(top) => desk.abort(rt, pass, top, &Cause::Asked { by: *top }),
        None => Ok(()),
    }
}

/// Aborts each top, as it asked.
pub(crate) fn abort_all<N: Store, R: Wait>(
    rt: &R,
    desk: &Desk<N>,
    pass: &mut Pass<N>,
    tops: &[Name],
) -> Result<(), DeskNo>
    requires client { IsClient pass.old }
    requires started { AreStarted pass.old.seen tops.now }
{
    for at in 0..tops.len() {
        abort_one(rt, desk, pass, tops, at)?;
    }
    Ok(())
}

/// Whether each name has ended.
pub(crate) fn ended_all<N: Store, R: Wait>(
    rt: &R,
    desk: &Desk<N>,
    pass: &mut Pass<N>,
    names: &[Name],
) -> bool {
    for name in names {
        if desk.ended(rt, pass, name).is_none() {
            return false;
        }
    }
    true
}
