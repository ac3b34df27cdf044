//! What a desk tells of a top whose session is marked, whose child is aborted, and that is then ready.
ghost use Rattle.std.specs.Prelude.{◌≡◌, OnOk, IfOk};
ghost use Rattle.qc_event.specs.Standing.{Started, IsUser};
ghost use Rattle.qc_desk.specs.Rules.{IsClient};
ghost use Rattle.rows_desk.specs.Tops.{IsUserTop};

use qc_desk::{Blank, Desk, DeskNo, Pass, Store};
use qc_event::{Base, Cause, Kind, Name, Short};
use std::alloc::Global;
use std::marker::Brand;
use std::sync::Wait;

// The session of the top, and of its child.
const SESSION: u8 = 3;

/// What was listed of the top when it became ready, and what looks told then: whether each top has its end, whether
/// the top is marked, whether its child was refused, and whether no grants at all begin with those of copy 0.
#[derive(Drop)]
pub struct Told {
    pub listed: Vec<Name>,
    pub settled: bool,
    pub marked: bool,
    pub refused: bool,
    pub matches: bool,
}

pub(crate) fn begin<N: Store, R: Wait>(
    rt: &R,
    desk: &Desk<N>,
    pass: &mut Pass<N>,
) -> Result<Name, DeskNo>
    requires client { IsClient pass.old }
    ensures client { OnOk result (IsClient pass.new) }
    ensures top { IfOk result (λ n. IsUserTop pass.new.seen n) }
{
    let top = desk.start_top(rt, pass, SESSION, 0)?;
    pass.known();
    Ok(top)
}

fn mark<N: Store, R: Wait>(
    rt: &R,
    desk: &Desk<N>,
    pass: &mut Pass<N>,
    top: &Name,
) -> Result<(), Short>
    requires client { IsClient pass.old }
    requires top { IsUserTop pass.old.seen top.now }
    ensures client { OnOk result (IsClient pass.new) }
    ensures top { OnOk result (IsUserTop pass.new.seen top.now) }
{
    desk.mark(rt, pass, top, SESSION)
}

pub(crate) fn start_child<N: Store, R: Wait>(
    rt: &R,
    desk: &Desk<N>,
    pass: &mut Pass<N>,
    top: &Name,
) -> Result<Name, DeskNo>
    requires client { IsClient pass.old }
    requires top { IsUserTop pass.old.seen top.now }
    ensures client { OnOk result (IsClient pass.new) }
    ensures top { OnOk result (IsUserTop pass.new.seen top.now) }
    ensures child { IfOk result (λ c. Started pass.new.seen c (λ b. IsUser b.kind)) }
{
    let kind = Kind::User {
        session: SESSION,
        body: 1,
    };
    let child = desk.start(rt, pass, top, kind)?;
    pass.known();
    Ok(child)
}

fn abort_child<N: Store, R: Wait>(
    rt: &R,
    desk: &Desk<N>,
    pass: &mut Pass<N>,
    top: &Name,
    child: &Name,
) -> Result<(), DeskNo>
    requires client { IsClient pass.old }
    requires top { IsUserTop pass.old.seen top.now }
    requires child { Started pass.old.seen child.now (λ b. IsUser b.kind) }
    ensures client { OnOk result (IsClient pass.new) }
    ensures top { OnOk result (IsUserTop pass.new.seen top.now) }
{
    desk.abort(rt, pass, child, &Cause::Asked { by: *child })
}

fn make_ready<N: Store, R: Wait>(
    rt: &R,
    desk: &Desk<N>,
    pass: &mut Pass<N>,
    top: &Name,
) -> Result<Vec<Name>, DeskNo>
    requires client { IsClient pass.old }
    requires top { IsUserTop pass.old.seen top.now }
{
    desk.ready(rt, pass, top)
}

fn told_at<N: Store, R: Wait>(rt: &R, blank: Blank) -> Result<Told, DeskNo>
    requires desk { blank.room.shared.table_id ≡ N.desk }
    requires base { blank.base ≡ N.base }
{
    let (desk, mut pass) = blank.name::<N>();
    let top = begin(rt, &desk, &mut pass)?;
    mark(rt, &desk, &mut pass, &top)?;
    let child = start_child(rt, &desk, &mut pass, &top)?;
    abort_child(rt, &desk, &mut pass, &top, &child)?;
    let listed = make_ready(rt, &desk, &mut pass, &top)?;
    Ok(Told {
        listed,
        settled: desk.settled(rt, &mut pass),
        marked: desk.marked(rt, &mut pass, &top),
        refused: desk.refusal(rt, &mut pass, &child).is_some(),
        matches: desk.matches(rt, &mut pass, 0, &[]).is_none(),
    })
}

/// What a desk of its own tells. An error is the desk's, or want of memory.
pub fn run_looks<R: Wait>(rt: &R, alloc: Global) -> Result<Told, DeskNo> {
    let Ok(blank) = Blank::new(alloc, Base::new(Vec::new(alloc)), 1) else {
        return Err(DeskNo::Short(Short::Memory));
    };
    told_at::<Brand, R>(rt, blank)
}
