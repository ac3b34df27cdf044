//! What a desk refuses a client of a top and of its child.
ghost use Rattle.std.specs.Prelude.{◌≡◌, OnOk, IfOk};
ghost use Rattle.qc_desk.specs.Rules.{IsClient};
ghost use Rattle.rows_desk.specs.Tops.{AreUsers};

use crate::looks::{begin, start_child};
use qc_desk::{Blank, Desk, DeskNo, Pass, Store};
use qc_event::{Base, Cause, Name, Short};
use std::alloc::Global;
use std::marker::Brand;
use std::sync::Wait;

/// Why each call was refused, in turn; none where one was not: making a top ready whose child is open, aborting the
/// child that has ended, and aborting the top that is ready.
#[derive(Drop)]
pub struct Refusals {
    pub open: Option<DeskNo>,
    pub ended: Option<DeskNo>,
    pub ready: Option<DeskNo>,
}

// A top and a child of it.
#[derive(Drop)]
struct Family {
    top: Name,
    child: Name,
}

fn start_family<N: Store, R: Wait>(
    rt: &R,
    desk: &Desk<N>,
    pass: &mut Pass<N>,
) -> Result<Family, DeskNo>
    requires client { IsClient pass.old }
    ensures client { OnOk result (IsClient pass.new) }
    ensures users { IfOk result (λ f. AreUsers pass.new.seen f.top f.child) }
{
    let top = begin(rt, desk, pass)?;
    let child = start_child(rt, desk, pass, &top)?;
    Ok(Family { top, child })
}

fn make_ready<N: Store, R: Wait>(
    rt: &R,
    desk: &Desk<N>,
    pass: &mut Pass<N>,
    family: &Family,
) -> Option<DeskNo>
    requires client { IsClient pass.old }
    requires users { AreUsers pass.old.seen family.now.top family.now.child }
    ensures client { IsClient pass.new }
    ensures users { AreUsers pass.new.seen family.now.top family.now.child }
{
    desk.ready(rt, pass, &family.top).err()
}

fn abort_top<N: Store, R: Wait>(
    rt: &R,
    desk: &Desk<N>,
    pass: &mut Pass<N>,
    family: &Family,
) -> Option<DeskNo>
    requires client { IsClient pass.old }
    requires users { AreUsers pass.old.seen family.now.top family.now.child }
    ensures client { IsClient pass.new }
    ensures users { AreUsers pass.new.seen family.now.top family.now.child }
{
    let by = family.top;
    desk.abort(rt, pass, &by, &Cause::Asked { by }).err()
}

fn abort_child<N: Store, R: Wait>(
    rt: &R,
    desk: &Desk<N>,
    pass: &mut Pass<N>,
    family: &Family,
) -> Option<DeskNo>
    requires client { IsClient pass.old }
    requires users { AreUsers pass.old.seen family.now.top family.now.child }
    ensures client { IsClient pass.new }
    ensures users { AreUsers pass.new.seen family.now.top family.now.child }
{
    let by = family.child;
    desk.abort(rt, pass, &by, &Cause::Asked { by }).err()
}

fn refused_at<N: Store, R: Wait>(rt: &R, blank: Blank) -> Result<Refusals, DeskNo>
    requires desk { blank.room.shared.table_id ≡ N.desk }
    requires base { blank.base ≡ N.base }
{
    let (desk, mut pass) = blank.name::<N>();
    let family = start_family(rt, &desk, &mut pass)?;
    let open = make_ready(rt, &desk, &mut pass, &family);
    let _ = abort_child(rt, &desk, &mut pass, &family);
    let ended = abort_child(rt, &desk, &mut pass, &family);
    let _ = make_ready(rt, &desk, &mut pass, &family);
    let ready = abort_top(rt, &desk, &mut pass, &family);
    Ok(Refusals { open, ended, ready })
}

/// What a desk of its own refuses. An error is the desk's, or want of memory.
pub fn run_refusals<R: Wait>(rt: &R, alloc: Global) -> Result<Refusals, DeskNo> {
    let Ok(blank) = Blank::new(alloc, Base::new(Vec::new(alloc)), 1) else {
        return Err(DeskNo::Short(Short::Memory));
    };
    refused_at::<Brand, R>(rt, blank)
}
