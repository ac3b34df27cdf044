//! A grant that is overtaken: its top is aborted by another client between the consultation and the grant.
ghost use Rattle.std.specs.Prelude.{◌≡◌, true, IfSome, OnOk};
ghost use Rattle.qc_event.specs.History.{grants};
ghost use Rattle.qc_event.specs.Standing.{Started, IsUser};
ghost use Rattle.qc_moss.specs.Follows.{TableFollows};
ghost use Rattle.qc_moss.specs.Locks.{unheld};
ghost use Rattle.qc_desk.specs.Calling.{Shown};
ghost use Rattle.qc_desk.specs.Rules.{IsClient};
ghost use Rattle.rows_request.specs.OneCopy as words;

use crate::clients::give_low_numbers;
use crate::scene::{grant_of, start_scene};
use qc_config::Config;
use qc_desk::{Blank, Consulted, Desk, DeskNo, Pass, Store};
use qc_event::{Cause, Name, Short};
use qc_moss::{Locks, Verdict};
use rows_request::one_request;
use std::alloc::Global;
use std::marker::Brand;
use std::sync::Wait;

// How many copies have no pass here.
const OTHER_COPIES: u32 = 15;

/// What was answered once the copy had appended its grant: the death of the access, and why its client could not take
/// the reply.
#[derive(Drop)]
pub struct Overtaken {
    pub dead: Option<Name>,
    pub refused: Option<DeskNo>,
}

// Another client is shown a top, and aborts it.
fn abort_by_other<N: Store, R: Wait>(
    rt: &R,
    desk: &Desk<N>,
    pass: &mut Pass<N>,
    other: &mut Pass<N>,
    top: &Name,
) -> Result<(), DeskNo>
    requires other { IsClient other.old }
    requires top { Started pass.old.seen top.now (λ b. IsUser b.kind) }
    ensures shown { Shown pass.old pass.new }
{
    desk.show(rt, pass, other);
    desk.abort(rt, other, top, &Cause::Asked { by: *top })
}

// A client asks, and the copy finds its request free; the other client aborts the top; and the copy grants. None where
// the request is not free.
fn overtake<N: Store, R: Wait>(
    rt: &R,
    desk: &Desk<N>,
    pass: &mut Pass<N>,
    other: &mut Pass<N>,
    copy: &mut Pass<N>,
    locks: &mut Locks,
) -> Result<Option<Overtaken>, DeskNo>
    requires client { IsClient pass.old }
    requires other { IsClient other.old }
    requires over { (N.table ≡ words.table) × (N.base ≡ words.base) }
    requires copy { (copy.old.live ≡ true) × (copy.old.number ≡ 2) }
    requires start { locks.old.start ≡ words.start }
    requires follows { TableFollows copy.old.seen (grants copy.old.seen 0) locks.old }
    requires seen { pass.old.seen ≡ copy.old.seen }
{
    let (top, ask) = one_request(rt, desk, pass)?;
    let told = desk.consult(rt, copy, pass, &ask, locks)?;
    copy.known();
    let Consulted::Fresh(verdict) = told else {
        return Ok(None);
    };
    let Verdict::Free(tuple) = verdict else {
        return Ok(None);
    };
    abort_by_other(rt, desk, pass, other, &top)?;
    desk.append(rt, copy, pass, 0, &grant_of(&ask, &tuple))?;
    let dead = desk.dead(rt, pass, &ask.access);
    pass.known();
    let refused = desk.take_reply(rt, pass, &ask.access, &tuple).err();
    Ok(Some(Overtaken { dead, refused }))
}

fn overtaken_at<N: Store, R: Wait>(
    rt: &R,
    blank: Blank,
    mut locks: Locks,
) -> Result<Option<Overtaken>, DeskNo>
    requires desk { blank.room.shared.table_id ≡ N.desk }
    requires base { (blank.base ≡ N.base) × (N.base ≡ words.base) }
    requires table { N.table ≡ words.table }
    requires locks { locks ≡ unheld words.start }
{
    let (desk, mut first) = blank.name::<N>();
    let _ledger = desk.split(rt, &mut first);
    let mut copy = desk.split(rt, &mut first);
    give_low_numbers(rt, &desk, &mut first, OTHER_COPIES);
    let mut other = desk.split(rt, &mut first);
    overtake(rt, &desk, &mut first, &mut other, &mut copy, &mut locks)
}

/// What is answered of a grant that is overtaken, at a desk of its own; none where the copy does not find the request
/// free. An error is the desk's, or want of memory.
pub fn run_overtaken<R: Wait>(
    rt: &R,
    alloc: Global,
    config: &Config,
) -> Result<Option<Overtaken>, DeskNo>
    requires { config.now ≡ words.config }
{
    let Ok((blank, locks)) = start_scene(alloc, config) else {
        return Err(DeskNo::Short(Short::Memory));
    };
    overtaken_at::<Brand, R>(rt, blank, locks)
}
