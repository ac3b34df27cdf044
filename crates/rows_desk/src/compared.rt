//! What a desk answers of a copy's grants, given in order, and with two of them exchanged; and what the copy holds.
ghost use Rattle.std.specs.Prelude.{◌≡◌, true, IfOk, IfSome};
ghost use Rattle.qc_event.specs.History.{grants};
ghost use Rattle.qc_moss.specs.Follows.{TableFollows};
ghost use Rattle.qc_moss.specs.Locks.{unheld};
ghost use Rattle.qc_desk.specs.Rules.{IsClient};
ghost use Rattle.rows_request.specs.OneCopy as words;

use crate::scene::{grant_of, start_scene};
use qc_config::{Config, Tuple};
use qc_desk::{Blank, Consulted, Desk, DeskNo, Pass, Store};
use qc_event::{Grant, Short};
use qc_moss::{Locks, Verdict};
use rows_request::one_request;
use std::alloc::Global;
use std::marker::Brand;
use std::sync::Wait;

/// What the desk answered of the copy's three grants: given in order, and with the last two exchanged; what the first was
/// granted there, and at another copy; and what the copy holds.
#[derive(Drop)]
pub struct Compared {
    pub in_order: Option<(usize, Grant)>,
    pub exchanged: Option<(usize, Grant)>,
    pub here: Option<Tuple>,
    pub elsewhere: Option<Tuple>,
    pub held: Vec<Tuple>,
}

// The copy grants a request of the client, and its locks follow. None where the request is not free.
fn grant_next<N: Store, R: Wait>(
    rt: &R,
    desk: &Desk<N>,
    pass: &mut Pass<N>,
    copy: &mut Pass<N>,
    locks: &mut Locks,
) -> Result<Option<Grant>, DeskNo>
    requires client { IsClient pass.old }
    requires over { (N.table ≡ words.table) × (N.base ≡ words.base) }
    requires copy { (copy.old.live ≡ true) × (copy.old.number ≡ 2) }
    requires start { locks.old.start ≡ words.start }
    requires follows { TableFollows copy.old.seen (grants copy.old.seen 0) locks.old }
    requires seen { pass.old.seen ≡ copy.old.seen }
    ensures client { IsClient pass.new }
    ensures copy { IfOk result (λ o. IfSome o
        (λ g. (copy.new.live ≡ true) × (copy.new.number ≡ 2))) }
    ensures start { IfOk result (λ o. IfSome o (λ g. locks.new.start ≡ words.start)) }
    ensures follows { IfOk result (λ o. IfSome o
        (λ g. TableFollows copy.new.seen (grants copy.new.seen 0) locks.new)) }
    ensures seen { IfOk result (λ o. IfSome o (λ g. pass.new.seen ≡ copy.new.seen)) }
{
    let (_, ask) = one_request(rt, desk, pass)?;
    let told = desk.consult(rt, copy, pass, &ask, locks)?;
    copy.known();
    let Consulted::Fresh(verdict) = told else {
        return Ok(None);
    };
    let Verdict::Free(tuple) = verdict else {
        return Ok(None);
    };
    let grant = grant_of(&ask, &tuple);
    if locks.reserve().is_err() {
        return Err(DeskNo::Short(Short::Memory));
    }
    desk.append(rt, copy, pass, 0, &grant)?;
    copy.known();
    locks.grant(&grant.access, grant.rec, &grant.op);
    Ok(Some(grant))
}

fn compare<N: Store, R: Wait>(
    rt: &R,
    alloc: Global,
    desk: &Desk<N>,
    pass: &mut Pass<N>,
    copy: &mut Pass<N>,
    one: &Grant,
    two: &Grant,
    three: &Grant,
) -> Result<Compared, DeskNo> {
    let Ok(held) = desk.held(rt, alloc, pass, 0) else {
        return Err(DeskNo::Short(Short::Memory));
    };
    Ok(Compared {
        in_order: desk.matches(rt, pass, 0, &[*one, *two, *three]),
        exchanged: desk.matches(rt, pass, 0, &[*one, *three, *two]),
        here: desk.granted(rt, copy, pass, 0, &one.access),
        elsewhere: desk.granted(rt, copy, pass, 1, &one.access),
        held,
    })
}

// The copy grants three requests in turn, and the desk compares. None where one of them is not free.
fn grant_three<N: Store, R: Wait>(
    rt: &R,
    alloc: Global,
    desk: &Desk<N>,
    pass: &mut Pass<N>,
    copy: &mut Pass<N>,
    locks: &mut Locks,
) -> Result<Option<Compared>, DeskNo>
    requires client { IsClient pass.old }
    requires over { (N.table ≡ words.table) × (N.base ≡ words.base) }
    requires copy { (copy.old.live ≡ true) × (copy.old.number ≡ 2) }
    requires start { locks.old.start ≡ words.start }
    requires follows { TableFollows copy.old.seen (grants copy.old.seen 0) locks.old }
    requires seen { pass.old.seen ≡ copy.old.seen }
{
    let Some(one) = grant_next(rt, desk, pass, copy, locks)? else {
        return Ok(None);
    };
    let Some(two) = grant_next(rt, desk, pass, copy, locks)? else {
        return Ok(None);
    };
    let Some(three) = grant_next(rt, desk, pass, copy, locks)? else {
        return Ok(None);
    };
    let compared = compare(rt, alloc, desk, pass, copy, &one, &two, &three)?;
    Ok(Some(compared))
}

fn compared_at<N: Store, R: Wait>(
    rt: &R,
    alloc: Global,
    blank: Blank,
    mut locks: Locks,
) -> Result<Option<Compared>, DeskNo>
    requires desk { blank.room.shared.table_id ≡ N.desk }
    requires base { (blank.base ≡ N.base) × (N.base ≡ words.base) }
    requires table { N.table ≡ words.table }
    requires locks { locks ≡ unheld words.start }
{
    let (desk, mut first) = blank.name::<N>();
    let _ledger = desk.split(rt, &mut first);
    let mut copy = desk.split(rt, &mut first);
    grant_three(rt, alloc, &desk, &mut first, &mut copy, &mut locks)
}

/// What a desk of its own answers; none where the copy does not find each request free. An error is the desk's, or
/// want of memory.
pub fn run_compared<R: Wait>(
    rt: &R,
    alloc: Global,
    config: &Config,
) -> Result<Option<Compared>, DeskNo>
    requires { config.now ≡ words.config }
{
    let Ok((blank, locks)) = start_scene(alloc, config) else {
        return Err(DeskNo::Short(Short::Memory));
    };
    compared_at::<Brand, R>(rt, alloc, blank, locks)
}
