//! A client, a copy and the ledger over one desk.
ghost use Rattle.std.specs.Prelude.{◌≡◌, ◌+◌, ◌<◌, [], ◌∷◌, true, IfOk, IfSome, OnOk, reverse, slice_index_or};
ghost use Rattle.qc_event.specs.Grants.{grant_with};
ghost use Rattle.qc_event.specs.History.{grants};
ghost use Rattle.qc_event.specs.Legal.{Legal};
ghost use Rattle.qc_event.specs.Seats.{ledger_seat};
ghost use Rattle.qc_event.specs.Tables.{setting_of};
ghost use Rattle.qc_moss.specs.Follows.{TableFollows};
ghost use Rattle.qc_moss.specs.Locks.{unheld};
ghost use Rattle.qc_desk.specs.Consulting.{HasAsked};
ghost use Rattle.qc_desk.specs.Entries.{IsOlder};
ghost use Rattle.qc_desk.specs.Rules.{IsClient};
ghost use Rattle.rows_request.specs.OneCopy as words;

use qc_config::{Config, Op, Tuple};
use qc_desk::{Blank, Consulted, Desk, DeskNo, Pass, Store};
use qc_event::{Ask, Base, Cause, Grant, Kind, Name};
use qc_moss::{Locks, Verdict};
use qc_trail::Trail;
use rows_request::{first_tuple, one_request};
use std::alloc::{AllocError, Global};
use std::marker::Brand;
use std::sync::Wait;

// A request whose top was aborted.
fn dead_request<N: Store, R: Wait>(
    rt: &R,
    desk: &Desk<N>,
    pass: &mut Pass<N>,
) -> Result<Ask, DeskNo>
    requires client { IsClient pass.old }
    requires over { (N.table ≡ words.table) × (N.base ≡ words.base) }
    ensures same { (pass.new.live ≡ pass.old.live) × (pass.new.number ≡ pass.old.number)
        × (pass.new.out ≡ pass.old.out) }
    ensures asked { IfOk result (λ ask. HasAsked pass.new.seen ask × (ask.copy ≡ 0)) }
{
    let (top, ask) = one_request(rt, desk, pass)?;
    desk.abort(rt, pass, &top, &Cause::Asked { by: top })?;
    Ok(ask)
}

// The copy refuses a dead request. The client has then seen what the copy has.
fn refuse_dead<N: Store, R: Wait>(
    rt: &R,
    desk: &Desk<N>,
    pass: &mut Pass<N>,
    copy: &mut Pass<N>,
    locks: &mut Locks,
) -> Result<(), DeskNo>
    requires client { IsClient pass.old }
    requires over { (N.table ≡ words.table) × (N.base ≡ words.base) }
    requires copy { (copy.old.live ≡ true) × (copy.old.number ≡ 2) }
    requires start { locks.old.start ≡ words.start }
    requires follows { TableFollows copy.old.seen (grants copy.old.seen 0) locks.old }
    ensures same { (pass.new.live ≡ pass.old.live) × (pass.new.number ≡ pass.old.number)
        × (pass.new.out ≡ pass.old.out) }
    ensures copy { OnOk result ((copy.new.live ≡ true) × (copy.new.number ≡ 2)) }
    ensures start { OnOk result (locks.new.start ≡ words.start) }
    ensures follows { OnOk result (TableFollows copy.new.seen (grants copy.new.seen 0) locks.new) }
    ensures seen { OnOk result (pass.new.seen ≡ copy.new.seen) }
{
    let ask = dead_request(rt, desk, pass)?;
    desk.consult(rt, copy, pass, &ask, locks)?;
    Ok(())
}

pub(crate) fn grant_of(ask: &Ask, tuple: &Tuple) -> Grant
    ensures { result ≡ grant_with ask.now tuple.now }
{
    Grant {
        access: ask.access,
        rec: ask.rec,
        op: ask.op,
        tuple: *tuple,
    }
}

// The copy grants a request that is free.
fn grant_free<N: Store, R: Wait>(
    rt: &R,
    desk: &Desk<N>,
    pass: &mut Pass<N>,
    copy: &mut Pass<N>,
    locks: &mut Locks,
) -> Result<(), DeskNo>
    requires client { IsClient pass.old }
    requires over { (N.table ≡ words.table) × (N.base ≡ words.base) }
    requires copy { (copy.old.live ≡ true) × (copy.old.number ≡ 2) }
    requires start { locks.old.start ≡ words.start }
    requires follows { TableFollows copy.old.seen (grants copy.old.seen 0) locks.old }
    requires seen { pass.old.seen ≡ copy.old.seen }
    ensures same { (pass.new.live ≡ pass.old.live) × (pass.new.number ≡ pass.old.number)
        × (pass.new.out ≡ pass.old.out) }
{
    let (_, ask) = one_request(rt, desk, pass)?;
    let told = desk.consult(rt, copy, pass, &ask, locks)?;
    copy.known();
    let Consulted::Fresh(verdict) = told else {
        return Ok(());
    };
    match verdict {
        Verdict::Free(tuple) => {
            desk.append(rt, copy, pass, 0, &grant_of(&ask, &tuple))?;
            Ok(())
        }
        _ => Ok(()),
    }
}

// A top is started and made ready, and the ledger commits it.
fn one_commit<N: Store, R: Wait>(
    rt: &R,
    desk: &Desk<N>,
    pass: &mut Pass<N>,
    ledger: &mut Pass<N>,
) -> Result<(), DeskNo>
    requires client { IsClient pass.old }
    requires ledger { (ledger.old.live ≡ true) × (ledger.old.number ≡ ledger_seat)
        × (ledger.old.mine ≡ []) }
    ensures same { (pass.new.live ≡ pass.old.live) × (pass.new.number ≡ pass.old.number)
        × (pass.new.out ≡ pass.old.out) }
{
    let top = desk.start_top(rt, pass, 0, 0)?;
    pass.known();
    desk.ready(rt, pass, &top)?;
    desk.finish(rt, ledger, pass, &top)?;
    Ok(())
}

// The copy refuses a dead request and grants a free one, and the ledger commits a top.
fn play<N: Store, R: Wait>(
    rt: &R,
    desk: &Desk<N>,
    first: &mut Pass<N>,
    ledger: &mut Pass<N>,
    copy: &mut Pass<N>,
    locks: &mut Locks,
) -> Result<(), DeskNo>
    requires client { IsClient first.old }
    requires over { (N.table ≡ words.table) × (N.base ≡ words.base) }
    requires ledger { (ledger.old.live ≡ true) × (ledger.old.number ≡ ledger_seat)
        × (ledger.old.mine ≡ []) }
    requires copy { (copy.old.live ≡ true) × (copy.old.number ≡ 2) }
    requires start { locks.old.start ≡ words.start }
    requires follows { TableFollows copy.old.seen (grants copy.old.seen 0) locks.old }
    ensures same { (first.new.live ≡ first.old.live) × (first.new.number ≡ first.old.number)
        × (first.new.out ≡ first.old.out) }
{
    refuse_dead(rt, desk, first, copy, locks)?;
    grant_free(rt, desk, first, copy, locks)?;
    one_commit(rt, desk, first, ledger)
}

fn play_named<N: Store, R: Wait>(rt: &R, blank: Blank, mut locks: Locks) -> (Base, Trail)
    requires desk { blank.room.shared.table_id ≡ N.desk }
    requires base { (blank.base ≡ N.base) × (N.base ≡ words.base) }
    requires table { N.table ≡ words.table }
    requires locks { locks ≡ unheld words.start }
    ensures legal { Legal (setting_of N.table N.base) (reverse result.1) }
{
    let (desk, mut first) = blank.name::<N>();
    let mut ledger = desk.split(rt, &mut first);
    let mut copy = desk.split(rt, &mut first);
    let _ = play(rt, &desk, &mut first, &mut ledger, &mut copy, &mut locks);
    desk.close(first)
}

// A desk without a name over the one record, and the locks of its copy.
pub(crate) fn start_scene(alloc: Global, config: &Config) -> Result<(Blank, Locks), AllocError>
    requires { config.now ≡ words.config }
    ensures base { IfOk result (λ r. r.0.base ≡ words.base) }
    ensures locks { IfOk result (λ r. r.1 ≡ unheld words.start) }
{
    let mut row = Vec::new(alloc);
    row.push(first_tuple(config))?;
    let locks = Locks::new(alloc, row.to_vec(alloc)?)?;
    let mut rows = Vec::new(alloc);
    rows.push(row)?;
    let blank = Blank::new(alloc, Base::new(rows), 1)?;
    Ok((blank, locks))
}

/// A copy refuses a request whose top was aborted, and grants one that is free; and the ledger commits a top.
pub fn play_scene<R: Wait>(
    rt: &R,
    alloc: Global,
    config: &Config,
) -> Result<(Base, Trail), AllocError>
    requires { config.now ≡ words.config }
{
    let (blank, locks) = start_scene(alloc, config)?;
    Ok(play_named::<Brand, R>(rt, blank, locks))
}
