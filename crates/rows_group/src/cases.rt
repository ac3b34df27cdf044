//! Three tops that are offered in turn, and drawn.
ghost use Rattle.std.specs.Prelude.{◌≡◌, [], true};
ghost use Rattle.qc_event.specs.Seats.{ledger_seat};
ghost use Rattle.qc_desk.specs.Rules.{IsClient};

use crate::scene::{NO_MEMORY, commit, offer, offer_next, ready_top, twice};
use qc_desk::{Blank, Desk, DeskNo, Pass, Store};
use qc_event::{Base, Name};
use qc_group::{Group, Waiting};
use std::alloc::{AllocError, Global};
use std::marker::Brand;
use std::sync::Wait;

// More than are offered.
const ALL: usize = 15;

/// What is so as the tops are drawn.
#[derive(Clone, Copy)]
pub enum Case {
    /// The three have no end.
    Plain,
    /// The first has its end.
    Ended,
    /// They are drawn for the second.
    Own,
    /// The first is offered again, behind the others.
    Twice,
}

/// The tops that were drawn, and those that were drawn next, for another top.
#[derive(Drop)]
pub struct Told {
    pub drawn: Vec<Name>,
    pub next: Vec<Name>,
}

// The tops of offers.
fn tops_of<N: Store>(alloc: Global, offers: &[Waiting<N>]) -> Result<Vec<Name>, AllocError> {
    let mut tops = Vec::new(alloc);
    for item in offers {
        tops.push(item.top)?;
    }
    Ok(tops)
}

// The tops that are drawn for a top.
fn draw<N: Store, R: Wait>(
    rt: &R,
    alloc: Global,
    desk: &Desk<N>,
    group: &Group<N>,
    own: &Name,
    most: usize,
) -> Result<Vec<Name>, DeskNo> {
    let Ok(drawn) = group.draw(rt, desk, own, most) else {
        return Err(NO_MEMORY);
    };
    match tops_of(alloc, drawn.as_slice()) {
        Ok(tops) => Ok(tops),
        Err(AllocError) => Err(NO_MEMORY),
    }
}

// Does what the case has with the first top, whose first offer stands.
fn meet<N: Store, R: Wait>(
    rt: &R,
    desk: &Desk<N>,
    ledger: &mut Pass<N>,
    group: &Group<N>,
    case: Case,
    again: Waiting<N>,
) -> Result<(), DeskNo>
    requires ledger { (ledger.old.live ≡ true) × (ledger.old.number ≡ ledger_seat)
        × (ledger.old.mine ≡ []) }
{
    match case {
        Case::Ended => commit(rt, desk, ledger, again),
        Case::Twice => offer(rt, group, again),
        _ => Ok(()),
    }
}

// Offers the three, and tells the second.
fn offer_three<N: Store, R: Wait>(
    rt: &R,
    desk: &Desk<N>,
    pass: &mut Pass<N>,
    ledger: &mut Pass<N>,
    group: &Group<N>,
    case: Case,
) -> Result<Name, DeskNo>
    requires client { IsClient pass.old }
    requires ledger { (ledger.old.live ≡ true) × (ledger.old.number ≡ ledger_seat)
        × (ledger.old.mine ≡ []) }
    ensures same { (pass.new.live ≡ pass.old.live) × (pass.new.number ≡ pass.old.number) }
{
    let item = ready_top(rt, desk, pass)?;
    let (first, again) = twice(desk, item)?;
    offer(rt, group, first)?;
    let second = offer_next(rt, desk, pass, group)?;
    let _third = offer_next(rt, desk, pass, group)?;
    meet(rt, desk, ledger, group, case, again)?;
    Ok(second)
}

fn case_at<N: Store, R: Wait>(
    rt: &R,
    alloc: Global,
    blank: Blank,
    case: Case,
    most: usize,
) -> Result<Told, DeskNo>
    requires desk { blank.room.shared.table_id ≡ N.desk }
    requires base { blank.base ≡ N.base }
{
    let (desk, mut pass) = blank.name::<N>();
    let mut ledger = desk.split(rt, &mut pass);
    let group = Group::new(alloc);
    let second = offer_three(rt, &desk, &mut pass, &mut ledger, &group, case)?;
    let fourth = desk.start_top(rt, &mut pass, 0, 0)?;
    let own = match case {
        Case::Own => second,
        _ => fourth,
    };
    let drawn = draw(rt, alloc, &desk, &group, &own, most)?;
    let next = draw(rt, alloc, &desk, &group, &fourth, ALL)?;
    Ok(Told { drawn, next })
}

/// Draws at most so many of three tops at a desk of its own. An error is the desk's, or want of memory.
pub fn run_case<R: Wait>(rt: &R, alloc: Global, case: Case, most: usize) -> Result<Told, DeskNo> {
    let Ok(blank) = Blank::new(alloc, Base::new(Vec::new(alloc)), 1) else {
        return Err(NO_MEMORY);
    };
    case_at::<Brand, R>(rt, alloc, blank, case, most)
}
