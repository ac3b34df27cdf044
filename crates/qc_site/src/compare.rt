//! Grants that are held against others.
ghost use Rattle.std.specs.Prelude.{◌≡◌, ◌≤◌, ◌++◌, option_to_list, ◌↔◌, true, false, OnOk, OnErr, IfOk, IfErr, IfSome, slice_get, IsNone, IsTrue, Ok};
ghost use Rattle.qc_journal.specs.Image.{bodies_of};
ghost use Rattle.qc_site.specs.Back.{AreGrants, IsFirstApart, IsFirstUnread, IsWithHand};

use qc_codec::{FORMAT, read_grant};
use qc_event::{Grant, Op};
use qc_journal::Body;
use qc_names::lists::append;
use std::alloc::{AllocError, Global};

// It makes the type known that a grant holds.
fn is_op(_op: &Op) {}

/// What a copy granted, and the grant in hand.
pub(crate) fn with_hand(
    mut given: Vec<Grant>,
    hand: Option<Grant>,
) -> Result<Vec<Grant>, AllocError>
    ensures { IfOk result (λ all. all.items ≡ given.items ++ option_to_list hand) }
{
    if let Some(grant) = hand {
        append(&mut given, grant)?;
    }
    Ok(given)
}

/// The grants that bodies are, or the index of the first that is none.
pub(crate) fn grants_in(
    alloc: Global,
    copies: u8,
    bodies: &[Body],
) -> Result<Result<Vec<Grant>, usize>, AllocError>
    requires { copies ≤ 16 }
    ensures grants { IfOk result (λ read. IfOk read (λ grants. AreGrants copies grants.items
        (bodies_of bodies.now))) }
    ensures unread { IfOk result (λ read. IfErr read (λ index. IsFirstUnread copies index
        (bodies_of bodies.now))) }
{
    let mut grants = Vec::new(alloc);
    for index in 0..bodies.len() {
        match read_grant(bodies[index].as_slice(), copies, FORMAT) {
            Ok(grant) => {
                is_op(&grant.op);
                append(&mut grants, grant)?;
            }
            Err(_) => return Ok(Err(index)),
        }
    }
    Ok(Ok(grants))
}

/// The grant at a place.
pub(crate) fn grant_at(grants: &[Grant], index: usize) -> Option<Grant>
    ensures { result ≡ slice_get grants.now index }
{
    if index < grants.len() {
        Some(grants[index])
    } else {
        None
    }
}

// Whether two grants are the same.
fn same_grant(a: &Grant, b: &Grant) -> bool
    ensures { IsTrue result ↔ (a.now ≡ b.now) }
{
    a.access == b.access && a.rec == b.rec && a.op == b.op && a.tuple == b.tuple
}

// Where grants first differ from others.
fn first_apart(grants: &[Grant], given: &[Grant]) -> Option<usize>
    ensures none { IsNone result ↔ (grants.now ≡ given.now) }
    ensures some { IfSome result (λ index. IsFirstApart index grants.now given.now) }
{
    for index in 0..grants.len() {
        if index >= given.len() || !same_grant(&grants[index], &given[index]) {
            return Some(index);
        }
    }
    if given.len() > grants.len() {
        return Some(grants.len());
    }
    None
}

// Whether grants are those given, and behind them the one in hand.
fn is_with_hand(grants: &[Grant], given: &[Grant], hand: &Option<Grant>) -> bool
    ensures { IsTrue result ↔ IsWithHand given.now hand.now grants.now }
{
    match (hand, grants) {
        (Some(hand), [front @ .., last]) => {
            same_grant(last, hand) && first_apart(front, given).is_none()
        }
        _ => false,
    }
}

/// Whether grants are those given and the one in hand, or where they first differ from those given.
pub(crate) fn compare(
    grants: &[Grant],
    given: &[Grant],
    hand: &Option<Grant>,
) -> Result<bool, usize>
    ensures with { result ≡ Ok true → IsWithHand given.now hand.now grants.now }
    ensures without { result ≡ Ok false → grants.now ≡ given.now }
    ensures apart { IfErr result (λ index. IsFirstApart index grants.now given.now) }
    ensures neither { OnErr result (IsWithHand given.now hand.now grants.now → ⊥) }
{
    let Some(index) = first_apart(grants, given) else {
        return Ok(false);
    };
    if is_with_hand(grants, given, hand) {
        return Ok(true);
    }
    Err(index)
}
