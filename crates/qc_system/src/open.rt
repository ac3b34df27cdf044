//! A system is made of what was mounted, and taken apart.
ghost use Rattle.std.specs.Prelude.{◌≡◌, ◌≤◌, ◌<◌, ◌+◌, [], is_some, length, vec_capacity};
ghost use Rattle.qc_event.specs.Base.{IsProper};
ghost use Rattle.qc_event.specs.Tables.{setting_of};
ghost use Rattle.qc_system.specs.Pairs.{pairs_in};
ghost use Rattle.qc_system.specs.Parts.{AreMounted, AreWaiting, HaveEntered, IsLedger, IsOpening, IsThere, AreBeside};

use crate::boxed::Boxed;
use crate::four::Four;
use crate::held::Held;
use crate::held_ledger::HeldLedger;
use crate::mounting::Mounting;
use crate::others::Others;
use crate::parts::{CopyPair, Parts};
use crate::system::System;
use qc_desk::{Desk, Pass};
use qc_disk::Disk;
use qc_pair::Fold;
use std::sync::{Mutex, Wait};

// A copy's site, where there are more copies than its number. What its pair may be folded into is put behind the others.
fn enter_at<D: Disk + Drop, N: Mounting, const C: u8, R: Wait>(
    rt: &R,
    desk: &Desk<N>,
    first: &mut Pass<N>,
    copies: &mut Vec<CopyPair<Boxed<D>>>,
    folds: &mut Vec<Fold<Boxed<D>>>,
) -> Option<Mutex<Held<D, N, C>>>
    requires low { C < 16 }
    requires first { IsOpening first.old (C + 1) }
    requires waiting { AreWaiting N.base N.found C copies.old.items }
    requires entered { HaveEntered N.base N.found C folds.old.items }
    requires room { length N.base + 1 ≤ vec_capacity folds.old }
    ensures first { IsOpening first.new (C + 2) }
    ensures waiting { AreWaiting N.base N.found (C + 1) copies.new.items }
    ensures entered { HaveEntered N.base N.found (C + 1) folds.new.items }
    ensures room { length N.base + 1 ≤ vec_capacity folds.new }
    ensures there { IsThere C (length N.base) (is_some result) }
{
    let pass = desk.split(rt, first);
    if copies.is_empty() {
        return None;
    }
    let pair = copies.remove(0);
    folds.push_reserved(pair.fold);
    Some(Mutex::new(Held::new(pair.copy, pass)))
}

// Four copies' sites, one behind another.
fn enter_four<
    D: Disk + Drop,
    N: Mounting,
    const C0: u8,
    const C1: u8,
    const C2: u8,
    const C3: u8,
    R: Wait,
>(
    rt: &R,
    desk: &Desk<N>,
    first: &mut Pass<N>,
    copies: &mut Vec<CopyPair<Boxed<D>>>,
    folds: &mut Vec<Fold<Boxed<D>>>,
) -> Four<D, N, C0, C1, C2, C3>
    requires next { (C1 ≡ C0 + 1) × (C2 ≡ C0 + 2) × (C3 ≡ C0 + 3) }
    requires low { C0 < 13 }
    requires first { IsOpening first.old (C0 + 1) }
    requires waiting { AreWaiting N.base N.found C0 copies.old.items }
    requires entered { HaveEntered N.base N.found C0 folds.old.items }
    requires room { length N.base + 1 ≤ vec_capacity folds.old }
    ensures first { IsOpening first.new (C0 + 5) }
    ensures waiting { AreWaiting N.base N.found (C0 + 4) copies.new.items }
    ensures entered { HaveEntered N.base N.found (C0 + 4) folds.new.items }
    ensures room { length N.base + 1 ≤ vec_capacity folds.new }
{
    let s0 = enter_at(rt, desk, first, copies, folds);
    let s1 = enter_at(rt, desk, first, copies, folds);
    let s2 = enter_at(rt, desk, first, copies, folds);
    let s3 = enter_at(rt, desk, first, copies, folds);
    Four { s0, s1, s2, s3 }
}

impl<D: Disk + Drop, N: Mounting> System<D, N> {
    /// A system of what was mounted, with a name, what stands beside it, and its first pass. It takes no memory.
    pub fn open<R: Wait>(rt: &R, parts: Parts<D>) -> (System<D, N>, Others<D>, Pass<N>)
        requires desk { parts.blank.room.shared.table_id ≡ N.desk }
        requires base { parts.blank.base ≡ N.base }
        requires proper { IsProper (setting_of N.table N.base) }
        requires none { (pairs_in parts.returns ≡ []) × (parts.folds.items ≡ []) }
        requires room { length N.base + 1 ≤ vec_capacity parts.folds }
        requires ledger { IsLedger (length N.base) N.found parts.ledger }
        requires many { length parts.copies.items ≡ length N.base }
        requires copies { AreMounted N.base N.found 0 parts.copies.items }
        ensures first { IsOpening result.2 17 }
        ensures others { AreBeside (length N.base) N.found result.1 }
        ensures epoch { result.0.desk.epoch ≡ parts.blank.epoch }
    {
        let Parts {
            blank,
            ledger,
            mut copies,
            mut folds,
            returns,
        } = parts;
        let all = copies.len() as u8;
        let (desk, mut first) = blank.name::<N>();
        let pass = desk.split(rt, &mut first);
        folds.push_reserved(ledger.fold);
        let ledger = Mutex::new(HeldLedger::new(ledger.book, pass));
        let from0 = enter_four(rt, &desk, &mut first, &mut copies, &mut folds);
        let from4 = enter_four(rt, &desk, &mut first, &mut copies, &mut folds);
        let from8 = enter_four(rt, &desk, &mut first, &mut copies, &mut folds);
        let from12 = enter_four(rt, &desk, &mut first, &mut copies, &mut folds);
        (
            System {
                desk,
                ledger,
                copies: all,
                from0,
                from4,
                from8,
                from12,
            },
            Others { folds, returns },
            first,
        )
    }
}
