//! A system is taken apart: its pairs are folded, its passes joined back, and its disks handed back.
ghost use Rattle.std.specs.Prelude.{◌≡◌, ◌≤◌, ◌<◌, ◌+◌, ◌⊎◌, [], true, false, is_some, length, reverse};
ghost use Rattle.qc_event.specs.Base.{IsProper};
ghost use Rattle.qc_event.specs.History.{Past, limit};
ghost use Rattle.qc_event.specs.Legal.{Legal};
ghost use Rattle.qc_event.specs.Tables.{setting_of};
ghost use Rattle.qc_desk.specs.Entries.{IsOlder};
ghost use Rattle.qc_desk.specs.Rules.{IsSettled};
ghost use Rattle.qc_journal.specs.Journal.{disk_of};
ghost use Rattle.qc_desk.specs.Calling.{SeesMore};
ghost use Rattle.qc_ledger.specs.Shelf.{journal_in};
ghost use Rattle.qc_pair.specs.Fold.{other_in, swapped_in};
ghost use Rattle.qc_site.specs.Log.{log_journal};
ghost use Rattle.qc_system.specs.Closing.{AllKeep, AllLeft, HaveLeft};
ghost use Rattle.qc_system.specs.Folds.{held_in, EndedSince, IsFolded, IsFree, IsLeftBy, OtherKeeps, WasFolded};
ghost use Rattle.qc_system.specs.Pairs.{pairs_in};
ghost use Rattle.qc_system.specs.Parts.{AreKeptBack, IsClosing, IsOther, IsThere, JoinsLow, AreBeside};

use crate::boxed::Boxed;
use crate::folding::Folding;
use crate::four::Four;
use crate::held::Held;
use crate::held_ledger::HeldLedger;
use crate::mounting::Mounting;
use crate::others::Others;
use crate::returns::Returns;
use crate::system::System;
use qc_desk::{Desk, Pass};
use qc_disk::Disk;
use qc_event::Base;
use qc_pair::Fold;
use qc_trail::Trail;
use std::sync::{Mutex, Wait};

// A copy's pair is folded, where pairs may be.
fn fold_at<D: Disk + Drop, N: Mounting, const C: u8, R: Wait>(
    rt: &R,
    desk: &Desk<N>,
    first: &mut Pass<N>,
    held: &mut Held<D, N, C>,
    fold: &mut Fold<Boxed<D>>,
    folding: &mut Folding<N>,
)
    requires inside { C < length N.base }
    requires proper { IsProper (setting_of N.table N.base) }
    requires other { IsOther (length N.base) N.found (C + 1) fold.old }
    ensures first { SeesMore first.old first.new }
    ensures since { folding.new.since ≡ folding.old.since }
    ensures swapped { swapped_in fold.new ≡ N.found.swapped (C + 1) }
    ensures left { IsLeftBy (setting_of N.table N.base) N.found first.old.seen (C + 1)
        (D.view (disk_of (other_in fold.new)).disk.value) held.new.site.replica.pass.seen }
    ensures folded { folding.new.whole ≡ true → (folding.old.whole ≡ true)
        × WasFolded (setting_of N.table N.base) N.found first.old.seen (C + 1)
        (D.view (disk_of (other_in fold.new)).disk.value) held.new.site.replica.pass.seen
        × IsFolded (setting_of N.table N.base) N.found (C + 1)
        (held_in (setting_of N.table N.base) N.found (C + 1) held.new.site.replica.pass.seen)
        (D.view (disk_of (other_in fold.new)).disk.value) }
    ensures wants { folding.new.wanting ≡ false → folding.old.wanting ≡ false }
    ensures free { folding.new.wanting ≡ false → EndedSince first.old.seen first.new.seen
        → length held.new.site.replica.pass.seen < limit → folding.old.whole ≡ true
        → (IsOlder first.old.seen held.new.site.replica.pass.seen
        → IsFree (setting_of N.table N.base) N.found (C + 1)
        (held_in (setting_of N.table N.base) N.found (C + 1) held.new.site.replica.pass.seen)
        (D.view (disk_of (log_journal held.new.site.log)).disk.value)
        (D.view (disk_of (other_in fold.new)).disk.value)) → folding.new.whole ≡ true }
{
    if folding.may {
        let outcome = held.fold(rt, desk, first, fold);
        folding.note(outcome);
    }
}

// The ledger's pair is, where each copy's was.
fn fold_last<D: Disk + Drop, N: Mounting, R: Wait>(
    rt: &R,
    desk: &Desk<N>,
    first: &mut Pass<N>,
    ledger: &HeldLedger<D, N>,
    fold: &mut Fold<Boxed<D>>,
    folding: &mut Folding<N>,
)
    requires other { IsOther (length N.base) N.found 0 fold.old }
    ensures first { SeesMore first.old first.new }
    ensures since { folding.new.since ≡ folding.old.since }
    ensures swapped { swapped_in fold.new ≡ N.found.swapped 0 }
    ensures left { (past : Past) → IsOlder first.new.seen past
        → OtherKeeps (setting_of N.table N.base) N.found 0
        (D.view (disk_of (other_in fold.new)).disk.value)
        ⊎ ((folding.old.whole ≡ true) × WasFolded (setting_of N.table N.base) N.found
        first.old.seen 0 (D.view (disk_of (other_in fold.new)).disk.value) past) }
    ensures folded { folding.new.whole ≡ true → (folding.old.whole ≡ true)
        × IsFolded (setting_of N.table N.base) N.found 0 []
        (D.view (disk_of (other_in fold.new)).disk.value) }
    ensures wants { folding.new.wanting ≡ false → folding.old.wanting ≡ false }
    ensures free { folding.new.wanting ≡ false → EndedSince first.old.seen first.new.seen
        → folding.old.whole ≡ true → IsFree (setting_of N.table N.base) N.found 0 []
        (D.view (disk_of (journal_in ledger.now.ledger.shelf)).disk.value)
        (D.view (disk_of (other_in fold.new)).disk.value) → folding.new.whole ≡ true }
{
    if folding.whole {
        let outcome = ledger.fold(rt, desk, first, fold);
        folding.note(outcome);
    }
}

// A site, where it is there, is folded, where pairs may be, and gives its pass and its disks back.
fn leave_at<D: Disk + Drop, N: Mounting, const C: u8, R: Wait>(
    rt: &R,
    desk: &Desk<N>,
    first: &mut Pass<N>,
    site: Option<Mutex<Held<D, N, C>>>,
    folds: &mut Vec<Fold<Boxed<D>>>,
    folding: &mut Folding<N>,
    returns: &mut Returns<D>,
)
    requires low { C < 16 }
    requires proper { IsProper (setting_of N.table N.base) }
    requires first { IsClosing first.old }
    requires since { IsOlder folding.old.since.seen first.old.seen }
    requires there { IsThere C (length N.base) (is_some site) }
    requires others { AreKeptBack (length N.base) N.found C folds.old.items }
    requires left { HaveLeft (setting_of N.table N.base) N.found D.view folding.old.since.seen C
        folding.old.whole folding.old.wanting (pairs_in returns.old) first.old }
    ensures first { IsClosing first.new }
    ensures seen { IsOlder first.old.seen first.new.seen }
    ensures low { JoinsLow first.old first.new }
    ensures others { AreKeptBack (length N.base) N.found (C + 1) folds.new.items }
    ensures since { folding.new.since ≡ folding.old.since }
    ensures later { IsOlder folding.new.since.seen first.new.seen }
    ensures left { HaveLeft (setting_of N.table N.base) N.found D.view folding.new.since.seen
        (C + 1) folding.new.whole folding.new.wanting (pairs_in returns.new) first.new }
{
    if let Some(lock) = site {
        let mut held = lock.into_inner();
        let mut fold = folds.remove(0);
        fold_at(rt, desk, first, &mut held, &mut fold, folding);
        let (disk, spare, pass) = held.leave(fold);
        desk.join(rt, first, pass);
        returns.put(disk, spare);
    }
}

// So do four copies' sites, one behind another.
fn leave_four<
    D: Disk + Drop,
    N: Mounting,
    const C0: u8,
    const C1: u8,
    const C2: u8,
    const C3: u8,
    R: Wait,
>(
    rt: &R,
    desk: &Desk<N>,
    first: &mut Pass<N>,
    four: Four<D, N, C0, C1, C2, C3>,
    folds: &mut Vec<Fold<Boxed<D>>>,
    folding: &mut Folding<N>,
    returns: &mut Returns<D>,
)
    requires next { (C1 ≡ C0 + 1) × (C2 ≡ C0 + 2) × (C3 ≡ C0 + 3) }
    requires low { C0 < 13 }
    requires proper { IsProper (setting_of N.table N.base) }
    requires first { IsClosing first.old }
    requires since { IsOlder folding.old.since.seen first.old.seen }
    requires others { AreKeptBack (length N.base) N.found C0 folds.old.items }
    requires left { HaveLeft (setting_of N.table N.base) N.found D.view folding.old.since.seen C0
        folding.old.whole folding.old.wanting (pairs_in returns.old) first.old }
    ensures first { IsClosing first.new }
    ensures seen { IsOlder first.old.seen first.new.seen }
    ensures low { JoinsLow first.old first.new }
    ensures others { AreKeptBack (length N.base) N.found (C0 + 4) folds.new.items }
    ensures since { folding.new.since ≡ folding.old.since }
    ensures later { IsOlder folding.new.since.seen first.new.seen }
    ensures left { HaveLeft (setting_of N.table N.base) N.found D.view folding.new.since.seen
        (C0 + 4) folding.new.whole folding.new.wanting (pairs_in returns.new) first.new }
{
    let Four { s0, s1, s2, s3 } = four;
    leave_at(rt, desk, first, s0, folds, folding, returns);
    leave_at(rt, desk, first, s1, folds, folding, returns);
    leave_at(rt, desk, first, s2, folds, folding, returns);
    leave_at(rt, desk, first, s3, folds, folding, returns);
}

// The ledger is folded, where each copy was, and gives its pass and its disks back.
fn leave_last<D: Disk + Drop, N: Mounting, R: Wait>(
    rt: &R,
    desk: &Desk<N>,
    first: &mut Pass<N>,
    ledger: HeldLedger<D, N>,
    mut fold: Fold<Boxed<D>>,
    folding: &mut Folding<N>,
    returns: &mut Returns<D>,
)
    requires few { length N.base ≤ 16 }
    requires first { IsClosing first.old }
    requires since { IsOlder folding.old.since.seen first.old.seen }
    requires knew { IsOlder ledger.ledger.pass.seen folding.old.since.seen }
    requires other { IsOther (length N.base) N.found 0 fold }
    requires left { HaveLeft (setting_of N.table N.base) N.found D.view folding.old.since.seen 16
        folding.old.whole folding.old.wanting (pairs_in returns.old) first.old }
    ensures first { IsClosing first.new }
    ensures seen { IsOlder first.old.seen first.new.seen }
    ensures low { JoinsLow first.old first.new }
    ensures since { folding.new.since ≡ folding.old.since }
    ensures left { AllLeft (setting_of N.table N.base) N.found D.view folding.new.since.seen
        folding.new.whole folding.new.wanting (pairs_in returns.new) first.new }
{
    fold_last(rt, desk, first, &ledger, &mut fold, folding);
    let (disk, spare, pass) = ledger.leave(fold);
    desk.join(rt, first, pass);
    returns.put_first(disk, spare);
}

impl<D: Disk + Drop, N: Mounting> System<D, N> {
    /// The start tuples, the history, the oldest entry first, and the disks, the ledger's first, and behind them the spares:
    /// what each active one keeps is what was found on it, and then what the history tells. Each entry of a client is the
    /// first pass's own, or that of one that was joined into it.
    ///
    /// Where each top has its end and the ledger is up, what each copy holds is folded into the other disk of its pair, one
    /// copy after another, and then, where each was, the ledger's pair. A pair whose fold was refused goes on as it is. The
    /// last value tells whether memory was wanting for one: where it is false, each was folded that nothing barred.
    pub fn finish<R: Wait>(
        self,
        rt: &R,
        first: Pass<N>,
        others: Others<D>,
    ) -> (Base, Trail, Vec<D>, bool)
        requires first { IsClosing first }
        requires others { AreBeside (length N.base) N.found others }
        ensures base { result.0 ≡ N.base }
        ensures legal { Legal (setting_of N.table N.base) (reverse result.1) }
        ensures bounded { length result.1 ≤ limit }
        ensures seen { IsOlder first.seen (reverse result.1) }
        ensures settled { IsSettled (reverse result.1) first }
        ensures disks { AllKeep (setting_of N.table N.base) N.found D.view (result.3 ≡ false)
            result.2.items (reverse result.1) }
    {
        let System {
            desk,
            ledger,
            from0,
            from4,
            from8,
            from12,
            ..
        } = self;
        let Others {
            mut folds,
            mut returns,
        } = others;
        let mut first = first;
        let mut ledger = ledger.into_inner();
        let fold = folds.remove(0);
        let mut folding = ledger.begin(rt, &desk, &mut first);
        leave_four(
            rt,
            &desk,
            &mut first,
            from0,
            &mut folds,
            &mut folding,
            &mut returns,
        );
        leave_four(
            rt,
            &desk,
            &mut first,
            from4,
            &mut folds,
            &mut folding,
            &mut returns,
        );
        leave_four(
            rt,
            &desk,
            &mut first,
            from8,
            &mut folds,
            &mut folding,
            &mut returns,
        );
        leave_four(
            rt,
            &desk,
            &mut first,
            from12,
            &mut folds,
            &mut folding,
            &mut returns,
        );
        leave_last(
            rt,
            &desk,
            &mut first,
            ledger,
            fold,
            &mut folding,
            &mut returns,
        );
        let (base, entries) = desk.close(first);
        (base, entries, returns.into_disks(), folding.wanting)
    }
}
