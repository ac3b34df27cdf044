//! A step that runs bodies at once, each by a branch.
ghost use Rattle.std.specs.Prelude.{◌≡◌, ◌≤◌, ◌<◌, ◌+◌, ◌++◌, ◌⊎◌, [], Ok, None, List, length, map, vec_len, vec_capacity, slice_index_or, IfOk, IfErr, OnOk};
ghost use Rattle.std.specs.List.{AllByRecursion};
ghost use Rattle.qc_event.specs.declared.event.Cause.TheVariants as cause;
ghost use Rattle.qc_event.specs.Wants.{IsWant};
ghost use Rattle.qc_event.specs.Legal.{Legal};
ghost use Rattle.qc_event.specs.Standing.{Started, IsUser};
ghost use Rattle.qc_script.specs.Calls.{MeetsLink, Refuses, IsGrounded};
ghost use Rattle.qc_script.specs.Client.{HasJoined, Made};
ghost use Rattle.qc_script.specs.Plan.{Plan, Numbered, PlanFits, row_of};
ghost use Rattle.qc_script.specs.Steps.{numbered};
ghost use Rattle.qc_interp.specs.declared.body.branch.BranchCame.TheVariants as came;
ghost use Rattle.qc_interp.specs.AtOnce as at_once;
ghost use Rattle.qc_interp.specs.AtOnce.{StandingBranch, stands, HasBegun, NotBegun, BeganInTurn, BeganSome, InPairs, WasShown, MayRun, HasRun, AreOut, MergedInTurn, row_came, KnowsBehind, WentBehind, RefusedSo, IsFirst, TurnedOne, TurnedAll, TurnedSome};
ghost use Rattle.qc_interp.specs.Branches.{row_step};
ghost use Rattle.qc_interp.specs.Running.{Runs, CutOff, HasActed};

use crate::body::branch::{Branch, BranchCame, run_branch};
use crate::host::Host;
use crate::mode::Mode;
use crate::stops::{quit_for, stop};
use crate::wants::told_want;
use qc_event::{Cause, Name, Short};
use qc_script::{Body, Tx, TxNo};
use std::alloc::{AllocError, Global};
use std::thread::{Threads, for_each_mut};

// Begins the first try of a body by a branch of its own, and sees its start.
fn begin_one<'b, T: Tx + Drop>(tx: &mut T, of: &Name, body: &'b Body) -> Result<Branch<'b, T>, TxNo>
    requires legal { Legal (T.view tx.old).client.setting (T.view tx.old).seen }
    requires depth { length of.now < 16 }
    requires parent { Started (T.view tx.old).seen of.now (λ b. IsUser b.kind) }
    requires met { MeetsLink (T.view tx.old) }
    ensures met { MeetsLink (T.view tx.new) }
    ensures ok { IfOk result (λ b. HasBegun (T.view tx.old) (T.view tx.new) of.now
        (stands T.view b)) }
    ensures body { IfOk result (λ b. (numbered b.body.now ≡ numbered body.now) × (b.came ≡ None)) }
    ensures err { IfErr result (λ why. NotBegun (T.view tx.old) (T.view tx.new) of.now why) }
{
    let Ok(mut branch) = tx.branch(of) else {
        return Err(TxNo::Short(Short::Memory));
    };
    match branch.begin(of, body.number) {
        Ok(first) => {
            tx.show(&mut branch);
            Ok(Branch {
                tx: branch,
                body,
                first,
                came: None,
            })
        }
        Err(why) => {
            tx.merge(branch);
            Err(why)
        }
    }
}

// Begins the bodies in order. Each further branch has seen the starts of those before.
fn begin_all<'b, T: Tx + Drop>(
    tx: &mut T,
    of: &Name,
    bodies: &'b [Body],
    branches: &mut Vec<Branch<'b, T>>,
) -> Result<(), TxNo>
    requires none { branches.old.items ≡ [] }
    requires room { length bodies.now ≤ vec_capacity branches.old }
    requires legal { Legal (T.view tx.old).client.setting (T.view tx.old).seen }
    requires depth { length of.now < 16 }
    requires parent { Started (T.view tx.old).seen of.now (λ b. IsUser b.kind) }
    requires met { MeetsLink (T.view tx.old) }
    ensures met { MeetsLink (T.view tx.new) }
    ensures legal { Legal (T.view tx.new).client.setting (T.view tx.new).seen }
    ensures all_met { AllByRecursion (λ b. MeetsLink b.view)
        (map (stands T.view) branches.new.items) }
    ensures ok { OnOk result (BeganInTurn (T.view tx.old) of.now
        (map (stands T.view) branches.new.items) (T.view tx.new)) }
    ensures all { OnOk result (map (λ b. numbered b.body.now) branches.new.items
        ≡ map numbered bodies.now) }
    ensures err { IfErr result (λ why. BeganSome (T.view tx.old) of.now
        (map (stands T.view) branches.new.items) (T.view tx.new) why) }
    ensures first { IfErr result (λ _. (rest : List Numbered) × (0 < length rest)
        × (map numbered bodies.now ≡ map (λ b. numbered b.body.now) branches.new.items ++ rest)) }
{
    for body in bodies {
        branches.push_reserved(begin_one(tx, of, body)?);
    }
    Ok(())
}

// Each branch has then seen the starts of all.
fn show_all<T: Tx + Drop>(tx: &mut T, branches: &mut [Branch<'_, T>])
    requires legal { Legal (T.view tx.old).client.setting (T.view tx.old).seen }
    requires met { MeetsLink (T.view tx.old) }
    requires all_met { AllByRecursion (λ b. MeetsLink b.view)
        (map (stands T.view) branches.old) }
    ensures met { MeetsLink (T.view tx.new) }
    ensures client { (T.view tx.new).client ≡ (T.view tx.old).client }
    ensures made { Made (T.view tx.old).client [] (T.view tx.old).seen (T.view tx.new).seen }
    ensures none { branches.old ≡ [] → (T.view tx.new).seen ≡ (T.view tx.old).seen }
    ensures shown { InPairs (WasShown (T.view tx.old).seen) (map (stands T.view) branches.old)
        (map (stands T.view) branches.new) }
{
    for branch in branches.iter_mut() {
        tx.show(&mut branch.tx);
    }
}

// In how many threads branches run.
fn threads(mode: Mode, branches: usize) -> usize
    requires { 0 < branches }
    ensures { 0 < result }
{
    match mode {
        Mode::Serial => 1,
        Mode::Threads => branches,
    }
}

// Runs branches that were begun, at once or one after another.
#[cycle(run)]
fn run_all<T: Tx + Send + Drop, R: Threads + Sync>(
    host: &Host<'_, R>,
    of: &Name,
    branches: &mut [Branch<'_, T>],
)
    requires may { AllByRecursion (MayRun of.now) (map (stands T.view) branches.old) }
    ensures ran { InPairs HasRun (map (stands T.view) branches.old)
        (map (stands T.view) branches.new) }
{
    if branches.is_empty() {
        return;
    }
    let threads = threads(host.mode, branches.len());
    for_each_mut(
        host.rt,
        branches,
        threads,
        &|_place: usize, branch: &mut Branch<'_, T>|
            requires { MayRun of.now (stands T.view branch.now) }
            ensures { HasRun (stands T.view branch.entry.now) (stands T.view branch.exit.now) }
        { run_branch(host, of, branch) },
    );
}

// What branches came to, with one more: want of memory comes first, then want of room, then a
// refusal, then the first that must commit and failed.
fn came_behind(
    so_far: Result<BranchCame, Short>,
    must: bool,
    came: &Option<Result<BranchCame, Short>>,
) -> Result<BranchCame, Short>
    ensures { result ≡ at_once.came_behind so_far must came.now }
{
    match (&so_far, came) {
        (Err(one), Some(Err(other))) => Err(told_want(*one, *other)),
        (Ok(_), Some(Err(short))) => Err(*short),
        (Ok(BranchCame::Through), Some(Ok(BranchCame::Failed { last }))) if must => {
            Ok(BranchCame::Failed { last: *last })
        }
        (Ok(BranchCame::Through), Some(Ok(BranchCame::Refused { why }))) => {
            Ok(BranchCame::Refused { why: *why })
        }
        (Ok(BranchCame::Failed { .. }), Some(Ok(BranchCame::Refused { why }))) => {
            Ok(BranchCame::Refused { why: *why })
        }
        _ => so_far,
    }
}

// Merges the branches, in order, and tells what they came to together.
fn merge_all<T: Tx + Drop>(tx: &mut T, branches: Vec<Branch<'_, T>>) -> Result<BranchCame, Short>
    requires out { AreOut (T.view tx.old).client.out (T.view tx.old).client.net
        (map (stands T.view) branches.items) }
    requires met { MeetsLink (T.view tx.old) }
    ensures met { MeetsLink (T.view tx.new) }
    ensures merged { MergedInTurn (T.view tx.old) (map (stands T.view) branches.entry.items)
        (T.view tx.new) }
    ensures came { result ≡ row_came (Ok came.Through) (map (stands T.view) branches.entry.items) }
{
    let mut so_far = Ok(BranchCame::Through);
    for branch in branches {
        let came = branch.came;
        let must = branch.body.must;
        tx.merge(branch.tx);
        so_far = came_behind(so_far, must, &came);
    }
    so_far
}

/// A step that runs bodies at once. All of them begin, in order, before one of them runs, and all
/// are waited for.
#[cycle(run)]
pub(crate) fn par<T: Tx + Send + Drop, R: Threads + Sync>(
    tx: &mut T,
    host: &Host<'_, R>,
    of: &Name,
    bodies: &[Body],
) -> Result<Option<bool>, Short>
    requires runs { Runs (T.view tx.old).client of.now (T.view tx.old).seen }
    requires fits { PlanFits (T.view tx.old).client.setting (length of.now)
        (row_step (map numbered bodies.now) Plan.done) }
    requires met { MeetsLink (T.view tx.old) }
    ensures met { MeetsLink (T.view tx.new) }
    ensures joined { HasJoined (T.view tx.old).client (T.view tx.old).seen
        (T.view tx.new).client }
    ensures ok { IfOk result (HasActed (T.view tx.new).client of.now (T.view tx.old).seen
        (T.view tx.new).seen (row_step (map numbered bodies.now))) }
    ensures cut { IfErr result (λ _. (rest : Plan) → CutOff (T.view tx.new).client of.now
        (T.view tx.old).seen (T.view tx.new).seen (row_step (map numbered bodies.now) rest)) }
    ensures room { IfErr result (IsWant (T.view tx.new).seen) }
{
    let Ok(mut branches) = Vec::with_capacity(host.alloc, bodies.len()) else {
        return Err(Short::Memory);
    };
    let begun = begin_all(tx, of, bodies, &mut branches);
    show_all(tx, branches.as_mut_slice());
    match begun {
        Ok(()) => {
            run_all(host, of, branches.as_mut_slice());
            let came = merge_all(tx, branches)?;
            behind(tx, of, &came)
        }
        Err(why) => {
            let firsts = firsts_of(host.alloc, branches.as_slice());
            let _came = merge_all(tx, branches);
            let Ok(firsts) = firsts else {
                return Err(Short::Memory);
            };
            match why {
                TxNo::Short(short) => Err(short),
                _ => {
                    abort_all(tx, of, &why, firsts.as_slice())?;
                    behind(tx, of, &BranchCame::Refused { why })
                }
            }
        }
    }
}

// Behind branches that ran a transaction goes on, or is aborted for a child, or stops by a refusal.
fn behind<T: Tx>(tx: &mut T, of: &Name, came: &BranchCame) -> Result<Option<bool>, Short>
    requires runs { Runs (T.view tx.old).client of.now (T.view tx.old).seen }
    requires knows { KnowsBehind (T.view tx.old).client of.now (T.view tx.old).seen came.now }
    requires met { MeetsLink (T.view tx.old) }
    ensures met { MeetsLink (T.view tx.new) }
    ensures client { (T.view tx.new).client ≡ (T.view tx.old).client }
    ensures ok { IfOk result (WentBehind (T.view tx.old).client of.now (T.view tx.old).seen
        (T.view tx.new).seen came.now) }
    ensures cut { IfErr result (λ _. Made (T.view tx.old).client []
        (T.view tx.old).seen (T.view tx.new).seen) }
    ensures room { IfErr result (IsWant (T.view tx.new).seen) }
{
    match came {
        BranchCame::Through => Ok(None),
        BranchCame::Failed { last } => {
            let again = quit_for(tx, of, last)?;
            Ok(Some(again))
        }
        BranchCame::Refused { why } => {
            let again = stop(tx, of, why)?;
            Ok(Some(again))
        }
    }
}

// The first tries of branches, in order.
fn firsts_of<T: Tx>(alloc: Global, branches: &[Branch<'_, T>]) -> Result<Vec<Name>, AllocError>
    ensures { IfOk result (λ firsts. firsts.items ≡ map (λ b. b.first) branches.now) }
{
    let mut firsts = Vec::with_capacity(alloc, branches.len())?;
    for branch in branches {
        firsts.push_reserved(branch.first);
    }
    Ok(firsts)
}

// Aborts the first tries of branches, which did nothing, where another could not be begun: each as
// an orphan of the ancestor that is aborted.
fn abort_all<T: Tx>(tx: &mut T, of: &Name, why: &TxNo, firsts: &[Name]) -> Result<(), Short>
    requires nonroot { 0 < length of.now }
    requires legal { Legal (T.view tx.old).client.setting (T.view tx.old).seen }
    requires refused { RefusedSo (T.view tx.old).seen of.now why.now }
    requires firsts { AllByRecursion (IsFirst of.now (T.view tx.old).seen) firsts.now }
    requires met { MeetsLink (T.view tx.old) }
    ensures met { MeetsLink (T.view tx.new) }
    ensures client { (T.view tx.new).client ≡ (T.view tx.old).client }
    ensures ok { OnOk result (TurnedAll (T.view tx.old).client why.now firsts.now
        (T.view tx.old).seen (T.view tx.new).seen) }
    ensures cut { IfErr result (λ _. TurnedSome (T.view tx.old).client firsts.now
        (T.view tx.old).seen (T.view tx.new).seen) }
    ensures room { IfErr result (IsWant (T.view tx.new).seen) }
{
    let above = match why {
        TxNo::Orphan(ancestor) => *ancestor,
        TxNo::Ended => *of,
        _ => return Ok(()),
    };
    for first in firsts {
        abort_one(tx, first, above)?;
    }
    Ok(())
}

// Aborts a transaction as an orphan. That it has ended already is no error.
fn abort_one<T: Tx>(tx: &mut T, first: &Name, above: Name) -> Result<(), Short>
    requires user { Started (T.view tx.old).seen first.now (λ b. IsUser b.kind) }
    requires grounded { IsGrounded (T.view tx.old).seen first.now (cause.Orphan above) }
    requires met { MeetsLink (T.view tx.old) }
    ensures met { MeetsLink (T.view tx.new) }
    ensures client { (T.view tx.new).client ≡ (T.view tx.old).client }
    ensures ok { OnOk result (TurnedOne (T.view tx.old).client first.now above
        (T.view tx.old).seen (T.view tx.new).seen) }
    ensures cut { IfErr result (λ _. Made (T.view tx.old).client []
        (T.view tx.old).seen (T.view tx.new).seen) }
    ensures room { IfErr result (IsWant (T.view tx.new).seen) }
{
    match tx.abort(first, Cause::Orphan(above)) {
        Ok(()) => Ok(()),
        Err(TxNo::Short(short)) => Err(short),
        Err(_) => Ok(()),
    }
}
