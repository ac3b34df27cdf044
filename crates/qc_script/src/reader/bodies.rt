//! Bodies, their steps, and lists of bodies: the tops of a session, and the branches of a step.
#![tactic(auto, unfolding(crate::specs::JsonText::followed))]

ghost use Rattle.std.specs.Prelude.{◌≡◌, ◌≢◌, ◌-◌, ◌*◌, ◌≤◌, map, IfOk, IfErr};
ghost use Rattle.serde_json.specs.View.{view};
ghost use Rattle.qc_script.specs.ScriptText as script;
ghost use Rattle.qc_script.specs.Steps.{put, plan_of, numbered};
ghost use Rattle.qc_script.specs.Reading.{Gives};

use crate::bad_script::{BadScript, Member};
use crate::reader::object::{check_object, check_within, list_at, number_or};
use crate::reader::scope::Scope;
use crate::reader::steps::{abort_of, crash_of, is_word, kill_of, read_of, three_of};
use crate::script::{Body, Step};
use serde_json::Value;
use std::alloc::Global;

// The elements of a step, or of a part of one, that is a list.
fn list_of(value: &Value) -> Result<&[Value], BadScript>
    ensures exact { Gives (λ vs. map view vs.now) result (script.list_in_step (view value.now)) }
    ensures no_memory { IfErr result (λ e. e ≢ BadScript.Memory) }
{
    match value.as_array() {
        Some(list) => Ok(list.as_slice()),
        None => Err(BadScript::Shape(Member::Step)),
    }
}

// The elements of a list of 1 to 8 branches.
fn branches_of(value: &Value) -> Result<&[Value], BadScript>
    ensures exact { Gives (λ vs. map view vs.now) result (script.branches_of (view value.now)) }
    ensures no_memory { IfErr result (λ e. e ≢ BadScript.Memory) }
{
    let list = list_of(value)?;
    check_within(Member::Branches, 1, 8, list.len() as u64)?;
    Ok(list)
}

#[cycle(bodies)]
fn child_of(
    alloc: Global,
    below: u8,
    around: u32,
    scope: &Scope<'_, '_>,
    next: &mut u32,
    body: &Value,
) -> Result<Step, BadScript>
    requires bounded { below ≤ 16 }
    requires tried { around ≤ 256 }
    ensures { Gives (λ s. (put s, next.new)) result
        (script.child_of (script.body_of below around scope.now) next.old (view body.now)) }
{
    if body.as_object().is_none() {
        return Err(BadScript::Shape(Member::Step));
    }
    let body = body_of(alloc, below, around, scope, next, body)?;
    Ok(Step::Child(body))
}

#[cycle(bodies)]
fn par_of(
    alloc: Global,
    below: u8,
    around: u32,
    scope: &Scope<'_, '_>,
    next: &mut u32,
    list: &Value,
) -> Result<Step, BadScript>
    requires bounded { below ≤ 16 }
    requires tried { around ≤ 256 }
    ensures { Gives (λ s. (put s, next.new)) result
        (script.par_of (script.body_of below around scope.now) next.old (view list.now)) }
{
    let branches = branches_of(list)?;
    let bodies = bodies_in(alloc, below, around, scope, next, branches)?;
    Ok(Step::Par(bodies))
}

#[cycle(bodies)]
fn two_of(
    alloc: Global,
    below: u8,
    around: u32,
    scope: &Scope<'_, '_>,
    next: &mut u32,
    word: &Value,
    part: &Value,
) -> Result<Step, BadScript>
    requires bounded { below ≤ 16 }
    requires tried { around ≤ 256 }
    ensures { Gives (λ s. (put s, next.new)) result
        (script.two_of (script.body_of below around scope.now) (16 - below) scope.now
        next.old (view word.now) (view part.now)) }
{
    if is_word(word, "read") {
        read_of(alloc, scope.records, part)
    } else if is_word(word, "child") {
        child_of(alloc, below, around, scope, next, part)
    } else if is_word(word, "par") {
        par_of(alloc, below, around, scope, next, part)
    } else if is_word(word, "abort") {
        abort_of(16 - below, part)
    } else if is_word(word, "crash") {
        crash_of(scope.records.table.copies, part)
    } else if is_word(word, "kill") {
        kill_of(scope.sessions, part)
    } else {
        Err(BadScript::Shape(Member::Step))
    }
}

#[cycle(bodies)]
fn step_in(
    alloc: Global,
    below: u8,
    around: u32,
    scope: &Scope<'_, '_>,
    next: &mut u32,
    parts: &[Value],
) -> Result<Step, BadScript>
    requires bounded { below ≤ 16 }
    requires tried { around ≤ 256 }
    ensures { Gives (λ s. (put s, next.new)) result
        (script.step_in (script.body_of below around scope.now) (16 - below) scope.now
        next.old (map view parts.now)) }
{
    match parts {
        [word, part] => two_of(alloc, below, around, scope, next, word, part),
        [word, rec, value] => three_of(alloc, scope.records, word, rec, value),
        _ => Err(BadScript::Shape(Member::Step)),
    }
}

// A step of a body that may have this number of levels of bodies below it.
#[cycle(bodies)]
fn step_of(
    alloc: Global,
    below: u8,
    around: u32,
    scope: &Scope<'_, '_>,
    next: &mut u32,
    value: &Value,
) -> Result<Step, BadScript>
    requires bounded { below ≤ 16 }
    requires tried { around ≤ 256 }
    ensures { Gives (λ s. (put s, next.new)) result
        (script.step_of (script.body_of below around scope.now) (16 - below) scope.now
        next.old (view value.now)) }
{
    let parts = list_of(value)?;
    step_in(alloc, below, around, scope, next, parts)
}

#[cycle(bodies)]
fn steps_of(
    alloc: Global,
    below: u8,
    around: u32,
    scope: &Scope<'_, '_>,
    next: &mut u32,
    list: &[Value],
) -> Result<Vec<Step>, BadScript>
    requires bounded { below ≤ 16 }
    requires tried { around ≤ 256 }
    ensures { Gives (λ steps. (plan_of steps.items, next.new)) result
        (script.steps_of (script.body_of below around scope.now) (16 - below) scope.now
        next.old (map view list.now)) }
{
    let mut steps = Vec::new(alloc);
    for value in list {
        let step = step_of(alloc, below, around, scope, next, value)?;
        steps.push(step)?;
    }
    Ok(steps)
}

// How often a body is tried at most, where the tries of the bodies around it have this product.
fn tries_of(around: u32, value: &Value) -> Result<u32, BadScript>
    requires { around ≤ 256 }
    ensures exact { Gives (λ n. n) result (script.tries_of around (view value.now)) }
    ensures few { IfOk result (λ n. around * n ≤ 256) }
    ensures no_memory { IfErr result (λ e. e ≢ BadScript.Memory) }
{
    let tries = number_or(value, "tries", 1, Member::Tries, 1, 16)? as u32;
    check_within(Member::Tries, 0, 256, (around * tries) as u64)?;
    Ok(tries)
}

// Whether a body must commit as a child. Where it does not say so, it need not.
fn must_of(value: &Value) -> Result<bool, BadScript>
    ensures exact { Gives (λ b. b) result (script.must_of (view value.now)) }
    ensures no_memory { IfErr result (λ e. e ≢ BadScript.Memory) }
{
    match value.get("must") {
        Some(must) => must.as_bool().ok_or(BadScript::Shape(Member::Must)),
        None => Ok(false),
    }
}

// A body that may have this number of levels of bodies, itself among them, where the tries of the bodies around it
// have this product.
#[cycle(bodies)]
fn body_of(
    alloc: Global,
    levels: u8,
    around: u32,
    scope: &Scope<'_, '_>,
    next: &mut u32,
    value: &Value,
) -> Result<Body, BadScript>
    requires bounded { levels ≤ 16 }
    requires tried { around ≤ 256 }
    ensures { Gives (λ b. (numbered b, next.new)) result
        (script.body_of levels around scope.now next.old (view value.now)) }
{
    check_object(value, Member::Body, &["steps"], &["tries", "must"])?;
    if levels == 0 {
        return Err(BadScript::Limit(Member::Body, 17));
    }
    let tries = tries_of(around, value)?;
    let must = must_of(value)?;
    let list = list_at(value, "steps", Member::Steps)?;
    let number = *next;
    *next = number.checked_add(1).ok_or(BadScript::Memory)?;
    let steps = steps_of(alloc, levels - 1, around * tries, scope, next, list)?;
    Ok(Body {
        number,
        tries,
        must,
        steps,
    })
}

/// The bodies of a list, in order, each of which may have this number of levels of bodies, itself among
/// them, where the tries of the bodies around it have this product.
#[cycle(bodies)]
pub(crate) fn bodies_in(
    alloc: Global,
    levels: u8,
    around: u32,
    scope: &Scope<'_, '_>,
    next: &mut u32,
    list: &[Value],
) -> Result<Vec<Body>, BadScript>
    requires bounded { levels ≤ 16 }
    requires tried { around ≤ 256 }
    ensures { Gives (λ bodies. (map numbered bodies.items, next.new)) result
        (script.each_counted (script.body_of levels around scope.now) next.old
        (map view list.now)) }
{
    let mut bodies = Vec::new(alloc);
    for value in list {
        let body = body_of(alloc, levels, around, scope, next, value)?;
        bodies.push(body)?;
    }
    Ok(bodies)
}
