//! Words of steps, and the steps that run no bodies.
#![tactic(auto, unfolding(crate::specs::JsonText::followed))]

ghost use Rattle.std.specs.Prelude.{◌≡◌, ◌≢◌, ℕ, IfErr};
ghost use Rattle.serde_json.specs.View.{view};
ghost use Rattle.qc_script.specs.ScriptText as script;
ghost use Rattle.qc_script.specs.Steps.{put};
ghost use Rattle.qc_script.specs.Reading.{Gives};

use crate::bad_script::{BadScript, Member};
use crate::reader::rows::{Records, check_name, config_of};
use crate::reader::values::{is_value, value_of};
use crate::script::Step;
use qc_config::OwnVal;
use serde_json::Value;
use std::alloc::Global;

/// Whether a value is this word.
pub(crate) fn is_word(value: &Value, word: &str) -> bool
    ensures { result ≡ script.is_word word.now (view value.now) }
{
    match value.as_str() {
        Some(text) => text == word,
        None => false,
    }
}

fn step_name(value: &Value) -> Result<&str, BadScript>
    ensures exact { Gives (λ t. t.now) result (script.step_name (view value.now)) }
    ensures no_memory { IfErr result (λ e. e ≢ BadScript.Memory) }
{
    let Some(name) = value.as_str() else {
        return Err(BadScript::Shape(Member::Step));
    };
    match check_name(name) {
        Ok(()) => Ok(name),
        Err(_) => Err(BadScript::Shape(Member::Step)),
    }
}

/// `["read", R]`
pub(crate) fn read_of(alloc: Global, records: &Records<'_>, rec: &Value) -> Result<Step, BadScript>
    ensures { (next : ℕ) → Gives (λ s. (put s, next)) result
        (script.read_of records.now.table next (view rec.now)) }
{
    let name = step_name(rec)?;
    let rec = records.number_of(alloc, name)?;
    Ok(Step::Read { rec })
}

// The number of a record, and a number.
fn amount_of(
    alloc: Global,
    records: &Records<'_>,
    rec: &Value,
    value: &Value,
) -> Result<(u8, u64), BadScript>
    ensures { Gives (λ a. (a.0, a.1)) result
        (script.amount_of records.now.table (view rec.now) (view value.now)) }
{
    let name = step_name(rec)?;
    let value = value.as_u64().ok_or(BadScript::Shape(Member::Step))?;
    let rec = records.number_of(alloc, name)?;
    Ok((rec, value))
}

fn set_of(
    alloc: Global,
    records: &Records<'_>,
    rec: &Value,
    value: &Value,
) -> Result<Step, BadScript>
    ensures { (next : ℕ) → Gives (λ s. (put s, next)) result
        (script.set_of records.now.table next (view rec.now) (view value.now)) }
{
    let name = step_name(rec)?;
    if !is_value(value) {
        return Err(BadScript::Shape(Member::Step));
    }
    let rec = records.number_of(alloc, name)?;
    let value = value_of(value, Member::Step, Member::Value)?;
    Ok(Step::Set {
        rec,
        value: OwnVal::of(alloc, &value)?,
    })
}

fn add_of(
    alloc: Global,
    records: &Records<'_>,
    rec: &Value,
    value: &Value,
) -> Result<Step, BadScript>
    ensures { (next : ℕ) → Gives (λ s. (put s, next)) result
        (script.add_of records.now.table next (view rec.now) (view value.now)) }
{
    let (rec, value) = amount_of(alloc, records, rec, value)?;
    Ok(Step::Add { rec, value })
}

fn sub_of(
    alloc: Global,
    records: &Records<'_>,
    rec: &Value,
    value: &Value,
) -> Result<Step, BadScript>
    ensures { (next : ℕ) → Gives (λ s. (put s, next)) result
        (script.sub_of records.now.table next (view rec.now) (view value.now)) }
{
    let (rec, value) = amount_of(alloc, records, rec, value)?;
    Ok(Step::Sub { rec, value })
}

fn need_of(
    alloc: Global,
    records: &Records<'_>,
    rec: &Value,
    value: &Value,
) -> Result<Step, BadScript>
    ensures { (next : ℕ) → Gives (λ s. (put s, next)) result
        (script.need_of records.now.table next (view rec.now) (view value.now)) }
{
    let (rec, value) = amount_of(alloc, records, rec, value)?;
    Ok(Step::Need { rec, value })
}

fn reconf_of(
    alloc: Global,
    records: &Records<'_>,
    rec: &Value,
    config: &Value,
) -> Result<Step, BadScript>
    ensures { (next : ℕ) → Gives (λ s. (put s, next)) result
        (script.reconf_of records.now.table next (view rec.now) (view config.now)) }
{
    let name = step_name(rec)?;
    if config.as_object().is_none() {
        return Err(BadScript::Shape(Member::Step));
    }
    let rec = records.number_of(alloc, name)?;
    let config = config_of(alloc, records.table.copies, config)?;
    Ok(Step::Reconf { rec, config })
}

/// A step of three elements.
pub(crate) fn three_of(
    alloc: Global,
    records: &Records<'_>,
    word: &Value,
    rec: &Value,
    value: &Value,
) -> Result<Step, BadScript>
    ensures { (next : ℕ) → Gives (λ s. (put s, next)) result
        (script.three_of records.now.table next (view word.now) (view rec.now) (view value.now)) }
{
    if is_word(word, "set") {
        set_of(alloc, records, rec, value)
    } else if is_word(word, "add") {
        add_of(alloc, records, rec, value)
    } else if is_word(word, "sub") {
        sub_of(alloc, records, rec, value)
    } else if is_word(word, "need") {
        need_of(alloc, records, rec, value)
    } else if is_word(word, "reconf") {
        reconf_of(alloc, records, rec, value)
    } else {
        Err(BadScript::Shape(Member::Step))
    }
}

/// `["abort", k]`, in a body of this depth.
pub(crate) fn abort_of(depth: u8, levels: &Value) -> Result<Step, BadScript>
    ensures { (next : ℕ)
        → Gives (λ s. (put s, next)) result (script.abort_of depth next (view levels.now)) }
{
    let levels = levels.as_u64().ok_or(BadScript::Shape(Member::Step))?;
    if levels >= depth as u64 {
        return Err(BadScript::Limit(Member::Levels, levels));
    }
    Ok(Step::Abort {
        levels: levels as u8,
    })
}

/// `["crash", c]`, at so many copies.
pub(crate) fn crash_of(copies: u8, copy: &Value) -> Result<Step, BadScript>
    ensures { (next : ℕ)
        → Gives (λ s. (put s, next)) result (script.crash_of copies next (view copy.now)) }
{
    let copy = copy.as_u64().ok_or(BadScript::Shape(Member::Step))?;
    if copy >= copies as u64 {
        return Err(BadScript::Limit(Member::Copy, copy));
    }
    Ok(Step::Crash { copy: copy as u8 })
}

/// `["kill", s]`, of so many sessions.
pub(crate) fn kill_of(sessions: u8, session: &Value) -> Result<Step, BadScript>
    ensures { (next : ℕ)
        → Gives (λ s. (put s, next)) result (script.kill_of sessions next (view session.now)) }
{
    let session = session.as_u64().ok_or(BadScript::Shape(Member::Step))?;
    if session >= sessions as u64 {
        return Err(BadScript::Limit(Member::Session, session));
    }
    Ok(Step::Kill {
        session: session as u8,
    })
}
