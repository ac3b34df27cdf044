//! Members of JSON objects, and checks on them.
ghost use Rattle.std.specs.Prelude.{◌≡◌, ◌≢◌, ◌≤◌, map, IfOk, IfErr, OnOk};
ghost use Rattle.serde_json.specs.View.{view, members_view};
ghost use Rattle.qc_script.specs.JsonText as json;
ghost use Rattle.qc_script.specs.Reading.{Gives};

use crate::bad_script::{BadScript, Member};
use serde_json::{Map, Value};

// Whether a name is one of these.
fn is_among(names: &[&str], name: &str) -> bool
    ensures { result ≡ json.among (map (λ n. n.now) names.now) name.now }
{
    names.contains(&name)
}

// Whether the members of an object are among the needed and the others.
fn has_only(members: &Map<String, Value>, needed: &[&str], others: &[&str]) -> bool
    ensures { result ≡ json.has_only (map (λ n. n.now) needed.now) (map (λ n. n.now) others.now)
        (members_view members.now.entries) }
{
    for (name, _) in members.iter() {
        if !is_among(needed, name.as_str()) && !is_among(others, name.as_str()) {
            return false;
        }
    }
    true
}

// Whether an object has a member of each name.
fn has_all(object: &Value, names: &[&str]) -> bool
    ensures { result ≡ json.has_all (map (λ n. n.now) names.now) (view object.now) }
{
    names.iter().all(|name| object.get(*name).is_some())
}

/// Checks that a value is an object with the needed members, and with no members but those and the others.
pub(crate) fn check_object(
    value: &Value,
    word: Member,
    needed: &[&str],
    others: &[&str],
) -> Result<(), BadScript>
    ensures exact { Gives (λ _. tt) result
        (json.object_of word (map (λ n. n.now) needed.now) (map (λ n. n.now) others.now)
        (view value.now)) }
    ensures no_memory { IfErr result (λ e. e ≢ BadScript.Memory) }
{
    let Some(members) = value.as_object() else {
        return Err(BadScript::Shape(word));
    };
    if !has_only(members, needed, others) || !has_all(value, needed) {
        return Err(BadScript::Shape(word));
    }
    Ok(())
}

/// A member of an object.
pub(crate) fn member_at<'v>(
    object: &'v Value,
    name: &str,
    word: Member,
) -> Result<&'v Value, BadScript>
    ensures exact { Gives (λ v. view v.now) result
        (json.member_at name.now word (view object.now)) }
    ensures no_memory { IfErr result (λ e. e ≢ BadScript.Memory) }
{
    object.get(name).ok_or(BadScript::Shape(word))
}

/// A member that is a number, written in digits alone.
pub(crate) fn number_at(object: &Value, name: &str, word: Member) -> Result<u64, BadScript>
    ensures exact { Gives (λ n. n) result (json.number_at name.now word (view object.now)) }
    ensures no_memory { IfErr result (λ e. e ≢ BadScript.Memory) }
{
    object
        .get(name)
        .and_then(Value::as_u64)
        .ok_or(BadScript::Shape(word))
}

/// A member that is a text.
pub(crate) fn text_at<'v>(object: &'v Value, name: &str, word: Member) -> Result<&'v str, BadScript>
    ensures exact { Gives (λ t. t.now) result (json.text_at name.now word (view object.now)) }
    ensures no_memory { IfErr result (λ e. e ≢ BadScript.Memory) }
{
    object
        .get(name)
        .and_then(Value::as_str)
        .ok_or(BadScript::Shape(word))
}

/// A member that is an array.
pub(crate) fn list_at<'v>(
    object: &'v Value,
    name: &str,
    word: Member,
) -> Result<&'v [Value], BadScript>
    ensures exact { Gives (λ vs. map view vs.now) result
        (json.list_at name.now word (view object.now)) }
    ensures no_memory { IfErr result (λ e. e ≢ BadScript.Memory) }
{
    match object.get(name).and_then(Value::as_array) {
        Some(list) => Ok(list.as_slice()),
        None => Err(BadScript::Shape(word)),
    }
}

/// Checks a number, or a length, against its limits.
pub(crate) fn check_within(word: Member, low: u64, high: u64, number: u64) -> Result<(), BadScript>
    ensures exact { Gives (λ _. tt) result (json.within word low high number) }
    ensures inside { OnOk result ((low ≤ number) × (number ≤ high)) }
    ensures no_memory { IfErr result (λ e. e ≢ BadScript.Memory) }
{
    if number < low || number > high {
        return Err(BadScript::Limit(word, number));
    }
    Ok(())
}

/// A number within its limits, written in digits alone.
pub(crate) fn limited(word: Member, low: u64, high: u64, value: &Value) -> Result<u64, BadScript>
    ensures exact { Gives (λ n. n) result (json.limited word low high (view value.now)) }
    ensures inside { IfOk result (λ n. (low ≤ n) × (n ≤ high)) }
    ensures no_memory { IfErr result (λ e. e ≢ BadScript.Memory) }
{
    let number = value.as_u64().ok_or(BadScript::Shape(word))?;
    check_within(word, low, high, number)?;
    Ok(number)
}

/// A member that is a number within its limits. Where the object has no such member it is the default.
pub(crate) fn number_or(
    object: &Value,
    name: &str,
    default: u64,
    word: Member,
    low: u64,
    high: u64,
) -> Result<u64, BadScript>
    requires { default ≤ high }
    ensures exact { Gives (λ n. n) result
        (json.member_or name.now default (json.limited word low high) (view object.now)) }
    ensures inside { IfOk result (λ n. n ≤ high) }
    ensures no_memory { IfErr result (λ e. e ≢ BadScript.Memory) }
{
    match object.get(name) {
        Some(value) => limited(word, low, high, value),
        None => Ok(default),
    }
}
