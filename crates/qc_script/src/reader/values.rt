//! Values: numbers and texts.
#![tactic(auto, unfolding(crate::specs::JsonText::followed))]

ghost use Rattle.std.specs.Prelude.{◌≡◌, ◌≢◌, IfErr};
ghost use Rattle.serde_json.specs.View.{view};
ghost use Rattle.qc_script.specs.ScriptText as script;
ghost use Rattle.qc_script.specs.Reading.{Gives};

use crate::bad_script::{BadScript, Member};
use qc_event::Val;
use serde_json::Value;

/// Whether a value is a number in digits, or a text.
pub(crate) fn is_value(value: &Value) -> bool
    ensures { result ≡ script.is_value (view value.now) }
{
    value.as_u64().is_some() || value.as_str().is_some()
}

// A text that is a value.
fn text_of(value: &Value, word: Member, long: Member) -> Result<Val, BadScript>
    ensures exact { Gives (λ v. v) result (script.text_of word long (view value.now)) }
    ensures no_memory { IfErr result (λ e. e ≢ BadScript.Memory) }
{
    let text = value.as_str().ok_or(BadScript::Shape(word))?;
    match Val::text(text.as_bytes()) {
        Some(value) => Ok(value),
        None => Err(BadScript::Limit(long, text.len() as u64)),
    }
}

/// The value of a record: a number in digits, or a text that is not too long. The words are for another type, and for
/// a text that is longer.
pub(crate) fn value_of(value: &Value, word: Member, long: Member) -> Result<Val, BadScript>
    ensures exact { Gives (λ v. v) result (script.value_of word long (view value.now)) }
    ensures no_memory { IfErr result (λ e. e ≢ BadScript.Memory) }
{
    match value.as_u64() {
        Some(number) => Ok(Val::number(number)),
        None => text_of(value, word, long),
    }
}
