//! Scripts from JSON texts. Each function gives what the definition of its name says of the value, or
//! the want of memory.
#![tactic(auto, unfolding(crate::specs::JsonText::followed))]

ghost use Rattle.std.specs.Prelude.{◌≡◌, ◌≤◌, map, IfOk, IfErr};
ghost use Rattle.serde_json.specs.View.{view};
ghost use Rattle.qc_script.specs.ScriptText as script;
ghost use Rattle.qc_script.specs.Steps.{plan_of_session, plan_of_script};
ghost use Rattle.qc_script.specs.Reading.{Gives, IsScript, ScriptIsRefused, IsProper};

mod bodies;
mod object;
mod rows;
mod scope;
mod session;
mod steps;
mod values;

use crate::bad_script::{BadScript, Member};
use crate::script::{Script, Session};
use object::{check_object, check_within, list_at, number_at, number_or};
use rows::{Records, rows_of};
use scope::Scope;
use serde_json::Value;
use session::sessions_of;
use std::alloc::Global;

/// The most bytes of a script.
pub const MOST_BYTES: usize = 1_048_576;

fn copies_of(value: &Value) -> Result<u8, BadScript>
    ensures exact { Gives (λ n. n) result (script.copies_of (view value.now)) }
    ensures few { IfOk result (λ n. n ≤ 16) }
{
    let copies = number_at(value, "copies", Member::Copies)?;
    check_within(Member::Copies, 1, 16, copies)?;
    Ok(copies as u8)
}

fn records_of<'v>(alloc: Global, copies: u8, value: &'v Value) -> Result<Records<'v>, BadScript>
    requires { copies ≤ 16 }
    ensures { Gives (λ r. r.table) result (script.records_of copies (view value.now)) }
{
    let records = list_at(value, "records", Member::Records)?;
    check_within(Member::Records, 1, 64, records.len() as u64)?;
    rows_of(alloc, copies, records)
}

fn sessions_at(
    alloc: Global,
    records: &Records<'_>,
    value: &Value,
) -> Result<Vec<Session>, BadScript>
    ensures { Gives (λ sessions. map plan_of_session sessions.items) result
        (script.sessions_at records.now.table (view value.now)) }
{
    let sessions = list_at(value, "sessions", Member::Sessions)?;
    check_within(Member::Sessions, 1, 16, sessions.len() as u64)?;
    let scope = Scope {
        records,
        sessions: sessions.len() as u8,
    };
    sessions_of(alloc, &scope, sessions)
}

fn script_of(alloc: Global, value: &Value) -> Result<Script, BadScript>
    ensures { Gives plan_of_script result (script.script_of (view value.now)) }
{
    check_object(
        value,
        Member::Script,
        &["copies", "records", "sessions"],
        &["patience"],
    )?;
    let copies = copies_of(value)?;
    let patience = number_or(value, "patience", 4, Member::Patience, 1, 64)?;
    let records = records_of(alloc, copies, value)?;
    let sessions = sessions_at(alloc, &records, value)?;
    Ok(Script {
        table: records.table,
        patience: patience as u32,
        sessions,
    })
}

impl Script {
    /// Reads the script that the bytes spell in JSON. Bytes are one script at most. A refusal is the
    /// first that is met from outside in, and comes for no script but for want of memory.
    pub fn read(alloc: Global, bytes: &[u8]) -> Result<Script, BadScript>
        ensures found { IfOk result (λ s. IsScript bytes.now (plan_of_script s)) }
        ensures refused { IfErr result (λ e. ScriptIsRefused bytes.now e) }
        ensures proper { IfOk result (λ s. IsProper (plan_of_script s)) }
    {
        if bytes.len() > MOST_BYTES {
            return Err(BadScript::TooLong);
        }
        match Value::from_slice(alloc, bytes) {
            Ok(value) => script_of(alloc, &value),
            Err(fault) if fault.is_memory() => Err(BadScript::Memory),
            Err(_) => Err(BadScript::NotJson),
        }
    }
}
