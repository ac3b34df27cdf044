//! Records: their names, start values and configurations.
#![tactic(auto, unfolding(crate::specs::JsonText::followed))]

ghost use Rattle.std.specs.Prelude.{◌≡◌, ◌≢◌, ◌≤◌, [], ◌∷◌, ◌++◌, map, length, vec_len, IfOk, IfErr};
ghost use Rattle.std.specs.Char.{is_ascii_alphanumeric};
ghost use Rattle.std.specs.List.{list_all};
ghost use Rattle.serde_json.specs.View.{view};
ghost use Rattle.qc_script.specs.JsonText as json;
ghost use Rattle.qc_script.specs.ScriptText as script;
ghost use Rattle.qc_script.specs.Reading.{Gives, texts_of};

use crate::bad_script::{BadScript, Member};
use crate::reader::object::{
    check_object, check_within, limited, list_at, member_at, number_at, text_at,
};
use crate::reader::values::value_of;
use indexmap::IndexSet;
use qc_event::{Config, Label, Row, Rows, Table};
use serde_json::Value;
use std::alloc::Global;

/// The records of a script, and their names, each at its record's number.
#[derive(Drop)]
pub(crate) struct Records<'v> {
    pub(crate) table: Table,
    names: IndexSet<&'v str>,
    ghost few_copies: { table.copies ≤ 16 },
    ghost few_records: { length table.records ≤ 64 },
    ghost named: { texts_of names.keys ≡ script.names_of table.records },
}

impl<'v> Records<'v> {
    /// The number of the record of a name.
    pub(crate) fn number_of(&self, alloc: Global, name: &str) -> Result<u8, BadScript>
        ensures { Gives (λ i. i) result (script.number_of self.now.table name.now) }
    {
        match self.names.get_index_of(name) {
            Some(i) => Ok(i as u8),
            None => Err(BadScript::Unknown(Label::new(alloc, name.as_bytes())?)),
        }
    }
}

fn is_plain(text: &str) -> bool
    ensures { result ≡ list_all is_ascii_alphanumeric text.now }
{
    text.as_bytes().iter().all(u8::is_ascii_alphanumeric)
}

/// Checks that a text has the form of a name: 1 to 16 ASCII letters and digits.
pub(crate) fn check_name(text: &str) -> Result<(), BadScript>
    ensures exact { Gives (λ _. tt) result (script.form_of_name text.now) }
    ensures no_memory { IfErr result (λ e. e ≢ BadScript.Memory) }
{
    if !is_plain(text) {
        return Err(BadScript::Shape(Member::Name));
    }
    check_within(Member::Name, 1, 16, text.len() as u64)
}

// A name that is none of the earlier names. It is one of the names from here on.
fn name_of<'v>(
    alloc: Global,
    names: &mut IndexSet<&'v str>,
    value: &'v Value,
) -> Result<Label, BadScript>
    ensures exact { Gives (λ l. l) result (script.name_of (texts_of names.old.keys)
        (view value.now)) }
    ensures added { IfOk result (λ l. texts_of names.new.keys ≡ texts_of names.old.keys ++ l ∷ []) }
{
    let name = text_at(value, "name", Member::Name)?;
    check_name(name)?;
    let label = Label::new(alloc, name.as_bytes())?;
    if !names.insert(name)? {
        return Err(BadScript::Twice(label));
    }
    Ok(label)
}

fn vote_of(value: &Value) -> Result<u8, BadScript>
    ensures exact { Gives (λ n. n) result (script.vote_of (view value.now)) }
    ensures no_memory { IfErr result (λ e. e ≢ BadScript.Memory) }
{
    let votes = limited(Member::Votes, 0, 255, value)?;
    Ok(votes as u8)
}

fn votes_of(alloc: Global, list: &[Value]) -> Result<Vec<u8>, BadScript>
    ensures exact { Gives (λ votes. votes.items) result
        (json.each script.vote_of (map view list.now)) }
    ensures counted { IfOk result (λ votes. vec_len votes ≡ length list.now) }
{
    let mut votes = Vec::new(alloc);
    for value in list {
        let vote = vote_of(value)?;
        votes.push(vote)?;
    }
    Ok(votes)
}

/// A configuration of records, for this number of copies.
pub(crate) fn config_of(alloc: Global, copies: u8, value: &Value) -> Result<Config, BadScript>
    requires { copies ≤ 16 }
    ensures { Gives (λ c. c) result (script.config_of copies (view value.now)) }
{
    check_object(value, Member::Config, &["votes", "read", "write"], &[])?;
    let list = list_at(value, "votes", Member::Votes)?;
    if list.len() != copies as usize {
        return Err(BadScript::Limit(Member::Votes, list.len() as u64));
    }
    let votes = votes_of(alloc, list)?;
    let read = number_at(value, "read", Member::Read)?;
    let write = number_at(value, "write", Member::Write)?;
    match Config::new(&votes, read, write) {
        Ok(config) => Ok(config),
        Err(fault) => Err(BadScript::Config(fault)),
    }
}

fn row_of<'v>(
    alloc: Global,
    copies: u8,
    names: &mut IndexSet<&'v str>,
    value: &'v Value,
) -> Result<Row, BadScript>
    requires { copies ≤ 16 }
    ensures exact { Gives (λ r. r) result (script.row_of copies (texts_of names.old.keys)
        (view value.now)) }
    ensures added { IfOk result (λ r. texts_of names.new.keys ≡ texts_of names.old.keys
        ++ r.name ∷ []) }
{
    check_object(value, Member::RecordRow, &["name", "start", "config"], &[])?;
    let name = name_of(alloc, names, value)?;
    let start = member_at(value, "start", Member::Start)?;
    let start = value_of(start, Member::Start, Member::Start)?;
    let config = member_at(value, "config", Member::Config)?;
    let config = config_of(alloc, copies, config)?;
    Ok(Row {
        name,
        start,
        config,
    })
}

/// The records of all the elements, in order.
pub(crate) fn rows_of<'v>(
    alloc: Global,
    copies: u8,
    list: &'v [Value],
) -> Result<Records<'v>, BadScript>
    requires copies { copies ≤ 16 }
    requires few { length list.now ≤ 64 }
    ensures exact { Gives (λ r. r.table.records) result
        (script.rows_of copies [] (map view list.now)) }
    ensures copies { IfOk result (λ r. r.table.copies ≡ copies) }
{
    let mut names = IndexSet::new(alloc);
    let mut rows = Vec::new(alloc);
    for value in list {
        let row = row_of(alloc, copies, &mut names, value)?;
        rows.push(row)?;
    }
    let records = Rows::new(rows);
    let table = Table { copies, records };
    Ok(Records { table, names })
}
