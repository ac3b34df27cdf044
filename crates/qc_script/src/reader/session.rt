//! Sessions: their nets and their tops.
#![tactic(auto, unfolding(crate::specs::JsonText::followed))]

ghost use Rattle.std.specs.Prelude.{◌≡◌, ◌≢◌, ◌≤◌, [], map, length, vec_len, codes, IfOk, IfErr};
ghost use Rattle.serde_json.specs.View.{view};
ghost use Rattle.qc_script.specs.JsonText as json;
ghost use Rattle.qc_script.specs.ScriptText as script;
ghost use Rattle.qc_script.specs.Steps.{plan_of_session};
ghost use Rattle.qc_script.specs.Reading.{Gives};

use crate::bad_script::{BadScript, Member};
use crate::reader::bodies::bodies_in;
use crate::reader::object::{check_object, check_within, list_at, number_or};
use crate::reader::scope::Scope;
use crate::script::Session;
use qc_net::Fate;
use serde_json::Value;
use std::alloc::Global;

// The fates of requests, and after how many due steps a held one is delivered.
#[derive(Drop)]
struct Net {
    fates: Vec<Fate>,
    hold: u64,
}

fn fate_of(letter: u8) -> Result<Fate, BadScript>
    ensures exact { Gives (λ f. f) result (script.fate_of letter) }
    ensures no_memory { IfErr result (λ e. e ≢ BadScript.Memory) }
{
    match letter {
        b'd' => Ok(Fate::Deliver),
        b'a' => Ok(Fate::LoseAsk),
        b'r' => Ok(Fate::LoseReply),
        b'h' => Ok(Fate::Hold),
        b't' => Ok(Fate::Twice),
        _ => Err(BadScript::Shape(Member::Fates)),
    }
}

fn letters_of(alloc: Global, text: &str) -> Result<Vec<Fate>, BadScript>
    ensures { Gives (λ fates. fates.items) result (json.each script.fate_of text.now) }
{
    let mut fates = Vec::new(alloc);
    for letter in text.as_bytes() {
        let fate = fate_of(*letter)?;
        fates.push(fate)?;
    }
    Ok(fates)
}

fn fates_of(alloc: Global, value: &Value) -> Result<Vec<Fate>, BadScript>
    ensures { Gives (λ fates. fates.items) result (script.fates_of (view value.now)) }
{
    let text = value.as_str().ok_or(BadScript::Shape(Member::Fates))?;
    let fates = letters_of(alloc, text)?;
    check_within(Member::Fates, 0, 64, text.len() as u64)?;
    Ok(fates)
}

fn fates_at(alloc: Global, net: &Value) -> Result<Vec<Fate>, BadScript>
    ensures { Gives (λ fates. fates.items) result
        (json.member_or (codes "fates") [] script.fates_of (view net.now)) }
{
    match net.get("fates") {
        Some(text) => fates_of(alloc, text),
        None => Ok(Vec::new(alloc)),
    }
}

fn net_of(alloc: Global, value: &Value) -> Result<Net, BadScript>
    ensures { Gives (λ net. (net.fates.items, net.hold)) result (script.net_of (view value.now)) }
{
    check_object(value, Member::Net, &[], &["fates", "hold"])?;
    let fates = fates_at(alloc, value)?;
    let hold = number_or(value, "hold", 1, Member::Hold, 1, 64)?;
    Ok(Net { fates, hold })
}

fn net_at(alloc: Global, session: &Value) -> Result<Net, BadScript>
    ensures { Gives (λ net. (net.fates.items, net.hold)) result
        (json.member_or (codes "net") ([], 1) script.net_of (view session.now)) }
{
    match session.get("net") {
        Some(net) => net_of(alloc, net),
        None => Ok(Net {
            fates: Vec::new(alloc),
            hold: 1,
        }),
    }
}

fn session_of(
    alloc: Global,
    scope: &Scope<'_, '_>,
    next: &mut u32,
    value: &Value,
) -> Result<Session, BadScript>
    ensures { Gives (λ s. (plan_of_session s, next.new)) result
        (script.session_of scope.now next.old (view value.now)) }
{
    check_object(value, Member::Session, &["tops"], &["net"])?;
    let Net { fates, hold } = net_at(alloc, value)?;
    let list = list_at(value, "tops", Member::Tops)?;
    let tops = bodies_in(alloc, 16, 1, scope, next, list)?;
    Ok(Session { fates, hold, tops })
}

/// The sessions of this scope, in order. Bodies are numbered from 0 on through all of them.
pub(crate) fn sessions_of(
    alloc: Global,
    scope: &Scope<'_, '_>,
    list: &[Value],
) -> Result<Vec<Session>, BadScript>
    ensures { Gives (λ sessions. map plan_of_session sessions.items) result
        (script.sessions_of scope.now (map view list.now)) }
{
    let mut next = 0;
    let mut sessions = Vec::new(alloc);
    for value in list {
        let session = session_of(alloc, scope, &mut next, value)?;
        sessions.push(session)?;
    }
    Ok(sessions)
}
