//! The serial order that completion gives a transaction.
ghost use Rattle.std.specs.Prelude.{◌≡◌, [], ◌∷◌, ◌++◌, OnOk, IfOk, reverse};
ghost use Rattle.qc_event.specs.History as history;
ghost use Rattle.qc_serial.specs.Walk as words;

use crate::event::SerialEvent;
use qc_event::{Answer, Entry, Event, How, Kind, kind, outcome};
use qc_names::Name;
use std::alloc::{AllocError, Global};

fn is_child(n: &Name, c: &Name) -> bool
    ensures { result ≡ history.is_child n.now c.now }
{
    c.len() == n.len() + 1 && n.is_ancestor(c)
}

#[cycle(walk)]
fn ended(past: &[Entry], c: &Name, how: &How, out: &mut Vec<SerialEvent>) -> Result<(), AllocError>
    ensures { OnOk result (out.new.items ≡ out.old.items ++ words.ended
        (history.kind_of (reverse past.now) c.now) (words.walk (reverse past.now) c.now)
        c.now how.now) }
{
    match &kind(past, c) {
        Some(Kind::User { .. }) => match how {
            How::Commit(_) => {
                out.push(SerialEvent::Enter(*c))?;
                walk(past, c, out)?;
                out.push(SerialEvent::Leave(*c))?;
            }
            How::Abort(_) => out.push(SerialEvent::Skip(*c))?,
        },
        Some(Kind::Read { rec }) => {
            if let How::Commit(Answer::Value(value)) = how {
                out.push(SerialEvent::Read {
                    name: *c,
                    rec: *rec,
                    value: *value,
                })?;
            }
        }
        Some(Kind::Write { rec, value }) => {
            if let How::Commit(_) = how {
                out.push(SerialEvent::Write {
                    name: *c,
                    rec: *rec,
                    value: *value,
                })?;
            }
        }
        _ => {}
    }
    Ok(())
}

#[cycle(walk)]
fn walk(h: &[Entry], n: &Name, out: &mut Vec<SerialEvent>) -> Result<(), AllocError>
    ensures { OnOk result (out.new.items ≡ out.old.items ++ words.walk (reverse h.now) n.now) }
{
    for (i, e) in h.iter().enumerate() {
        if let Event::Start {
            name,
            kind: Kind::User {
                session: _,
                body: _,
            },
        } = &e.event
        {
            if is_child(n, name) {
                out.push(SerialEvent::Start(*name))?;
            }
        }
        if let Event::End { name, how } = &e.event {
            if is_child(n, name) {
                ended(&h[..i], name, how, out)?;
            }
        }
    }
    Ok(())
}

fn is_open_or_root(h: &[Entry], n: &Name) -> bool
    ensures { result ≡ words.is_open_or_root (reverse h.now) n.now }
{
    n.is_empty() || (kind(h, n).is_some() && outcome(h, n).is_live())
}

// Writes what an open ancestor, or the root, is entered for; of others nothing.
fn visit(h: &[Entry], a: &Name, out: &mut Vec<SerialEvent>) -> Result<(), AllocError>
    ensures { OnOk result (out.new.items ≡ out.old.items ++ words.visits (reverse h.now)
        (a.now ∷ [])) }
{
    if is_open_or_root(h, a) {
        if !a.is_empty() {
            out.push(SerialEvent::Enter(*a))?;
        }
        walk(h, a, out)?;
    }
    Ok(())
}

/// The order that completion gives a transaction: what has ended, and then each open ancestor,
/// entered in turn (the root counts as open). The history has its oldest entry first.
pub fn serialise(alloc: Global, h: &[Entry], t: &Name) -> Result<Vec<SerialEvent>, AllocError>
    ensures { IfOk result (λ v. v.items ≡ words.serialise (reverse h.now) t.now) }
{
    let mut out = Vec::new(alloc);
    for k in 0..t.len() + 1 {
        visit(h, &t.ancestor(k), &mut out)?;
    }
    Ok(out)
}
