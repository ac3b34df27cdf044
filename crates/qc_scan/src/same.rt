//! When two values are the same.
ghost use Rattle.std.specs.Prelude.{◌≡◌, ◌↔◌, IsTrue, Some};

use qc_event::{Answer, Ask, Cause, Config, Copies, Lack, Name, Op, Tuple, Why};

/// Whether two names are the same.
pub fn same_name(a: &Name, b: &Name) -> bool
    ensures { IsTrue result ↔ (a.now ≡ b.now) }
{
    a == b
}

/// Whether two configurations have the same votes and thresholds.
pub fn same_config(a: &Config, b: &Config) -> bool
    ensures { IsTrue result ↔ (a.now ≡ b.now) }
{
    if a.count() != b.count() || a.read() != b.read() || a.write() != b.write() {
        return false;
    }
    for c in 0..16 {
        if a.votes(c) != b.votes(c) {
            return false;
        }
    }
    true
}

/// Whether two operations are the same.
pub fn same_op(a: &Op, b: &Op) -> bool
    ensures { IsTrue result ↔ (a.now ≡ b.now) }
{
    match a {
        Op::Get => matches!(b, Op::Get),
        Op::PutData { version, value } => match b {
            Op::PutData {
                version: other,
                value: another,
            } => version == other && value == another,
            _ => false,
        },
        Op::PutConfig { generation, config } => match b {
            Op::PutConfig {
                generation: other,
                config: another,
            } => generation == other && same_config(config, another),
            _ => false,
        },
    }
}

/// Whether two tuples are the same.
pub fn same_tuple(a: &Tuple, b: &Tuple) -> bool
    ensures { IsTrue result ↔ (a.now ≡ b.now) }
{
    a.version == b.version
        && a.value == b.value
        && a.generation == b.generation
        && same_config(&a.config, &b.config)
}

/// Whether two requests are the same.
pub fn same_ask(a: &Ask, b: &Ask) -> bool
    ensures { IsTrue result ↔ (a.now ≡ b.now) }
{
    same_name(&a.access, &b.access) && a.copy == b.copy && a.rec == b.rec && same_op(&a.op, &b.op)
}

/// Whether two answers are the same.
pub fn same_answer(a: &Answer, b: &Answer) -> bool
    ensures { IsTrue result ↔ (a.now ≡ b.now) }
{
    match a {
        Answer::Nothing => matches!(b, Answer::Nothing),
        Answer::Value(value) => matches!(b, Answer::Value(other) if value == other),
        Answer::Generation(generation) =>
            matches!(b, Answer::Generation(other) if generation == other),
        Answer::Reply(tuple) => matches!(b, Answer::Reply(other) if same_tuple(tuple, other)),
    }
}

/// Whether two lists of reasons are the same.
pub fn same_reasons(a: &[Option<Why>; 16], b: &[Option<Why>; 16]) -> bool
    ensures { IsTrue result ↔ (a.now ≡ b.now) }
{
    for c in 0..16 {
        if a[c] != b[c] {
            return false;
        }
    }
    true
}

/// Whether two sets of copies are the same.
pub fn same_copies(a: &Copies, b: &Copies) -> bool
    ensures { IsTrue result ↔ (a.now ≡ b.now) }
{
    a.as_slice() == b.as_slice()
}

/// Whether two accounts of a lack are the same.
pub fn same_lack(a: &Lack, b: &Lack) -> bool
    ensures { IsTrue result ↔ (a.now ≡ b.now) }
{
    a.phase == b.phase
        && same_copies(&a.replied, &b.replied)
        && same_reasons(&a.missing, &b.missing)
}

/// Whether two causes are the same.
pub fn same_cause(a: &Cause, b: &Cause) -> bool
    ensures { IsTrue result ↔ (a.now ≡ b.now) }
{
    match a {
        Cause::Asked { by } => matches!(b, Cause::Asked { by: other } if same_name(by, other)),
        Cause::Conflict { copy, holder } => {
            matches!(b, Cause::Conflict { copy: other, holder: another } if copy == other && same_name(holder, another))
        }
        Cause::NoQuorum(lack) => matches!(b, Cause::NoQuorum(other) if same_lack(lack, other)),
        Cause::Last => matches!(b, Cause::Last),
        Cause::Orphan(ancestor) => matches!(b, Cause::Orphan(other) if same_name(ancestor, other)),
        Cause::Killed => matches!(b, Cause::Killed),
        Cause::Child(child) => matches!(b, Cause::Child(other) if same_name(child, other)),
        Cause::Missed => matches!(b, Cause::Missed),
    }
}

/// Whether a name was found, and is this one.
pub fn is_this(found: Option<Name>, n: &Name) -> bool
    ensures { IsTrue result ↔ (found ≡ Some n.now) }
{
    match found {
        Some(name) => same_name(&name, n),
        None => false,
    }
}
