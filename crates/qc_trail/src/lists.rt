//! The lists that stand beside entries in brief.
ghost use Rattle.std.specs.Prelude.{◌≡◌, ◌<◌, length};
ghost use Rattle.qc_config.specs.declared.tuple.Op.TheVariants.{PutData};
ghost use Rattle.qc_event.specs.declared.event.Event.TheVariants as event_is;
ghost use Rattle.qc_event.specs.declared.event.How.TheVariants.{Commit};
ghost use Rattle.qc_event.specs.declared.event.Kind.TheVariants.{Write};
ghost use Rattle.qc_trail.specs.declared.brief.Brief.TheVariants as brief_is;
ghost use Rattle.qc_trail.specs.Told.{HasGrant, HasOp, HasText, HasTuple, IsWithin, ask_told, event_told, name_at, nothing_apart, op_told, put_told, text_at, tuple_at, tuple_told};

use crate::brief::{Brief, BriefOp, BriefTuple};
use crate::rares::Rares;
use qc_event::{Answer, Ask, Event, Grant, How, Kind, Label, Name, Op, Tuple, Val};
use std::alloc::Global;
use std::marker::Model;

/// The names, the tuples, the texts and what is seldom, which stand apart from their entries.
#[derive(Debug, Drop)]
pub struct Lists {
    pub(crate) names: Vec<Name>,
    pub(crate) tuples: Vec<BriefTuple>,
    pub(crate) texts: Vec<Label>,
    pub(crate) rares: Rares,
}

impl Model for Lists {
    ghost use Rattle.qc_trail.specs.Told.{Apart};

    ghost Value = { Apart };

    ghost view = { λ l. record {
      names = l.names.items;
      tuples = l.tuples.items;
      texts = l.texts.items;
      rares = l.rares;
    } };
}

impl Lists {
    /// Empty ones. They take no memory.
    pub(crate) fn new(alloc: Global) -> Self
        ensures { result ≡ nothing_apart }
    {
        Lists {
            names: Vec::new(alloc),
            tuples: Vec::new(alloc),
            texts: Vec::new(alloc),
            rares: Rares::new(alloc),
        }
    }

    pub(crate) fn name(&self, at: u32) -> Name
        requires { at < length self.now.names }
        ensures { result ≡ name_at self.now at }
    {
        self.names[at as usize]
    }

    fn text(&self, at: u32) -> Val
        requires { at < length self.now.texts }
        ensures { result ≡ text_at self.now at }
    {
        Val::text(self.texts[at as usize].as_bytes()).unwrap_or(Val::number(0))
    }

    // The tuple that one in brief tells.
    fn tuple_of(&self, brief: &BriefTuple) -> Tuple
        requires { HasText self.now brief.now }
        ensures { result ≡ tuple_told self.now brief.now }
    {
        match brief {
            BriefTuple::Number {
                version,
                number,
                generation,
                config,
            } => Tuple {
                version: *version,
                value: Val::number(*number),
                generation: *generation,
                config: *config,
            },
            BriefTuple::Text {
                version,
                text,
                generation,
                config,
            } => Tuple {
                version: *version,
                value: self.text(*text),
                generation: *generation,
                config: *config,
            },
        }
    }

    fn tuple(&self, at: u32) -> Tuple
        requires { HasTuple self.now at }
        ensures { result ≡ tuple_at self.now at }
    {
        self.tuple_of(&self.tuples[at as usize])
    }

    // The put that leaves a version and a value as the tuple in brief has.
    fn put_of(&self, brief: &BriefTuple) -> Op
        requires { HasText self.now brief.now }
        ensures { result ≡ put_told (tuple_told self.now brief.now) }
    {
        match brief {
            BriefTuple::Number {
                version,
                number,
                ..
            } => Op::PutData {
                version: *version,
                value: Val::number(*number),
            },
            BriefTuple::Text { version, text, .. } => Op::PutData {
                version: *version,
                value: self.text(*text),
            },
        }
    }

    // The operation that one in brief tells.
    fn op(&self, brief: &BriefOp) -> Op
        requires { HasOp self.now brief.now }
        ensures { result ≡ op_told self.now brief.now }
    {
        match brief {
            BriefOp::Get => Op::Get,
            BriefOp::PutData { of } => self.put_of(&self.tuples[*of as usize]),
            BriefOp::PutConfig { of } => {
                let tuple = self.tuple(*of);
                Op::PutConfig {
                    generation: tuple.generation,
                    config: tuple.config,
                }
            }
        }
    }

    // The start of a name.
    fn started(&self, name: u32, kind: Kind) -> Event
        requires { name < length self.now.names }
        ensures { result ≡ event_is.Start (name_at self.now name) kind }
    {
        Event::Start {
            name: self.name(name),
            kind,
        }
    }

    // The start of a write.
    fn write_started(&self, name: u32, rec: u8, value: Val) -> Event
        requires { name < length self.now.names }
        ensures { result ≡ event_is.Start (name_at self.now name) (Write rec value) }
    {
        self.started(name, Kind::Write { rec, value })
    }

    // A request.
    fn asked(&self, access: u32, copy: u8, rec: u8, op: Op) -> Event
        requires { access < length self.now.names }
        ensures { result ≡ ask_told (name_at self.now access) copy rec op }
    {
        Event::Ask(Ask {
            access: self.name(access),
            copy,
            rec,
            op,
        })
    }

    // A grant.
    fn granted(&self, access: u32, copy: u8, rec: u8, op: &BriefOp, tuple: u32) -> Event
        requires { HasGrant self.now access op.now tuple }
        ensures { result ≡ event_told self.now (brief_is.Grant access copy rec op.now tuple) }
    {
        Event::Granted {
            copy,
            grant: Grant {
                access: self.name(access),
                rec,
                op: self.op(op),
                tuple: self.tuple(tuple),
            },
        }
    }

    // A commit.
    fn committed(&self, name: u32, answer: Answer) -> Event
        requires { name < length self.now.names }
        ensures { result ≡ event_is.End (name_at self.now name) (Commit answer) }
    {
        Event::End {
            name: self.name(name),
            how: How::Commit(answer),
        }
    }

    // A request to put a value.
    fn put_asked(&self, access: u32, copy: u8, rec: u8, version: u64, value: Val) -> Event
        requires { access < length self.now.names }
        ensures { result ≡ ask_told (name_at self.now access) copy rec (PutData version value) }
    {
        self.asked(access, copy, rec, Op::PutData { version, value })
    }

    /// What an event in brief tells.
    pub(crate) fn event(&self, brief: &Brief) -> Event
        requires { IsWithin self.now brief.now }
        ensures { result ≡ event_told self.now brief.now }
    {
        match *brief {
            Brief::StartUser {
                name,
                session,
                body,
            } => self.started(name, Kind::User { session, body }),
            Brief::StartRead { name, rec } => self.started(name, Kind::Read { rec }),
            Brief::StartNumber { name, rec, number } => self.write_started(
                name,
                rec,
                Val::number(number),
            ),
            Brief::StartText { name, rec, text } => self.write_started(name, rec, self.text(text)),
            Brief::StartAccess { name } => self.started(name, Kind::Access),
            Brief::AskGet { access, copy, rec } => self.asked(access, copy, rec, Op::Get),
            Brief::AskNumber {
                access,
                copy,
                rec,
                version,
                number,
            } => self.put_asked(access, copy, rec, version, Val::number(number)),
            Brief::AskText {
                access,
                copy,
                rec,
                version,
                text,
            } => self.put_asked(access, copy, rec, version, self.text(text)),
            Brief::Grant {
                access,
                copy,
                rec,
                op,
                tuple,
            } => self.granted(access, copy, rec, &op, tuple),
            Brief::Ready { top } => Event::Ready {
                top: self.name(top),
            },
            Brief::Commit { name } => self.committed(name, Answer::Nothing),
            Brief::CommitNumber { name, number } => self.committed(
                name,
                Answer::Value(Val::number(number)),
            ),
            Brief::CommitText { name, text } => self.committed(
                name,
                Answer::Value(self.text(text)),
            ),
            Brief::CommitReply { name, tuple } => self.committed(
                name,
                Answer::Reply(self.tuple(tuple)),
            ),
            Brief::Rare { at } => self.rares.event(at),
        }
    }
}
