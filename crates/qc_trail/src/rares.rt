//! What is seldom, of which each is kept as it is.
ghost use Rattle.std.specs.Prelude.{◌≡◌, ◌<◌, [], length, IfOk};
ghost use Rattle.qc_event.specs.declared.event.Event.TheVariants as event_is;
ghost use Rattle.qc_event.specs.declared.event.How.TheVariants.{Abort};
ghost use Rattle.qc_trail.specs.Outline.{outline_of};
ghost use Rattle.qc_trail.specs.Rare.{abort_in, rare_at, rare_in, rare_told, refused_in};
ghost use Rattle.qc_trail.specs.Told.{GoesOn, StandsAt};

use crate::appending::append;
use crate::outline::Outline;
use qc_event::{Answer, Ask, Cause, Config, Event, How, Kind, Lack, Name, Op, Refusal, Why};
use std::alloc::{AllocError, Global};
use std::marker::Model;

/// What is seldom. None of it has a value.
#[derive(Clone, Copy, Debug)]
pub enum Rare {
    Start {
        name: Name,
        rec: u8,
        config: Config,
    },
    Ask {
        access: Name,
        copy: u8,
        rec: u8,
        generation: u64,
        config: Config,
    },
    Gone {
        access: Name,
        why: Why,
    },
    Blocked {
        access: Name,
        copy: u8,
        holder: Name,
    },
    Dead {
        access: Name,
        copy: u8,
        ancestor: Name,
    },
    Unable {
        name: Name,
        why: Why,
    },
    Mark {
        by: Name,
        session: u8,
    },
    Asked {
        name: Name,
        by: Name,
    },
    Conflict {
        name: Name,
        copy: u8,
        holder: Name,
    },
    NoQuorum {
        name: Name,
        lack: Lack,
    },
    Last {
        name: Name,
    },
    Orphan {
        name: Name,
        ancestor: Name,
    },
    Killed {
        name: Name,
    },
    Child {
        name: Name,
        child: Name,
    },
    Missed {
        name: Name,
    },
    Generation {
        name: Name,
        generation: u64,
    },
}

/// A list of what is seldom.
#[derive(Debug, Drop)]
pub struct Rares {
    rares: Vec<Rare>,
}

impl Model for Rares {
    ghost use Rattle.std.specs.Prelude.{List};
    ghost use Rattle.qc_trail.specs.declared.rares.Rare.{Rare};

    ghost Value = { List Rare };

    ghost view = { λ r. r.rares.items };
}

impl Rares {
    /// An empty one. It takes no memory.
    pub(crate) fn new(alloc: Global) -> Self
        ensures { result ≡ [] }
    {
        Rares {
            rares: Vec::new(alloc),
        }
    }

    /// The event at a place.
    pub(crate) fn event(&self, at: u32) -> Event
        requires { at < length self.now }
        ensures { result ≡ rare_told (rare_at self.now at) }
    {
        told_by(&self.rares[at as usize])
    }

    /// What the event at a place is of.
    pub(crate) fn outline(&self, at: u32) -> Outline
        requires { at < length self.now }
        ensures { result ≡ outline_of (rare_told (rare_at self.now at)) }
    {
        outlined(&self.rares[at as usize])
    }

    /// Adds an event, where it is seldom, and tells its place.
    pub(crate) fn add(&mut self, event: &Event) -> Result<Option<u32>, AllocError>
        ensures grows { GoesOn self.old self.new }
        ensures there { IfOk result (λ at. StandsAt self.new (rare_in event.now) at) }
    {
        append_some(&mut self.rares, rare_of(event))
    }
}

// Adds an item, where there is one, and tells its place.
fn append_some<T: Drop>(items: &mut Vec<T>, item: Option<T>) -> Result<Option<u32>, AllocError>
    ensures grows { GoesOn items.old.items items.new.items }
    ensures there { IfOk result (λ at. StandsAt items.new.items item at) }
{
    match item {
        Some(item) => Ok(Some(append(items, item)?)),
        None => Ok(None),
    }
}

// The abort of a transaction.
fn aborted(name: &Name, cause: Cause) -> Event
    ensures { result ≡ event_is.End name.now (Abort cause) }
{
    Event::End {
        name: *name,
        how: How::Abort(cause),
    }
}

// An abort, by its cause.
fn abort_of(name: Name, cause: &Cause) -> Rare
    ensures { result ≡ abort_in name cause.now }
{
    match *cause {
        Cause::Asked { by } => Rare::Asked { name, by },
        Cause::Conflict { copy, holder } => Rare::Conflict { name, copy, holder },
        Cause::NoQuorum(lack) => Rare::NoQuorum { name, lack },
        Cause::Last => Rare::Last { name },
        Cause::Orphan(ancestor) => Rare::Orphan { name, ancestor },
        Cause::Killed => Rare::Killed { name },
        Cause::Child(child) => Rare::Child { name, child },
        Cause::Missed => Rare::Missed { name },
    }
}

// A refusal, by its reason.
fn refused_of(access: Name, copy: u8, refusal: &Refusal) -> Rare
    ensures { result ≡ refused_in access copy refusal.now }
{
    match *refusal {
        Refusal::Blocked(holder) => Rare::Blocked {
            access,
            copy,
            holder,
        },
        Refusal::Dead(ancestor) => Rare::Dead {
            access,
            copy,
            ancestor,
        },
    }
}

// What is told by what is seldom.
fn told_by(rare: &Rare) -> Event
    ensures { result ≡ rare_told rare.now }
{
    match *rare {
        Rare::Start { name, rec, config } => Event::Start {
            name,
            kind: Kind::Reconf { rec, config },
        },
        Rare::Ask {
            access,
            copy,
            rec,
            generation,
            config,
        } => Event::Ask(Ask {
            access,
            copy,
            rec,
            op: Op::PutConfig { generation, config },
        }),
        Rare::Gone { access, why } => Event::Gone { access, why },
        Rare::Blocked {
            access,
            copy,
            holder,
        } => Event::Refused {
            access,
            copy,
            refusal: Refusal::Blocked(holder),
        },
        Rare::Dead {
            access,
            copy,
            ancestor,
        } => Event::Refused {
            access,
            copy,
            refusal: Refusal::Dead(ancestor),
        },
        Rare::Unable { name, why } => Event::Unable { name, why },
        Rare::Mark { by, session } => Event::Mark { by, session },
        Rare::Asked { name, by } => aborted(&name, Cause::Asked { by }),
        Rare::Conflict { name, copy, holder } => aborted(&name, Cause::Conflict { copy, holder }),
        Rare::NoQuorum { name, lack } => aborted(&name, Cause::NoQuorum(lack)),
        Rare::Last { name } => aborted(&name, Cause::Last),
        Rare::Orphan { name, ancestor } => aborted(&name, Cause::Orphan(ancestor)),
        Rare::Killed { name } => aborted(&name, Cause::Killed),
        Rare::Child { name, child } => aborted(&name, Cause::Child(child)),
        Rare::Missed { name } => aborted(&name, Cause::Missed),
        Rare::Generation { name, generation } => Event::End {
            name,
            how: How::Commit(Answer::Generation(generation)),
        },
    }
}

// What the event is of that is told by what is seldom.
fn outlined(rare: &Rare) -> Outline
    ensures { result ≡ outline_of (rare_told rare.now) }
{
    match *rare {
        Rare::Start { name, .. } => Outline::Start { name },
        Rare::Asked { name, .. }
        | Rare::Conflict { name, .. }
        | Rare::NoQuorum { name, .. }
        | Rare::Last { name }
        | Rare::Orphan { name, .. }
        | Rare::Killed { name }
        | Rare::Child { name, .. }
        | Rare::Missed { name } => Outline::Abort { name },
        Rare::Generation { name, .. } => Outline::Commit { name },
        Rare::Ask { .. }
        | Rare::Gone { .. }
        | Rare::Blocked { .. }
        | Rare::Dead { .. }
        | Rare::Unable { .. }
        | Rare::Mark { .. } => Outline::Other,
    }
}

// An event, where it is seldom.
fn rare_of(event: &Event) -> Option<Rare>
    ensures rare { result ≡ rare_in event.now }
{
    match event {
        Event::Start {
            name,
            kind: Kind::Reconf { rec, config },
        } => Some(Rare::Start {
            name: *name,
            rec: *rec,
            config: *config,
        }),
        Event::Ask(ask) => match &ask.op {
            Op::PutConfig { generation, config } => Some(Rare::Ask {
                access: ask.access,
                copy: ask.copy,
                rec: ask.rec,
                generation: *generation,
                config: *config,
            }),
            _ => None,
        },
        Event::Gone { access, why } => Some(Rare::Gone {
            access: *access,
            why: *why,
        }),
        Event::Refused {
            access,
            copy,
            refusal,
        } => Some(refused_of(*access, *copy, refusal)),
        Event::Unable { name, why } => Some(Rare::Unable {
            name: *name,
            why: *why,
        }),
        Event::Mark { by, session } => Some(Rare::Mark {
            by: *by,
            session: *session,
        }),
        Event::End { name, how } => match how {
            How::Abort(cause) => Some(abort_of(*name, cause)),
            How::Commit(Answer::Generation(generation)) => Some(Rare::Generation {
                name: *name,
                generation: *generation,
            }),
            _ => None,
        },
        _ => None,
    }
}
