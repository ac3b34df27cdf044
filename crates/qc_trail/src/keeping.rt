//! Events, put in brief.
ghost use Rattle.std.specs.Prelude.{◌≡◌, IfOk};
ghost use Rattle.qc_event.specs.declared.event.Event.TheVariants as event_is;
ghost use Rattle.qc_event.specs.declared.event.How.TheVariants.{Commit};
ghost use Rattle.qc_trail.specs.Told.{GrowsTo, HasOp, HasTuple, MayTell, Tells, op_told, tuple_at};

use crate::brief::{Brief, BriefOp};
use crate::lists::Lists;
use qc_event::{Answer, Ask, Event, Grant, How, Kind, Name, Op, Tuple};
use std::alloc::AllocError;

impl Lists {
    // The start of a name in brief; none of a reconfiguration's.
    fn start(
        &mut self,
        name: &Name,
        kind: &Kind,
        place: Option<u32>,
    ) -> Result<Option<Brief>, AllocError>
        ensures grows { GrowsTo self.old self.new }
        ensures told { IfOk result
            (λ brief. MayTell self.new brief (event_is.Start name.now kind.now)) }
    {
        Ok(Some(match kind {
            Kind::User { session, body } => Brief::StartUser {
                name: self.place_of(name, place)?,
                session: *session,
                body: *body,
            },
            Kind::Read { rec } => Brief::StartRead {
                name: self.place_of(name, place)?,
                rec: *rec,
            },
            Kind::Write { rec, value } => match value.as_text() {
                Some(text) => Brief::StartText {
                    name: self.place_of(name, place)?,
                    rec: *rec,
                    text: self.place_of_text(text)?,
                },
                None => Brief::StartNumber {
                    name: self.place_of(name, place)?,
                    rec: *rec,
                    number: value.as_number().unwrap_or(0),
                },
            },
            Kind::Reconf { .. } => return Ok(None),
            Kind::Access => Brief::StartAccess {
                name: self.place_of(name, place)?,
            },
        }))
    }

    // A request in brief; none of a new configuration's.
    fn ask(&mut self, ask: &Ask, place: Option<u32>) -> Result<Option<Brief>, AllocError>
        ensures grows { GrowsTo self.old self.new }
        ensures told { IfOk result (λ brief. MayTell self.new brief (event_is.Ask ask.now)) }
    {
        let (copy, rec) = (ask.copy, ask.rec);
        Ok(Some(match &ask.op {
            Op::Get => Brief::AskGet {
                access: self.place_of(&ask.access, place)?,
                copy,
                rec,
            },
            Op::PutData { version, value } => match value.as_text() {
                Some(text) => Brief::AskText {
                    access: self.place_of(&ask.access, place)?,
                    copy,
                    rec,
                    version: *version,
                    text: self.place_of_text(text)?,
                },
                None => Brief::AskNumber {
                    access: self.place_of(&ask.access, place)?,
                    copy,
                    rec,
                    version: *version,
                    number: value.as_number().unwrap_or(0),
                },
            },
            Op::PutConfig { .. } => return Ok(None),
        }))
    }

    // An operation in brief, by the place of the tuple that it left, where that has what it puts.
    fn op_of(&mut self, op: &Op, tuple: &Tuple, at: u32) -> Result<BriefOp, AllocError>
        requires has { HasTuple self.old at }
        requires there { tuple_at self.old at ≡ tuple.now }
        ensures grows { GrowsTo self.old self.new }
        ensures has { IfOk result (λ brief. HasOp self.new brief) }
        ensures told { IfOk result (λ brief. op_told self.new brief ≡ op.now) }
    {
        match op {
            Op::Get => Ok(BriefOp::Get),
            Op::PutData { version, value } => {
                if *version == tuple.version && *value == tuple.value {
                    return Ok(BriefOp::PutData { of: at });
                }
                let put = Tuple {
                    version: *version,
                    value: *value,
                    ..*tuple
                };
                Ok(BriefOp::PutData {
                    of: self.place_of_tuple(&put)?,
                })
            }
            Op::PutConfig { generation, config } => {
                if *generation == tuple.generation && *config == tuple.config {
                    return Ok(BriefOp::PutConfig { of: at });
                }
                let put = Tuple {
                    generation: *generation,
                    config: *config,
                    ..*tuple
                };
                Ok(BriefOp::PutConfig {
                    of: self.place_of_tuple(&put)?,
                })
            }
        }
    }

    // A grant in brief.
    fn grant(&mut self, copy: u8, grant: &Grant, place: Option<u32>) -> Result<Brief, AllocError>
        ensures grows { GrowsTo self.old self.new }
        ensures told { IfOk result
            (λ brief. Tells self.new brief (event_is.Granted copy grant.now)) }
    {
        let access = self.place_of(&grant.access, place)?;
        let tuple = self.place_of_tuple(&grant.tuple)?;
        let op = self.op_of(&grant.op, &grant.tuple, tuple)?;
        Ok(Brief::Grant {
            access,
            copy,
            rec: grant.rec,
            op,
            tuple,
        })
    }

    // A commit in brief; none with the generation of a new configuration.
    fn commit(
        &mut self,
        name: &Name,
        answer: &Answer,
        place: Option<u32>,
    ) -> Result<Option<Brief>, AllocError>
        ensures grows { GrowsTo self.old self.new }
        ensures told { IfOk result
            (λ brief. MayTell self.new brief (event_is.End name.now (Commit answer.now))) }
    {
        Ok(Some(match answer {
            Answer::Nothing => Brief::Commit {
                name: self.place_of(name, place)?,
            },
            Answer::Value(value) => match value.as_text() {
                Some(text) => Brief::CommitText {
                    name: self.place_of(name, place)?,
                    text: self.place_of_text(text)?,
                },
                None => Brief::CommitNumber {
                    name: self.place_of(name, place)?,
                    number: value.as_number().unwrap_or(0),
                },
            },
            Answer::Generation(_) => return Ok(None),
            Answer::Reply(tuple) => Brief::CommitReply {
                name: self.place_of(name, place)?,
                tuple: self.place_of_tuple(tuple)?,
            },
        }))
    }

    // An event in brief, where it has such a form.
    fn short(&mut self, event: &Event, place: Option<u32>) -> Result<Option<Brief>, AllocError>
        ensures grows { GrowsTo self.old self.new }
        ensures told { IfOk result (λ brief. MayTell self.new brief event.now) }
    {
        match event {
            Event::Start { name, kind } => self.start(name, kind, place),
            Event::Ask(ask) => self.ask(ask, place),
            Event::Granted { copy, grant } => Ok(Some(self.grant(*copy, grant, place)?)),
            Event::Ready { top } => Ok(Some(Brief::Ready {
                top: self.place_of(top, place)?,
            })),
            Event::End {
                name,
                how: How::Commit(answer),
            } => self.commit(name, answer, place),
            _ => Ok(None),
        }
    }

    /// An event in brief, with what stands apart of it added to the lists. The place is where its name may stand among
    /// the names; where it does not, it is added.
    pub(crate) fn brief(&mut self, event: &Event, place: Option<u32>) -> Result<Brief, AllocError>
        ensures grows { GrowsTo self.old self.new }
        ensures told { IfOk result (λ brief. Tells self.new brief event.now) }
    {
        if let Some(brief) = self.short(event, place)? {
            return Ok(brief);
        }
        let Some(at) = self.rares.add(event)? else {
            unreachable!();
        };
        Ok(Brief::Rare { at })
    }
}
