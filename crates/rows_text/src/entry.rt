//! Entries of a history in words.
use crate::log::Log;
use crate::words::{BadLine, Words};
use qc_event::{Answer, Ask, Entry, Event, Grant, How, Kind, Name};

impl Words<'_> {
    // What a transaction is for: `user SESSION BODY`, `read RECORD`, `write RECORD VALUE`,
    // `reconf RECORD CONFIGURATION` or `access`.
    fn kind(&mut self) -> Result<Kind, BadLine> {
        match self.word()? {
            "user" => Ok(Kind::User {
                session: self.number()?,
                body: self.number()?,
            }),
            "read" => Ok(Kind::Read {
                rec: self.number()?,
            }),
            "write" => Ok(Kind::Write {
                rec: self.number()?,
                value: self.value()?,
            }),
            "reconf" => Ok(Kind::Reconf {
                rec: self.number()?,
                config: self.config()?,
            }),
            "access" => Ok(Kind::Access),
            _ => Err(BadLine::Word),
        }
    }

    // A copy and a record, as `copy 0 record 0`.
    fn place(&mut self) -> Result<(u8, u8), BadLine> {
        self.expect("copy")?;
        let copy = self.number()?;
        self.expect("record")?;
        let rec = self.number()?;
        Ok((copy, rec))
    }

    fn ask(&mut self, access: Name) -> Result<Event, BadLine> {
        let (copy, rec) = self.place()?;
        let op = self.op()?;
        Ok(Event::Ask(Ask {
            access,
            copy,
            rec,
            op,
        }))
    }

    fn granted(&mut self, access: Name) -> Result<Event, BadLine> {
        let (copy, rec) = self.place()?;
        let op = self.op()?;
        self.expect("leaves")?;
        let tuple = self.tuple()?;
        let grant = Grant {
            access,
            rec,
            op,
            tuple,
        };
        Ok(Event::Granted { copy, grant })
    }

    fn refused(&mut self, access: Name) -> Result<Event, BadLine> {
        self.expect("copy")?;
        Ok(Event::Refused {
            access,
            copy: self.number()?,
            refusal: self.refusal()?,
        })
    }

    fn mark(&mut self, by: Name) -> Result<Event, BadLine> {
        self.expect("session")?;
        Ok(Event::Mark {
            by,
            session: self.number()?,
        })
    }

    // An answer: `nothing`, `value VALUE`, `generation GENERATION` or `reply TUPLE`.
    fn answer(&mut self) -> Result<Answer, BadLine> {
        match self.word()? {
            "nothing" => Ok(Answer::Nothing),
            "value" => Ok(Answer::Value(self.value()?)),
            "generation" => Ok(Answer::Generation(self.number()?)),
            "reply" => Ok(Answer::Reply(self.tuple()?)),
            _ => Err(BadLine::Word),
        }
    }

    // An event of a name.
    fn event(&mut self, word: &str, name: Name) -> Result<Event, BadLine> {
        match word {
            "start" => Ok(Event::Start {
                name,
                kind: self.kind()?,
            }),
            "ask" => self.ask(name),
            "gone" => Ok(Event::Gone {
                access: name,
                why: self.why()?,
            }),
            "granted" => self.granted(name),
            "refused" => self.refused(name),
            "unable" => Ok(Event::Unable {
                name,
                why: self.why()?,
            }),
            "mark" => self.mark(name),
            "ready" => Ok(Event::Ready { top: name }),
            "commit" => Ok(Event::End {
                name,
                how: How::Commit(self.answer()?),
            }),
            "abort" => Ok(Event::End {
                name,
                how: How::Abort(self.cause()?),
            }),
            _ => Err(BadLine::Word),
        }
    }

    /// An entry: its seat, what happened, whose name it is, and what belongs to such an event, as
    /// `18 start 1/1.1 write 0 5`, `18 ask 1/1.1.2 copy 0 record 0 put 1 5`,
    /// `2 granted 1/1.1.2 copy 0 record 0 put 1 5 leaves 1 5 0 1,1,1 r2 w2` or `18 abort 1/1 killed`.
    fn entry(&mut self) -> Result<Entry, BadLine> {
        let seat = self.number()?;
        let word = self.word()?;
        let name = self.name()?;
        let event = self.event(word, name)?;
        Ok(Entry { seat, event })
    }

    /// Reads an entry and appends it to a history. An error leaves the history as it was.
    pub fn append_entry(&mut self, log: &mut Log) -> Result<(), BadLine> {
        // A `?` in place of the match gets no proof today.
        match self.entry() {
            Ok(entry) => push(log, &entry),
            Err(bad) => Err(bad),
        }
    }
}

fn push(log: &mut Log, entry: &Entry) -> Result<(), BadLine> {
    match log.push(*entry) {
        Ok(()) => Ok(()),
        Err(_) => Err(BadLine::Memory),
    }
}

fn entry_of(line: &str) -> Result<Entry, BadLine> {
    let mut words = Words::new(line);
    let entry = words.entry()?;
    words.end()?;
    Ok(entry)
}

/// Appends the entry that a line is to a history. An error leaves the history as it was.
pub fn append_line(log: &mut Log, line: &str) -> Result<(), BadLine> {
    match entry_of(line) {
        Ok(entry) => push(log, &entry),
        Err(bad) => Err(bad),
    }
}
