//! Why no answer came, why a copy refused and why a transaction was aborted, in words.
use crate::words::{BadLine, Words, number_of};
use qc_event::{Cause, Copies, Lack, Phase, Refusal, Why};

fn why_of(text: &str) -> Result<Why, BadLine> {
    match text {
        "lost" => Ok(Why::Lost),
        "late" => Ok(Why::Late),
        "down" => Ok(Why::Down),
        "full" => Ok(Why::Full),
        "strange" => Ok(Why::Strange),
        _ => Err(BadLine::Word),
    }
}

// Copies as `0,2`; `-` is none.
fn replied_of(text: &str) -> Result<Copies, BadLine> {
    let mut copies = Copies::none();
    if text == "-" {
        return Ok(copies);
    }
    for number in text.split(',') {
        let copy = number_of(number)?;
        if copy >= 16 {
            return Err(BadLine::Number);
        }
        copies = copies.with(copy);
    }
    Ok(copies)
}

// Copies with their reasons as `0:late,1:lost`; `-` is none.
fn missing_of(text: &str) -> Result<[Option<Why>; 16], BadLine> {
    let mut missing = [None; 16];
    if text == "-" {
        return Ok(missing);
    }
    for part in text.split(',') {
        let (number, why) = part.split_once(':').ok_or(BadLine::Word)?;
        let copy = number_of::<usize>(number)?;
        if copy >= missing.len() {
            return Err(BadLine::Number);
        }
        missing[copy] = Some(why_of(why)?);
    }
    Ok(missing)
}

impl Words<'_> {
    /// Why no answer came: `lost`, `late`, `down`, `full` or `strange`.
    pub(crate) fn why(&mut self) -> Result<Why, BadLine> {
        why_of(self.word()?)
    }

    /// Why a copy refused: `blocked HOLDER` or `dead ANCESTOR`.
    pub(crate) fn refusal(&mut self) -> Result<Refusal, BadLine> {
        match self.word()? {
            "blocked" => Ok(Refusal::Blocked(self.name()?)),
            "dead" => Ok(Refusal::Dead(self.name()?)),
            _ => Err(BadLine::Word),
        }
    }

    fn phase(&mut self) -> Result<Phase, BadLine> {
        match self.word()? {
            "collect" => Ok(Phase::Collect),
            "values" => Ok(Phase::Values),
            "configs" => Ok(Phase::Configs),
            _ => Err(BadLine::Word),
        }
    }

    fn lack(&mut self) -> Result<Lack, BadLine> {
        let phase = self.phase()?;
        self.expect("replied")?;
        let replied = replied_of(self.word()?)?;
        self.expect("missing")?;
        let missing = missing_of(self.word()?)?;
        Ok(Lack {
            phase,
            replied,
            missing,
        })
    }

    fn conflict(&mut self) -> Result<Cause, BadLine> {
        self.expect("copy")?;
        let copy = self.number()?;
        self.expect("holder")?;
        let holder = self.name()?;
        Ok(Cause::Conflict { copy, holder })
    }

    /// Why a transaction was aborted, as `asked 1/1`, `conflict copy 0 holder 1/1.1.2`,
    /// `noquorum collect replied 0,2 missing 1:lost`, `last`, `orphan 1/1`, `killed`, `child 1/1.1` or
    /// `missed`.
    pub(crate) fn cause(&mut self) -> Result<Cause, BadLine> {
        match self.word()? {
            "asked" => Ok(Cause::Asked { by: self.name()? }),
            "conflict" => self.conflict(),
            "noquorum" => Ok(Cause::NoQuorum(self.lack()?)),
            "last" => Ok(Cause::Last),
            "orphan" => Ok(Cause::Orphan(self.name()?)),
            "killed" => Ok(Cause::Killed),
            "child" => Ok(Cause::Child(self.name()?)),
            "missed" => Ok(Cause::Missed),
            _ => Err(BadLine::Word),
        }
    }
}
