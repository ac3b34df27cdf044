//! Parts of entries, printed in the words in which they are read.
use qc_event::{Config, Kind, Lack, Tuple};
use std::fmt;

/// A configuration, printed as `1,1,1 r2 w2`, or as `none` where it has no votes.
#[derive(Clone, Copy)]
pub struct ConfigText(pub Config);

impl fmt::Display for ConfigText {
    fn fmt<W: fmt::Write>(&self, f: &mut fmt::Formatter<W>) -> fmt::Result {
        let count = self.0.count();
        if count == 0 {
            return write!(f, "none");
        }
        for copy in 0..count as u8 {
            let comma = if copy == 0 { "" } else { "," };
            let votes = self.0.votes(copy);
            write!(f, "{comma}{votes}")?;
        }
        let (read, write) = (self.0.read(), self.0.write());
        write!(f, " r{read} w{write}")
    }
}

/// A tuple, printed as its version, value, generation and configuration.
#[derive(Clone, Copy)]
pub struct TupleText(pub Tuple);

impl fmt::Display for TupleText {
    fn fmt<W: fmt::Write>(&self, f: &mut fmt::Formatter<W>) -> fmt::Result {
        let Tuple {
            version,
            value,
            generation,
            config,
        } = self.0;
        let config = ConfigText(config);
        write!(f, "{version} {value:?} {generation} {config}")
    }
}

/// What a transaction is for, printed as in its start.
#[derive(Clone, Copy)]
pub struct KindText(pub Kind);

impl fmt::Display for KindText {
    fn fmt<W: fmt::Write>(&self, f: &mut fmt::Formatter<W>) -> fmt::Result {
        match self.0 {
            Kind::User { session, body } => write!(f, "user {session} {body}"),
            Kind::Read { rec } => write!(f, "read {rec}"),
            Kind::Write { rec, value } => write!(f, "write {rec} {value:?}"),
            Kind::Reconf { rec, config } => {
                let config = ConfigText(config);
                write!(f, "reconf {rec} {config}")
            }
            Kind::Access => write!(f, "access"),
        }
    }
}

/// What a phase lacks, printed as the phase, the copies that replied, and those that did not, with why.
#[derive(Clone, Copy)]
pub struct LackText(pub Lack);

impl fmt::Display for LackText {
    fn fmt<W: fmt::Write>(&self, f: &mut fmt::Formatter<W>) -> fmt::Result {
        let phase = self.0.phase;
        write!(f, "{phase:?}, replied")?;
        for (copy, replied) in self.0.replied.as_slice().iter().enumerate() {
            if *replied {
                write!(f, " {copy}")?;
            }
        }
        write!(f, ", missing")?;
        for (copy, why) in self.0.missing.iter().enumerate() {
            if let Some(why) = why {
                write!(f, " {copy} {why:?}")?;
            }
        }
        Ok(())
    }
}
