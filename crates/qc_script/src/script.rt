//! Scripts.
use qc_config::OwnVal;
use qc_event::{Config, Table};
use qc_net::Fate;

/// One step of a body.
#[cycle(script)]
#[derive(Debug, Drop)]
pub enum Step {
    /// Reads a record.
    Read { rec: u8 },
    /// Writes a value to a record.
    Set { rec: u8, value: OwnVal },
    /// Reads a record, and writes its number plus this one, modulo `2^64`. Where it has a text, the transaction is
    /// aborted by itself.
    Add { rec: u8, value: u64 },
    /// Reads a record, and writes its number minus this one, modulo `2^64`. Where it has a text, the transaction is
    /// aborted by itself.
    Sub { rec: u8, value: u64 },
    /// Reads a record, and aborts the transaction itself where it has a text, or a number that is less than this one.
    Need { rec: u8, value: u64 },
    /// Gives a record another configuration.
    Reconf { rec: u8, config: Config },
    /// Runs a child.
    Child(Body),
    /// Runs children at once.
    Par(Vec<Body>),
    /// Aborts the ancestor this number of levels up; 0 is the transaction itself.
    Abort { levels: u8 },
    /// Has a copy forget its locks and its grants.
    Crash { copy: u8 },
    /// Marks a session to be killed, up to the top of the transaction that does it.
    Kill { session: u8 },
}

/// What a transaction does: its steps in order, how often it is tried at most, and whether, as a child, it must commit
/// for its parent to go on. Bodies are numbered from 0 in the order in which they begin in a script, through all its
/// sessions.
#[cycle(script)]
#[derive(Debug, Drop)]
pub struct Body {
    pub number: u32,
    pub tries: u32,
    pub must: bool,
    pub steps: Vec<Step>,
}

/// A session: the fates of its requests, over and over; after how many due steps a held one is delivered; and
/// the bodies of its tops, in order.
#[derive(Debug, Drop)]
pub struct Session {
    pub fates: Vec<Fate>,
    pub hold: u64,
    pub tops: Vec<Body>,
}

/// A script: a table of records, how many due steps the sender of a held request waits, and its sessions in order.
#[derive(Debug, Drop)]
pub struct Script {
    pub table: Table,
    pub patience: u32,
    pub sessions: Vec<Session>,
}
