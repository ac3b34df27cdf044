//! Entries in brief.

use qc_event::Config;

/// A tuple in brief: its text, where it has one, stands in a list of its own, and here is its place.
#[derive(Clone, Copy, Debug)]
pub enum BriefTuple {
    Number {
        version: u64,
        number: u64,
        generation: u64,
        config: Config,
    },
    Text {
        version: u64,
        text: u32,
        generation: u64,
        config: Config,
    },
}

/// An operation that was granted, in brief: what it puts is what the tuple at a place has.
#[derive(Clone, Copy, Debug)]
pub enum BriefOp {
    Get,
    PutData { of: u32 },
    PutConfig { of: u32 },
}

/// What an entry is, in brief: its name, its tuple and its text stand in lists of their own, and so does what is
/// seldom; here are their places there.
#[derive(Clone, Copy, Debug)]
pub enum Brief {
    StartUser {
        name: u32,
        session: u8,
        body: u32,
    },
    StartRead {
        name: u32,
        rec: u8,
    },
    StartNumber {
        name: u32,
        rec: u8,
        number: u64,
    },
    StartText {
        name: u32,
        rec: u8,
        text: u32,
    },
    StartAccess {
        name: u32,
    },
    AskGet {
        access: u32,
        copy: u8,
        rec: u8,
    },
    AskNumber {
        access: u32,
        copy: u8,
        rec: u8,
        version: u64,
        number: u64,
    },
    AskText {
        access: u32,
        copy: u8,
        rec: u8,
        version: u64,
        text: u32,
    },
    Grant {
        access: u32,
        copy: u8,
        rec: u8,
        op: BriefOp,
        tuple: u32,
    },
    Ready {
        top: u32,
    },
    Commit {
        name: u32,
    },
    CommitNumber {
        name: u32,
        number: u64,
    },
    CommitText {
        name: u32,
        text: u32,
    },
    CommitReply {
        name: u32,
        tuple: u32,
    },
    Rare {
        at: u32,
    },
}

/// An entry in brief, and the seat under which it was made.
#[derive(Clone, Copy, Debug)]
pub struct BriefEntry {
    pub seat: u32,
    pub event: Brief,
}
