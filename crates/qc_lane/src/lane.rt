//! What a queue of requests holds, and what its passes know.
ghost use Rattle.std.specs.Prelude.{◌≡◌, List, option_to_list};
ghost use Rattle.qc_lane.specs.declared.lane.Request.{Request};

use crossbeam_queue::protocol::{Join, Lesson, Outcome, Protocol, Split};
use qc_event::Ask;
use std::collections::LinkedList;

/// A request of a session, with its number among those of this session to this copy.
#[derive(Clone, Copy, Debug)]
pub struct Request {
    pub from: u8,
    pub number: u64,
    pub ask: Ask,
}

/// What may be put into a queue: it carries at most one request.
pub trait Posted {
    ghost requests: { Self → List Request };

    /// The request that it carries.
    fn request(&self) -> Option<Request>
        ensures { requests self.now ≡ option_to_list result };
}

/// What a pass of a queue knows. No value of it is made.
pub struct Lane {
    /// It may put requests of the session `from`.
    pub puts: bool,
    /// It may take.
    pub takes: bool,
    pub from: u8,
    /// Sessions from this number on have no pass yet.
    pub made: u8,
    /// What it has put.
    pub put: LinkedList<Ask>,
    /// What was taken.
    pub got: LinkedList<Request>,
    /// At least so many requests of the session `from` were taken.
    pub known: u64,
}

/// The rule: what was taken and what is in the queue are what each session put, in order.
pub struct InOrder;

impl<T: Posted> Protocol<T, Lane> for InOrder {
    ghost use Rattle.qc_lane.specs.Lanes.{Kept, taker};

    ghost holds = { Kept T.requests };

    ghost first = { taker };
}

/// A request is put.
pub struct Putting;

impl<T: Posted> Outcome<T, Lane> for Putting {
    ghost use Rattle.qc_lane.specs.Lanes.{Puts};

    ghost then = { Puts T.requests };
}

/// What was put longest ago is taken.
pub struct Taking;

impl<T: Posted> Outcome<T, Lane> for Taking {
    ghost use Rattle.qc_lane.specs.Lanes.{Takes};

    ghost then = { Takes T.requests };
}

/// The next session gets a pass.
pub struct Seating;

impl Split<Lane> for Seating {
    ghost use Rattle.qc_lane.specs.Lanes.{seated, putter};

    ghost left = { seated };

    ghost right = { λ v. putter v.made };
}

/// A note tells how many requests of the session were taken of which the last one taken is.
pub struct Noting;

impl Split<Lane> for Noting {
    ghost use Rattle.qc_lane.specs.Lanes.{noted};

    ghost left = { λ v. v };

    ghost right = { noted };
}

impl Join<Lane> for Noting {
    ghost use Rattle.qc_lane.specs.Lanes.{told, spent};

    ghost both = { told };

    ghost spent = { spent };
}

/// A session's pass is joined into the one that takes, and split off again.
pub struct Closing;

impl Split<Lane> for Closing {
    ghost use Rattle.qc_lane.specs.Lanes.{freed, reopened};

    ghost left = { freed };

    ghost right = { reopened };
}

impl Join<Lane> for Closing {
    ghost use Rattle.qc_lane.specs.Lanes.{closed, spent};

    ghost both = { closed };

    ghost spent = { spent };
}

/// What the rule says of the session whose pass was joined.
pub struct Balancing;

impl<T: Posted> Lesson<T, Lane> for Balancing {
    ghost use Rattle.qc_lane.specs.Lanes.{Balances};

    ghost fact = { Balances T.requests };
}

/// What the rule says of what a session knows.
pub struct Bounding;

impl<T: Posted> Lesson<T, Lane> for Bounding {
    ghost use Rattle.qc_lane.specs.Lanes.{IsBounded};

    ghost fact = { λ v items. IsBounded v };
}
