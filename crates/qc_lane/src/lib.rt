//! A ruled queue of requests to one copy: what is taken of a session is what it put, in order, each once.
#![tactic(auto)]

mod ends;
mod lane;
mod queue;

pub use ends::{Inlet, Mailed, Outlet, Receipt, Tray};
pub use lane::{Lane, Posted, Request};
pub use queue::{LanePass, Queue, note, open, put, seat, settle, take, tell};
