//! The sessions of a run, by clients over a system.
#![tactic(auto)]

mod calls;
mod client;
mod ends;
mod managers;
mod marks;
mod refusals;
mod sessions;
mod stage;
mod starts;

pub use client::Client;
pub use sessions::{Ended, run_sessions};
