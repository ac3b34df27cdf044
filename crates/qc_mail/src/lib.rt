//! Requests to copies and their replies, between threads.
#![tactic(auto)]

mod delivery;
mod letter;
mod mail;
mod naming;
mod seating;
mod serve;
mod server;
mod settling;
mod stub;

pub use letter::{Letter, Reply, Served};
pub use mail::{Mail, Post};
pub use naming::{Opened, Unnamed};
pub use serve::Serve;
pub use stub::Stub;
