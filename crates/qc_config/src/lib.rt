//! Votes, quorums, and the tuple that a copy keeps of a record.
#![tactic(auto)]

mod config;
mod copies;
mod law;
mod own_val;
mod tuple;
mod val;

pub use config::{BadConfig, Config};
pub use copies::Copies;
pub use law::marks_are_sets;
pub use own_val::OwnVal;
pub use tuple::{Op, Tuple};
pub use val::Val;
