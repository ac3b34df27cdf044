//! A gate that lets one pass at a time, whom a seed chooses.
#![tactic(auto)]

mod choice;
mod draw;
mod place;
mod row;
mod table;
mod turns;

pub use turns::Turns;
