//! A client's way to a system: its managers' accesses, started, sent over its courier, and ended by what came back.
#![tactic(auto)]

mod acts;
mod begin;
mod branches;
mod calls;
mod carry;
mod finish;
mod line;
mod way;

pub use line::Line;
