//! Trails: the entries of a history, the oldest first, in a small part of the memory that a vector of them takes.
#![tactic(auto)]

mod appending;
mod brief;
mod keeping;
mod lists;
mod outline;
mod outlines;
mod places;
mod rares;
mod trail;

pub use outline::Outline;
pub use trail::Trail;
