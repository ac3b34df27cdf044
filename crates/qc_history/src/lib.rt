//! A legal history with all that is kept beside it: its trail of entries, the index of its names, and what else is
//! looked up, so that no look scans it.
#![tactic(auto)]

mod aborts;
mod answered;
mod firsts;
mod found;
mod grants;
mod history;
mod index;
mod indexes;
mod lookups;
mod marks;
mod nodes;
mod opens;
mod slots;
mod steps;

pub use firsts::Firsts;
pub use history::History;
pub use index::Index;
pub use indexes::Indexes;
pub use nodes::{Node, Nodes};
pub use steps::Steps;
