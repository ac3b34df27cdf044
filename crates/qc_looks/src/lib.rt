//! A legal history with an index of all that its rules look at, so that no look goes over it.
#![tactic(auto)]

mod asks;
mod indexed;
mod names;
mod requests;
mod subjects;
mod tables;

pub use asks::Asks;
pub use indexed::Indexed;
pub use requests::Requests;
pub use tables::Tables;
