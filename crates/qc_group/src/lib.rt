//! Ready tops that wait to be logged together.
#![tactic(auto)]

mod group;
mod looks;
mod offers;
mod waiting;

pub use group::Group;
pub use waiting::Waiting;
