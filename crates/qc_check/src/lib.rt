//! The rules of a legal history, by event and by whatever looks at the history, and a plain checker of histories by
//! them, whose contract is the definition of a legal one.
#![tactic(auto)]

mod aborts;
mod checker;
mod commits;
mod grants;
mod requests;
mod rule;
mod starts;
mod users;

pub use checker::{Illegal, check_by_scans, is_allowed};
pub use rule::Rule;
