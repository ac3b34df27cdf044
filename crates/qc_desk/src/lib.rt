//! One legal history behind a lock, and passes that know a beginning of it.
#![tactic(auto)]

mod accesses;
mod consult;
mod copies;
mod desk;
mod ends;
mod finish;
mod found;
mod held;
mod locked;
mod looks;
mod lookups;
mod pass;
mod refusal;
mod starts;
mod steps;
mod store;
mod tops;
mod view;

pub use consult::Consulted;
pub use desk::{Blank, Desk};
pub use held::change_tuple;
pub use pass::Pass;
pub use refusal::DeskNo;
pub use store::Store;
pub use view::View;
