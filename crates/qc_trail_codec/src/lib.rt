//! The bytes of saved trails, both ways: what a run started from, and each of its entries.
#![tactic(auto)]

mod base;
mod end;
mod event;
mod kind;
mod law;
mod reason;
mod record;
mod trail;

pub use law::legal_histories_can_be_saved;
pub use record::{Entries, SavedTrail};
pub use trail::{read_trail, write_trail};
