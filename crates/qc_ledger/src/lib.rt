//! The ledger of a store: a journal of the epochs of its mountings and of the tops that committed.
#![tactic(auto)]

mod book;
mod checkpoint;
mod fault;
mod law;
mod ledger;
mod mounting;
mod reading;
mod seen;
mod shelf;

pub use book::Book;
pub use fault::LedgerNo;
pub use law::one_verdict;
pub use ledger::Ledger;
pub use mounting::{hand_back, make, mount_pair};
pub use shelf::Shelf;
