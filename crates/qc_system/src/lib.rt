//! All sites, the ledger and the desk of a run, each site and the ledger in a lock of its own.
#![tactic(auto)]

mod boxed;
mod finish;
mod folding;
mod four;
mod held;
mod held_ledger;
mod mounting;
mod open;
mod others;
mod parts;
mod returns;
mod system;

pub use boxed::Boxed;
pub use mounting::Mounting;
pub use others::Others;
pub use parts::{CopyPair, LedgerPair, Parts};
pub use returns::{MOST_PAIRS, Returns};
pub use system::System;
