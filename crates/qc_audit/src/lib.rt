//! The audit of a saved trail: whether its entries are a legal history, and whether the serial machine accepts what
//! they tell. It goes over the entries, and takes for each the steps of its name and of what it moves.
#![tactic(auto)]

mod events;
mod illegal;
mod reading;
mod saving;
mod verdict;
mod walks;

pub use events::Events;
pub use illegal::first_illegal;
pub use saving::saved;
pub use verdict::{AuditNo, Verdict, audit};
