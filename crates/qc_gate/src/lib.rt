//! Where the sessions of a script, and the branches of their steps, may be made to wait for one another.
#![tactic(auto)]

mod gate;
mod walker;

pub use gate::{Gate, NoGate};
pub use walker::Walker;
