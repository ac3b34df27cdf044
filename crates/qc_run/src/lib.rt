//! Runs a script of sessions over a replicated record store, and reports what happened.
#![tactic(auto)]

mod auditing;
mod finishing;
mod making;
mod performing;
mod process;
mod program;
mod ran;
mod reading;
mod refusing;
mod spelling;
mod status;
mod words;

pub use process::{start, start_behind};
pub use program::run;
pub use qc_gate::{Gate, NoGate, Walker};
pub use qc_io as io;
pub use qc_script::{BadScript, Member};
pub use ran::Ran;
pub use status::{Status, fault_line};
