//! Runs the steps of a script's sessions, over whoever carries them out.
#![tactic(auto)]

mod body;
mod gated;
mod host;
mod managing;
mod marks;
mod mode;
mod pause;
mod stops;
mod tops;
mod wants;

pub use body::steps;
pub use gated::Gated;
pub use host::Host;
pub use mode::Mode;
pub use stops::Finish;
pub use tops::run_tops;
pub use wants::told_want;
