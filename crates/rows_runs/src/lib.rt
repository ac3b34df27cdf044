//! What programs of rows share that run scripts made from random numbers, and judge what came of them.
#![tactic(auto)]

mod command;
mod judged;
mod made;
mod random;
mod text;

pub use command::{Outcome, passes_audit, run_text, save_trail};
pub use judged::{Judged, has_killed, run_script};
pub use made::{Tops, make_script};
pub use random::Random;
pub use text::Text;
