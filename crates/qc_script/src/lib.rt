//! Scripts of sessions, how they are read from JSON texts, and what a session asks of whoever carries it out.
#![tactic(auto)]

mod bad_script;
mod made;
mod managed;
mod reader;
mod script;
mod tx;

pub use bad_script::{BadScript, Member};
pub use managed::Managed;
pub use reader::MOST_BYTES;
pub use script::{Body, Script, Session, Step};
pub use tx::{Tx, TxNo};
