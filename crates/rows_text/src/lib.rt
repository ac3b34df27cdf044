//! Entries of a history as lines of text, and their parts as words.
#![tactic(auto)]

mod cause;
mod entry;
mod log;
mod shown;
mod value;
mod words;

pub use entry::append_line;
pub use log::Log;
pub use shown::{ConfigText, KindText, LackText, TupleText};
pub use words::{BadLine, Words};
