//! A journal of records over a disk.
#![tactic(auto)]

mod device;
mod fault;
mod image;
mod journal;
mod law;
mod reading;

pub use fault::Fault;
pub use image::Body;
pub use journal::Journal;
pub use law::one_reading;
