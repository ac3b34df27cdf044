//! A copy of a store with its disk: a journal of what the copy granted.
#![tactic(auto)]

mod back;
mod beginning;
mod bytes;
mod checkpoint;
mod compare;
mod fault;
mod fits;
mod granted;
mod granting;
mod law;
mod log;
mod mounted;
mod mounting;
mod reading;
mod renewing;
mod replica;
mod replica_desk;
mod serve;
mod site;
mod start;
mod tops;

pub use back::{BackNo, Strange, read_back};
pub use bytes::are_bytes;
pub use fault::SiteNo;
pub use law::one_verdict;
pub use mounted::Mounted;
pub use mounting::mount_pair;
pub use site::Site;
