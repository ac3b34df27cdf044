//! Disks that tell a watcher of each write and each sync before they make it, and a shop of them.
#![tactic(auto)]

mod disk;
mod shop;
mod watch;

pub use disk::WatchedDisk;
pub use shop::WatchedShop;
pub use watch::Watch;
