//! Disks, what a crash may leave of them, and shops that give them.
#![tactic(auto)]

mod disk;
mod faults;
mod file;
mod file_set;
mod home;
mod law;
mod memory;
mod records;
mod shop;
mod stop;
mod syncs;
mod tape;

pub use disk::{Disk, DiskNo};
pub use faults::FailAt;
pub use file::FileDisk;
pub use home::{HomeDisk, HomeShop};
pub use law::left_between;
pub use memory::MemDisk;
pub use shop::{MemShop, Shop, StopShop};
pub use stop::StopDisk;
