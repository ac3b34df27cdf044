//! From a shop of disks to what the sessions of a script left of the store on them: its disks mounted, a system opened over
//! them and run, and what the disks keep.
#![tactic(auto)]

mod boxing;
mod copies;
mod law;
mod ledger;
mod mount_no;
mod mounting;
mod obtaining;
mod opening;
mod pairs;
mod parts;
mod refusing;
mod rooms;
mod running;
mod starting;
mod stored;
mod waiting;

pub use law::one_verdict;
pub use mount_no::MountNo;
pub use mounting::mount_disks;
pub use obtaining::obtain_all;
pub use opening::run_stored;
pub use pairs::kept_pairs_stand;
pub use parts::Parts;
pub use stored::Stored;
