//! How a manager reads, writes or reconfigures its record, over any carrier of its accesses: what it gathers from its
//! copies, and the collection and the puts of which every manager is made.
#![tactic(auto)]

mod carrier;
mod collection;
mod gather;
mod heard;
mod manager;
mod next;
mod no;
mod placing;
mod puts;
mod reconfiguration;
mod request;
mod shortage;

pub use carrier::{Carried, Carrier, CarryNo};
pub use collection::collect;
pub use gather::Gather;
pub use manager::{read, write};
pub use next::Next;
pub use no::MgrNo;
pub use placing::put;
pub use puts::Puts;
pub use reconfiguration::reconfigure;
pub use shortage::Shortage;
