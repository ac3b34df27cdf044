//! A network that loses, delays and repeats requests.
#![tactic(auto)]

mod courier;
mod link;
mod plan;
mod port;

pub use courier::{Courier, Sent};
pub use link::{Fate, Link};
pub use plan::PlanLink;
pub use port::Port;
