//! Words of sessions, which threads raise and look at outside every lock: how far each session is marked to be killed.
#![tactic(auto)]

mod board;
mod seat;
mod store;
mod view;

pub use board::Board;
pub use seat::BoardSeat;
pub use store::Boarded;
