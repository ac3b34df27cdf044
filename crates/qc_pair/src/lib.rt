//! A journal and its spare: the active one of them is folded into the other.
#![tactic(auto)]

mod fault;
mod fold;
mod folding;
mod front;
mod kind;
mod opening;
mod pair;

pub use fault::{PairNo, mount_no};
pub use fold::Fold;
pub use kind::Kind;
pub use opening::open;
pub use pair::Pair;
