//! A plain judge of whether a trail follows a script, for tests. Of what runs scripts it shares names, events and scripts as
//! data, and no more code.
#![tactic(auto)]

mod bodies;
mod causes;
mod children;
mod deeds;
mod ends;
mod fault;
mod halt;
mod judging;
mod marks;
mod row;
mod seats;
mod tops;
mod tries;
mod turned;
mod turns;
mod walk;

pub use fault::Fault;
pub use judging::judge;
