//! The history of a run: its entries, how names stand in it, and which histories are legal.
#![tactic(auto)]

mod base;
mod event;
mod scan;
mod seat;
mod short;
mod table;

pub use base::Base;
pub use event::{
    Answer, Answered, Ask, Cause, Entry, Event, Grant, How, Kind, Lack, Outcome, Phase, Refusal,
    Why,
};
pub use qc_config::{BadConfig, Config, Copies, Op, Tuple, Val};
pub use qc_names::Name;
pub use scan::{clear, dead, holder, kind, outcome, seen};
pub use seat::{CLIENT_SEAT, LEDGER_SEAT, copy_seat, is_client, top_name};
pub use short::{LIMIT, Short};
pub use table::{Label, Row, Rows, Table};
