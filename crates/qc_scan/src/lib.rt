//! What a history says of a name, how names stand in it, and of a manager what it asked, what it was told, and what
//! it does next: by whatever looks at a history, and plain, slow looks that go over its entries.
#![tactic(auto)]

mod asks;
mod held;
mod lists;
mod looks;
mod manager;
mod of_kind;
mod same;
mod scan;
mod scans;
mod setting;
mod standing;
mod told;

pub use asks::{
    ask_at, blocked_by, first_blocked, has_replied, is_get, missing, missing_at, phase_of, replied,
    reply, waiting,
};
pub use looks::Looks;
pub use manager::{
    GreatestValue, NewestConfig, Stage, at_last_number, current_stage, greatest, has_failed,
    is_complete, newest, next_copy, record_of,
};
pub use of_kind::{is_at_last_number, is_done, stage_for};
pub use same::{
    is_this, same_answer, same_ask, same_cause, same_config, same_copies, same_lack, same_name,
    same_op, same_reasons, same_tuple,
};
pub use scan::{Begun, Given, Request, ask_in, end_in, gone_in, grant_in, refusal_in, start_in};
pub use scans::Scans;
pub use setting::Setting;
pub use standing::{
    front, is_abort, is_asked_under, is_child, is_going, is_manager, is_open, is_orphan_of,
    is_started_under, is_started_user, is_user, was_aborted,
};
pub use told::top_number;
