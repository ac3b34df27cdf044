//! What the steps of a script may speak of.
use crate::reader::rows::Records;
use std::marker::Model;

/// The records of a script, and how many sessions it has.
#[derive(Drop)]
pub(crate) struct Scope<'s, 'v> {
    pub(crate) records: &'s Records<'v>,
    pub(crate) sessions: u8,
}

impl<'s, 'v> Model for Scope<'s, 'v> {
    ghost use Rattle.qc_script.specs.ScriptText as script;

    ghost Value = { script.Scope };

    ghost view = { λ s. record { table = s.records.now.table; sessions = s.sessions } };
}
