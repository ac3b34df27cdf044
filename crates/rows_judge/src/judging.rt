//! Whether a trail follows its script.

use crate::bodies::Bodies;
use crate::deeds::{Deed, Told};
use crate::ends::check_body;
use crate::fault::Fault;
use crate::marks::check_marks;
use crate::seats::check_seats;
use crate::tops::check_tops;
use crate::turns::check_turns;
use qc_event::Entry;
use qc_script::Script;
use std::alloc::Global;

// Managers end; what they do is not a script's affair.
fn check_deed(told: &Told, bodies: &Bodies<'_>, deed: &Deed) -> Result<(), Fault> {
    match bodies.of_deed(deed) {
        Some(body) => check_body(told, bodies, deed, body),
        None if deed.body().is_some() => Err(Fault::Other(deed.name)),
        None if deed.has_ended() => Ok(()),
        None => Err(Fault::Open(deed.name)),
    }
}

/// Judges whether the trail of a run that came to its end follows the script. Messages are left out. An error tells the
/// first fault that is found; what one entry spoils may be told of another transaction.
pub fn judge(alloc: Global, script: &Script, trail: &[Entry]) -> Result<(), Fault> {
    let told = Told::gather(alloc, trail)?;
    let bodies = Bodies::new(alloc, script)?;
    check_seats(&told, &bodies, trail)?;
    check_tops(&told, script)?;
    for deed in told.deeds.iter() {
        check_deed(&told, &bodies, deed)?;
    }
    check_turns(&told, trail)?;
    check_marks(&told)
}
