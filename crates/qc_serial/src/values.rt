//! The values of a serial machine, without its names.
ghost use Rattle.std.specs.Prelude.{◌≡◌, IfOk};
ghost use Rattle.qc_serial.specs.Shape as words;

use crate::event::SerialEvent;
use crate::machine::has_value;
use qc_config::Val;
use std::alloc::{AllocError, Global};

// Whether an event that reads finds its value, and one that writes its record.
fn finds(values: &[Val], e: &SerialEvent) -> bool
    ensures { result ≡ words.finds values.now e.now }
{
    match e {
        SerialEvent::Read { rec, value, .. } => has_value(values, *rec, *value),
        SerialEvent::Write { rec, .. } => (*rec as usize) < values.len(),
        _ => true,
    }
}

fn keep(values: &mut Vec<Val>, e: &SerialEvent)
    ensures { values.new.items ≡ words.kept values.old.items e.now }
{
    if let SerialEvent::Write { rec, value, .. } = e {
        let at = *rec as usize;
        if at < values.len() {
            values[at] = *value;
        }
    }
}

/// The place of the first event that does not find the value that it reads, or the record that it writes. It takes a
/// step for each event, and memory for the values.
#[tactic(auto, using(crate::proofs::Unfound::at_first, crate::proofs::Unfound::one_more, crate::proofs::Unfound::unfound_here, crate::proofs::Unfound::all_found))]
pub fn first_unfound(
    alloc: Global,
    start: &[Val],
    events: &[SerialEvent],
) -> Result<Option<usize>, AllocError>
    ensures { IfOk result (λ place. place ≡ words.first_unfound start.now events.now) }
{
    let mut values = start.to_vec(alloc)?;
    for (i, e) in events.iter().enumerate() {
        if !finds(&values, e) {
            return Ok(Some(i));
        }
        keep(&mut values, e);
    }
    Ok(None)
}
